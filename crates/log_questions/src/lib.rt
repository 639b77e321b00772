// The questions on a log. Callers ask the crate `questions`.
#![tactic(auto)]

pub mod books;

ghost use Rattle.std.specs.Prelude.{◌≡◌, ◌<◌, false};
ghost use Rattle.plane.specs.Refusal.{Valid};
ghost use Rattle.plane.specs.Question.{reply, output};
ghost use Rattle.answers.specs.Answer.{of_answer, of_addition};
ghost use Rattle.journal.specs.Format.{records};
ghost use Rattle.journal.specs.Reading.{damaged, ask_read};
ghost use Rattle.journal.specs.Adding.{added, end as adding_end};

use answers::{Addition, Answer, OnFloor, Refusal};

// Writes the corners of the latest record of a name at the front of the output, and answers how many they are, and the
// floor of the record: 0 of one of kind 1, which says none. All after them is kept. A log ends where no whole record
// is. Refused, with the output as it was: a log in which some record is of another kind, a wrong length, or no
// shape (with the byte place of the first); a name that no record has; too small an output.
// Ruled out: first record for the latest; record lost after another.
pub fn log_read(log: &[u8], name: u16, out: &mut [i32]) -> Answer<usize>
    ensures { (of_answer result ≡ reply (ask_read log.now name out.old))
        × (out.new ≡ output (ask_read log.now name out.old)) }
{
    journal::survey::survey(log)?;
    let Some(found) = journal::latest::latest(log, name) else {
        return Err(Refusal::NoRecord);
    };
    if out.len() < found.count {
        return Err(Refusal::Room);
    }
    endian::decode(log, found.place, found.count, out);
    Ok(OnFloor {
        answer: found.count / 2,
        floor: found.floor,
    })
}

// Adds a shape on a floor under a name after the last whole record of a log, with at most `allowed` stores of single
// bytes, and says whether it finished. What was torn there is cleared first, and the record's last byte
// is stored last: a cut addition changes no answer of `log_read`. Refused, with nothing stored: 1 to 5 of the list; a
// log in which some record is bad; too little room.
// Ruled out: full one byte early; cut called finished; last byte stored first; tail cleared from its front.
pub fn log_add(
    log: &mut [u8],
    name: u16,
    floor: u16,
    list: &[i32],
    allowed: usize,
) -> Result<Addition, Refusal>
    ensures { (of_addition result ≡ (added log.old name floor list.now allowed).reply)
        × (log.new ≡ (added log.old name floor list.now allowed).log) }
{
    admission::admit(list, 1)?;
    let end = journal::survey::survey(log)?;
    add_after(log, end, name, floor, list, allowed)
}

// Adds a shape after the last whole record, or refuses 16.
fn add_after(
    log: &mut [u8],
    end: usize,
    name: u16,
    floor: u16,
    list: &[i32],
    allowed: usize,
) -> Result<Addition, Refusal>
    requires { Valid list.now × (damaged (records log.old) ≡ false) × (end ≡ adding_end log.old) }
    ensures { (of_addition result ≡ (added log.old name floor list.now allowed).reply)
        × (log.new ≡ (added log.old name floor list.now allowed).log) }
{
    if storing::is_full(log, end, list) {
        return Err(Refusal::Full);
    }
    if storing::add(log, end, name, floor, list, allowed) {
        Ok(Addition::Finished)
    } else {
        Ok(Addition::Cut)
    }
}
