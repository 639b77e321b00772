// Questions over all current shapes of a log: of each name the latest record counts, and then its floor.
ghost use Rattle.std.specs.Prelude.{false, ◌≡◌};
ghost use Rattle.plane.specs.Floor.{on};
ghost use Rattle.plane.specs.Question.{reply, output};
ghost use Rattle.journal.specs.Format.{records};
ghost use Rattle.journal.specs.Reading.{damaged};
ghost use Rattle.journal.specs.Current.{ask_entry};
ghost use Rattle.packing.specs.Packing.{remade};
ghost use Rattle.neighbours.specs.Nearest.{ask_nearest};
ghost use Rattle.gaps.specs.Gap.{ask_gap};
ghost use Rattle.answers.specs.Answer.{of_nearest, of_gap, of_addition, of_entry};

use answers::{Addition, Answer, Entry, Gap, Nearest, OnFloor, Refusal};

// Writes the corners of the current shape at a position at the front of the output, and answers how many they are, the
// name and the floor. All after them is kept. Positions count from 0, in the order of the log: each name once, where
// its latest record is. Refused, with the output as it was: a log in which some record is bad; no such position; too
// small an output.
// Ruled out: older record of a name counted.
pub fn log_entry(log: &[u8], k: usize, out: &mut [i32]) -> Answer<Entry>
    ensures { (of_entry result ≡ reply (ask_entry log.now k out.old))
        × (out.new ≡ output (ask_entry log.now k out.old)) }
{
    journal::survey::survey(log)?;
    let Some(head) = journal::current::entry(log, k) else {
        return Err(Refusal::TooFew);
    };
    if out.len() < head.count {
        return Err(Refusal::Room);
    }
    endian::decode(log, head.place, head.count, out);
    let answer = Entry {
        count: head.count / 2,
        name: head.name,
    };
    Ok(OnFloor {
        answer,
        floor: head.floor,
    })
}

// Answers which of the current shapes on a floor is nearest to a shape, and what clearance answers of the two: nothing
// if they are not apart. On a tie the first in the log is answered, and so it is of several that meet the shape. The
// name `but` is left out; 65,536 leaves out nobody. Refused: 1 to 5 of the list; a log in which some record is bad; 20
// if no shape is left.
// Ruled out: later shape on a tie; rounded distances compared; the excepted name answered.
pub fn log_nearest(log: &[u8], list: &[i32], floor: u16, but: usize) -> Answer<Nearest>
    ensures { of_nearest result ≡ reply (ask_nearest log.now list.now floor but) }
{
    admission::admit(list, 1)?;
    journal::survey::survey(log)?;
    let Some(answer) = neighbours::nearest(log, list, floor, but) else {
        return Err(Refusal::TooFew);
    };
    Ok(OnFloor { answer, floor })
}

// Answers which two current shapes of a floor have the narrowest gap, both grown by a cart's outline, and what
// clearance answers of the grown two: nothing if they are not apart. The point 0 0 asks the gap of the shapes as they
// are. On a tie the first pair is answered, by the first shape in the log and then the second, and so it is of several
// pairs that meet. Refused: 1 to 5 of the cart; a log in which some record is bad; 20 if fewer than two shapes are on
// the floor; then 6 and 7, shape by shape in the log's order, before any pair is looked at.
pub fn log_gap(log: &[u8], cart: &[i32], floor: u16) -> Answer<Gap>
    ensures { of_gap result ≡ reply (ask_gap log.now (on cart.now floor)) }
{
    admission::admit(cart, 1)?;
    journal::survey::survey(log)?;
    if gaps::floor::count(log, floor) < 2 {
        return Err(Refusal::TooFew);
    }
    gaps::sizes::admit_sizes(log, floor, cart)?;
    let Some(answer) = gaps::gap(log, floor, cart) else {
        return Err(Refusal::TooFew);
    };
    Ok(OnFloor { answer, floor })
}

// Packs a log into a second run of bytes: the current records, byte for byte and in their order, without those of the
// name `but`, and zeros after them. 65,536 is nobody's name. At most `allowed` stores of single bytes are made, each
// where the byte differs; says whether they were enough. A packing that was cut is called again, and goes on where it
// was cut; until one finishes, the new run may read as anything. Refused, with nothing stored: an old log in which some
// record is bad; a new run that is too short.
// Ruled out: older record kept; only the name left out kept; stale bytes left; cut called finished.
pub fn log_pack(old: &[u8], new: &mut [u8], but: u32, allowed: usize) -> Result<Addition, Refusal>
    ensures { (of_addition result ≡ (remade old.now but new.old allowed).reply)
        × (new.new ≡ (remade old.now but new.old allowed).log) }
{
    journal::survey::survey(old)?;
    pack_sound(old, new, but as usize, allowed)
}

// Packs a log in which no record is bad, or refuses 16.
fn pack_sound(old: &[u8], new: &mut [u8], but: usize, allowed: usize) -> Result<Addition, Refusal>
    requires { damaged (records old.now) ≡ false }
    ensures { (of_addition result ≡ (remade old.now but new.old allowed).reply)
        × (new.new ≡ (remade old.now but new.old allowed).log) }
{
    if new.len() < packing::packed_length(old, but) {
        return Err(Refusal::Full);
    }
    if packing::pack(old, new, but, allowed) {
        Ok(Addition::Finished)
    } else {
        Ok(Addition::Cut)
    }
}
