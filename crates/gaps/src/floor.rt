// Inner functions: the current shapes of a floor.
ghost use Rattle.std.specs.Prelude.{false, ◌≡◌, length};
ghost use Rattle.journal.specs.Format.{records};
ghost use Rattle.journal.specs.Reading.{damaged};
ghost use Rattle.journal.specs.Survey.{Sound};
ghost use Rattle.gaps.specs.Gap.{on_floor};
ghost use Rattle.gaps.specs.Search.{is_on};

use journal::{current, head, places};

// Returns how many current shapes are on a floor.
pub fn count(log: &[u8], floor: u16) -> usize
    requires { damaged (records log.now) ≡ false }
    ensures { result ≡ length (on_floor floor log.now) }
{
    let mut n = 0;
    for p in places::all(log) {
        if is_on(log, p, floor) {
            n += 1;
        }
    }
    n
}

// Returns whether the record at a place is on the floor and the latest of its name.
pub fn is_on(log: &[u8], p: usize, floor: u16) -> bool
    requires { Sound log.now p }
    ensures { result ≡ is_on floor log.now p }
{
    head::head_at(log, p).floor == floor && current::is_current(log, p)
}
