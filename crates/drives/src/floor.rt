// Inner function: whether a floor has a current shape.
ghost use Rattle.std.specs.Prelude.{false, ◌≡◌, ltb, length};
ghost use Rattle.journal.specs.Format.{records};
ghost use Rattle.journal.specs.Reading.{damaged};
ghost use Rattle.gaps.specs.Gap.{on_floor};

use journal::places;

// Returns whether no current shape is on a floor. The first one that is ends the pass.
pub fn is_empty(log: &[u8], floor: u16) -> bool
    requires { damaged (records log.now) ≡ false }
    ensures { result ≡ ltb (length (on_floor floor log.now)) 1 }
{
    for p in places::all(log) {
        if gaps::floor::is_on(log, p, floor) {
            return false;
        }
    }
    true
}
