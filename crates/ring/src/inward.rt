// Inner functions: the corner at which a ring turns in, or begins to go round again.
ghost use Rattle.std.specs.Prelude.{◌≡◌, ◌<◌, length};
ghost use Rattle.plane.specs.Point.{points};
ghost use Rattle.ring.specs.Ring.{inward_at, first_inward};
ghost use Rattle.ring.specs.Places.{Placed};

use crate::turns;
use polygon::{corners, rules};

// Returns the first place whose corner turns in, or how many places there are if none does.
// Ruled out: first corner not asked.
pub fn find(list: &[i32], places: &[usize]) -> usize
    requires { Placed list.now places.now }
    ensures { result ≡ first_inward (points list.now) places.now }
{
    let n = places.len();
    for i in 0..n {
        if turns_in(list, places, i) {
            return i;
        }
    }
    n
}

// Returns whether a corner turns in: of three or more, it does not turn strictly left, or it precedes both neighbours
// and is not the first, so that the ring goes round more than once.
// Ruled out: spike passed; second round passed.
fn turns_in(list: &[i32], places: &[usize], i: usize) -> bool
    requires { Placed list.now places.now × (i < length places.now) }
    ensures { result ≡ inward_at (points list.now) places.now i }
{
    let n = places.len();
    if n < 3 {
        return false;
    }
    let before = places[turns::previous(n, i)];
    let at = places[i];
    let after = places[rules::next(n, i)];
    if !(0 < corners::turn_at(list, before, at, after)) {
        return true;
    }
    if i == 0 {
        return false;
    }
    if !corners::precedes_at(list, at, before) {
        return false;
    }
    corners::precedes_at(list, at, after)
}
