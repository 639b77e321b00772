// Inner functions for how far a changed shape reaches beyond the old one. Callers ask the crate `questions`.
#![tactic(auto)]

mod alone;
mod outermost;
mod rounding;

ghost use Rattle.std.specs.Prelude.{◌≡◌};
ghost use Rattle.plane.specs.Point.{points};
ghost use Rattle.plane.specs.Refusal.{Valid};
ghost use Rattle.excess.specs.Excess.{excess_numbers};
ghost use Rattle.excess.specs.Answer.{values_of};

use answers::Beyond;
use polygon::corners;

// How far the new shape reaches beyond the old one, or None where it is inside: at its corner that is furthest from the
// old shape. Where it is not inside, that corner is apart.
// Ruled out: later corner on a tie; old beyond new; rounded down.
pub fn beyond(new: &[i32], old: &[i32]) -> Option<Beyond>
    requires { Valid new.now × Valid old.now }
    ensures { values_of result ≡ excess_numbers (points new.now) (points old.now) }
{
    if separation::inside(new, old) {
        return None;
    }
    let corner = outermost::outermost(new, old);
    let found = alone::spacing(corners::corner_at(new, corner), old)?;
    rounding::rounded(corner, found)
}
