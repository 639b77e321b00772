// Inner functions: may a cart pass straight between two obstacles. Callers ask the crate `questions`.
#![tactic(auto)]

pub mod corridor;

ghost use Rattle.std.specs.Prelude.{◌≡◌};
ghost use Rattle.plane.specs.Point.{points, numbers};
ghost use Rattle.plane.specs.Reply.{NoneApply};
ghost use Rattle.plane.specs.Refusal.{Valid};
ghost use Rattle.plane.specs.Output.{size_rows};
ghost use Rattle.admission.specs.Admission.{Judged};
ghost use Rattle.growth.specs.Grown.{grown};
ghost use Rattle.passage.specs.Passage.{passage_numbers};
ghost use Rattle.passage.specs.Corridor.{way_numbers};

use admission::answer::Refusal;
use answers::Lane;
use polygon::{limits, peak};
use separation::differences;

// The way of a cart between two obstacles that are shapes, also when they are grown by it: the widest corridor between
// the grown obstacles. None if it is blocked.
// Ruled out: one obstacle grown only; cart not mirrored; left obstacle grown twice.
pub fn between(left: &[i32], right: &[i32], cart: &[i32]) -> Option<Lane>
    requires { Valid left.now × Valid right.now × Valid cart.now
        × Valid (numbers (grown (points left.now) (points cart.now)))
        × Valid (numbers (grown (points right.now) (points cart.now))) }
    ensures { way_numbers result ≡ passage_numbers (points left.now) (points right.now)
        (points cart.now) }
{
    let top = peak::top(cart);
    let mut above = [0i32; limits::SHAPE_NUMBERS];
    let n = differences::write(left, cart, top, &mut above);
    let mut below = [0i32; limits::SHAPE_NUMBERS];
    let m = differences::write(right, cart, top, &mut below);
    corridor::corridor(&above[..2 * n], &below[..2 * m])
}

// Judges an obstacle grown by the cart by its size, before it is made: 6, then 7.
pub fn admit_grown(obstacle: &[i32], cart: &[i32]) -> Result<(), Refusal>
    requires { Valid obstacle.now × Valid cart.now }
    ensures { Judged
        (NoneApply (size_rows (grown (points obstacle.now) (points cart.now))))
        (size_rows (grown (points obstacle.now) (points cart.now))) result }
{
    let n = differences::reckon(obstacle, cart, peak::top(cart), limits::SHAPE_NUMBERS);
    delivery::sized(n, differences::is_far(obstacle, cart))
}
