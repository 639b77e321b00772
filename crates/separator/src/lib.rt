// Inner functions for a direction in which one shape is below another: the witness that they are apart (document 02,
// request W13). Callers ask the crate `questions`.
#![tactic(auto)]

pub mod primitive;

ghost use Rattle.std.specs.Prelude.{false, ◌≡◌};
ghost use Rattle.plane.specs.Point.{points};
ghost use Rattle.plane.specs.Refusal.{Valid};
ghost use Rattle.plane.specs.Furthest.{bad_direction};
ghost use Rattle.plane.specs.Offer.{below};
ghost use Rattle.polygon.specs.Point.{at};
ghost use Rattle.separator.specs.Separator.{Finds};

use polygon::point::Point;
use polygon::{peak, point};
use separation::around;
use separation::around::Seen;

// Whether every corner of the first shape is strictly below every corner of the second in a direction: the greatest
// value of the first is less than the least of the second, which is the greatest in the opposite direction, negated.
// Ruled out: less or equal for less.
pub fn is_below(a: &[i32], b: &[i32], d: Point) -> bool
    requires { Valid a.now × Valid b.now × (bad_direction (at d) ≡ false) }
    ensures { result ≡ below (at d) (points a.now) (points b.now) }
{
    let greatest = direction::reach(a, d);
    let least = -direction::reach(b, point::opposite(d));
    greatest < least
}

// A direction that is accepted, its parts with no common divisor above 1; none exactly if the shapes are not apart.
// Which
// of the directions it is, is left open. It leads away from the differences, if any does: it is the normal of the first
// edge that has the origin to its right. If none has, only a point or a segment in line with the origin can have it
// outside, and then it is the opposite of a corner.
// Ruled out: direction not divided.
pub fn find(a: &[i32], b: &[i32]) -> Option<Point>
    requires { Valid a.now × Valid b.now }
    ensures { Finds (points a.now) (points b.now) result }
{
    let top = peak::top(b);
    match around::pass(a, b, top).seen {
        Seen::Outside(normal) => Some(primitive::primitive(normal)),
        Seen::Round { count, .. } if 2 < count || around::is_on(a, b, top) => None,
        Seen::Round { .. } => Some(primitive::primitive(point::opposite(around::first(a, b, top)))),
    }
}
