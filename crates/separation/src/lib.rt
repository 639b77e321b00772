// Inner functions for how two shapes relate to each other (document 01, "Relation" and "Inside"), and for their
// differences. Callers ask the crate `questions`.
#![tactic(auto)]

pub mod answer;
pub mod around;
pub mod differences;
mod normal;
mod stride;
mod within;

ghost use Rattle.std.specs.Prelude.{◌≡◌};
ghost use Rattle.plane.specs.Point.{points};
ghost use Rattle.plane.specs.Refusal.{Valid};
ghost use Rattle.plane.specs.Separation.{relation_number, inside as separation_inside};
ghost use Rattle.separation.specs.Answer.{number_of};

use answer::Relation;
use polygon::{corners, peak};

// Whether two shapes are apart, touching or overlapping, by a walk round their differences: the sum of the first and
// the mirror image of the second.
// Ruled out: touching read as apart; segments in line by normals only.
pub fn relation(a: &[i32], b: &[i32]) -> Relation
    requires { Valid a.now × Valid b.now }
    ensures { number_of result ≡ relation_number (points a.now) (points b.now) }
{
    let top = peak::top(b);
    around::related(a, b, top, around::pass(a, b, top))
}

// Whether the first shape is inside the second: a point and a segment by their ends, a polygon by a walk round both.
// Ruled out: shape not inside itself; inside the other way round; parallel edge not asked.
pub fn inside(a: &[i32], b: &[i32]) -> bool
    requires { Valid a.now × Valid b.now }
    ensures { result ≡ separation_inside (points a.now) (points b.now) }
{
    let n = corners::count(b);
    if n < 3 {
        return within::in_segment(a, corners::corner_at(b, 0), corners::corner_at(b, n - 1));
    }
    within::in_polygon(a, b)
}
