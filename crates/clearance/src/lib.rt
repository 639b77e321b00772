// Inner functions for the clearance of two shapes that are apart (document 02, request W3). Callers ask the crate
// `questions`.
#![tactic(auto)]

mod face;
mod facing;
pub mod measured;
mod reach;

ghost use Rattle.std.specs.Prelude.{true, ◌≡◌, ◌^◌};
ghost use Rattle.plane.specs.Point.{points};
ghost use Rattle.plane.specs.Refusal.{Valid};
ghost use Rattle.plane.specs.Separation.{apart};
ghost use Rattle.plane.specs.Clearance.{numbers_of, nearest as clearance_nearest};
ghost use Rattle.polygon.specs.Peak.{Peak};
ghost use Rattle.polygon.specs.Point.{at, Small};
ghost use Rattle.calipers.specs.Image.{image};
ghost use Rattle.separation.specs.Passing.{Stood};
ghost use Rattle.clearance.specs.Facing.{Facing};
ghost use Rattle.clearance.specs.Answer.{values_of, Spaced};

use facing::Sight;
use measured::Distance;
use polygon::peak;
use polygon::point::Point;
use separation::answer::Relation;
use separation::around;

// Where two shapes are nearest, or None where they have a point in common: one walk round their differences tells
// whether they are apart, and where they are nearest.
pub fn between(a: &[i32], b: &[i32]) -> Option<Distance>
    requires { Valid a.now × Valid b.now }
    ensures { Spaced (points a.now) (points b.now) result }
{
    let top = peak::top(b);
    let sides = around::pass(a, b, top);
    match around::related(a, b, top, sides) {
        Relation::Apart => Some(found(a, b, top, sides.first, sides.second)),
        Relation::Touching | Relation::Overlapping => None,
    }
}

// Where two shapes that are apart are nearest, and how near: the first of the least candidates. A walk round their
// differences finds the direction, which leaves one or two corners of each shape; of these the first that are reached.
// The walk begins where i edges of the first shape and j of the mirror image of the second are passed, whose peak is at
// position top.
// Ruled out: only one edge of a parallel pair tried; first corner with last never tried; rounded up.
fn found(a: &[i32], b: &[i32], top: usize, i: usize, j: usize) -> Distance
    requires { Valid a.now × Valid b.now × (apart (points a.now) (points b.now) ≡ true)
        × Peak (points b.now) top × Stood a.now (image b.now) i j }
    ensures { values_of result ≡ numbers_of (points a.now) (points b.now)
        (clearance_nearest (points a.now) (points b.now)) }
{
    let seen = sought(a, b, top, i, j);
    let first = face::place(a, 0, seen.first);
    let second = face::place(b, top, seen.second);
    measured::measured(a, b, reach::first_reached(a, b, seen.n, first, second))
}

// A direction from the second shape to the first along which they are nearest, where they are apart. It may be of any
// length.
pub fn towards(a: &[i32], b: &[i32]) -> Point
    requires { Valid a.now × Valid b.now × (apart (points a.now) (points b.now) ≡ true) }
    ensures { Small (2 ^ 22) (at result) × Facing (points a.now) (points b.now) (at result) }
{
    let top = peak::top(b);
    let sides = around::pass(a, b, top);
    sought(a, b, top, sides.first, sides.second).n
}

// The same, with the place where it was found, by a walk that begins where i and j edges are passed.
fn sought(a: &[i32], b: &[i32], top: usize, i: usize, j: usize) -> Sight
    requires { Valid a.now × Valid b.now × (apart (points a.now) (points b.now) ≡ true)
        × Peak (points b.now) top × Stood a.now (image b.now) i j }
    ensures { Small (2 ^ 22) (at result.n)
        × Facing (points a.now) (points b.now) (at result.n) }
{
    facing::facing(a, b, top, i, j)
}
