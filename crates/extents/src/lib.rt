// Boxes about shapes: two shapes are at least as far from each other as their boxes are along x or along y. Inner
// functions, by which shapes need not be measured.
#![tactic(auto)]

ghost use Rattle.std.specs.Prelude.{true, ◌≡◌, ◌^◌};
ghost use Rattle.plane.specs.Point.{points, ◌⊕◌};
ghost use Rattle.plane.specs.Refusal.{Valid};
ghost use Rattle.polygon.specs.Point.{at, Small};
ghost use Rattle.extents.specs.Far.{past, Bounded, Reaches, Far};

use measure::magnitude;
use polygon::extent;
use polygon::extent::Extent;
use polygon::point::Point;

// Returns whether boxes show that two shapes are no nearer to each other than the root of turn·turn/squared. False says
// nothing of the shapes.
// Ruled out: nearer shape passed over.
pub fn are_far(e: Extent, f: Extent, turn: u64, squared: u64) -> bool
    requires { Bounded e × Bounded f }
    ensures { result ≡ true → Far e f turn squared }
{
    let ahead = gap(e.high, f.low, 0);
    let apart = gap(e.low, f.high, ahead);
    !wide::fraction_less(magnitude::magnitude(apart), 1, turn, squared)
}

// Returns the greatest of a number and of both coordinates of a sum of two points, each with its sign changed.
fn gap(p: Point, q: Point, least: i64) -> i64
    requires { Small (2 ^ 22) (at p) × Small (2 ^ 22) (at q) }
    ensures { result ≡ past least (at p ⊕ at q) }
{
    let x = i64::from(-(p.x + q.x));
    let y = i64::from(-(p.y + q.y));
    least.max(x.max(y))
}

// Returns the box about the vector sum of two shapes.
pub fn reach(a: &[i32], b: &[i32]) -> Extent
    requires { Valid a.now × Valid b.now }
    ensures { Reaches (points a.now) (points b.now) result × Bounded result }
{
    let e = extent::extent_of(a);
    let f = extent::extent_of(b);
    Extent {
        high: sum(e.high, f.high),
        low: sum(e.low, f.low),
    }
}

// Returns the sum of two points.
fn sum(p: Point, q: Point) -> Point
    requires { Small (2 ^ 21) (at p) × Small (2 ^ 21) (at q) }
    ensures { at result ≡ at p ⊕ at q }
{
    Point {
        x: p.x + q.x,
        y: p.y + q.y,
    }
}
