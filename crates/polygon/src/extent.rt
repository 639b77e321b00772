// Inner functions: how far the corners of a shape reach, and whether a sum of two shapes is out of range. The sum need
// not be written for that: its greatest x is the sum of the greatest of both, and so on for y, -x and -y.
ghost use Rattle.std.specs.Prelude.{◌||◌, ◌≡◌, ◌^◌, ◌<◌, length};
ghost use Rattle.plane.specs.Point.{points, ◌⊕◌};
ghost use Rattle.plane.specs.Refusal.{InRange};
ghost use Rattle.polygon.specs.Point.{at, Small};
ghost use Rattle.polygon.specs.Extent.{upper_of, is_out, Extends};

use crate::point::Point;
use crate::{corners, limits, point};

// The greatest x and the greatest y of some corners, and the greatest -x and the greatest -y. Those of a mirror image
// are the same two, exchanged.
#[derive(Clone, Copy)]
pub struct Extent {
    pub high: Point,
    pub low: Point,
}

// Returns how far the corners of a list reach.
pub fn extent_of(list: &[i32]) -> Extent
    requires { (0 < length (points list.now)) × InRange list.now }
    ensures { Extends (points list.now) result }
{
    let n = corners::count(list);
    let first = corners::corner_at(list, 0);
    let mut high = first;
    let mut low = point::opposite(first);
    for i in 1..n {
        let p = corners::corner_at(list, i);
        high = upper(high, p);
        low = upper(low, point::opposite(p));
    }
    Extent { high, low }
}

// Returns the greater x and the greater y of two points.
fn upper(p: Point, q: Point) -> Point
    requires { Small (2 ^ 21) (at p) × Small (2 ^ 21) (at q) }
    ensures { at result ≡ upper_of (at p) (at q) }
{
    Point {
        x: p.x.max(q.x),
        y: p.y.max(q.y),
    }
}

// Returns whether the sum of two shapes has a corner out of range.
// Ruled out: left side not looked at.
pub fn is_far(e: Extent, f: Extent) -> bool
    requires { Small (2 ^ 21) (at e.high) × Small (2 ^ 21) (at e.low) × Small (2 ^ 21) (at f.high)
        × Small (2 ^ 21) (at f.low) }
    ensures { result ≡ (is_out (at e.high ⊕ at f.high) || is_out (at e.low ⊕ at f.low)) }
{
    leaves(e.high, f.high) || leaves(e.low, f.low)
}

// Returns whether a coordinate of the sum of two points is out of range.
fn leaves(p: Point, q: Point) -> bool
    requires { Small (2 ^ 21) (at p) × Small (2 ^ 21) (at q) }
    ensures { result ≡ is_out (at p ⊕ at q) }
{
    let x = p.x + q.x;
    let y = p.y + q.y;
    limits::outside(x) || limits::outside(y)
}
