// Inner functions: how far the corners of a shape reach, by halving: few of them are read.
ghost use Rattle.std.specs.Prelude.{◌≡◌, ◌^◌, ◌<◌, ◌≤◌, length};
ghost use Rattle.std.specs.Int.Signed.{le_z};
ghost use Rattle.plane.specs.Point.{points, corner};
ghost use Rattle.plane.specs.Shape.{next};
ghost use Rattle.plane.specs.Direction.{value};
ghost use Rattle.plane.specs.Refusal.{Valid, InRange};
ghost use Rattle.polygon.specs.Point.{at, Small};
ghost use Rattle.polygon.specs.Extent.{Extends};
ghost use Rattle.sums.specs.Turning.{Turning, crossing};

use calipers::edges;
use polygon::extent::Extent;
use polygon::point::Point;
use polygon::{corners, point, rules};

// Up to this number of corners are few.
const FEW: usize = 160;

// Returns how far the corners of a shape reach. Of few all are read: that is quicker than to halve.
pub fn extent_of(list: &[i32]) -> Extent
    requires { Valid list.now }
    ensures { Extends (points list.now) result }
{
    if corners::count(list) <= FEW {
        return polygon::extent::extent_of(list);
    }
    outermost(list)
}

// The same by halving. Corners go up to the highest and then down; on the way up they go right and then left, and on
// the way down left and then right.
// Ruled out: left side looked for on the way up.
fn outermost(list: &[i32]) -> Extent
    requires { Valid list.now }
    ensures { Extends (points list.now) result }
{
    let n = corners::count(list);
    let top = turning(list, Point { x: 0, y: 1 }, 0, n - 1);
    let right = turning(list, Point { x: 1, y: 0 }, 0, top);
    let left = edges::round(list, turning(list, Point { x: -1, y: 0 }, top, n));
    let high = across(
        corners::corner_at(list, right),
        corners::corner_at(list, top),
    );
    let low = across(corners::corner_at(list, left), corners::corner_at(list, 0));
    Extent {
        high,
        low: point::opposite(low),
    }
}

// Returns the point with the x of one and the y of another.
fn across(p: Point, q: Point) -> Point
    ensures { at result ≡ crossing (at p) (at q) }
{
    Point { x: p.x, y: q.y }
}

// Returns a position between the two at which the corners cease to go on in a direction, by halving.
fn turning(list: &[i32], d: Point, from: usize, to: usize) -> usize
    requires { (from ≤ to) × (to ≤ length (points list.now)) × InRange list.now × Small (2 ^ 22) (at d) }
    ensures { Turning (points list.now) (at d) from to result }
{
    let mut low = from;
    let mut high = to;
    while low < high {
        let middle = low + (high - low) / 2;
        if goes_on(list, d, middle) {
            low = middle + 1;
        } else {
            high = middle;
        }
    }
    low
}

// Returns whether the next corner is as far in a direction as corner i, or further.
fn goes_on(list: &[i32], d: Point, i: usize) -> bool
    requires { (i < length (points list.now)) × InRange list.now × Small (2 ^ 22) (at d) }
    ensures { result ≡ le_z (value (at d) (corner (points list.now) i))
        (value (at d) (corner (points list.now) (next (length (points list.now)) i))) }
{
    let after = rules::next(corners::count(list), i);
    point::dot(d, corners::corner_at(list, i)) <= point::dot(d, corners::corner_at(list, after))
}
