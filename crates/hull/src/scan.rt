// Inner functions: the scan, one point at a time. The corners that it keeps are at the front of a buffer, and every
// three neighbours of them turn strictly left. The chains of a merge push by it, and so do the sides of a sweep.
ghost use Rattle.std.specs.Prelude.{◌≡◌, [], ◌∷◌, ◌-◌, ◌^◌, ◌<◌, ◌≤◌, length};
ghost use Rattle.plane.specs.Point.{points, corner};
ghost use Rattle.plane.specs.Turn.{turn as turn_turn};
ghost use Rattle.polygon.specs.Point.{at, Small};
ghost use Rattle.sorting.specs.Buffer.{SmallTo, Settled, Scanned};

use polygon::point::Point;
use polygon::{corners, point};

// Pushes a point on the first k corners of the buffer: those at which it does not turn left are dropped, and it is
// written after the others. Answers how many are there then.
pub fn push(buf: &mut [i32], k: usize, p: Point) -> usize
    requires { (k < length (points buf.old)) × SmallTo buf.old k × Small (2 ^ 21) (at p) }
    ensures { Scanned buf.old k (at p ∷ []) buf.new result }
{
    let under = settle(buf, k, p);
    corners::put(buf, under, p);
    under + 1
}

// How many of the first k corners stay under a point: the last is dropped as long as the point does not turn strictly
// left there.
pub fn settle(list: &[i32], k: usize, p: Point) -> usize
    requires { (k ≤ length (points list.now)) × SmallTo list.now k × Small (2 ^ 21) (at p) }
    ensures { Settled (points list.now) k (at p) result }
{
    let mut kept = k;
    while 2 <= kept && turn_on(list, kept, p) <= 0 {
        kept -= 1;
    }
    kept
}

// The turn of a point against the edge between the last two of the first k corners.
fn turn_on(list: &[i32], k: usize, p: Point) -> i64
    requires { (2 ≤ k) × (k ≤ length (points list.now)) × SmallTo list.now k × Small (2 ^ 21) (at p) }
    ensures { result ≡ turn_turn (corner (points list.now) (k - 2))
        (corner (points list.now) (k - 1)) (at p) }
{
    turn(
        corners::corner_at(list, k - 2),
        corners::corner_at(list, k - 1),
        p,
    )
}

// The turn of c against the edge from a to b.
pub fn turn(a: Point, b: Point, c: Point) -> i64
    requires { Small (2 ^ 21) (at a) × Small (2 ^ 21) (at b) × Small (2 ^ 21) (at c) }
    ensures { result ≡ turn_turn (at a) (at b) (at c) }
{
    point::cross(point::step(a, b), point::step(a, c))
}
