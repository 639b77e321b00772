// Inner functions: the outline of points that run up. Both chains are made by the scan, one after the other.
ghost use Rattle.std.specs.Prelude.{◌≡◌, cond, ◌+◌, ◌-◌, ◌*◌, ◌<◌, ◌≤◌, length, take};
ghost use Rattle.plane.specs.Point.{points, corner};
ghost use Rattle.plane.specs.Corner.{outline as corner_outline};
ghost use Rattle.polygon.specs.Front.{Front};
ghost use Rattle.polygon.specs.Point.{at};
ghost use Rattle.sorting.specs.Buffer.{SmallTo, Sided};

use crate::scan;
use polygon::corners;
use polygon::point::Point;

// Writes the outline of the first n points, which run up, at the front of the buffer; says how many corners it has. One
// point is its own outline.
pub fn outline(list: &[i32], n: usize, buf: &mut [i32]) -> usize
    requires { (0 < n) × (n ≤ length (points list.now)) × (2 * n ≤ length (points buf.old))
        × SmallTo list.now n }
    ensures { Front (corner_outline (take n (points list.now))) result buf.new }
{
    if n == 1 {
        corners::put(buf, 0, corners::corner_at(list, 0));
        return 1;
    }
    let right = side(list, n, true, buf);
    let start = 2 * right;
    let left = side(list, n, false, &mut buf[start..]);
    right + left
}

// Scans the first n points, first to last on the way up or last to first on the way down, and leaves the chain, without
// the point that it ends at, at the front of the buffer; says how many corners it has.
fn side(list: &[i32], n: usize, up: bool, buf: &mut [i32]) -> usize
    requires { (0 < n) × (n ≤ length (points list.now)) × (n ≤ length (points buf.old))
        × SmallTo list.now n }
    ensures { Sided up (points list.now) n buf.old buf.new result }
{
    let mut kept = 0;
    for i in 0..n - 1 {
        kept = scan::push(buf, kept, route_at(list, n, up, i));
    }
    scan::settle(buf, kept, route_at(list, n, up, n - 1))
}

// The point that is read after i others, of the first n on the way up or down.
fn route_at(list: &[i32], n: usize, up: bool, i: usize) -> Point
    requires { (i < n) × (n ≤ length (points list.now)) }
    ensures { at result ≡ corner (points list.now) (cond up i (n - (i + 1))) }
{
    if up {
        return corners::corner_at(list, i);
    }
    corners::corner_at(list, n - (i + 1))
}
