// Inner functions for the shape of two shapes together, chain by chain (document 01, "Merge"), and for the shape of
// many points (document 02, W10). Callers ask the crate `questions`.
#![tactic(auto)]

mod chains;
mod outline;
mod rows;
mod scan;

ghost use Rattle.std.specs.Prelude.{false, true, suc, ◌+◌, ◌*◌, ◌≤◌, length, ◌++◌};
ghost use Rattle.plane.specs.Point.{points};
ghost use Rattle.plane.specs.Refusal.{Valid};
ghost use Rattle.plane.specs.Corner.{shape_of};
ghost use Rattle.plane.specs.Sweep.{ValidPoints};
ghost use Rattle.polygon.specs.Front.{Front};
ghost use Rattle.polygon.specs.Point.{at};
ghost use Rattle.sorting.specs.Buffer.{Chained};
ghost use Rattle.hull.specs.Chain.{right_rows, left_rows, Spread};

use polygon::point::Point;
use polygon::{corners, limits, peak, point};
use sorting::{digits, insertion, interior};

// The numbers of few points.
const FEW_NUMBERS: usize = 64;

// Writes the shape of both corner lists taken together at the front of the buffer, and says how many corners it has: at
// most as many as both shapes together, and each of them is a corner of one of the two. The shapes may overlap, lie one
// in the other, share corners or edges; a corner in line between two others is dropped, and so is one that lies
// strictly inside the other shape. Two points make a segment, or a point if they are equal; segments in line make a
// segment.
// Ruled out: points in line kept; second shape forgotten.
pub fn merge(a: &[i32], b: &[i32], buf: &mut [i32]) -> usize
    requires { Valid a.now × Valid b.now
        × (length (points a.now) + length (points b.now) ≤ length (points buf.old)) }
    ensures { Front (shape_of (points a.now ++ points b.now)) result buf.new }
{
    let i = peak::top(a);
    let j = peak::top(b);
    let bottom = rows::foremost(true, a, 0, b, 0);
    let top = rows::foremost(false, a, i, b, j);
    if point::precedes(bottom, top) {
        return both_chains(a, i, b, j, bottom, top, buf);
    }
    corners::put(buf, 0, bottom);
    1
}

// Writes the shape of many points at the front of the buffer, and says how many corners it has. The points are in any
// order; one that is repeated counts once, and one in line between two others is dropped. Points that are all equal
// make a point, and points in one line a segment. Most points that cannot be corners are dropped before the sort. The
// buffer has room for both chains, and is lent to the sort before.
// Ruled out: points in line kept; repeats kept.
pub fn sweep(list: &[i32], buf: &mut [i32]) -> usize
    requires { ValidPoints list.now × (2 * length (points list.now) ≤ length (points buf.old)) }
    ensures { Front (shape_of (points list.now)) result buf.new }
{
    if list.len() <= FEW_NUMBERS {
        return sweep_few(list, buf);
    }
    sweep_many(list, buf)
}

// The same for few points: these are inserted one by one.
fn sweep_few(list: &[i32], buf: &mut [i32]) -> usize
    requires { ValidPoints list.now × (2 * length (points list.now) ≤ length (points buf.old))
        × (length list.now ≤ 64) }
    ensures { Front (shape_of (points list.now)) result buf.new }
{
    let mut sorted = [0i32; FEW_NUMBERS];
    let m = interior::reduce(list, buf);
    let n = insertion::insert_all(buf, m, &mut sorted);
    outline::outline(&sorted, n, buf)
}

// The same for any number of points: these are brought near their order first.
fn sweep_many(list: &[i32], buf: &mut [i32]) -> usize
    requires { ValidPoints list.now × (2 * length (points list.now) ≤ length (points buf.old)) }
    ensures { Front (shape_of (points list.now)) result buf.new }
{
    let mut sorted = [0i32; limits::POINTS_NUMBERS];
    let m = interior::reduce(list, buf);
    digits::presort(buf, m, &mut sorted);
    let n = insertion::insert_all(buf, m, &mut sorted);
    outline::outline(&sorted, n, buf)
}

// Writes the right-hand chain of both shapes, and after it the left-hand one. The shapes' own tops are at positions i
// and j. Every corner is in a row of one of the chains at most: so there is room for both.
fn both_chains(
    a: &[i32],
    i: usize,
    b: &[i32],
    j: usize,
    bottom: Point,
    top: Point,
    buf: &mut [i32],
) -> usize
    requires { Valid a.now × Valid b.now
        × Spread (points a.now) i (points b.now) j (at bottom) (at top)
        × (length (points a.now) + length (points b.now) ≤ length (points buf.old)) }
    ensures { Front (shape_of (points a.now ++ points b.now)) result buf.new }
{
    let right = right_chain(a, i, b, j, bottom, top, buf);
    let start = 2 * right;
    let left = left_chain(a, i, b, j, bottom, top, &mut buf[start..]);
    right + left
}

// Writes the chain up from the bottom to the top, without the top, at the front of the buffer; says how many corners it
// has.
fn right_chain(
    a: &[i32],
    i: usize,
    b: &[i32],
    j: usize,
    bottom: Point,
    top: Point,
    buf: &mut [i32],
) -> usize
    requires { Valid a.now × Valid b.now
        × Spread (points a.now) i (points b.now) j (at bottom) (at top)
        × (suc (length (right_rows (points a.now) i (points b.now) j (at bottom) (at top)))
        ≤ length (points buf.old)) }
    ensures { Chained true
        (right_rows (points a.now) i (points b.now) j (at bottom) (at top))
        (at bottom) (at top) buf.old buf.new result }
{
    let row = rows::trimmed(a, 0, i, bottom, top);
    let other = rows::trimmed(b, 0, j, bottom, top);
    chains::chain(a, row, b, other, bottom, top, true, buf)
}

// Writes the chain down from the top to the bottom, without the bottom, at the front of the buffer; says how many
// corners it has.
fn left_chain(
    a: &[i32],
    i: usize,
    b: &[i32],
    j: usize,
    bottom: Point,
    top: Point,
    buf: &mut [i32],
) -> usize
    requires { Valid a.now × Valid b.now
        × Spread (points a.now) i (points b.now) j (at bottom) (at top)
        × (suc (length (left_rows (points a.now) i (points b.now) j (at bottom) (at top)))
        ≤ length (points buf.old)) }
    ensures { Chained false
        (left_rows (points a.now) i (points b.now) j (at bottom) (at top))
        (at top) (at bottom) buf.old buf.new result }
{
    let row = rows::trimmed(a, i, rows::home(a, i), top, bottom);
    let other = rows::trimmed(b, j, rows::home(b, j), top, bottom);
    chains::chain(a, row, b, other, top, bottom, false, buf)
}
