// Inner functions: a chain of two shapes, from the rows of their corners that may be on it.
ghost use Rattle.std.specs.Prelude.{◌+◌, ◌-◌, ◌^◌, ◌<◌, ◌≤◌, length};
ghost use Rattle.plane.specs.Point.{points};
ghost use Rattle.polygon.specs.Point.{at, Small};
ghost use Rattle.sorting.specs.Buffer.{SmallTo, Scanned, Stepped, Chained};
ghost use Rattle.sorting.specs.Order.{closed, run, left_over, in_order, Line, Rising};

use crate::rows::Row;
use crate::{rows, scan};
use polygon::corners;
use polygon::point::Point;
use std::cmp::Ordering;

// Where two rows go on, and how many corners are kept.
#[derive(Clone, Copy)]
pub struct Step {
    pub first: usize,
    pub second: usize,
    pub kept: usize,
}

// Writes the chain from one point to another, without the second, at the front of the buffer; says how many corners it
// has. The corners of two rows lie between the two points, and each row runs up, or down.
pub fn chain(
    a: &[i32],
    row: Row,
    b: &[i32],
    other: Row,
    from: Point,
    to: Point,
    up: bool,
    buf: &mut [i32],
) -> usize
    requires { Rising up a.now row.first row.end × Rising up b.now other.first other.end
        × (1 + (row.end - row.first) + (other.end - other.first) ≤ length (points buf.old))
        × Small (2 ^ 21) (at from) × Small (2 ^ 21) (at to) }
    ensures { Chained up (left_over (closed (points a.now)) row.first row.end
        (closed (points b.now)) other.first other.end) (at from) (at to) buf.old
        buf.new result }
{
    corners::put(buf, 0, from);
    let kept = both(a, row, b, other, up, buf);
    scan::settle(buf, kept, to)
}

// Pushes the corners of two rows, in order, equal ones once, on the one corner at the front of the buffer; answers how
// many are there then.
fn both(a: &[i32], row: Row, b: &[i32], other: Row, up: bool, buf: &mut [i32]) -> usize
    requires { Rising up a.now row.first row.end × Rising up b.now other.first other.end
        × (1 + (row.end - row.first) + (other.end - other.first) ≤ length (points buf.old))
        × SmallTo buf.old 1 }
    ensures { Scanned buf.old 1 (in_order up (left_over (closed (points a.now)) row.first
        row.end (closed (points b.now)) other.first other.end)) buf.new result }
{
    let mut i = row.first;
    let mut j = other.first;
    let mut k = 1;
    // A while: a step goes on in one row or in both.
    while i < row.end {
        if other.end <= j {
            return rest(a, i, row.end, buf, k);
        }
        let next = push_next(a, i, b, j, up, buf, k);
        i = next.first;
        j = next.second;
        k = next.kept;
    }
    rest(b, j, other.end, buf, k)
}

// Pushes the next corner of two rows on the first k corners of the buffer.
#[tactic(auto, using(sorting::specs::theory::Lengths::lengths))]
fn push_next(a: &[i32], i: usize, b: &[i32], j: usize, up: bool, buf: &mut [i32], k: usize) -> Step
    requires { Line a.now (i + 1) × Line b.now (j + 1) × (k < length (points buf.old)) × SmallTo buf.old k }
    ensures { Stepped up (closed (points a.now)) i (closed (points b.now)) j
        buf.old buf.new k result.first result.second result.kept }
{
    let p = rows::closed_at(a, i);
    let q = rows::closed_at(b, j);
    match rows::order(up, p, q) {
        Ordering::Less => Step {
            first: i + 1,
            second: j,
            kept: scan::push(buf, k, p),
        },
        Ordering::Equal => Step {
            first: i + 1,
            second: j + 1,
            kept: scan::push(buf, k, p),
        },
        Ordering::Greater => Step {
            first: i,
            second: j + 1,
            kept: scan::push(buf, k, q),
        },
    }
}

// Pushes the corners from one position up to another on the first k corners of the buffer; answers how many are there
// then.
fn rest(list: &[i32], from: usize, end: usize, buf: &mut [i32], k: usize) -> usize
    requires { Line list.now end × (k + (end - from) ≤ length (points buf.old)) × SmallTo buf.old k }
    ensures { Scanned buf.old k (run (closed (points list.now)) from (end - from))
        buf.new result }
{
    let mut kept = k;
    for i in from..end {
        kept = scan::push(buf, kept, rows::closed_at(list, i));
    }
    kept
}
