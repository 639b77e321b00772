// Inner functions: the rules that make a shape, a test for each row of the table: refusals 1 to 5.
ghost use Rattle.std.specs.Prelude.{◌||◌, ◌≡◌, ◌<◌, length};
ghost use Rattle.plane.specs.Point.{points, corner};
ghost use Rattle.plane.specs.Shape.{next as shape_next, breaks};
ghost use Rattle.plane.specs.Refusal.{InRange, bad_count, too_many, some_outside, equal_pair, bad_start};
ghost use Rattle.plane.specs.Sweep.{too_many_points};
ghost use Rattle.polygon.specs.Broken.{left_break, broken};

use crate::{corners, limits};

// Refusal 1: an empty list, or an odd count of numbers.
// Ruled out: everything refused.
pub fn bad_count(list: &[i32]) -> bool
    ensures { result ≡ bad_count list.now }
{
    list.len() == 0 || list.len() % 2 == 1
}

// Refusal 2: more corners than the limit.
pub fn too_many(list: &[i32]) -> bool
    ensures { result ≡ too_many (points list.now) }
{
    limits::exceeds_corners(corners::count(list))
}

// Refusal 2 of a sweep: more points than the limit, repeats counted.
// Ruled out: repeats not counted.
pub fn too_many_points(list: &[i32]) -> bool
    ensures { result ≡ too_many_points (points list.now) }
{
    limits::exceeds_points(corners::count(list))
}

// Refusal 3: some coordinate is out of range. All are looked at, so that the loop has no second way out.
pub fn some_outside(list: &[i32]) -> bool
    ensures { result ≡ some_outside list.now }
{
    let mut some = false;
    for z in list {
        some |= limits::outside(*z);
    }
    some
}

// Whether one of the two holds.
pub fn either(x: bool, y: bool) -> bool
    ensures { result ≡ (x || y) }
{
    x || y
}

// The first part of refusal 4: a list of two whose corners are equal.
fn equal_pair(list: &[i32]) -> bool
    ensures { result ≡ equal_pair (points list.now) }
{
    corners::count(list) == 2
        && !corners::precedes_at(list, 0, 1)
        && !corners::precedes_at(list, 1, 0)
}

// The position after e on the way round n corners.
pub fn next(n: usize, e: usize) -> usize
    requires { e < n }
    ensures value { result ≡ shape_next n e }
    ensures upper_bound { result < n }
{
    if e + 1 == n { 0 } else { e + 1 }
}

// Whether a corner breaks the left rule at an edge: it is neither end of it, and not strictly to its left.
fn breaks_at(list: &[i32], edge: usize, corner: usize) -> bool
    requires { (edge < length (points list.now)) × (corner < length (points list.now)) × InRange list.now }
    ensures { result ≡ breaks (points list.now) edge corner }
{
    let end = next(corners::count(list), edge);
    corner != edge && corner != end && corners::turn_at(list, edge, end, corner) <= 0
}

// Where refusal 4 finds the rules broken.
#[derive(Clone, Copy)]
pub struct Broken {
    pub edge: usize,
    pub corner: usize,
}

// The second part of refusal 4: the first edge, then the first corner, that breaks the left rule.
// Ruled out: later corners only.
fn left_break(list: &[i32]) -> Option<Broken>
    requires { InRange list.now }
    ensures { result ≡ left_break (points list.now) }
{
    let n = corners::count(list);
    let mut found = None;
    'edges: for edge in 0..n {
        for corner in 0..n {
            if breaks_at(list, edge, corner) {
                found = Some(Broken { edge, corner });
                break 'edges;
            }
        }
    }
    found
}

// Refusal 4: two equal corners in a list of two, at positions 0 and 1; otherwise where the left rule is broken.
pub fn first_broken(list: &[i32]) -> Option<Broken>
    requires { InRange list.now }
    ensures { result ≡ broken (points list.now) }
{
    if equal_pair(list) {
        return Some(Broken { edge: 0, corner: 1 });
    }
    left_break(list)
}

// Refusal 5: some corner precedes the first.
pub fn bad_start(list: &[i32]) -> bool
    ensures { result ≡ bad_start (points list.now) }
{
    let n = corners::count(list);
    for c in 0..n {
        if corners::precedes_at(list, c, 0) {
            return true;
        }
    }
    false
}
