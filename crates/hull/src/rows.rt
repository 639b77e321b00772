// Inner functions: the corners of a shape that may be on a chain. A chain up is the right-hand one, from the least
// corner of all to the greatest; a chain down is the left-hand one, from there back.
ghost use Rattle.std.specs.Prelude.{true, ◌≡◌, ◌^◌, ◌<◌, ◌≤◌, length};
ghost use Rattle.plane.specs.Point.{points, corner};
ghost use Rattle.plane.specs.Refusal.{InRange};
ghost use Rattle.polygon.specs.Point.{at, Small};
ghost use Rattle.sorting.specs.Order.{closed, Line, order as order_order, foremost as order_foremost};
ghost use Rattle.hull.specs.Chain.{row_first, row_end, home as chain_home, is_right as chain_is_right, ordering_of};

use crate::scan;
use polygon::point::Point;
use polygon::{corners, point};
use std::cmp::Ordering;

// The corners from one position up to another.
#[derive(Clone, Copy)]
pub struct Row {
    pub first: usize,
    pub end: usize,
}

// The corners from one end of a shape's chain to the other that may be on the chain of two shapes, from one corner
// to another: the ends themselves only if they lie to the right of the line from corner to corner.
#[tactic(auto, using(sorting::specs::theory::Lengths::lengths))]
pub fn trimmed(list: &[i32], low: usize, high: usize, from: Point, to: Point) -> Row
    requires { (low ≤ high) × (high ≤ length (points list.now)) × Line list.now high
        × Small (2 ^ 21) (at from) × Small (2 ^ 21) (at to) }
    ensures { (result.first ≡ row_first (closed (points list.now)) low (at from) (at to))
        × (result.end ≡ row_end (closed (points list.now)) high (at from) (at to)) }
{
    Row {
        first: low + usize::from(!is_right(list, low, from, to)),
        end: high + usize::from(is_right(list, high, from, to)),
    }
}

// Whether the corner at a position on the way round lies strictly to the right of the line from one point to another.
fn is_right(list: &[i32], i: usize, from: Point, to: Point) -> bool
    requires { (i ≤ length (points list.now)) × (0 < length (points list.now)) × InRange list.now
        × Small (2 ^ 21) (at from) × Small (2 ^ 21) (at to) }
    ensures { result ≡ chain_is_right (at from) (at to) (corner (closed (points list.now)) i) }
{
    scan::turn(from, to, closed_at(list, i)) < 0
}

// The corner at a position on the way round: after the last one comes the first again.
pub fn closed_at(list: &[i32], i: usize) -> Point
    requires { (i ≤ length (points list.now)) × (0 < length (points list.now)) }
    ensures { at result ≡ corner (closed (points list.now)) i }
{
    if i < corners::count(list) {
        corners::corner_at(list, i)
    } else {
        corners::corner_at(list, 0)
    }
}

// The position on the way round where the chain down from the top ends; a point is its own.
pub fn home(list: &[i32], top: usize) -> usize
    ensures { result ≡ chain_home (points list.now) top }
{
    if top == 0 { 0 } else { corners::count(list) }
}

// The one of two corners that comes first on the way up, or down.
pub fn foremost(up: bool, a: &[i32], i: usize, b: &[i32], j: usize) -> Point
    requires { (i < length (points a.now)) × (j < length (points b.now)) }
    ensures { at result ≡ order_foremost up (corner (points a.now) i)
        (corner (points b.now) j) }
{
    let p = corners::corner_at(a, i);
    let q = corners::corner_at(b, j);
    match order(up, p, q) {
        Ordering::Greater => q,
        _ => p,
    }
}

// Which of two points comes first on the way up, or down.
pub fn order(up: bool, p: Point, q: Point) -> Ordering
    ensures { result ≡ ordering_of (order_order up (at p) (at q)) }
{
    if up { ascent(p, q) } else { ascent(q, p) }
}

// The same on the way up.
fn ascent(p: Point, q: Point) -> Ordering
    ensures { result ≡ ordering_of (order_order true (at p) (at q)) }
{
    if point::precedes(p, q) {
        return Ordering::Less;
    }
    if point::precedes(q, p) {
        return Ordering::Greater;
    }
    Ordering::Equal
}
