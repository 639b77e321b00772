// One pass over the corners of a list decides whether it is a convex shape in standard order (document
// 02, request W2).
#![tactic(auto)]

ghost use Rattle.std.specs.Prelude.{true, false, ◌≡◌, ◌+◌, ◌-◌, ◌^◌, ◌<◌, ◌≤◌, pos, length};
ghost use Rattle.std.specs.Int.Signed.{lt_z};
ghost use Rattle.plane.specs.Point.{points, corner, ◌⊖◌};
ghost use Rattle.plane.specs.Refusal.{InRange, Valid};
ghost use Rattle.plane.specs.Shape.{IsShape};
ghost use Rattle.plane.specs.Turn.{cross};
ghost use Rattle.plane.specs.Forms.{edges};
ghost use Rattle.polygon.specs.Point.{at, Small};
ghost use Rattle.convexity.specs.Stretch.{vector, goes_on, Stretch};

use polygon::point::Point;
use polygon::{corners, rules};

// An edge as a vector. The parts have the width of their products.
#[derive(Clone, Copy)]
struct Edge {
    run: i64,
    rise: i64,
}

// Returns whether a list is a shape: none of refusals 1 to 5 applies. Judging asks this of every list.
pub fn passes(list: &[i32]) -> bool
    ensures { (result ≡ true → Valid list.now) × (Valid list.now → result ≡ true) }
{
    !rules::bad_count(list)
        && !rules::too_many(list)
        && !rules::some_outside(list)
        && is_shape(list)
}

// Returns whether the corners are a shape. A point is one. Two corners are one if the first precedes the second. More
// are one if the first precedes the second, the next edges go up or level, the others down, and each edge is strictly
// left of the one before it.
// Ruled out: list that winds twice passed.
fn is_shape(list: &[i32]) -> bool
    requires { InRange list.now × (0 < length (points list.now)) }
    ensures { (result ≡ true → IsShape (points list.now))
        × (IsShape (points list.now) → result ≡ true) }
{
    let n = corners::count(list);
    if n == 1 {
        return true;
    }
    if !corners::precedes_at(list, 0, 1) {
        return false;
    }
    if n == 2 {
        return true;
    }
    let top = stretch(list, 0, true);
    let end = stretch(list, top, false);
    if end + 2 < n {
        return false;
    }
    closes(list)
}

// Returns how far the edges after edge `start` go up or level, or down, each strictly left of the one before it: the
// position of the last such edge, or `start`. The closing edge is left out.
// Ruled out: corner past the end read.
fn stretch(list: &[i32], start: usize, up: bool) -> usize
    requires { (start + 2 ≤ length (points list.now)) × InRange list.now }
    ensures { Stretch (edges (points list.now)) up start result }
{
    let last = corners::count(list) - 2;
    let mut e = edge_at(list, start);
    for k in start..last {
        let f = edge_at(list, k + 1);
        if !goes_on(e, f, up) {
            return k;
        }
        e = f;
    }
    last
}

// Returns whether the closing edge goes down, strictly left of the edge before it.
// Ruled out: closing edge left unchecked.
fn closes(list: &[i32]) -> bool
    requires { (2 < length (points list.now)) × InRange list.now }
    ensures { result ≡ goes_on false
        (corner (edges (points list.now)) (length (points list.now) - 2))
        (corner (edges (points list.now)) (length (points list.now) - 1)) }
{
    let n = corners::count(list);
    let last = edge_at(list, n - 2);
    let home = between(corners::corner_at(list, n - 1), corners::corner_at(list, 0));
    goes_on(last, home, false)
}

// Returns the edge from corner k to the next corner. The corners are read, and not reached along the edges: that is
// quicker here.
fn edge_at(list: &[i32], k: usize) -> Edge
    requires { (k + 1 < length (points list.now)) × InRange list.now }
    ensures { (vector result ≡ corner (edges (points list.now)) k) × Small (2 ^ 22) (vector result) }
{
    between(corners::corner_at(list, k), corners::corner_at(list, k + 1))
}

// Returns the edge from p to q: differences of 32 bits, widened once.
fn between(p: Point, q: Point) -> Edge
    requires { Small (2 ^ 21) (at p) × Small (2 ^ 21) (at q) }
    ensures { vector result ≡ at q ⊖ at p }
{
    Edge {
        run: i64::from(q.x - p.x),
        rise: i64::from(q.y - p.y),
    }
}

// Returns whether f goes up or level (for `up`), or down (otherwise), strictly left of e. The rise decides between the
// halves: after a left turn a level edge can only be the top.
// Ruled out: level top refused.
fn goes_on(e: Edge, f: Edge, up: bool) -> bool
    requires { Small (2 ^ 22) (vector e) × Small (2 ^ 22) (vector f) }
    ensures { result ≡ goes_on up (vector e) (vector f) }
{
    (0 <= f.rise) == up && is_left(e, f)
}

// Returns whether f is strictly left of e.
// Ruled out: weak for strict.
fn is_left(e: Edge, f: Edge) -> bool
    requires { Small (2 ^ 22) (vector e) × Small (2 ^ 22) (vector f) }
    ensures { result ≡ lt_z (pos 0) (cross (vector e) (vector f)) }
{
    e.rise * f.run < e.run * f.rise
}
