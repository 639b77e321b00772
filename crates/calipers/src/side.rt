// Inner functions: one shape on a walk. What the walk compares is carried along, so that a step reads the list only for
// the corner that comes next.
ghost use Rattle.std.specs.Prelude.{true, cond, ◌≡◌, ◌+◌, ◌^◌, ◌<◌, ◌≤◌, ◌-ℤ◌, length};
ghost use Rattle.plane.specs.Point.{points, origin, ◌⊕◌, ◌⊖◌};
ghost use Rattle.plane.specs.Refusal.{InRange};
ghost use Rattle.plane.specs.Turn.{cross};
ghost use Rattle.plane.specs.Direction.{value};
ghost use Rattle.plane.specs.Measure.{squared as measure_squared};
ghost use Rattle.plane.specs.Forms.{up, before, edges};
ghost use Rattle.polygon.specs.Point.{at, Small};
ghost use Rattle.calipers.specs.Side.{corner_of, next_of, onward, Stands, Carried};

use crate::edges;
use polygon::corners;
use polygon::point::Point;

// How many edges of a shape are passed, of how many, the corner (x, y) there, and the next edge (run, rise), which is
// (0, 0) where none is left. Run and rise are differences of 32 bits, widened once to the width of their products. The
// parts are no points: each has a register of its own in a loop.
#[derive(Clone, Copy)]
pub struct Side {
    pub at: usize,
    pub end: usize,
    pub x: i32,
    pub y: i32,
    pub run: i64,
    pub rise: i64,
}

impl Side {
    // Whether the next edge points up, or level to the right.
    pub fn is_up(self) -> bool
        ensures { result ≡ up (next_of self) }
    {
        0 < self.rise || self.rise == 0 && 0 < self.run
    }
}

// The side with i edges passed.
pub fn side_at(list: &[i32], i: usize) -> Side
    requires { (i ≤ length (edges (points list.now))) × InRange list.now × (0 < length (points list.now)) }
    ensures { (result.at ≡ i) × Carried list.now result }
{
    let corner = corners::corner_at(list, edges::round(list, i));
    onto(list, standing(i, edges::sides(list), corner))
}

// One edge on, unless the side waits or has none left. The corner there is reached along the edge, and not read.
pub fn next(list: &[i32], s: Side, waits: bool) -> Side
    requires { Carried list.now s × InRange list.now × (0 < length (points list.now)) }
    ensures { (result.at ≡ cond waits s.at (onward (points list.now) s.at))
        × Carried list.now result }
{
    if waits {
        return s;
    }
    if s.at == s.end {
        return s;
    }
    onto(list, arrived(s))
}

// The same where at least three edges are left: no test of the end is needed.
// Ruled out: same edge passed twice.
pub fn ahead(list: &[i32], s: Side, waits: bool) -> Side
    requires { Carried list.now s × InRange list.now × (0 < length (points list.now)) × (s.at + 2 < s.end) }
    ensures { (result.at ≡ cond waits s.at (onward (points list.now) s.at))
        × Carried list.now result }
{
    if waits {
        return s;
    }
    facing(arrived(s), corners::corner_at(list, s.at + 2))
}

// A side that is at a corner and knows no edge yet, with its next edge.
fn onto(list: &[i32], s: Side) -> Side
    requires { Stands list.now s × InRange list.now × (0 < length (points list.now)) }
    ensures { (result.at ≡ s.at) × Carried list.now result }
{
    if s.at + 1 < s.end {
        return facing(s, corners::corner_at(list, s.at + 1));
    }
    closing(list, s)
}

// The same at the last edge, which leads back to the first corner, and past it.
fn closing(list: &[i32], s: Side) -> Side
    requires { Stands list.now s × InRange list.now × (0 < length (points list.now)) × (s.end ≤ s.at + 1) }
    ensures { (result.at ≡ s.at) × Carried list.now result }
{
    if s.at == s.end {
        return s;
    }
    facing(s, corners::corner_at(list, 0))
}

// At a corner, with no edge.
pub fn standing(i: usize, end: usize, p: Point) -> Side
    requires { Small (2 ^ 21) (at p) }
    ensures { (result.at ≡ i) × (result.end ≡ end) × (corner_of result ≡ at p) × (next_of result ≡ origin) }
{
    Side {
        at: i,
        end,
        x: p.x,
        y: p.y,
        run: 0,
        rise: 0,
    }
}

// At the end of its edge, with no edge.
pub fn arrived(s: Side) -> Side
    requires { (s.at < 2 ^ 63) × Small (2 ^ 21) (corner_of s) × Small (2 ^ 21) (next_of s) }
    ensures { (result.at ≡ s.at + 1) × (result.end ≡ s.end) × (corner_of result ≡ corner_of s ⊕ next_of s)
        × (next_of result ≡ origin) }
{
    Side {
        at: s.at + 1,
        end: s.end,
        x: s.x + s.run as i32,
        y: s.y + s.rise as i32,
        run: 0,
        rise: 0,
    }
}

// With the edge to a corner.
pub fn facing(s: Side, to: Point) -> Side
    requires { Small (2 ^ 21) (corner_of s) × Small (2 ^ 21) (at to) }
    ensures { (result.at ≡ s.at) × (result.end ≡ s.end) × (corner_of result ≡ corner_of s)
        × (next_of result ≡ at to ⊖ corner_of s) }
{
    Side {
        at: s.at,
        end: s.end,
        x: s.x,
        y: s.y,
        run: i64::from(to.x - s.x),
        rise: i64::from(to.y - s.y),
    }
}

// The cross product of the next edges: positive if the first side's comes first by direction, negative if the other's
// does, 0 if they point the same way or a side has none left. That it says so is a fact of the places of a walk.
pub fn order(s: Side, t: Side) -> i64
    requires { Small (2 ^ 22) (next_of s) × Small (2 ^ 22) (next_of t) }
    ensures { result ≡ cross (next_of s) (next_of t) }
{
    s.run * t.rise - s.rise * t.run
}

// Whether both sides have three edges left.
pub fn are_inside(s: Side, t: Side) -> bool
    requires { (s.at < 2 ^ 63) × (t.at < 2 ^ 63) }
    ensures { result ≡ true → (s.at + 2 < s.end) × (t.at + 2 < t.end) }
{
    s.at + 2 < s.end && t.at + 2 < t.end
}

// Whether the next edge of the first side is before that of the other by direction, from level to the right all the way
// round.
pub fn is_before(s: Side, t: Side) -> bool
    requires { Small (2 ^ 22) (next_of s) × Small (2 ^ 22) (next_of t) }
    ensures { result ≡ before (next_of s) (next_of t) }
{
    if s.is_up() != t.is_up() {
        return s.is_up();
    }
    0 < order(s, t)
}

// The corner of the sum at two sides.
// Ruled out: origin for every sum.
pub fn here(s: Side, t: Side) -> Point
    requires { Small (2 ^ 21) (corner_of s) × Small (2 ^ 21) (corner_of t) }
    ensures { at result ≡ corner_of s ⊕ corner_of t }
{
    Point {
        x: s.x + t.x,
        y: s.y + t.y,
    }
}

// The turn of the corner of t against the next edge of s.
pub fn turn(s: Side, t: Side) -> i64
    requires { Small (2 ^ 21) (corner_of s) × Small (2 ^ 21) (corner_of t) × Small (2 ^ 22) (next_of s) }
    ensures { result ≡ cross (next_of s) (corner_of t ⊖ corner_of s) }
{
    s.run * above(s, t) - s.rise * beyond(s, t)
}

// By how much the corner of t is to the right of that of s.
fn beyond(s: Side, t: Side) -> i64
    requires { Small (2 ^ 21) (corner_of s) × Small (2 ^ 21) (corner_of t) }
    ensures { result ≡ t.x -ℤ s.x }
{
    i64::from(t.x - s.x)
}

// By how much it is above it.
fn above(s: Side, t: Side) -> i64
    requires { Small (2 ^ 21) (corner_of s) × Small (2 ^ 21) (corner_of t) }
    ensures { result ≡ t.y -ℤ s.y }
{
    i64::from(t.y - s.y)
}

// The squared distance of the two corners.
pub fn squared(s: Side, t: Side) -> i64
    requires { Small (2 ^ 21) (corner_of s) × Small (2 ^ 21) (corner_of t) }
    ensures { result ≡ measure_squared (corner_of s) (corner_of t) }
{
    let dx = beyond(t, s);
    let dy = above(t, s);
    dx * dx + dy * dy
}

// The squared length of the next edge.
pub fn span(s: Side) -> i64
    requires { Small (2 ^ 22) (next_of s) }
    ensures { result ≡ value (next_of s) (next_of s) }
{
    s.run * s.run + s.rise * s.rise
}
