// Inner functions: corners of a list by position, and what one corner is to others.
ghost use Rattle.std.specs.Prelude.{◌≡◌, ◌+◌, ◌*◌, ◌<◌, length};
ghost use Rattle.plane.specs.Point.{points, corner};
ghost use Rattle.plane.specs.Refusal.{InRange};
ghost use Rattle.plane.specs.Shape.{precedes};
ghost use Rattle.plane.specs.Turn.{turn};
ghost use Rattle.polygon.specs.Point.{at, stored};

use crate::point;
use crate::point::Point;

// The number of corners.
pub fn count(list: &[i32]) -> usize
    ensures { result ≡ length (points list.now) }
{
    list.len() / 2
}

// Corner i.
pub fn corner_at(list: &[i32], i: usize) -> Point
    requires { i < length (points list.now) }
    ensures { at result ≡ corner (points list.now) i }
{
    Point {
        x: list[2 * i],
        y: list[2 * i + 1],
    }
}

// The turn of corner c against the edge from corner a to corner b.
pub fn turn_at(list: &[i32], a: usize, b: usize, c: usize) -> i64
    requires { (a < length (points list.now)) × (b < length (points list.now)) × (c < length (points list.now))
        × InRange list.now }
    ensures { result ≡ turn (corner (points list.now) a) (corner (points list.now) b)
        (corner (points list.now) c) }
{
    let from = corner_at(list, a);
    let edge = point::step(from, corner_at(list, b));
    let other = point::step(from, corner_at(list, c));
    point::cross(edge, other)
}

// Whether corner a has the smaller y, or the same y and the smaller x.
pub fn precedes_at(list: &[i32], a: usize, b: usize) -> bool
    requires { (a < length (points list.now)) × (b < length (points list.now)) }
    ensures { result ≡ precedes (corner (points list.now) a) (corner (points list.now) b) }
{
    point::precedes(corner_at(list, a), corner_at(list, b))
}

// Writes a corner at position k of an output.
// Ruled out: number written at the end.
pub fn put(out: &mut [i32], k: usize, p: Point)
    requires { 2 * k + 1 < length out.old }
    ensures { out.new ≡ stored out.old k (at p) }
{
    let x = p.x;
    let y = p.y;
    out[2 * k] = x;
    out[2 * k + 1] = y;
}
