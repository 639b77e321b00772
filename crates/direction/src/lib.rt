// Inner functions on directions: refusals 11 and 12, and the corners of a shape that have the greatest value.
#![tactic(auto)]

ghost use Rattle.std.specs.Prelude.{◌&&◌, ◌≡◌, ◌^◌, ◌<◌, eqb, nat_abs, length};
ghost use Rattle.std.specs.Int.Signed.{le_z};
ghost use Rattle.plane.specs.Point.{point, points, corner};
ghost use Rattle.plane.specs.Shape.{IsShape};
ghost use Rattle.plane.specs.Forms.{NonZero};
ghost use Rattle.plane.specs.Refusal.{InRange};
ghost use Rattle.plane.specs.Direction.{value, support, furthest};
ghost use Rattle.plane.specs.Face.{face_first, face_last};
ghost use Rattle.plane.specs.Furthest.{bad_direction, common_divisor};
ghost use Rattle.polygon.specs.Point.{at, Small};

use polygon::point::Point;
use polygon::{corners, limits, point};

// Refusal 11: direction (0, 0), or a part of it out of range.
// Ruled out: upright direction refused.
pub fn bad_direction(u: i32, v: i32) -> bool
    ensures { result ≡ bad_direction (point u v) }
{
    zero(u, v) || limits::outside_part(u) || limits::outside_part(v)
}

// Whether both parts are 0.
fn zero(u: i32, v: i32) -> bool
    ensures { result ≡ (eqb (nat_abs u) 0 && eqb (nat_abs v) 0) }
{
    u == 0 && v == 0
}

// Refusal 12: the parts have a common divisor above 1. That of 0 and v is v without its sign, so that (0, 1) passes and
// (0, 5) does not.
// Ruled out: one taken for a common divisor; twos stripped from one part only; divisor one of a part and zero.
pub fn common_divisor(u: i32, v: i32) -> bool
    ensures { result ≡ common_divisor (point u v) }
{
    1 < divisor::divisor(magnitude(u), magnitude(v))
}

// A number without its sign.
pub fn magnitude(z: i32) -> u32
    ensures { result ≡ nat_abs z }
{
    z.unsigned_abs()
}

// The first and the last of the corners with the greatest value, counterclockwise, and that value.
#[derive(Clone, Copy)]
pub struct Face {
    pub first: usize,
    pub last: usize,
    pub value: i64,
}

// The face of a shape in a direction other than (0, 0). Over the end of the list it begins with the last corner; of a
// segment across the direction it is always 0 and 1.
// Ruled out: segment taken over the end; smallest position over the end.
pub fn face_towards(list: &[i32], d: Point) -> Face
    requires { InRange list.now × IsShape (points list.now) × Small (2 ^ 22) (at d) × NonZero (at d) }
    ensures first_value { result.first ≡ face_first (at d) (points list.now) }
    ensures last_value { result.last ≡ face_last (at d) (points list.now) }
    ensures value_value { result.value ≡ support (at d) (points list.now) }
{
    let here = first_furthest(list, d);
    let value = value_at(list, here, d);
    let n = corners::count(list);
    let end = n - 1;
    let next = here + 1;
    let (first, last) = if here == 0 && 2 < n && reaches(list, end, d, value) {
        (end, here)
    } else if next < n && reaches(list, next, d, value) {
        (here, next)
    } else {
        (here, here)
    };
    Face { first, last, value }
}

// The greatest value of a corner.
// Ruled out: least value for the greatest.
pub fn reach(list: &[i32], d: Point) -> i64
    requires { (0 < length (points list.now)) × InRange list.now × Small (2 ^ 22) (at d) }
    ensures { result ≡ support (at d) (points list.now) }
{
    let n = corners::count(list);
    let mut greatest = value_at(list, 0, d);
    for i in 1..n {
        greatest = greatest.max(value_at(list, i, d));
    }
    greatest
}

// Whether a corner has at least a value.
fn reaches(list: &[i32], i: usize, d: Point, least: i64) -> bool
    requires { (i < length (points list.now)) × InRange list.now × Small (2 ^ 22) (at d) }
    ensures { result ≡ le_z least (value (at d) (corner (points list.now) i)) }
{
    least <= value_at(list, i, d)
}

// The smallest position of the greatest value.
// Ruled out: last position on a tie.
fn first_furthest(list: &[i32], d: Point) -> usize
    requires { (0 < length (points list.now)) × InRange list.now × Small (2 ^ 22) (at d) }
    ensures { result ≡ furthest (at d) (points list.now) }
{
    let n = corners::count(list);
    let mut position = 0;
    let mut value = value_at(list, 0, d);
    for i in 1..n {
        let next = value_at(list, i, d);
        if value < next {
            position = i;
            value = next;
        }
    }
    position
}

// The value of corner i in a direction.
fn value_at(list: &[i32], i: usize, d: Point) -> i64
    requires { (i < length (points list.now)) × InRange list.now × Small (2 ^ 22) (at d) }
    ensures { result ≡ value (at d) (corner (points list.now) i) }
{
    point::dot(d, corners::corner_at(list, i))
}
