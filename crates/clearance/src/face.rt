// Inner functions: the corners of a shape that are lowest in a direction, which are one or two.
ghost use Rattle.std.specs.Prelude.{◌≡◌, ◌^◌, ◌<◌, length};
ghost use Rattle.plane.specs.Point.{points, corner, opposite};
ghost use Rattle.plane.specs.Shape.{next};
ghost use Rattle.plane.specs.Direction.{value};
ghost use Rattle.plane.specs.Forms.{NonZero};
ghost use Rattle.plane.specs.Refusal.{InRange, Valid};
ghost use Rattle.polygon.specs.Point.{at, Small};
ghost use Rattle.clearance.specs.Faces.{IsFace, ordered_ends};

use polygon::point::Point;
use polygon::{corners, point, rules};

// Their smaller and their larger position.
#[derive(Clone, Copy)]
pub struct Face {
    pub first: usize,
    pub last: usize,
}

// The face in a direction, the smaller position first, which is thought to be at corner i: so it is if no neighbour of
// the corner is lower. Else all corners are looked at.
// Ruled out: tied neighbour left out.
pub fn near(list: &[i32], n: Point, i: usize) -> Face
    requires { Valid list.now × Small (2 ^ 22) (at n) × NonZero (at n) × (i < length (points list.now)) }
    ensures { IsFace (at n) (points list.now) result }
{
    let count = corners::count(list);
    let back = previous(count, i);
    let on = rules::next(count, i);
    let own = value_at(list, i, n);
    let one = value_at(list, back, n);
    let other = value_at(list, on, n);
    if one < own || other < own {
        return lowest(list, n);
    }
    if other <= own {
        return ordered(i, on);
    }
    if one <= own {
        return ordered(back, i);
    }
    ordered(i, i)
}

// The face with two ends.
fn ordered(i: usize, j: usize) -> Face
    ensures { result ≡ ordered_ends i j }
{
    Face {
        first: i.min(j),
        last: i.max(j),
    }
}

// The value of corner i in a direction.
fn value_at(list: &[i32], i: usize, n: Point) -> i64
    requires { (i < length (points list.now)) × InRange list.now × Small (2 ^ 22) (at n) }
    ensures { result ≡ value (at n) (corner (points list.now) i) }
{
    point::dot(n, corners::corner_at(list, i))
}

// The position before i on the way round n corners.
fn previous(n: usize, i: usize) -> usize
    requires { i < n }
    ensures { (result < n) × (next n result ≡ i) }
{
    if i == 0 { n - 1 } else { i - 1 }
}

// The position i places after a position, on the way round a shape, where i is less than the count of its corners; else
// that position.
pub fn place(list: &[i32], from: usize, i: usize) -> usize
    requires { from < length (points list.now) }
    ensures { result < length (points list.now) }
{
    let n = corners::count(list);
    if n <= i {
        return from;
    }
    let k = from + i;
    if k < n { k } else { k - n }
}

// The face in a direction, the smaller position first.
// Ruled out: ties the other way; every face the other way.
pub fn lowest(list: &[i32], n: Point) -> Face
    requires { Valid list.now × Small (2 ^ 22) (at n) × NonZero (at n) }
    ensures { IsFace (at n) (points list.now) result }
{
    let face = direction::face_towards(list, against(n));
    ordered(face.first, face.last)
}

// The opposite direction. `point::opposite` is for corners, whose parts are smaller.
pub fn against(n: Point) -> Point
    requires { Small (2 ^ 22) (at n) }
    ensures { at result ≡ opposite (at n) }
{
    Point { x: -n.x, y: -n.y }
}
