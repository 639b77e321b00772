// Inner functions: points by value, and the arithmetic of two of them.
ghost use Rattle.std.specs.Prelude.{◌≡◌, ◌^◌};
ghost use Rattle.plane.specs.Point.{◌⊖◌, opposite as point_opposite};
ghost use Rattle.plane.specs.Turn.{cross as turn_cross};
ghost use Rattle.plane.specs.Direction.{value};
ghost use Rattle.plane.specs.Measure.{squared as measure_squared};
ghost use Rattle.plane.specs.Shape.{precedes as shape_precedes};
ghost use Rattle.polygon.specs.Point.{at, Small};

// A corner, a vector or a direction.
#[derive(Clone, Copy)]
pub struct Point {
    pub x: i32,
    pub y: i32,
}

// The vector from one point to another.
pub fn step(from: Point, to: Point) -> Point
    requires { Small (2 ^ 21) (at from) × Small (2 ^ 21) (at to) }
    ensures { at result ≡ at to ⊖ at from }
{
    Point {
        x: to.x - from.x,
        y: to.y - from.y,
    }
}

// The point on the other side of the origin.
// Ruled out: coordinates swapped.
pub fn opposite(p: Point) -> Point
    requires { Small (2 ^ 21) (at p) }
    ensures { at result ≡ point_opposite (at p) }
{
    Point { x: -p.x, y: -p.y }
}

// The cross product: positive if f points to the left of e.
pub fn cross(e: Point, f: Point) -> i64
    requires { Small (2 ^ 22) (at e) × Small (2 ^ 22) (at f) }
    ensures { result ≡ turn_cross (at e) (at f) }
{
    i64::from(e.x) * i64::from(f.y) - i64::from(e.y) * i64::from(f.x)
}

// The product u·x + v·y of a direction and a point: across the direction's left.
pub fn dot(d: Point, p: Point) -> i64
    requires { Small (2 ^ 22) (at d) × Small (2 ^ 22) (at p) }
    ensures { result ≡ value (at d) (at p) }
{
    cross(p, Point { x: -d.y, y: d.x })
}

// The squared distance of two points.
pub fn squared(p: Point, q: Point) -> i64
    requires { Small (2 ^ 21) (at p) × Small (2 ^ 21) (at q) }
    ensures { result ≡ measure_squared (at p) (at q) }
{
    let d = step(q, p);
    dot(d, d)
}

// Whether a has the smaller y, or the same y and the smaller x. One test after the other, and no `||`: all tests are
// then made at each corner of a chain, which takes up to twice as long.
pub fn precedes(a: Point, b: Point) -> bool
    ensures { result ≡ shape_precedes (at a) (at b) }
{
    if a.y < b.y {
        true
    } else if b.y < a.y {
        false
    } else {
        a.x < b.x
    }
}
