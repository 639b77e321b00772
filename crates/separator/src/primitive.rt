// Inner function: the one name of a direction.
ghost use Rattle.std.specs.Prelude.{◌≡◌, ◌^◌};
ghost use Rattle.plane.specs.Forms.{NonZero};
ghost use Rattle.plane.specs.Primitive.{primitive as primitive_primitive};
ghost use Rattle.polygon.specs.Point.{at, Small};

use polygon::point::Point;

// Both parts over their greatest common divisor. A direction between shapes may be longer than one that a caller gives.
pub fn primitive(d: Point) -> Point
    requires { Small (2 ^ 22) (at d) × NonZero (at d) }
    ensures { at result ≡ primitive_primitive (at d) }
{
    let g = divisor::divisor(direction::magnitude(d.x), direction::magnitude(d.y)) as i32;
    Point {
        x: d.x / g,
        y: d.y / g,
    }
}
