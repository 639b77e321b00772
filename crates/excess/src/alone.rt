// Inner functions: one corner as a shape by itself.
ghost use Rattle.std.specs.Prelude.{[], ◌∷◌};
ghost use Rattle.plane.specs.Point.{points, numbers};
ghost use Rattle.plane.specs.Refusal.{Valid};
ghost use Rattle.polygon.specs.Point.{at};
ghost use Rattle.clearance.specs.Answer.{Spaced};

use clearance::measured::Distance;
use polygon::point::Point;

// Where the shape is nearest to the point, or None where the point is in it.
pub fn spacing(p: Point, shape: &[i32]) -> Option<Distance>
    requires { Valid (numbers (at p ∷ [])) × Valid shape.now }
    ensures { Spaced (at p ∷ []) (points shape.now) result }
{
    let list = [p.x, p.y];
    clearance::between(&list, shape)
}
