// Inner functions: the widest corridor between two shapes, by the direction along which they are nearest.
ghost use Rattle.std.specs.Prelude.{true, false, ◌≡◌, ◌*◌, pos, nat_abs, ◌≤ℤ◌};
ghost use Rattle.plane.specs.Point.{points};
ghost use Rattle.plane.specs.Refusal.{Valid};
ghost use Rattle.plane.specs.Direction.{value};
ghost use Rattle.plane.specs.Furthest.{bad_direction};
ghost use Rattle.plane.specs.Measure.{root_below};
ghost use Rattle.plane.specs.Separation.{apart};
ghost use Rattle.polygon.specs.Point.{at};
ghost use Rattle.strips.specs.Strip.{least as strip_least};
ghost use Rattle.passage.specs.Corridor.{widest_numbers, corridor_numbers, way_numbers};

use answers::Lane;
use measure::magnitude;
use polygon::point;
use polygon::point::Point;
use separation::answer::Relation;
use separator::primitive;

// The widest corridor between two shapes, the second below it and the first above it; None if they are not apart.
// Ruled out: touching counted as passable.
pub fn corridor(a: &[i32], b: &[i32]) -> Option<Lane>
    requires { Valid a.now × Valid b.now }
    ensures { way_numbers result ≡ corridor_numbers (points a.now) (points b.now) }
{
    match separation::relation(a, b) {
        Relation::Apart => Some(widest(a, b)),
        Relation::Touching | Relation::Overlapping => None,
    }
}

// The same of two shapes that are apart.
// Ruled out: low line taken of the left obstacle.
fn widest(a: &[i32], b: &[i32]) -> Lane
    requires { Valid a.now × Valid b.now × (apart (points a.now) (points b.now) ≡ true) }
    ensures { way_numbers (Some result) ≡ widest_numbers (points a.now) (points b.now) }
{
    let n = primitive::primitive(clearance::towards(a, b));
    let low = direction::reach(b, n);
    let high = least(a, n);
    Lane {
        u: n.x,
        v: n.y,
        low,
        high,
        width: width(high - low, n),
    }
}

// The least value of a corner: the greatest in the opposite direction, negated.
fn least(list: &[i32], d: Point) -> i64
    requires { Valid list.now × (bad_direction (at d) ≡ false) }
    ensures { result ≡ strip_least (at d) (points list.now) }
{
    -direction::reach(list, point::opposite(d))
}

// What lies between two values in a direction, in millimetres: over the direction's length, rounded down.
// Ruled out: width rounded up.
fn width(room: i64, d: Point) -> u64
    requires { (pos 0 ≤ℤ room) × (bad_direction (at d) ≡ false) }
    ensures { result ≡ root_below (nat_abs room * nat_abs room) (nat_abs (value (at d) (at d))) }
{
    wide::root_of_fraction(
        magnitude::magnitude(room),
        magnitude::magnitude(point::dot(d, d)),
    )
}
