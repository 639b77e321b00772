// Inner functions: the outer normal of the edge that a step of a walk passes.
ghost use Rattle.std.specs.Prelude.{cond, ◌≡◌, ◌^◌, ltb};
ghost use Rattle.plane.specs.Cut.{outward};
ghost use Rattle.polygon.specs.Point.{at, Small};
ghost use Rattle.calipers.specs.Side.{corner_of};

use calipers::side;
use calipers::side::Side;
use polygon::point::Point;

// The outer normal of the edge that a step from the sides s and t to m and n passes: of the first shape's, if it goes
// on, else of the second's. Where both go on, their edges point the same way; the sum of the two could be too long.
// Ruled out: normal of the joined edge.
pub fn passed_normal(s: Side, t: Side, m: Side, n: Side) -> Point
    requires { Small (2 ^ 21) (corner_of s) × Small (2 ^ 21) (corner_of t)
        × Small (2 ^ 21) (corner_of m) × Small (2 ^ 21) (corner_of n) }
    ensures { at result ≡ cond (ltb s.at m.at) (outward (corner_of s) (corner_of m))
        (outward (corner_of t) (corner_of n)) }
{
    if s.at < m.at {
        return normal(side::here(s, t), side::here(m, t));
    }
    normal(side::here(s, t), side::here(s, n))
}

// The outer normal of an edge from p to q: to its right.
fn normal(p: Point, q: Point) -> Point
    requires { Small (2 ^ 22) (at p) × Small (2 ^ 22) (at q) }
    ensures { at result ≡ outward (at p) (at q) }
{
    Point {
        x: q.y - p.y,
        y: p.x - q.x,
    }
}
