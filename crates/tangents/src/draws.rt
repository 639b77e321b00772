// Inner functions: whether a point draws the start of a line away.
ghost use Rattle.std.specs.Prelude.{◌≡◌, ◌^◌};
ghost use Rattle.polygon.specs.Point.{at, Small};
ghost use Rattle.tangents.specs.Draws.{draws as draws_draws};

use polygon::point;
use polygon::point::Point;

// Whether x draws the start of the line to q away from p: it is not on side s, or on the line and ahead of p.
pub fn draws(p: Point, q: Point, x: Point, s: bool) -> bool
    requires { Small (2 ^ 21) (at p) × Small (2 ^ 21) (at q) × Small (2 ^ 21) (at x) }
    ensures { result ≡ draws_draws s (at p) (at q) (at x) }
{
    let line = point::step(p, q);
    let other = point::step(p, x);
    let turn = point::cross(line, other);
    if turn < 0 {
        return s;
    }
    if 0 < turn {
        return !s;
    }
    0 < point::dot(line, other)
}
