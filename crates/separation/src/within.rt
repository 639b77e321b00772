// Inner functions: whether a shape is inside a polygon, by one walk round both; and inside a point or a segment.
ghost use Rattle.std.specs.Prelude.{[], ◌∷◌, ◌≡◌, ◌^◌, ◌<◌, length};
ghost use Rattle.plane.specs.Point.{points};
ghost use Rattle.plane.specs.Refusal.{Valid};
ghost use Rattle.plane.specs.Separation.{inside};
ghost use Rattle.polygon.specs.Point.{at, Small};

use calipers::side;
use polygon::point::Point;
use polygon::{corners, point};

// Whether a is inside b, which has three corners or more: no corner of a is to the right of an edge of b. Where the
// walk passes an edge of b, the corner of a at hand is the one least to its left: only that one is asked.
pub fn in_polygon(a: &[i32], b: &[i32]) -> bool
    requires { Valid a.now × Valid b.now × (2 < length (points b.now)) }
    ensures { result ≡ inside (points a.now) (points b.now) }
{
    let n = corners::count(b);
    let mut s = side::side_at(a, 0);
    let mut t = side::side_at(b, 0);
    while t.at < n {
        let c = side::order(s, t);
        let passes = c <= 0;
        if passes && side::turn(t, s) < 0 {
            return false;
        }
        s = side::next(a, s, c < 0);
        t = side::next(b, t, 0 < c);
    }
    true
}

// Whether a is inside the segment from p to q, which are a point if they are equal: each corner of a is on it.
pub fn in_segment(a: &[i32], p: Point, q: Point) -> bool
    requires { Valid a.now × Small (2 ^ 21) (at p) × Small (2 ^ 21) (at q) }
    ensures { result ≡ inside (points a.now) (at p ∷ at q ∷ []) }
{
    for i in 0..corners::count(a) {
        if !on_segment(corners::corner_at(a, i), p, q) {
            return false;
        }
    }
    true
}

// Whether x is on the segment from p to q: on its line, and the steps to its ends do not point the same way.
fn on_segment(x: Point, p: Point, q: Point) -> bool
    requires { Small (2 ^ 21) (at x) × Small (2 ^ 21) (at p) × Small (2 ^ 21) (at q) }
    ensures { result ≡ inside (at x ∷ []) (at p ∷ at q ∷ []) }
{
    let to_first = point::step(x, p);
    let to_last = point::step(x, q);
    point::cross(to_first, to_last) == 0 && point::dot(to_first, to_last) <= 0
}
