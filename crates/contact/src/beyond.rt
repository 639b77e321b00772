// Inner functions: whether a way keeps to one side of the box about a grown obstacle, which then need not be written.
ghost use Rattle.std.specs.Prelude.{true, [], ◌∷◌, ◌≡◌, ◌^◌};
ghost use Rattle.integer.specs.Bound.{Within};
ghost use Rattle.plane.specs.Point.{points};
ghost use Rattle.plane.specs.Refusal.{Valid};
ghost use Rattle.plane.specs.Separation.{apart};
ghost use Rattle.polygon.specs.Extent.{Extends};
ghost use Rattle.polygon.specs.Point.{at, Small};
ghost use Rattle.growth.specs.Grown.{grown};
ghost use Rattle.contact.specs.Share.{Places, is_beside, is_past, box_corner, box_part};

use polygon::extent::Extent;
use polygon::point;
use polygon::point::Point;

// Whether a line has both ends of a way on one side, and on the other the box about an obstacle grown by a cart: an
// upright or a level line, or one along the way. Then they are apart.
pub fn is_beyond(obstacle: &[i32], cart: &[i32], t: Point, u: Point) -> bool
    requires { Valid obstacle.now × Valid cart.now × Places (at t) (at u) }
    ensures { result ≡ true → apart (at t ∷ at u ∷ [])
        (grown (points obstacle.now) (points cart.now)) ≡ true }
{
    let span = grown_extent(obstacle, cart);
    let along = point::step(t, u);
    let across = Point {
        x: -along.y,
        y: along.x,
    };
    is_beside(span, Point { x: 1, y: 0 }, t, u)
        || is_beside(span, Point { x: 0, y: 1 }, t, u)
        || is_beside(span, across, t, u)
}

// How far an obstacle grown by a cart reaches: supports add, and those of the mirrored cart are exchanged.
fn grown_extent(obstacle: &[i32], cart: &[i32]) -> Extent
    requires { Valid obstacle.now × Valid cart.now }
    ensures extends { Extends (grown (points obstacle.now) (points cart.now)) result }
    ensures small { Small (2 ^ 22) (at result.high) × Small (2 ^ 22) (at result.low) }
{
    let e = sums::extent::extent_of(obstacle);
    let f = sums::extent::extent_of(cart);
    Extent {
        high: point::step(point::opposite(f.low), e.high),
        low: point::step(point::opposite(f.high), e.low),
    }
}

// Whether two places are past a box in a direction, or both in the opposite one.
fn is_beside(e: Extent, d: Point, t: Point, u: Point) -> bool
    requires { Small (2 ^ 22) (at e.high) × Small (2 ^ 22) (at e.low) × Small (2 ^ 21) (at d)
        × Places (at t) (at u) }
    ensures { result ≡ is_beside (at e.high) (at e.low) (at d) (at t) (at u) }
{
    is_past(e, d, t, u) || is_past(e, point::opposite(d), t, u)
}

// Whether two places are further in a direction than all of a box.
// Ruled out: one end past a side taken for both.
fn is_past(e: Extent, d: Point, t: Point, u: Point) -> bool
    requires { Small (2 ^ 22) (at e.high) × Small (2 ^ 22) (at e.low) × Small (2 ^ 21) (at d)
        × Places (at t) (at u) }
    ensures { result ≡ is_past (at e.high) (at e.low) (at d) (at t) (at u) }
{
    let far = point::dot(d, far_corner(e, d));
    far < point::dot(d, t) && far < point::dot(d, u)
}

// The corner of a box that is furthest in a direction.
fn far_corner(e: Extent, d: Point) -> Point
    requires { Small (2 ^ 22) (at e.high) × Small (2 ^ 22) (at e.low) × Small (2 ^ 21) (at d) }
    ensures { at result ≡ box_corner (at e.high) (at e.low) (at d) }
{
    let x = far_part(d.x, e.high.x, e.low.x);
    let y = far_part(d.y, e.high.y, e.low.y);
    Point { x, y }
}

// The greater end of a box in one coordinate, or its smaller end for a direction below 0.
fn far_part(d: i32, high: i32, low: i32) -> i32
    requires { Within (2 ^ 22) low }
    ensures { result ≡ box_part d high low }
{
    if d < 0 { -low } else { high }
}
