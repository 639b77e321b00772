// Inner functions: the corner of a shape that is furthest in a direction, found by going round.
ghost use Rattle.std.specs.Prelude.{◌≡◌, ◌<◌, ◌^◌, pos, length};
ghost use Rattle.std.specs.Int.Signed.{lt_z};
ghost use Rattle.plane.specs.Point.{points, corner, ◌⊖◌};
ghost use Rattle.plane.specs.Shape.{next};
ghost use Rattle.plane.specs.Refusal.{Valid};
ghost use Rattle.plane.specs.Direction.{value};
ghost use Rattle.plane.specs.Face.{Furthest};
ghost use Rattle.polygon.specs.Point.{at, Small};
ghost use Rattle.boxes.specs.Scan.{Aimed};

use calipers::edges;
use polygon::point::Point;
use polygon::{corners, point};

// Returns the corner that is furthest in a direction: the first on the way round from `start` after which the next one
// is no further.
pub fn furthest_from(list: &[i32], d: Point, start: usize) -> usize
    requires { Aimed list.now (at d) start }
    ensures { Furthest (at d) (points list.now) result }
{
    let mut i = start;
    while rises(list, d, i) {
        i = edges::round(list, i + 1);
    }
    i
}

// Whether the next corner is further.
fn rises(list: &[i32], d: Point, i: usize) -> bool
    requires { Valid list.now × (i < length (points list.now)) × Small (2 ^ 22) (at d) }
    ensures { result ≡ lt_z (pos 0) (value (at d) (corner (points list.now)
        (next (length (points list.now)) i) ⊖ corner (points list.now) i)) }
{
    0 < point::dot(d, edge_at(list, i))
}

// Returns the edge that leaves a corner, as a vector.
pub fn edge_at(list: &[i32], edge: usize) -> Point
    requires { Valid list.now × (edge < length (points list.now)) }
    ensures { at result ≡ corner (points list.now) (next (length (points list.now)) edge)
        ⊖ corner (points list.now) edge }
{
    let end = edges::round(list, edge + 1);
    point::step(
        corners::corner_at(list, edge),
        corners::corner_at(list, end),
    )
}
