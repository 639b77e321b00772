// Inner functions: the calipers about a shape, closed on one of its edges.
ghost use Rattle.std.specs.Prelude.{◌≡◌, ◌<◌, ◌^◌, pos, length};
ghost use Rattle.plane.specs.Point.{points};
ghost use Rattle.plane.specs.Refusal.{Valid};
ghost use Rattle.plane.specs.Cut.{quarter as cut_quarter};
ghost use Rattle.plane.specs.Measure.{height as measure_height, edge_squared};
ghost use Rattle.polygon.specs.Point.{at, Small};
ghost use Rattle.boxes.specs.Box.{along as box_along};
ghost use Rattle.boxes.specs.Scan.{Closing, Holds, Taken};

use crate::climb;
use calipers::edges;
use measure::magnitude;
use polygon::point::Point;
use polygon::{corners, point};

// The corners at which the box on an edge touches the shape: the one furthest from the edge, the one furthest along it
// and the one furthest back.
#[derive(Clone, Copy)]
pub struct Jaws {
    pub high: usize,
    pub far: usize,
    pub near: usize,
}

// Returns the calipers closed on the first edge. The corner furthest from it is on the way to the one furthest back. It
// repeats `closed`, which is called from one place, so that it becomes part of the loop there.
// Ruled out: corner furthest back sought too early.
pub fn first(list: &[i32]) -> Jaws
    requires { Valid list.now × (2 < length (points list.now)) }
    ensures { Holds (points list.now) 0 result }
{
    let along = climb::edge_at(list, 0);
    let far = climb::furthest_from(list, along, 1);
    let high = climb::furthest_from(list, quarter(along), 1);
    let near = climb::furthest_from(list, point::opposite(along), high);
    Jaws { high, far, near }
}

// Returns the calipers closed on an edge, each on its way from where it was.
pub fn closed(list: &[i32], edge: usize, from: Jaws) -> Jaws
    requires { Closing list.now edge from }
    ensures { Holds (points list.now) edge result }
{
    let along = climb::edge_at(list, edge);
    let high = climb::furthest_from(list, quarter(along), from.high);
    let far = climb::furthest_from(list, along, from.far);
    let near = climb::furthest_from(list, point::opposite(along), from.near);
    Jaws { high, far, near }
}

// Returns the greatest turn over the corners.
pub fn height(list: &[i32], edge: usize, at: Jaws) -> u64
    requires { Taken list.now edge at }
    ensures { (measure_height (points list.now) edge ≡ pos result) × (result < 2 ^ 63) }
{
    let end = edges::round(list, edge + 1);
    magnitude::magnitude(corners::turn_at(list, edge, end, at.high))
}

// Returns the spread of the corners' values along the edge.
pub fn along(list: &[i32], edge: usize, at: Jaws) -> u64
    requires { Taken list.now edge at }
    ensures { (box_along (points list.now) edge ≡ pos result) × (result < 2 ^ 63) }
{
    let near = corners::corner_at(list, at.near);
    let far = corners::corner_at(list, at.far);
    magnitude::magnitude(point::dot(climb::edge_at(list, edge), point::step(near, far)))
}

// Returns the squared length of the edge.
pub fn squared(list: &[i32], edge: usize) -> u64
    requires { Valid list.now × (edge < length (points list.now)) }
    ensures { edge_squared (points list.now) edge ≡ pos result }
{
    let along = climb::edge_at(list, edge);
    magnitude::magnitude(point::dot(along, along))
}

// Returns a vector turned left by a quarter.
fn quarter(d: Point) -> Point
    requires { Small (2 ^ 21) (at d) }
    ensures { at result ≡ cut_quarter (at d) }
{
    Point { x: -d.y, y: d.x }
}
