// Inner functions: the direction from one shape to another along which they are nearest, by a walk round the corners of
// their differences: the sum of the first and the mirror image of the second, whose peak is at position top.
ghost use Rattle.std.specs.Prelude.{◌≡◌, ◌^◌};
ghost use Rattle.plane.specs.Point.{points, corner, ◌⊖◌};
ghost use Rattle.plane.specs.Refusal.{Valid};
ghost use Rattle.plane.specs.Cut.{quarter};
ghost use Rattle.plane.specs.VectorSum.{vector_sum};
ghost use Rattle.polygon.specs.Peak.{Peak};
ghost use Rattle.polygon.specs.Point.{at, Small};
ghost use Rattle.calipers.specs.Image.{image};
ghost use Rattle.separation.specs.Passing.{Stood};
ghost use Rattle.clearance.specs.Stop.{foot_inside, Stopped};
ghost use Rattle.clearance.specs.Stop.{rests as stop_rests, crosses as stop_crosses};
ghost use Rattle.clearance.specs.Sight.{NoOrigin, Looked};

use calipers::side::Side;
use calipers::{image, side};
use polygon::point;
use polygon::point::Point;

// Where a walk is: the direction there, and how many edges of each shape it has passed.
#[derive(Clone, Copy)]
pub struct Sight {
    pub n: Point,
    pub first: usize,
    pub second: usize,
}

// Looks for the closest place from the edge on where i edges of the first shape and j of the second are passed: the
// first that has the origin to its right, if any has. Before it there is none, unless a corner is so sharp that the
// origin is to the right of one of its edges alone: then all are looked at. The first corner is what is left if no
// other place is found.
pub fn facing(a: &[i32], b: &[i32], top: usize, i: usize, j: usize) -> Sight
    requires { Valid a.now × Valid b.now × Peak (points b.now) top × Stood a.now (image b.now) i j
        × NoOrigin (vector_sum (points a.now) (points (image b.now))) }
    ensures { Small (2 ^ 22) (at result.n)
        × Stopped (vector_sum (points a.now) (points (image b.now))) (at result.n) }
{
    look(a, b, top, i, j)
        .or_else(|| look(a, b, top, 0, 0))
        .unwrap_or_else(|| begun(a, b, top))
}

// The first corner of the differences, where no edge is passed.
fn begun(a: &[i32], b: &[i32], top: usize) -> Sight
    requires { Valid a.now × Valid b.now × Peak (points b.now) top }
    ensures { Small (2 ^ 22) (at result.n)
        × (at result.n ≡ corner (vector_sum (points a.now) (points (image b.now))) 0) }
{
    let s = side::side_at(a, 0);
    let t = image::side_at(b, top, 0);
    seen(side::here(s, t), s, t)
}

// The walk begins where i edges of the first shape and j of the second are passed. It stops at a corner that neither of
// its neighbours is nearer than, along itself; or at an edge that has the origin to its right and the origin's foot
// strictly inside. The corner before the first is not known when the walk is at the first: the origin takes its place.
fn look(a: &[i32], b: &[i32], top: usize, i: usize, j: usize) -> Option<Sight>
    requires { Valid a.now × Valid b.now × Peak (points b.now) top × Stood a.now (image b.now) i j
        × NoOrigin (vector_sum (points a.now) (points (image b.now))) }
    ensures { Looked a.now (image b.now) i j result }
{
    let mut s = side::side_at(a, i);
    let mut t = image::side_at(b, top, j);
    let all = s.end + t.end;
    let mut back = Point { x: 0, y: 0 };
    'walk: loop {
        let c = side::order(s, t);
        let m = side::next(a, s, c < 0);
        let n = image::next(b, top, t, 0 < c);
        let here = side::here(s, t);
        let there = side::here(m, n);
        if rests(back, here, there) {
            return Some(seen(here, s, t));
        }
        if crosses(here, there) {
            return Some(seen(across(here, there), s, t));
        }
        if m.at + n.at == all {
            return None;
        }
        back = here;
        s = m;
        t = n;
    }
}

// A direction, with the sides at which it was found.
fn seen(n: Point, s: Side, t: Side) -> Sight
    ensures { at result.n ≡ at n }
{
    Sight {
        n,
        first: s.at,
        second: t.at,
    }
}

// Whether, of three corners one after another, neither neighbour of w is nearer to the origin along w.
fn rests(p: Point, w: Point, d: Point) -> bool
    requires { Small (2 ^ 22) (at p) × Small (2 ^ 22) (at w) × Small (2 ^ 22) (at d) }
    ensures { result ≡ stop_rests (at p) (at w) (at d) }
{
    let own = point::dot(w, w);
    let one = point::dot(w, p);
    let other = point::dot(w, d);
    own <= one && own <= other
}

// Whether the edge from w to d has the origin to its right, and its foot strictly inside.
fn crosses(w: Point, d: Point) -> bool
    requires { Small (2 ^ 22) (at w) × Small (2 ^ 22) (at d) }
    ensures { result ≡ stop_crosses (at w) (at d) }
{
    let inside = foot_inside(w, d);
    let turn = point::cross(w, d);
    turn < 0 && inside
}

// Whether the foot of the origin on the line from w to d is strictly between them.
fn foot_inside(w: Point, d: Point) -> bool
    requires { Small (2 ^ 22) (at w) × Small (2 ^ 22) (at d) }
    ensures { result ≡ foot_inside (at w) (at d) }
{
    let along = point::dot(w, d);
    let own = point::dot(w, w);
    let other = point::dot(d, d);
    along < own && along < other
}

// The step from w to d, turned left by a quarter.
fn across(w: Point, d: Point) -> Point
    requires { Small (2 ^ 21) (at w) × Small (2 ^ 21) (at d) }
    ensures { at result ≡ quarter (at d ⊖ at w) }
{
    Point {
        x: w.y - d.y,
        y: d.x - w.x,
    }
}
