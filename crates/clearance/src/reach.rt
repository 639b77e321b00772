// Inner functions: of the corners in two faces the first that are reached: two corners along the direction, or a corner
// and an edge that it falls on.
ghost use Rattle.std.specs.Prelude.{Bool, ℕ, ◌≡◌, ◌^◌, ◌<◌, length};
ghost use Rattle.plane.specs.Point.{points};
ghost use Rattle.plane.specs.Refusal.{InRange, Valid};
ghost use Rattle.plane.specs.Clearance.{nearest, falls as clearance_falls};
ghost use Rattle.polygon.specs.Point.{at, Small};
ghost use Rattle.clearance.specs.Facing.{Facing};
ghost use Rattle.clearance.specs.Faces.{AtEnds, is_end, is_along, is_foot, tried};
ghost use Rattle.clearance.specs.Answer.{candidate_of};

use crate::face;
use crate::face::Face;
use polygon::point::Point;
use polygon::{corners, point, rules};

// Two corners by their positions; or a corner of one shape and an edge of the other.
#[derive(Clone, Copy)]
pub enum Pair {
    Corners { first: usize, second: usize },
    OnSecond { corner: usize, edge: usize },
    OnFirst { corner: usize, edge: usize },
}

// The first of all candidates that are reached in a direction: two corners first, then a corner of the first shape on
// an edge of the second, then the reverse; each by the smallest positions. They are thought to be near corner i of the
// first and corner j of the second.
// Ruled out: ties the other way.
pub fn first_reached(a: &[i32], b: &[i32], n: Point, i: usize, j: usize) -> Pair
    requires { Valid a.now × Valid b.now × Small (2 ^ 22) (at n)
        × Facing (points a.now) (points b.now) (at n)
        × (i < length (points a.now)) × (j < length (points b.now)) }
    ensures { candidate_of result ≡ nearest (points a.now) (points b.now) }
{
    let f = face::near(a, n, i);
    let g = face::near(b, face::against(n), j);
    if let Some((first, second)) = first_pair(f, g, |i, k| along(a, i, b, k, n)) {
        return Pair::Corners { first, second };
    }
    if let Some((corner, edge)) = first_pair(f, g, |c, e| foot(a, c, b, e, g)) {
        return Pair::OnSecond { corner, edge };
    }
    match first_pair(g, f, |c, e| foot(b, c, a, e, f)) {
        Some((corner, edge)) => Pair::OnFirst { corner, edge },
        None => Pair::Corners {
            first: 0,
            second: 0,
        },
    }
}

// The first of the four pairs of ends of two faces that passes a test. Each is tested by itself, since an iterator's
// `find` would ask for a test of any two positions.
fn first_pair<T: Fn(usize, usize) -> bool>(f: Face, g: Face, passes: T) -> Option<(usize, usize)>
    requires { AtEnds (λ i j. T.pre passes i j) f g }
    ensures { (test : ℕ → ℕ → Bool)
        → AtEnds (λ i j. (b : Bool) → T.post passes i j b → b ≡ test i j) f g
        → result ≡ tried test f g }
{
    if passes(f.first, g.first) {
        return Some((f.first, g.first));
    }
    if passes(f.first, g.last) {
        return Some((f.first, g.last));
    }
    if passes(f.last, g.first) {
        return Some((f.last, g.first));
    }
    if passes(f.last, g.last) {
        return Some((f.last, g.last));
    }
    None
}

// Whether the step from corner j of b to corner i of a is along a direction: neither to its left nor to its right.
fn along(a: &[i32], i: usize, b: &[i32], j: usize, n: Point) -> bool
    requires { (i < length (points a.now)) × (j < length (points b.now)) × InRange a.now × InRange b.now
        × Small (2 ^ 22) (at n) }
    ensures { result ≡ is_along (at n) (points a.now) (points b.now) i j }
{
    let beside = point::cross(
        n,
        point::step(corners::corner_at(b, j), corners::corner_at(a, i)),
    );
    0 <= beside && beside <= 0
}

// Whether corner c of a falls strictly inside edge e of b, whose other end is in the face as well.
// Ruled out: foot at the end counted as inside.
fn foot(a: &[i32], c: usize, b: &[i32], e: usize, g: Face) -> bool
    requires { (c < length (points a.now)) × (e < length (points b.now)) × InRange a.now × InRange b.now }
    ensures { result ≡ is_foot g (points a.now) (points b.now) c e }
{
    let end = rules::next(corners::count(b), e);
    if !holds(g, end) {
        return false;
    }
    falls(
        corners::corner_at(b, e),
        corners::corner_at(b, end),
        corners::corner_at(a, c),
    )
}

// Whether a position is one of the two ends of a face.
fn holds(g: Face, i: usize) -> bool
    ensures { result ≡ is_end g i }
{
    i == g.first || i == g.last
}

// Whether the foot of c on the line from p to q is strictly inside the edge.
fn falls(p: Point, q: Point, c: Point) -> bool
    requires { Small (2 ^ 21) (at p) × Small (2 ^ 21) (at q) × Small (2 ^ 21) (at c) }
    ensures { result ≡ clearance_falls (at p) (at q) (at c) }
{
    let way = point::dot(point::step(p, q), point::step(p, c));
    let squared = point::squared(p, q);
    0 < way && way < squared
}
