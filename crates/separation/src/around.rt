// Inner functions: the origin against the differences of two shapes, in one walk round their corners: the sum of the
// first and the mirror image of the second, whose peak is at position top.
ghost use Rattle.std.specs.Prelude.{◌≡◌, ◌^◌};
ghost use Rattle.plane.specs.Point.{points, corner};
ghost use Rattle.plane.specs.Refusal.{Valid};
ghost use Rattle.plane.specs.Separation.{relation_number};
ghost use Rattle.plane.specs.VectorSum.{vector_sum};
ghost use Rattle.polygon.specs.Peak.{Peak};
ghost use Rattle.polygon.specs.Point.{at, Small};
ghost use Rattle.calipers.specs.Image.{image};
ghost use Rattle.separation.specs.Answer.{number_of};
ghost use Rattle.separation.specs.Around.{Passed, origin_on};
ghost use Rattle.separation.specs.Passing.{Stood};

use crate::answer::Relation;
use crate::{normal, stride};
use calipers::{image, side};
use polygon::point;
use polygon::point::Point;

// What a walk round the edges saw: the outer normal of an edge that has the origin to its right, at which it stops; if
// none has, how many edges there are, and whether the origin is not to the left of one.
#[derive(Clone, Copy)]
pub enum Seen {
    Outside(Point),
    Round { count: usize, rim: bool },
}

// What a walk round the edges saw, and how many edges of each shape are passed before the edge at which it ended.
#[derive(Clone, Copy)]
pub struct Sides {
    pub seen: Seen,
    pub first: usize,
    pub second: usize,
}

// How the shapes relate, by what the pass saw: apart if the origin is outside, touching if on the rim, else
// overlapping.
pub fn related(a: &[i32], b: &[i32], top: usize, sides: Sides) -> Relation
    requires { Valid a.now × Valid b.now × Peak (points b.now) top
        × Passed (vector_sum (points a.now) (points (image b.now))) sides }
    ensures { number_of result ≡ relation_number (points a.now) (points b.now) }
{
    let Seen::Round { count, rim } = sides.seen else {
        return Relation::Apart;
    };
    if count < 3 {
        return if is_on(a, b, top) {
            Relation::Touching
        } else {
            Relation::Apart
        };
    }
    if rim {
        return Relation::Touching;
    }
    Relation::Overlapping
}

// Whether the origin is on a point or a segment that has it on its line: the first two corners do not lie the same way.
pub fn is_on(a: &[i32], b: &[i32], top: usize) -> bool
    requires { Valid a.now × Valid b.now × Peak (points b.now) top }
    ensures { result ≡ origin_on (vector_sum (points a.now) (points (image b.now))) }
{
    let s = side::side_at(a, 0);
    let t = image::side_at(b, top, 0);
    let c = side::order(s, t);
    let m = side::next(a, s, c < 0);
    let n = image::next(b, top, t, 0 < c);
    point::dot(side::here(s, t), side::here(m, n)) <= 0
}

// The first corner of the differences.
pub fn first(a: &[i32], b: &[i32], top: usize) -> Point
    requires { Valid a.now × Valid b.now × Peak (points b.now) top }
    ensures result_value { at result ≡ corner (vector_sum (points a.now) (points (image b.now))) 0 }
    ensures small { Small (2 ^ 21) (at result) }
{
    side::here(side::side_at(a, 0), image::side_at(b, top, 0))
}

// Passes the edges, each once, up to one that has the origin to its right, or the last: most of them in a stride. After
// the last edge both sides are at their first corners again.
pub fn pass(a: &[i32], b: &[i32], top: usize) -> Sides
    requires { Valid a.now × Valid b.now × Peak (points b.now) top }
    ensures passed { Passed (vector_sum (points a.now) (points (image b.now))) result }
    ensures stood { Stood a.now (image b.now) result.first result.second }
{
    let far = stride::stride(a, b, top);
    let mut s = far.s;
    let mut t = far.t;
    let all = s.end + t.end;
    let mut count = s.at + t.at - far.joined;
    let mut rim = false;
    loop {
        let from = side::here(s, t);
        let c = side::order(s, t);
        let m = side::next(a, s, c < 0);
        let n = image::next(b, top, t, 0 < c);
        let turn = point::cross(from, side::here(m, n));
        rim |= turn <= 0;
        count += 1;
        if turn < 0 {
            return Sides {
                seen: Seen::Outside(normal::passed_normal(s, t, m, n)),
                first: s.at,
                second: t.at,
            };
        }
        if m.at + n.at == all {
            return Sides {
                seen: Seen::Round { count, rim },
                first: s.at,
                second: t.at,
            };
        }
        s = m;
        t = n;
    }
}
