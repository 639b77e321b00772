// Inner functions: the walk round the differences of two shapes as long as both have three edges left, or the first is
// a point and the second has, and the origin is strictly to the left of each edge. No step tests for the end of both
// shapes, and the turn is taken by the passed edge: that is quicker.
ghost use Rattle.std.specs.Prelude.{◌≡◌, ◌^◌};
ghost use Rattle.plane.specs.Point.{points, ◌⊕◌};
ghost use Rattle.plane.specs.Refusal.{Valid};
ghost use Rattle.plane.specs.Turn.{cross};
ghost use Rattle.polygon.specs.Peak.{Peak};
ghost use Rattle.polygon.specs.Point.{at, Small};
ghost use Rattle.calipers.specs.Image.{image};
ghost use Rattle.calipers.specs.Side.{next_of};
ghost use Rattle.separation.specs.Passing.{Strode};

use calipers::side::Side;
use calipers::{image, side};
use polygon::point::Point;

// The sides to which the walk came, and at how many steps both went on.
#[derive(Clone, Copy)]
pub struct Partway {
    pub s: Side,
    pub t: Side,
    pub joined: usize,
}

// Passes edges, each once, up to one that does not have the origin to its left, or to the last edges of a shape.
// Ruled out: edge through the origin passed.
pub fn stride(a: &[i32], b: &[i32], top: usize) -> Partway
    requires { Valid a.now × Valid b.now × Peak (points b.now) top }
    ensures { Strode a.now (image b.now) result.s result.t result.joined }
{
    let mut s = side::side_at(a, 0);
    let mut t = alone(a, b, top, s, image::side_at(b, top, 0));
    let mut joined = 0;
    if !side::are_inside(s, t) {
        return Partway { s, t, joined };
    }
    loop {
        let from = side::here(s, t);
        let c = side::order(s, t);
        if 0 < c {
            let stays = moment(from, s) <= 0;
            if stays {
                return Partway { s, t, joined };
            }
            s = side::ahead(a, s, false);
        } else if c < 0 {
            if moment(from, t) <= 0 {
                return Partway { s, t, joined };
            }
            t = image::ahead(b, top, t, false);
        } else {
            if joint_moment(from, s, t) <= 0 {
                return Partway { s, t, joined };
            }
            s = side::ahead(a, s, false);
            t = image::ahead(b, top, t, false);
            joined += 1;
        }
        if !side::are_inside(s, t) {
            return Partway { s, t, joined };
        }
    }
}

// Where the first shape is a point, the same of the second by itself: its side is returned. Else it stays where it is.
fn alone(a: &[i32], b: &[i32], top: usize, s: Side, t: Side) -> Side
    requires { Valid a.now × Valid b.now × Peak (points b.now) top × Strode a.now (image b.now) s t 0 }
    ensures { Strode a.now (image b.now) s result 0 }
{
    let mut n = t;
    if s.at < s.end {
        return n;
    }
    while n.at + 2 < n.end {
        if moment(side::here(s, n), n) <= 0 {
            return n;
        }
        n = image::ahead(b, top, n, false);
    }
    n
}

// The moment about the origin of the next edge of a side, where it leaves p: positive if the origin is to its left.
fn moment(p: Point, s: Side) -> i64
    requires { Small (2 ^ 22) (at p) × Small (2 ^ 22) (next_of s) }
    ensures { result ≡ cross (at p) (next_of s) }
{
    i64::from(p.x) * s.rise - i64::from(p.y) * s.run
}

// The same of the next edges of two sides, made one.
fn joint_moment(p: Point, s: Side, t: Side) -> i64
    requires { Small (2 ^ 22) (at p) × Small (2 ^ 22) (next_of s) × Small (2 ^ 22) (next_of t) }
    ensures { result ≡ cross (at p) (next_of s ⊕ next_of t) }
{
    i64::from(p.x) * (s.rise + t.rise) - i64::from(p.y) * (s.run + t.run)
}
