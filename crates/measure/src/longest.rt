// Inner functions: the two corners of a shape that are furthest apart. They are antipodal, so that the half walk comes
// to them.
ghost use Rattle.std.specs.Prelude.{◌≡◌, ◌^◌, ◌≤◌, length};
ghost use Rattle.plane.specs.Point.{points};
ghost use Rattle.plane.specs.Refusal.{Valid};
ghost use Rattle.polygon.specs.Point.{Small};
ghost use Rattle.calipers.specs.Side.{corner_of};
ghost use Rattle.measure.specs.Answer.{IsLength};
ghost use Rattle.measure.specs.Partway.{Begins, Search};
ghost use Rattle.measure.specs.Scan.{pair_at, apart_at, Kept};

use crate::half::Partway;
use crate::{Length, half, magnitude};
use calipers::side::Side;
use calipers::{edges, side};
use polygon::{corners, peak};

// The first of all pairs at the greatest distance. The best so far is carried with its distance.
pub fn longest(list: &[i32]) -> Length
    requires { Valid list.now }
    ensures { IsLength (points list.now) result }
{
    let n = corners::count(list);
    let top = peak::top(list);
    let end = edges::sides(list);
    let from = stride(list, n, top, end);
    let mut s = from.s;
    let mut t = from.t;
    let mut best = from.best;
    while s.at + t.at < top + end {
        let right = half::goes_right(top, end, s, t);
        s = side::next(list, s, !right);
        t = side::next(list, t, right);
        best = better(best, apart(n, s, t));
    }
    best
}

// The half walk as long as both chains have edges left: one branch by the sign, and no test for the end of a chain. The
// pairs come in the order of their positions, so that only one further apart is better.
fn stride(list: &[i32], n: usize, top: usize, end: usize) -> Partway<Length>
    requires { Begins list.now top end × (n ≡ length (points list.now)) }
    ensures { Search list.now n top end result.s result.t result.best }
{
    let mut s = side::side_at(list, 0);
    let mut t = side::side_at(list, top);
    let mut best = apart(n, s, t);
    while half::are_inside(top, end, s, t) {
        if side::order(s, t) < 0 {
            s = side::ahead(list, s, false);
            best = longer(best, s, t);
        } else {
            t = side::ahead(list, t, false);
            best = longer(best, s, t);
        }
    }
    Partway { s, t, best }
}

// The better of a pair and the pair of corners at two sides, which comes after it.
fn longer(best: Length, s: Side, t: Side) -> Length
    requires { Small (2 ^ 21) (corner_of s) × Small (2 ^ 21) (corner_of t) × (best.from ≤ s.at)
        × (best.to ≤ t.at) }
    ensures { Kept best (pair_at s t) result × (result.from ≤ s.at) × (result.to ≤ t.at) }
{
    let squared = magnitude::magnitude(side::squared(s, t));
    if squared <= best.squared {
        return best;
    }
    Length {
        squared,
        from: s.at,
        to: t.at,
    }
}

// The pair of corners at two sides of n corners, s on the right-hand chain and t on the left-hand one. After the last
// corner comes the first again, which is then given first.
fn apart(n: usize, s: Side, t: Side) -> Length
    requires { Small (2 ^ 21) (corner_of s) × Small (2 ^ 21) (corner_of t) }
    ensures { result ≡ apart_at n s t }
{
    let squared = magnitude::magnitude(side::squared(s, t));
    if t.at == n {
        return Length {
            squared,
            from: 0,
            to: s.at,
        };
    }
    Length {
        squared,
        from: s.at,
        to: t.at,
    }
}

// The better of two pairs: further apart, then earlier, by the first position and then by the second.
fn better(best: Length, next: Length) -> Length
    ensures { Kept best next result }
{
    if (best.squared, next.from, next.to) < (next.squared, best.from, best.to) {
        next
    } else {
        best
    }
}
