// Inner functions: the walk of a line's start round a list, from neighbour to neighbour, to the corner where it rests.
ghost use Rattle.std.specs.Prelude.{◌≡◌, ◌^◌, ◌<◌, length};
ghost use Rattle.plane.specs.Point.{points, corner};
ghost use Rattle.plane.specs.Refusal.{InRange};
ghost use Rattle.plane.specs.Shape.{next};
ghost use Rattle.polygon.specs.Point.{at, Small};
ghost use Rattle.tangents.specs.Draws.{draws as draws_draws, Rests, Beside, Slid, Better, Ready};

use crate::draws;
use polygon::point::Point;
use polygon::{corners, rules};

// The position where the start of the line to q rests, found by walking from a position of the list one way round; the
// other way where it does not move. A corner that it came from does not draw it back.
pub fn settle(list: &[i32], from: usize, q: Point, s: bool, forward: bool) -> usize
    requires { Ready list.now from (at q) }
    ensures { Rests s (points list.now) result (at q) }
{
    let i = slid(list, from, q, s, forward);
    if i == from {
        return slid(list, from, q, s, !forward);
    }
    i
}

// The position that the start of the line to q comes to by walking one way round, as long as the next corner draws it.
fn slid(list: &[i32], from: usize, q: Point, s: bool, forward: bool) -> usize
    requires { Ready list.now from (at q) }
    ensures { Slid s forward (points list.now) (at q) from result }
{
    let n = corners::count(list);
    let mut i = from;
    loop {
        let k = beside(n, i, forward);
        if !drawn(list, i, k, q, s) {
            return i;
        }
        i = k;
    }
}

// The position after i on the way round n corners, or the one before it.
fn beside(n: usize, i: usize, forward: bool) -> usize
    requires { i < n }
    ensures { (result < n) × Beside forward n i result }
{
    if forward {
        rules::next(n, i)
    } else {
        previous(n, i)
    }
}

// A neighbour of corner i that draws the start of the line to q away from it; none where it rests.
pub fn better(list: &[i32], i: usize, q: Point, s: bool) -> Option<usize>
    requires { Ready list.now i (at q) }
    ensures { Better s (points list.now) i (at q) result }
{
    let n = corners::count(list);
    let after = rules::next(n, i);
    if drawn(list, i, after, q, s) {
        return Some(after);
    }
    let before = previous(n, i);
    if drawn(list, i, before, q, s) {
        return Some(before);
    }
    None
}

// Whether corner k draws the start of the line to q away from corner i.
fn drawn(list: &[i32], i: usize, k: usize, q: Point, s: bool) -> bool
    requires { (i < length (points list.now)) × (k < length (points list.now)) × InRange list.now
        × Small (2 ^ 21) (at q) }
    ensures { result ≡ draws_draws s (corner (points list.now) i) (at q)
        (corner (points list.now) k) }
{
    draws::draws(
        corners::corner_at(list, i),
        q,
        corners::corner_at(list, k),
        s,
    )
}

// The position before i on the way round n corners.
fn previous(n: usize, i: usize) -> usize
    requires { i < n }
    ensures { (result < n) × (next n result ≡ i) }
{
    if i == 0 { n - 1 } else { i - 1 }
}
