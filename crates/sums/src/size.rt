// Inner functions: the size of a sum before it is written: how many corners it has, and whether one is out of range.
ghost use Rattle.std.specs.Prelude.{true, false, cond, ◌≡◌, ◌+◌, ◌*◌, ◌^◌, ◌<◌, ◌≤◌, length};
ghost use Rattle.plane.specs.Limits.{max_corners};
ghost use Rattle.plane.specs.Point.{points, numbers, corner, ◌⊖◌};
ghost use Rattle.plane.specs.Refusal.{Valid, InRange, some_outside};
ghost use Rattle.plane.specs.Corner.{shape_of, sums};
ghost use Rattle.calipers.specs.Walk.{At};
ghost use Rattle.polygon.specs.Point.{at};
ghost use Rattle.sums.specs.Advance.{state, side_of, next_corners, Walked};
ghost use Rattle.sums.specs.Size.{Reckoned};

use crate::walk::Partway;
use crate::{extent, walk};
use calipers::{edges, side};
use polygon::point::Point;
use polygon::{corners, limits, point};

// Returns the number of corners of a sum that is to be written to an output of `room` numbers. Where the corners of
// both shapes together are few enough, their number is returned instead: no sum has more. The count stops after one
// corner more than a shape may have: the sum is refused then, however many follow.
pub fn reckon(a: &[i32], b: &[i32], room: usize) -> usize
    requires { Valid a.now × Valid b.now }
    ensures { Reckoned (length (shape_of (sums (points a.now) (points b.now)))) room result }
{
    let most = corners::count(a) + corners::count(b);
    if suffices(most, room) {
        return most;
    }
    count_on(a, b, 0, 0, limits::MAX_CORNERS + 1)
}

// Returns whether a shape may have this number of corners, and an output of `room` numbers holds them.
// Ruled out: corners taken for numbers.
pub fn suffices(most: usize, room: usize) -> bool
    ensures { result ≡ true → (most ≤ max_corners) × (2 * most ≤ room) }
{
    !limits::exceeds_corners(most) && most <= room / 2
}

// Returns how many corners a walk would write that goes on from a place: k of them or what remains, whichever is less.
// It writes none.
pub fn count_on(a: &[i32], b: &[i32], i: usize, j: usize, k: usize) -> usize
    requires { At a.now b.now (state i j false) × (0 < k) }
    ensures { result ≡ length (next_corners a.now b.now (state i j false) k) }
{
    let far = begin(a, b, i, j, k);
    let mut s = side::side_at(a, far.first);
    let mut t = side::side_at(b, far.second);
    let all = s.end + t.end;
    let mut count = far.count;
    loop {
        count += 1;
        let c = side::order(s, t);
        s = side::next(a, s, c < 0);
        t = side::next(b, t, 0 < c);
        if s.at + t.at == all {
            return count;
        }
        if count == k {
            return count;
        }
    }
}

// Counts ahead where the shapes have corners in like numbers. Where one has few, a branch on the order of edges can be
// predicted, and the count of sides is quicker.
fn begin(a: &[i32], b: &[i32], i: usize, j: usize, k: usize) -> Partway<usize>
    requires { At a.now b.now (state i j false) × (0 < k) }
    ensures { Walked a.now b.now (state i j false) k result.count
        (side_of a.now result.first) (side_of b.now result.second) }
{
    if are_alike(corners::count(a), corners::count(b)) {
        return skim(a, b, i, j, k);
    }
    Partway {
        count: 0,
        first: i,
        second: j,
    }
}

// Returns whether neither number is more than four times the other.
fn are_alike(m: usize, n: usize) -> bool {
    m / 4 <= n && n / 4 <= m
}

// Counts as long as both shapes have three edges left and more than one corner may be counted. Both edges are read at
// every step, and no branch hangs on their order: it cannot be predicted.
fn skim(a: &[i32], b: &[i32], i: usize, j: usize, k: usize) -> Partway<usize>
    requires { At a.now b.now (state i j false) × (0 < k) }
    ensures { Walked a.now b.now (state i j false) k result.count
        (side_of a.now result.first) (side_of b.now result.second) }
{
    let m = edges::sides(a);
    let n = edges::sides(b);
    let mut first = i;
    let mut second = j;
    let mut count = 0;
    while walk::inside(first, m, second, n, count, k) {
        let c = point::cross(edge_at(a, first), edge_at(b, second));
        count += 1;
        first = one_more(first, c < 0);
        second = one_more(second, 0 < c);
    }
    Partway {
        count,
        first,
        second,
    }
}

// Returns the edge from corner i to the next, which is not the first.
fn edge_at(list: &[i32], i: usize) -> Point
    requires { (i + 1 < length (points list.now)) × InRange list.now }
    ensures { at result ≡ corner (points list.now) (i + 1) ⊖ corner (points list.now) i }
{
    point::step(corners::corner_at(list, i), corners::corner_at(list, i + 1))
}

// Returns one more, unless it waits.
fn one_more(i: usize, waits: bool) -> usize
    requires { i < 2 ^ 63 }
    ensures { result ≡ cond waits i (i + 1) }
{
    if waits { i } else { i + 1 }
}

// Returns whether these corners fit in an output of `room` numbers. They are counted only if neither k nor the corners
// of both shapes together settle it.
// Ruled out: room for one corner more asked.
pub fn has_room(a: &[i32], b: &[i32], i: usize, j: usize, k: usize, room: usize) -> bool
    requires { At a.now b.now (state i j false) × (0 < k) }
    ensures { (result ≡ true → 2 * length (next_corners a.now b.now (state i j false) k) ≤ room)
        × (result ≡ false → room < 2 * length (next_corners a.now b.now (state i j false) k)) }
{
    let most = room / 2;
    k <= most || corners::count(a) + corners::count(b) <= most || count_on(a, b, i, j, k) <= most
}

// Returns whether a corner of the sum is out of range.
pub fn is_far(a: &[i32], b: &[i32]) -> bool
    requires { Valid a.now × Valid b.now }
    ensures { result
        ≡ some_outside (numbers (shape_of (sums (points a.now) (points b.now)))) }
{
    polygon::extent::is_far(extent::extent_of(a), extent::extent_of(b))
}
