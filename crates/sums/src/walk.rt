// Inner functions: the caliper walk from any of its places on, and which states are its places.
ghost use Rattle.std.specs.Prelude.{true, false, ◌≡◌, ◌+◌, ◌*◌, ◌^◌, ◌<◌, ◌≤◌, length, take};
ghost use Rattle.plane.specs.Point.{points, numbers};
ghost use Rattle.plane.specs.Refusal.{Valid};
ghost use Rattle.plane.specs.Output.{overwritten};
ghost use Rattle.plane.specs.Forms.{edges as forms_edges};
ghost use Rattle.calipers.specs.Walk.{At};
ghost use Rattle.sums.specs.Advance.{state, next_corners, reached, Walked, Advanced};
ghost use Rattle.calipers.specs.Side.{walk_of};
ghost use Rattle.sums.specs.PlaceAfter.{is_place};
ghost use Rattle.sums.specs.PlaceTest.{ends as place_test_ends, follows as place_test_follows};

use calipers::round::{Plain, Round};
use calipers::side::Side;
use calipers::{edges, side};
use polygon::corners;

// How far a walk went: the corners that were written, the edges of each shape that are passed, and whether no corner is
// left.
#[derive(Clone, Copy)]
pub struct Advance {
    pub count: usize,
    pub first: usize,
    pub second: usize,
    pub over: bool,
}

// Goes on from the place at which i edges of the first shape and j of the second are passed, and writes the corners on
// its way at the front of the output: k of them or what remains, whichever is less. All after them is kept. Edges of
// equal direction make one step, so no three corners are in line. A point moves the other shape; a segment's edge is
// passed twice.
// Ruled out: parallel corners kept; made up count; everything in the first part.
pub fn walk_on(a: &[i32], b: &[i32], i: usize, j: usize, k: usize, out: &mut [i32]) -> Advance
    requires { At a.now b.now (state i j false) × (0 < k)
        × (2 * length (next_corners a.now b.now (state i j false) k) ≤ length out.old) }
    ensures { Advanced a.now b.now (state i j false) k result
        × (out.new ≡ overwritten (numbers (next_corners a.now b.now (state i j false) k))
        out.old) }
{
    walk_round(a, &Plain { list: b }, i, j, k, out)
}

// The same where the second shape is read by its own functions: as its list has it, or as its mirror image.
pub fn walk_round<R: Round>(
    a: &[i32],
    b: &R,
    i: usize,
    j: usize,
    k: usize,
    out: &mut [i32],
) -> Advance
    requires { R.ready b.now × At a.now (R.shape b.now) (state i j false) × (0 < k)
        × (2 * length (next_corners a.now (R.shape b.now) (state i j false) k) ≤ length out.old) }
    ensures { Advanced a.now (R.shape b.now) (state i j false) k result
        × (out.new ≡ overwritten (numbers (next_corners a.now (R.shape b.now) (state i j false) k))
        out.old) }
{
    let first = side::side_at(a, i);
    let second = b.side_at(j);
    let all = first.end + second.end;
    let far = stride(a, b, k, first, second, out);
    let mut s = far.first;
    let mut t = far.second;
    let mut count = far.count;
    loop {
        corners::put(out, count, side::here(s, t));
        count += 1;
        let c = side::order(s, t);
        s = side::next(a, s, c < 0);
        t = b.next(t, 0 < c);
        if s.at + t.at == all {
            return arrived(count, s, t, true);
        }
        if count == k {
            return arrived(count, s, t, false);
        }
    }
}

// How far a walk under way came: the corners that were written or counted, and of each shape the side, or how many
// edges are passed.
#[derive(Clone, Copy)]
pub struct Partway<T> {
    pub count: usize,
    pub first: T,
    pub second: T,
}

// Goes on as long as both shapes have three edges left and more than one corner may be written, and writes the corners
// on its way at the front of the output. No step tests for the end of a shape: that is quicker.
fn stride<R: Round>(a: &[i32], b: &R, k: usize, s: Side, t: Side, out: &mut [i32]) -> Partway<Side>
    requires { R.ready b.now × (t.end < 2 ^ 62)
        × Walked a.now (R.shape b.now) (walk_of s t false) k 0 s t
        × (2 * length (next_corners a.now (R.shape b.now) (walk_of s t false) k) ≤ length out.old) }
    ensures { Walked a.now (R.shape b.now) (walk_of s t false) k result.count result.first result.second
        × (out.new
        ≡ overwritten (numbers (take result.count (next_corners a.now (R.shape b.now) (walk_of s t false) k)))
        out.old) }
{
    let mut first = s;
    let mut second = t;
    let mut count = 0;
    while inside(first.at, first.end, second.at, second.end, count, k) {
        corners::put(out, count, side::here(first, second));
        count += 1;
        let c = side::order(first, second);
        first = side::ahead(a, first, c < 0);
        second = b.ahead(second, 0 < c);
    }
    Partway {
        count,
        first,
        second,
    }
}

// Returns whether two shapes with m and n edges, of which i and j are passed, both have three left, and more than one
// corner may come after `count` of k.
pub fn inside(i: usize, m: usize, j: usize, n: usize, count: usize, k: usize) -> bool
    requires { (i < 2 ^ 63) × (j < 2 ^ 63) × (count < 2 ^ 63) }
    ensures { result ≡ true → (i + 2 < m) × (j + 2 < n) × (count + 1 < k) }
{
    i + 2 < m && j + 2 < n && count + 1 < k
}

// Returns the walk at these two sides, with `count` corners written.
fn arrived(count: usize, s: Side, t: Side, over: bool) -> Advance
    ensures { (result.count ≡ count) × (reached result ≡ walk_of s t over) }
{
    Advance {
        count,
        first: s.at,
        second: t.at,
        over,
    }
}

// Whether a walk with i and j edges passed of the two shapes, over or not, is at a place of the sum. It takes no walk
// to tell: the last edge passed of either shape is before the next of the other.
pub fn is_place(a: &[i32], b: &[i32], i: usize, j: usize, over: bool) -> bool
    requires { Valid a.now × Valid b.now }
    ensures { result ≡ is_place a.now b.now (state i j over) }
{
    let m = edges::sides(a);
    let n = edges::sides(b);
    if m < i {
        return false;
    }
    if n < j {
        return false;
    }
    if !ends(m - i + (n - j), m + n, over) {
        return false;
    }
    follows(a, i, b, j) && follows(b, j, a, i)
}

// Whether a walk that has `left` of `all` edges left is rightly said to be over, or not to be: over exactly if none is
// left. The walk of two points has no edge, and two places.
// Ruled out: place passed twice.
fn ends(left: usize, all: usize, over: bool) -> bool
    ensures { result ≡ place_test_ends left all over }
{
    all == 0 || over == (left == 0)
}

// Whether the last edge passed of a shape, if there is one, is before the next of the other, if there is one.
fn follows(a: &[i32], i: usize, b: &[i32], j: usize) -> bool
    requires { (i ≤ length (forms_edges (points a.now))) × (j ≤ length (forms_edges (points b.now)))
        × Valid a.now × Valid b.now }
    ensures { result ≡ place_test_follows (forms_edges (points a.now)) i
        (forms_edges (points b.now)) j }
{
    if i == 0 {
        return true;
    }
    if j == edges::sides(b) {
        return true;
    }
    side::is_before(side::side_at(a, i - 1), side::side_at(b, j))
}
