// Inner functions for the greatest distance of a point of one shape and a point of another (000, 2.3; 003, 3). Callers
// ask the crate `questions`.
#![tactic(auto)]

ghost use Rattle.std.specs.Prelude.{◌≡◌, ◌<◌, ◌≤◌, length};
ghost use Rattle.plane.specs.Point.{points};
ghost use Rattle.plane.specs.Cycle.{turned};
ghost use Rattle.plane.specs.Refusal.{Valid};
ghost use Rattle.polygon.specs.Peak.{Peak};
ghost use Rattle.calipers.specs.Image.{image as image_image};
ghost use Rattle.calipers.specs.Side.{Carried};
ghost use Rattle.measure.specs.Scan.{Kept};
ghost use Rattle.reach.specs.Answer.{IsGreatest, pair_at};

use calipers::side::Side;
use calipers::{edges, image, side};
use measure::{Length, magnitude};
use polygon::{corners, peak, point};

// The corner of the first shape and the corner of the second that are furthest apart, and their squared distance. Of
// several such pairs: the smallest position in the first shape, then the smallest in the second.
// Ruled out: later pair on a tie; later first corner on a tie; nearer pair kept; any nearer pair kept; later edge
// passed first.
pub fn furthest_corners(a: &[i32], b: &[i32]) -> Length
    requires { Valid a.now × Valid b.now }
    ensures { IsGreatest (points a.now) (points b.now) result }
{
    walked(a, b, peak::top(b))
}

// The same, by one walk round the corners of the differences: the sum of the first shape and the mirror image of the
// second, whose peak is at position top. The step between two corners that are furthest apart is such a corner, and of
// no other pair, so that the walk comes to every such pair.
fn walked(a: &[i32], b: &[i32], top: usize) -> Length
    requires { Valid a.now × Valid b.now × Peak (points b.now) top }
    ensures { IsGreatest (points a.now) (points b.now) result }
{
    let mut s = side::side_at(a, 0);
    let mut t = image::side_at(b, top, 0);
    let all = s.end + t.end;
    let mut best = pair(a, b, top, s, t);
    loop {
        let c = side::order(s, t);
        s = side::next(a, s, c < 0);
        t = image::next(b, top, t, 0 < c);
        if s.at + t.at == all {
            return best;
        }
        best = better(best, pair(a, b, top, s, t));
    }
}

// The pair of corners at which a walk is.
fn pair(a: &[i32], b: &[i32], top: usize, s: Side, t: Side) -> Length
    requires { Valid a.now × Valid b.now × Peak (points b.now) top × Carried a.now s
        × Carried (image_image b.now) t }
    ensures { result ≡ pair_at (points a.now) (points b.now) top s.at t.at }
{
    let step = side::here(s, t);
    let squared = magnitude::magnitude(point::dot(step, step));
    Length {
        squared,
        from: edges::round(a, s.at),
        to: position(b, top, t.at),
    }
}

// The position i places after another, on the way round a list.
fn position(list: &[i32], top: usize, i: usize) -> usize
    requires { (top < length (points list.now)) × (i ≤ length (points list.now)) }
    ensures { result ≡ turned (length (points list.now)) top i }
{
    let n = corners::count(list);
    let k = top + i;
    if k < n { k } else { k - n }
}

// The better of two pairs: further apart, then earlier, by the first position and then by the second.
fn better(best: Length, next: Length) -> Length
    ensures { Kept best next result }
{
    if (best.squared, next.from, next.to) < (next.squared, best.from, best.to) {
        next
    } else {
        best
    }
}
