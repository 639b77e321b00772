// Inner functions: the mirror image of a shape on a walk. It is not written: its corners are the opposites of the
// shape's, from the peak on.
ghost use Rattle.std.specs.Prelude.{cond, ◌≡◌, ◌+◌, ◌<◌, ◌≤◌, length};
ghost use Rattle.plane.specs.Point.{points};
ghost use Rattle.plane.specs.Refusal.{Valid};
ghost use Rattle.plane.specs.Forms.{edges as forms_edges};
ghost use Rattle.plane.specs.Cycle.{turned, corner_round};
ghost use Rattle.polygon.specs.Peak.{Peak};
ghost use Rattle.polygon.specs.Point.{at};
ghost use Rattle.calipers.specs.Side.{onward, Stands, Carried};
ghost use Rattle.calipers.specs.Image.{image};

use crate::side::Side;
use crate::{edges, side};
use polygon::point::Point;
use polygon::{corners, point};

// The side of the image with i edges passed. The peak of the shape is at position top.
// Ruled out: image begun at the first corner.
pub fn side_at(list: &[i32], top: usize, i: usize) -> Side
    requires { Valid list.now × Peak (points list.now) top
        × (i ≤ length (forms_edges (points (image list.now)))) }
    ensures { (result.at ≡ i) × Carried (image list.now) result }
{
    let corner = corner_at(list, top, i);
    onto(list, top, side::standing(i, edges::sides(list), corner))
}

// One edge on, unless the side waits or has none left. The corner there is reached along the edge, and not read.
pub fn next(list: &[i32], top: usize, s: Side, waits: bool) -> Side
    requires { Valid list.now × Peak (points list.now) top × Carried (image list.now) s }
    ensures { (result.at ≡ cond waits s.at (onward (points (image list.now)) s.at))
        × Carried (image list.now) result }
{
    if waits {
        return s;
    }
    if s.at + 2 < s.end {
        return ahead(list, top, s, false);
    }
    late(list, top, s)
}

// One edge on, unless none is left. It is apart from `next`, which seldom comes here.
fn late(list: &[i32], top: usize, s: Side) -> Side
    requires { Valid list.now × Peak (points list.now) top × Carried (image list.now) s }
    ensures { (result.at ≡ onward (points (image list.now)) s.at)
        × Carried (image list.now) result }
{
    if s.at == s.end {
        return s;
    }
    onto(list, top, side::arrived(s))
}

// The same where at least three edges are left: no test of the end is needed.
pub fn ahead(list: &[i32], top: usize, s: Side, waits: bool) -> Side
    requires { Valid list.now × Peak (points list.now) top × Carried (image list.now) s
        × (s.at + 2 < s.end) }
    ensures { (result.at ≡ cond waits s.at (onward (points (image list.now)) s.at))
        × Carried (image list.now) result }
{
    if waits {
        return s;
    }
    side::facing(side::arrived(s), corner_at(list, top, s.at + 2))
}

// A side that is at a corner and knows no edge yet, with its next edge.
fn onto(list: &[i32], top: usize, s: Side) -> Side
    requires { Valid list.now × Peak (points list.now) top × Stands (image list.now) s }
    ensures { (result.at ≡ s.at) × Carried (image list.now) result }
{
    if s.at == s.end {
        return s;
    }
    side::facing(s, corner_at(list, top, s.at + 1))
}

// Corner i on the way round the image: the opposite of the corner i places after the peak.
fn corner_at(list: &[i32], top: usize, i: usize) -> Point
    requires { Valid list.now × Peak (points list.now) top × (i ≤ length (points list.now)) }
    ensures { at result ≡ corner_round (points (image list.now)) i }
{
    point::opposite(corners::corner_at(list, place(list, top, i)))
}

// The position i places after the peak, on the way round the shape.
fn place(list: &[i32], top: usize, i: usize) -> usize
    requires { (top < length (points list.now)) × (i ≤ length (points list.now)) }
    ensures value { result ≡ turned (length (points list.now)) top i }
    ensures upper_bound { result < length (points list.now) }
{
    let n = corners::count(list);
    let k = top + i;
    if k < n { k } else { k - n }
}
