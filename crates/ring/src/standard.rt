// Inner functions: a ring without repeats and without points in line. From the least on, in the sense in which it turns
// left there, its points are a shape's list as they are, and no positions are kept.
ghost use Rattle.std.specs.Prelude.{true, map, ◌≡◌, ◌*◌, ◌≤◌, ◌<◌, length, get_or};
ghost use Rattle.plane.specs.Point.{points, numbers, corner};
ghost use Rattle.plane.specs.Cycle.{turned};
ghost use Rattle.plane.specs.Output.{overwritten};
ghost use Rattle.plane.specs.Shape.{IsShape};
ghost use Rattle.polygon.specs.Front.{Front};
ghost use Rattle.ring.specs.Round.{in_sense};
ghost use Rattle.ring.specs.Ring.{walked, ring_shape, ValidRing};
ghost use Rattle.ring.specs.Places.{Started};

use crate::turns;
use polygon::{corners, rules};

// Writes the n points of a ring from the least on, in the sense in which it turns left there, to the front of a buffer,
// and returns whether they are a shape. They are its corners then. A ring that does not turn at its least point is left
// to others.
// Ruled out: flat ring taken for a shape.
pub fn arranged(list: &[i32], n: usize, start: usize, shape: &mut [i32]) -> bool
    requires { ValidRing list.now × Started (points list.now) n start × (2 * n ≤ length shape.old) }
    ensures { result ≡ true → Front (ring_shape (points list.now)) n shape.new
        × IsShape (ring_shape (points list.now)) }
{
    let before = turns::previous(n, start);
    let turn = corners::turn_at(list, before, start, rules::next(n, start));
    if turn == 0 {
        return false;
    }
    arrange(list, n, start, turn < 0, shape);
    convexity::passes(&shape[..2 * n])
}

// Writes the points on the way round n of them, from a start on, to the front of a buffer: onwards or backwards.
fn arrange(list: &[i32], n: usize, start: usize, back: bool, shape: &mut [i32])
    requires { (n ≤ length (points list.now)) × (start < n) × (2 * n ≤ length shape.old) }
    ensures { shape.new
        ≡ overwritten (numbers (map (corner (points list.now)) (in_sense back (walked n start n))))
        shape.old }
{
    for k in 0..n {
        let place = place_at(n, start, back, k);
        corners::put(shape, k, corners::corner_at(list, place));
    }
}

// Returns place k on the way round n, from a start on, onwards or backwards.
fn place_at(n: usize, start: usize, back: bool, k: usize) -> usize
    requires { (start < n) × (k < n) }
    ensures { (result ≡ get_or (in_sense back (walked n start n)) k 0) × (result < n) }
{
    if back {
        return turned_by(n, start, n - k);
    }
    turned_by(n, start, k)
}

// Returns the position that is a number of places after the start on the way round n.
fn turned_by(n: usize, start: usize, by: usize) -> usize
    requires { (start < n) × (by ≤ n) }
    ensures { (result ≡ turned n start by) × (result < n) }
{
    let ahead = n - start;
    if by < ahead {
        return start + by;
    }
    by - ahead
}
