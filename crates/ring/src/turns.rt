// Inner functions: the corners of a ring among its different neighbours, in the sense in which it turns left at the
// first.
ghost use Rattle.std.specs.Prelude.{not, ◌≡◌, ◌≤◌, ◌<◌, length, get_or};
ghost use Rattle.plane.specs.Point.{points, corner};
ghost use Rattle.plane.specs.Refusal.{InRange};
ghost use Rattle.plane.specs.Shape.{next};
ghost use Rattle.ring.specs.Round.{clockwise as round_clockwise, in_sense, sensed, straight, bends as round_bends};
ghost use Rattle.ring.specs.Ring.{previous as ring_previous};
ghost use Rattle.ring.specs.Places.{Placed, Held};

use crate::places;
use polygon::{corners, point, rules};

// Writes the positions of the corners to the front of a buffer and returns how many they are.
pub fn corners(list: &[i32], kept: &[usize], bent: &mut [usize]) -> usize
    requires { Placed list.now kept.now × (0 < length kept.now) × (length kept.now ≤ length bent.old) }
    ensures { Held (round_bends (corner (points list.now))
        (sensed (corner (points list.now)) kept.now)) result bent.new }
{
    let back = clockwise(list, kept);
    bends(list, kept, back, bent)
}

// Returns whether the way round turns right at the first place.
fn clockwise(list: &[i32], kept: &[usize]) -> bool
    requires { Placed list.now kept.now × (0 < length kept.now) }
    ensures { result ≡ round_clockwise (corner (points list.now)) kept.now }
{
    let m = kept.len();
    corners::turn_at(list, kept[m - 1], kept[0], kept[rules::next(m, 0)]) < 0
}

// Writes the places at which the way round does not go straight on, read as they are or backwards from the first.
fn bends(list: &[i32], kept: &[usize], back: bool, bent: &mut [usize]) -> usize
    requires { Placed list.now kept.now × (length kept.now ≤ length bent.old) }
    ensures { Held (round_bends (corner (points list.now)) (in_sense back kept.now)) result
        bent.new }
{
    let m = kept.len();
    let mut count = 0;
    for j in 0..m {
        let bend = bends_at(list, kept, back, j);
        count = places::keep(bent, count, place(kept, back, j), bend);
    }
    count
}

// Returns whether the way round does not go straight on at place j.
fn bends_at(list: &[i32], kept: &[usize], back: bool, j: usize) -> bool
    requires { Placed list.now kept.now × (j < length kept.now) }
    ensures { result ≡ not (straight
        (corner (points list.now)
        (get_or (in_sense back kept.now) (ring_previous (length kept.now) j) 0))
        (corner (points list.now) (get_or (in_sense back kept.now) j 0))
        (corner (points list.now)
        (get_or (in_sense back kept.now) (next (length kept.now) j) 0))) }
{
    let m = kept.len();
    let a = place(kept, back, previous(m, j));
    let c = place(kept, back, rules::next(m, j));
    !straight_at(list, a, place(kept, back, j), c)
}

// Returns the place at position j, read as they are or backwards from the first.
// Ruled out: clockwise ring left clockwise.
fn place(kept: &[usize], back: bool, j: usize) -> usize
    requires { j < length kept.now }
    ensures { result ≡ get_or (in_sense back kept.now) j 0 }
{
    if !back {
        return kept[j];
    }
    if j == 0 {
        return kept[0];
    }
    kept[kept.len() - j]
}

// Returns the position before i on the way round n.
pub fn previous(n: usize, i: usize) -> usize
    requires { i < n }
    ensures value { result ≡ ring_previous n i }
    ensures upper_bound { result < n }
{
    if i == 0 { n - 1 } else { i - 1 }
}

// Returns whether the way from corner a over b to c goes straight on at b: the turn is 0 and it does not go back.
// Ruled out: way back taken for straight.
fn straight_at(list: &[i32], a: usize, b: usize, c: usize) -> bool
    requires { (a < length (points list.now)) × (b < length (points list.now))
        × (c < length (points list.now)) × InRange list.now }
    ensures { result ≡ straight (corner (points list.now) a) (corner (points list.now) b)
        (corner (points list.now) c) }
{
    let turn = corners::turn_at(list, a, b, c);
    if 0 < turn {
        return false;
    }
    if turn < 0 {
        return false;
    }
    let at = corners::corner_at(list, b);
    let come = point::step(corners::corner_at(list, a), at);
    let go = point::step(at, corners::corner_at(list, c));
    0 < point::dot(come, go)
}
