// Inner functions: the positions of a ring's different neighbours, from the least point on.
ghost use Rattle.std.specs.Prelude.{cond, ◌&&◌, [], ◌∷◌, ◌++◌, ◌≡◌, ◌+◌, ◌-◌, ◌≤◌, ◌<◌, ltb, length, take};
ghost use Rattle.plane.specs.Point.{points, corner, same_point};
ghost use Rattle.plane.specs.Shape.{next, precedes};
ghost use Rattle.ring.specs.Round.{optional, differing, distinct as round_distinct};
ghost use Rattle.ring.specs.Ring.{least_place, walked};
ghost use Rattle.ring.specs.Places.{Held};

use polygon::{corners, point, rules};

// Writes the positions of the ring's different neighbours to the front of a buffer, from a start on, and returns how
// many they are. The first of several equal neighbours is kept.
pub fn distinct(list: &[i32], n: usize, start: usize, kept: &mut [usize]) -> usize
    requires { (n ≤ length (points list.now)) × (start < n) × (n ≤ length kept.old) }
    ensures { Held (round_distinct (corner (points list.now)) (walked n start n)) result
        kept.new }
{
    let count = gather(list, n, start, kept);
    less_closing(list, count, start, kept[count - 1])
}

// Writes the start, and of the positions after it on the way round those whose point differs from the one before.
fn gather(list: &[i32], n: usize, start: usize, kept: &mut [usize]) -> usize
    requires { (n ≤ length (points list.now)) × (start < n) × (n ≤ length kept.old) }
    ensures { Held (start ∷ differing (corner (points list.now)) start
        (walked n (next n start) (n - 1))) result kept.new }
{
    kept[0] = start;
    let mut count = 1;
    let mut from = start;
    for _ in 1..n {
        let to = rules::next(n, from);
        count = keep(kept, count, to, !same_at(list, from, to));
        from = to;
    }
    count
}

// Stores a place in a buffer, and returns the count with it if it is wanted.
pub fn keep(kept: &mut [usize], count: usize, place: usize, wanted: bool) -> usize
    requires { count < length kept.old }
    ensures { (take result kept.new ≡ take count kept.old ++ optional wanted place)
        × (result ≤ count + 1) × (length kept.new ≡ length kept.old) }
{
    kept[count] = place;
    count + usize::from(wanted)
}

// Returns n, or one less if n is at least 2 and the two corners are the same point.
// Ruled out: two equal points not closed; last point always dropped.
pub fn less_closing(list: &[i32], n: usize, first: usize, last: usize) -> usize
    requires { (first < length (points list.now)) × (last < length (points list.now)) }
    ensures { result ≡ cond (ltb 1 n && same_point (corner (points list.now) first)
        (corner (points list.now) last)) (n - 1) n }
{
    if 1 < n && same_at(list, first, last) {
        n - 1
    } else {
        n
    }
}

// Returns whether two corners are the same point: neither precedes the other.
fn same_at(list: &[i32], i: usize, j: usize) -> bool
    requires { (i < length (points list.now)) × (j < length (points list.now)) }
    ensures { result ≡ same_point (corner (points list.now) i) (corner (points list.now) j) }
{
    !corners::precedes_at(list, i, j) && !corners::precedes_at(list, j, i)
}

// Returns the first of the first n corners that no other precedes. The lowest corner is kept beside its position: to
// read it again at each turn would make every comparison wait for the one before.
pub fn least(list: &[i32], n: usize) -> usize
    requires { n ≤ length (points list.now) }
    ensures { result ≡ least_place (corner (points list.now)) n }
{
    if n == 0 {
        return 0;
    }
    let mut best = 0;
    let mut lowest = corners::corner_at(list, 0);
    for i in 1..n {
        let p = corners::corner_at(list, i);
        if point::precedes(p, lowest) {
            best = i;
            lowest = p;
        }
    }
    best
}
