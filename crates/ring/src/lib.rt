// Inner functions: an outline as people have it, closed or open, in either sense, begun anywhere, with repeats and with
// points in line. Its corners are found by their positions in the list. Nothing is filled up. Our own, not of
// documents 01 and 02.
#![tactic(auto)]

pub mod inward;
pub mod places;
pub mod standard;
pub mod turns;

ghost use Rattle.std.specs.Prelude.{map, ◌≡◌, ◌*◌, ◌≤◌, ◌<◌, length};
ghost use Rattle.plane.specs.Point.{points, numbers, corner};
ghost use Rattle.plane.specs.Refusal.{InRange};
ghost use Rattle.plane.specs.Output.{overwritten};
ghost use Rattle.admission.specs.Admission.{Judged};
ghost use Rattle.ring.specs.Ring.{open_ring, ring_corners, list_rows, ValidRing};
ghost use Rattle.ring.specs.Places.{Started, Placed, Held};

use admission::answer::Refusal;
use polygon::{corners, limits, rules};

// Judges the points of a ring: refusals 1 to 3 in their order. A closing point is not counted. A ring is one list, so
// that the first shape is blamed.
pub fn admit(list: &[i32]) -> Result<(), Refusal>
    ensures { Judged (ValidRing list.now) (list_rows list.now) result }
{
    if rules::bad_count(list) {
        return Err(Refusal::Count { shape: 1 });
    }
    if limits::exceeds_points(open_count(list)) {
        return Err(Refusal::Corners { shape: 1 });
    }
    if rules::some_outside(list) {
        return Err(Refusal::Range { shape: 1 });
    }
    Ok(())
}

// Returns how many points a ring has. A closing point, equal to the first, is not counted.
pub fn open_count(list: &[i32]) -> usize
    requires { 0 < length (points list.now) }
    ensures { result ≡ length (open_ring (points list.now)) }
{
    let n = corners::count(list);
    places::less_closing(list, n, 0, n - 1)
}

// Writes the positions of the corners of a ring of n points to the front of `bent`, from the least corner on, in the
// sense in which it turns left there, and returns how many they are. The first buffer is for the positions of different
// neighbours.
pub fn trace(list: &[i32], n: usize, start: usize, kept: &mut [usize], bent: &mut [usize]) -> usize
    requires { InRange list.now × (0 < length (points list.now)) × Started (points list.now) n start
        × (n ≤ length kept.old) × (n ≤ length bent.old) }
    ensures { Held (ring_corners (points list.now)) result bent.new }
{
    let m = places::distinct(list, n, start, kept);
    turns::corners(list, &kept[..m], bent)
}

// Writes the corners at these positions of the list at the front of the output; all after them is kept.
pub fn write(list: &[i32], places: &[usize], out: &mut [i32])
    requires { Placed list.now places.now × (2 * length places.now ≤ length out.old) }
    ensures { out.new
        ≡ overwritten (numbers (map (corner (points list.now)) places.now)) out.old }
{
    for (k, place) in places.iter().enumerate() {
        corners::put(out, k, corners::corner_at(list, *place));
    }
}
