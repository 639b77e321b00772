// An outline as people have it, brought to the standard list. Our own, not of documents 01 and 02.
ghost use Rattle.std.specs.Prelude.{◌≡◌, ◌*◌, ◌≤◌, length};
ghost use Rattle.plane.specs.Point.{points, numbers};
ghost use Rattle.plane.specs.Shape.{IsShape};
ghost use Rattle.plane.specs.Floor.{on};
ghost use Rattle.plane.specs.Question.{reply, output};
ghost use Rattle.ring.specs.Ring.{open_ring, ring_corners, ring_shape, ValidRing, ask_ring};
ghost use Rattle.ring.specs.Places.{Started};
ghost use Rattle.answers.specs.Answer.{of_answer};

use answers::{Answer, OnFloor, Refusal};
use polygon::{corners, limits, numbers};
use ring::{inward, places, standard, turns};

// Few points, and their numbers: a small buffer takes less time to clear.
const FEW_POINTS: usize = 128;

const FEW_NUMBERS: usize = 2 * FEW_POINTS;

// Writes the standard list with the corners of a ring at the front of the output, and answers how many they are. The
// ring may be closed by its first point or open, in either sense, begun anywhere, with neighbours repeated and with
// points in line. Points that are all equal make a point, and a way there and back a segment. Nothing is filled up.
// Refused, with the output as it was: 1 to 3, a closing point not counted; 4 for a ring that is not convex, with the
// positions in the list of the corner that turns in and of the corner before it; an output that is too small.
pub fn ring(list: &[i32], floor: u16, out: &mut [i32]) -> Answer<usize>
    ensures { (of_answer result ≡ reply (ask_ring (on list.now floor) out.old))
        × (out.new ≡ output (ask_ring (on list.now floor) out.old)) }
{
    ring::admit(list)?;
    if list.len() <= FEW_NUMBERS {
        let mut few = [0i32; FEW_NUMBERS];
        return ring_in(list, floor, &mut few, out);
    }
    let mut shape = [0i32; limits::POINTS_NUMBERS];
    ring_in(list, floor, &mut shape, out)
}

// The same of a ring that passed 1 to 3, with a lent buffer for its points. Most rings are a shape's list but for their
// beginning and sense; any other is traced by positions.
fn ring_in(list: &[i32], floor: u16, shape: &mut [i32], out: &mut [i32]) -> Answer<usize>
    requires { ValidRing list.now × (2 * length (open_ring (points list.now)) ≤ length shape.old) }
    ensures { (of_answer result ≡ reply (ask_ring (on list.now floor) out.old))
        × (out.new ≡ output (ask_ring (on list.now floor) out.old)) }
{
    let n = ring::open_count(list);
    let start = places::least(list, n);
    if !standard::arranged(list, n, start, shape) {
        return traced(list, n, start, floor, out);
    }
    shown(list, floor, &shape[..2 * n], out)
}

// The same of a ring whose corners are these, and are a shape: 8, or the corners.
fn shown(list: &[i32], floor: u16, shape: &[i32], out: &mut [i32]) -> Answer<usize>
    requires { ValidRing list.now × (shape.now ≡ numbers (ring_shape (points list.now)))
        × IsShape (ring_shape (points list.now)) }
    ensures { (of_answer result ≡ reply (ask_ring (on list.now floor) out.old))
        × (out.new ≡ output (ask_ring (on list.now floor) out.old)) }
{
    if out.len() < shape.len() {
        return Err(Refusal::Room);
    }
    numbers::copy(shape, shape.len(), out, 0);
    Ok(OnFloor {
        answer: corners::count(shape),
        floor,
    })
}

// The same of any ring that passed 1 to 3.
fn traced(list: &[i32], n: usize, start: usize, floor: u16, out: &mut [i32]) -> Answer<usize>
    requires { ValidRing list.now × Started (points list.now) n start }
    ensures { (of_answer result ≡ reply (ask_ring (on list.now floor) out.old))
        × (out.new ≡ output (ask_ring (on list.now floor) out.old)) }
{
    if n <= FEW_POINTS {
        let mut few = [0usize; FEW_POINTS];
        let mut corners = [0usize; FEW_POINTS];
        return traced_in(list, n, start, floor, &mut few, &mut corners, out);
    }
    let mut kept = [0usize; limits::MAX_POINTS];
    let mut bent = [0usize; limits::MAX_POINTS];
    traced_in(list, n, start, floor, &mut kept, &mut bent, out)
}

// The same in lent buffers.
fn traced_in(
    list: &[i32],
    n: usize,
    start: usize,
    floor: u16,
    kept: &mut [usize],
    bent: &mut [usize],
    out: &mut [i32],
) -> Answer<usize>
    requires { ValidRing list.now × Started (points list.now) n start × (n ≤ length kept.old)
        × (n ≤ length bent.old) }
    ensures { (of_answer result ≡ reply (ask_ring (on list.now floor) out.old))
        × (out.new ≡ output (ask_ring (on list.now floor) out.old)) }
{
    let m = ring::trace(list, n, start, kept, bent);
    told(list, floor, &bent[..m], out)
}

// The same of the positions of its corners: 4, then 8, or the corners.
fn told(list: &[i32], floor: u16, places: &[usize], out: &mut [i32]) -> Answer<usize>
    requires { ValidRing list.now × (places.now ≡ ring_corners (points list.now)) }
    ensures { (of_answer result ≡ reply (ask_ring (on list.now floor) out.old))
        × (out.new ≡ output (ask_ring (on list.now floor) out.old)) }
{
    let n = places.len();
    let at = inward::find(list, places);
    if at < n {
        return Err(Refusal::Side {
            shape: 1,
            edge: places[turns::previous(n, at)],
            corner: places[at],
        });
    }
    if out.len() < 2 * n {
        return Err(Refusal::Room);
    }
    ring::write(list, places, out);
    Ok(OnFloor { answer: n, floor })
}
