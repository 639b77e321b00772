// Inner functions: the shape of a record, read and grown by a cart's outline.
ghost use Rattle.std.specs.Prelude.{◌≡◌, ◌*◌, length, take};
ghost use Rattle.plane.specs.Limits.{max_corners};
ghost use Rattle.plane.specs.Point.{points};
ghost use Rattle.plane.specs.Refusal.{Valid};
ghost use Rattle.polygon.specs.Front.{Front};
ghost use Rattle.journal.specs.Format.{list};
ghost use Rattle.journal.specs.Survey.{record_at, Sound};
ghost use Rattle.gaps.specs.Gap.{grown_of};
ghost use Rattle.gaps.specs.Search.{Fits};

use journal::head;
use polygon::{limits, peak};
use separation::differences;

// Writes the numbers of the record at a place to the front of a buffer and returns how many they are.
// Ruled out: corners counted in place of numbers.
pub fn read_at(log: &[u8], p: usize, shape: &mut [i32]) -> usize
    requires { Sound log.now p × (length shape.old ≡ 2 * max_corners) }
    ensures { (take result shape.new ≡ list (record_at log.now p))
        × (length shape.new ≡ 2 * max_corners) × (result ≡ length (list (record_at log.now p))) }
{
    let head = head::head_at(log, p);
    endian::decode(log, head.place, head.count, shape);
    head.count
}

// Writes the numbers of the record at a place to the front of a buffer for any shape, and returns them.
// Ruled out: half of a shape returned.
pub fn shape_at<'a>(log: &[u8], p: usize, buffer: &'a mut [i32; limits::SHAPE_NUMBERS]) -> &'a [i32]
    requires { Sound log.now p }
    ensures { result.now ≡ list (record_at log.now p) }
{
    let n = read_at(log, p, buffer);
    &buffer[..n]
}

// Writes the shape of the record at a place, grown by the cart, to the front of the output, and returns how many
// corners it has. The first buffer is for the shape as it is.
// Ruled out: half of the grown corners told.
pub fn grow_at(log: &[u8], p: usize, cart: &[i32], shape: &mut [i32], out: &mut [i32]) -> usize
    requires { Sound log.now p × Valid cart.now × (length shape.old ≡ 2 * max_corners)
        × (length out.old ≡ 2 * max_corners) × Fits (points cart.now) (record_at log.now p) }
    ensures { Front (grown_of (points cart.now) (record_at log.now p)) result out.new
        × (length shape.new ≡ 2 * max_corners) × (length out.new ≡ 2 * max_corners) }
{
    let n = read_at(log, p, shape);
    differences::write(&shape[..n], cart, peak::top(cart), out)
}

// Writes the shape of the record at a place, grown by the cart, to the front of the output, and returns it. The first
// buffer is for the shape as it is.
// Ruled out: half of a grown shape returned.
pub fn grown_at<'a>(
    log: &[u8],
    p: usize,
    cart: &[i32],
    buffer: &mut [i32; limits::SHAPE_NUMBERS],
    out: &'a mut [i32; limits::SHAPE_NUMBERS],
) -> &'a [i32]
    requires { Sound log.now p × Valid cart.now × Fits (points cart.now) (record_at log.now p) }
    ensures { Valid result.now × (points result.now ≡ grown_of (points cart.now) (record_at log.now p)) }
{
    let n = grow_at(log, p, cart, buffer, out);
    &out[..2 * n]
}
