// Inner functions for the shape of all differences of two shapes, a corner of the first minus a corner of the second:
// its size before it is written, and the walk that writes it. It is the sum of the first and the mirror image of the
// second, whose peak is at position top.
ghost use Rattle.std.specs.Prelude.{◌≡◌, ◌*◌, ◌≤◌, length};
ghost use Rattle.plane.specs.Point.{points, numbers};
ghost use Rattle.plane.specs.Refusal.{Valid, some_outside};
ghost use Rattle.plane.specs.Corner.{shape_of};
ghost use Rattle.plane.specs.Separation.{differences};
ghost use Rattle.plane.specs.Output.{overwritten};
ghost use Rattle.polygon.specs.Peak.{Peak};
ghost use Rattle.sums.specs.Size.{Reckoned};

use calipers::round::Mirrored;
use calipers::{image, side};
use polygon::extent::Extent;
use polygon::{corners, extent};
use sums::{size, walk};

// Writes the shape at the front of the output, keeps all after it, and returns how many corners it has. The walk may
// write as many as there are: a limit that is no constant costs it a register.
pub fn write(a: &[i32], b: &[i32], top: usize, out: &mut [i32]) -> usize
    requires { Valid a.now × Valid b.now × Peak (points b.now) top
        × (2 * length (shape_of (differences (points a.now) (points b.now))) ≤ length out.old) }
    ensures { (result ≡ length (shape_of (differences (points a.now) (points b.now))))
        × (out.new ≡ overwritten
        (numbers (shape_of (differences (points a.now) (points b.now)))) out.old) }
{
    walk::walk_round(a, &Mirrored { list: b, top }, 0, 0, usize::MAX, out).count
}

// Returns the number of corners of the shape, which is to be written to an output of `room` numbers. Where the corners
// of both shapes together are few enough, their number is returned instead: no shape of differences has more.
pub fn reckon(a: &[i32], b: &[i32], top: usize, room: usize) -> usize
    requires { Valid a.now × Valid b.now × Peak (points b.now) top }
    ensures { Reckoned (length (shape_of (differences (points a.now) (points b.now))))
        room result }
{
    let most = corners::count(a) + corners::count(b);
    if size::suffices(most, room) {
        return most;
    }
    count(a, b, top)
}

// Returns the number of corners of the shape. It writes none.
fn count(a: &[i32], b: &[i32], top: usize) -> usize
    requires { Valid a.now × Valid b.now × Peak (points b.now) top }
    ensures { result ≡ length (shape_of (differences (points a.now) (points b.now))) }
{
    let mut s = side::side_at(a, 0);
    let mut t = image::side_at(b, top, 0);
    let all = s.end + t.end;
    let mut count = 0;
    loop {
        count += 1;
        let c = side::order(s, t);
        s = side::next(a, s, c < 0);
        t = image::next(b, top, t, 0 < c);
        if s.at + t.at == all {
            return count;
        }
    }
}

// Returns whether a corner of the shape is out of range: supports add, and those of the image are exchanged.
// Ruled out: cart not mirrored in the range.
pub fn is_far(a: &[i32], b: &[i32]) -> bool
    requires { Valid a.now × Valid b.now }
    ensures { result
        ≡ some_outside (numbers (shape_of (differences (points a.now) (points b.now)))) }
{
    let e = sums::extent::extent_of(b);
    let high = e.low;
    let low = e.high;
    extent::is_far(sums::extent::extent_of(a), Extent { high, low })
}
