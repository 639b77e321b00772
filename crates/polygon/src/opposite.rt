// Inner functions for the mirror image, corner by corner: the opposites of all corners, begun at the one that becomes
// the least.
ghost use Rattle.std.specs.Prelude.{◌++◌, map, ◌≡◌, ◌+◌, ◌*◌, ◌<◌, ◌≤◌, neg_ℤ, length, take, drop};
ghost use Rattle.std.proofs.Math.Seq.{paste};
ghost use Rattle.plane.specs.Point.{points, numbers};
ghost use Rattle.plane.specs.Refusal.{InRange, Valid};
ghost use Rattle.plane.specs.Corner.{shape_of, mirrored};
ghost use Rattle.plane.specs.Output.{overwritten};

use crate::{corners, peak};

// Writes the mirror image of a shape, the shape of all (-x, -y), at the front of the output; all after it is kept. It
// has as many corners as the shape. A point becomes a point and a segment a segment; the image begins at the opposite
// of the highest, rightmost corner.
// Ruled out: mirror begun at the old start; output left alone.
pub fn mirror(list: &[i32], out: &mut [i32])
    requires { Valid list.now × (2 * length (points list.now) ≤ length out.old) }
    ensures { out.new
        ≡ overwritten (numbers (shape_of (mirrored (points list.now)))) out.old }
{
    write_from(list, peak::top(list), out);
}

// Writes the opposites of all corners, begun at a position of the list: those from it on, then those before it.
fn write_from(list: &[i32], start: usize, out: &mut [i32])
    requires { (start < length (points list.now)) × InRange list.now
        × (2 * length (points list.now) ≤ length out.old) }
    ensures { out.new ≡ overwritten (numbers (mirrored
        (drop start (points list.now) ++ take start (points list.now)))) out.old }
{
    let rest = corners::count(list) - start;
    negate(list, 2 * start, 2 * rest, out, 0);
    negate(list, 0, 2 * start, out, 2 * rest);
}

// Writes the opposites of n numbers of the list, from place `from` on, to the output, from place `to` on.
fn negate(list: &[i32], from: usize, n: usize, out: &mut [i32], to: usize)
    requires { (from + n ≤ length list.now) × (to + n ≤ length out.old) × InRange list.now }
    ensures { out.new ≡ paste out.old to (map neg_ℤ (drop from list.now)) n }
{
    for i in 0..n {
        out[to + i] = -list[from + i];
    }
}
