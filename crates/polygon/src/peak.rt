// Inner function: the peak of a shape, its last corner by y, then by x.
ghost use Rattle.std.specs.Prelude.{◌<◌, length};
ghost use Rattle.plane.specs.Point.{points};
ghost use Rattle.polygon.specs.Peak.{Peak};

use crate::corners;

// The position up to which the corners rise. In a shape that is the last corner by y, then by x.
pub fn top(list: &[i32]) -> usize
    requires { 0 < length (points list.now) }
    ensures { Peak (points list.now) result }
{
    let last = corners::count(list) - 1;
    for top in 0..last {
        if !corners::precedes_at(list, top, top + 1) {
            return top;
        }
    }
    last
}
