// Calls for a sum in parts.
ghost use Rattle.std.specs.Prelude.{◌≡◌};
ghost use Rattle.plane.specs.Floor.{on};
ghost use Rattle.plane.specs.Question.{reply, output};
ghost use Rattle.sums.specs.Advance.{state};
ghost use Rattle.parts.specs.Part.{ask_begin, ask_part};
ghost use Rattle.wire.specs.Told.{crossed, numbers};
ghost use Rattle.crossing.specs.LowFloor.{low_floor};

use crossing::floors;
use part_questions::walk;
use part_questions::walk::Walk;
use reply::Reply;

// Answers where a sum in parts begins: the edges passed of either shape, and 1 if the walk is over.
#[unsafe(no_mangle)]
pub extern "C" fn cocklesway_begin(a: &[i32], f: u32, b: &[i32], g: u32) -> Reply
    ensures { numbers result ≡ crossed (reply (low_floor (ask_begin (on a.now f) (on b.now g)))) }
{
    if floors::exceeds(f, g) {
        return floors::barred_pair(a, b);
    }
    reply::of(walk::begin(a, f as u16, b, g as u16))
}

// Writes the part of a sum after the walk with these edges passed, over or not: at most k corners. Answers how many,
// and the walk handed back.
#[unsafe(no_mangle)]
pub extern "C" fn cocklesway_part(
    a: &[i32],
    f: u32,
    b: &[i32],
    g: u32,
    first: usize,
    second: usize,
    over: bool,
    k: usize,
    out: &mut [i32],
) -> Reply
    ensures { (numbers result ≡ crossed (reply (low_floor
        (ask_part (on a.now f) (on b.now g) (state first second over) k out.old))))
        × (out.new ≡ output (low_floor
        (ask_part (on a.now f) (on b.now g) (state first second over) k out.old))) }
{
    if floors::exceeds(f, g) {
        return floors::barred_pair(a, b);
    }
    let walk = Walk {
        first,
        second,
        over,
    };
    reply::of(walk.part(a, f as u16, b, g as u16, k, out))
}
