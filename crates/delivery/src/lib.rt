// An answer that is a shape: judged by its size, and written to the lent output. Inner functions; callers ask the crate
// `questions`.
#![tactic(auto)]

ghost use Rattle.std.specs.Prelude.{◌≡◌, ◌%◌, length};
ghost use Rattle.plane.specs.Point.{points};
ghost use Rattle.plane.specs.Reply.{NoneApply};
ghost use Rattle.plane.specs.Floor.{no_shape};
ghost use Rattle.plane.specs.Question.{reply, output, makes};
ghost use Rattle.admission.specs.Answer.{of_answer};
ghost use Rattle.admission.specs.Admission.{Judged};
ghost use Rattle.delivery.specs.Fit.{sized_rows, fit_rows};

use admission::answer::{Answer, OnFloor, Refusal};
use polygon::{corners, limits, numbers, rules};

// Judges an answer of n corners, of which some are out of range or none: 6, then 7.
// Ruled out: count and range exchanged.
pub fn sized(n: usize, far: bool) -> Result<(), Refusal>
    ensures { Judged (NoneApply (sized_rows n far)) (sized_rows n far) result }
{
    if limits::exceeds_corners(n) {
        return Err(Refusal::LargeAnswer);
    }
    if far {
        return Err(Refusal::FarAnswer);
    }
    Ok(())
}

// Judges the same answer for an output that holds `room` numbers: 6, then 7, then 8.
// Ruled out: exact room refused; output written before the room is known.
pub fn fits(n: usize, far: bool, room: usize) -> Result<(), Refusal>
    ensures { Judged (NoneApply (fit_rows n far room)) (fit_rows n far room) result }
{
    sized(n, far)?;
    if room < 2 * n {
        return Err(Refusal::Room);
    }
    Ok(())
}

// Writes a shape's numbers at the front of the output, all after them being kept, and returns how many corners it has,
// with its floor; or refuses 6, 7 and 8 in their order, with the output as it was.
// Ruled out: output left alone; tail cleared; floor zero in every answer.
pub fn deliver(shape: &[i32], floor: u16, out: &mut [i32]) -> Answer<usize>
    requires paired { length shape.now % 2 ≡ 0 }
    ensures { (of_answer result ≡ reply (makes (no_shape floor) (points shape.now) out.old))
        × (out.new ≡ output (makes (no_shape floor) (points shape.now) out.old)) }
{
    let n = corners::count(shape);
    fits(n, rules::some_outside(shape), out.len())?;
    numbers::copy(shape, shape.len(), out, 0);
    Ok(OnFloor { answer: n, floor })
}
