// Inner functions: 6 and 7 of every grown shape of a floor, before any pair is looked at.
ghost use Rattle.std.specs.Prelude.{false, ◌≡◌};
ghost use Rattle.plane.specs.Point.{points};
ghost use Rattle.plane.specs.Reply.{NoneApply};
ghost use Rattle.plane.specs.Refusal.{Valid};
ghost use Rattle.admission.specs.Admission.{Judged};
ghost use Rattle.journal.specs.Format.{records};
ghost use Rattle.journal.specs.Reading.{damaged};
ghost use Rattle.journal.specs.Survey.{Sound};
ghost use Rattle.gaps.specs.Gap.{on_floor, size_rows_of};
ghost use Rattle.gaps.specs.Search.{rows_at};

use crate::growing;
use admission::answer::Refusal;
use journal::{current, head, places};
use polygon::limits;

// Judges all shapes of the floor, grown by the cart, by their size.
// Ruled out: sizes told from the last shape.
pub fn admit_sizes(log: &[u8], floor: u16, cart: &[i32]) -> Result<(), Refusal>
    requires { (damaged (records log.now) ≡ false) × Valid cart.now }
    ensures { Judged
        (NoneApply (size_rows_of (points cart.now) (on_floor floor log.now)))
        (size_rows_of (points cart.now) (on_floor floor log.now)) result }
{
    let mut buffer = [0i32; limits::SHAPE_NUMBERS];
    for p in places::all(log) {
        admit_at(log, p, floor, cart, &mut buffer)?;
    }
    Ok(())
}

// Judges the record at a place: nothing is refused of one that is not on the floor, or not the latest of its name.
// Later records are looked at last, since few shapes are refused.
fn admit_at(
    log: &[u8],
    p: usize,
    floor: u16,
    cart: &[i32],
    buffer: &mut [i32; limits::SHAPE_NUMBERS],
) -> Result<(), Refusal>
    requires { Sound log.now p × Valid cart.now }
    ensures { Judged (NoneApply (rows_at (points cart.now) floor log.now p))
        (rows_at (points cart.now) floor log.now p) result }
{
    if head::head_at(log, p).floor != floor {
        return Ok(());
    }
    let Err(refusal) = passage::admit_grown(growing::shape_at(log, p, buffer), cart) else {
        return Ok(());
    };
    if current::is_current(log, p) {
        Err(refusal)
    } else {
        Ok(())
    }
}
