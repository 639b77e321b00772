// Inner functions: the narrowest gap between the shapes of a floor. Callers ask the crate `questions`.
#![tactic(auto)]

pub mod floor;
pub mod growing;
mod search;
pub mod sizes;

ghost use Rattle.std.specs.Prelude.{false, ◌≡◌};
ghost use Rattle.plane.specs.Point.{points};
ghost use Rattle.plane.specs.Reply.{NoneApply};
ghost use Rattle.plane.specs.Refusal.{Valid};
ghost use Rattle.journal.specs.Format.{records};
ghost use Rattle.journal.specs.Reading.{damaged};
ghost use Rattle.gaps.specs.Gap.{on_floor, size_rows_of, gap_numbers};
ghost use Rattle.gaps.specs.Search.{numbers_of};

use answers::Gap;
use journal::head;
use polygon::limits;

// Returns the narrowest gap between two current shapes of a floor, grown by a cart: the first pair in the log's order
// on a tie; None if a floor has fewer than two. No record of the log is bad, and all grown shapes are shapes.
pub fn gap(log: &[u8], floor: u16, cart: &[i32]) -> Option<Gap>
    requires { (damaged (records log.now) ≡ false) × Valid cart.now
        × NoneApply (size_rows_of (points cart.now) (on_floor floor log.now)) }
    ensures { numbers_of result
        ≡ gap_numbers (points cart.now) (on_floor floor log.now) }
{
    let mut shape = [0i32; limits::SHAPE_NUMBERS];
    let mut above = [0i32; limits::SHAPE_NUMBERS];
    let mut below = [0i32; limits::SHAPE_NUMBERS];
    let pair = search::narrowest(log, floor, cart, &mut shape, &mut above, &mut below)?;
    Some(Gap {
        name: head::head_at(log, pair.first).name,
        other: head::head_at(log, pair.second).name,
        distance: pair.distance,
    })
}
