// Refusals as replies. No other code gives a refusal its number and what it carries.
ghost use Rattle.std.specs.Prelude.{◌≡◌};
ghost use Rattle.answers.specs.Answer.{of_refusal, of_unread, fault_number, axis_number};
ghost use Rattle.wire.specs.Told.{crossed, numbers};

use crate::{Reply, numbers};
use answers::{Axis, Fault, Refusal, Unread};

impl From<Refusal> for Reply {
    ghost from_gives = { λ refusal reply. numbers reply ≡ crossed (of_refusal refusal) };

    // Returns the refusal's row: its number, and what it carries. 1 to 5 carry the shape, 4 also the edge and the
    // corner; 15 carries a byte place.
    // Ruled out: corner given for the edge; full called a missing name.
    fn from(refusal: Refusal) -> Self {
        match refusal {
            Refusal::Count { shape } => numbers::refused(1, [shape as u64]),
            Refusal::Corners { shape } => numbers::refused(2, [shape as u64]),
            Refusal::Range { shape } => numbers::refused(3, [shape as u64]),
            Refusal::Side {
                shape,
                edge,
                corner,
            } => numbers::refused(4, [shape as u64, edge as u64, corner as u64]),
            Refusal::Start { shape } => numbers::refused(5, [shape as u64]),
            Refusal::LargeAnswer => numbers::refused(6, []),
            Refusal::FarAnswer => numbers::refused(7, []),
            Refusal::Room => numbers::refused(8, []),
            Refusal::NotApart => numbers::refused(9, []),
            Refusal::Flat => numbers::refused(10, []),
            Refusal::Direction => numbers::refused(11, []),
            Refusal::NotPrimitive => numbers::refused(12, []),
            Refusal::Floors => numbers::refused(13, []),
            Refusal::NotAPlace => numbers::refused(14, []),
            Refusal::Damaged { place } => numbers::refused(15, [place as u64]),
            Refusal::Full => numbers::refused(16, []),
            Refusal::NoRecord => numbers::refused(19, []),
            Refusal::TooFew => numbers::refused(20, []),
        }
    }
}

impl From<Unread> for Reply {
    ghost from_gives = { λ refusal reply. numbers reply ≡ crossed (of_unread refusal) };

    // Returns the refusal of a reading, which carries the part: 1 for x, 2 for y.
    fn from(refusal: Unread) -> Self {
        numbers::refused(number(refusal.fault), [part(refusal.axis)])
    }
}

// Returns the number of the fault's row.
fn number(fault: Fault) -> u64
    ensures { result ≡ fault_number fault }
{
    match fault {
        Fault::NotFinite => 17,
        Fault::NotWhole => 18,
        Fault::Far => 3,
    }
}

// Returns the number of the part.
fn part(axis: Axis) -> u64
    ensures { result ≡ axis_number axis }
{
    match axis {
        Axis::X => 1,
        Axis::Y => 2,
    }
}
