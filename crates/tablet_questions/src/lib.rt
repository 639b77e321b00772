// The question on readings of the tablet. Callers ask the crate `questions`.
#![tactic(auto)]

mod coordinate;

ghost use Rattle.std.specs.Prelude.{◌≡◌};
ghost use Rattle.tablet.specs.Reading.{tablet_sent};
ghost use Rattle.answers.specs.Answer.{of_tablet};

use answers::{Axis, Corner, Sent, Unread};
use tablet::reading::Reading;

// A corner of two readings of the tablet, each in millimetres or in eighths: the doubles that go back, and the whole
// numbers that they hold exactly, from which a shape may be listed. Minus zero is 0 and goes back as plus zero. Nothing
// is rounded. Refused, with the part that it was: x, then y, each if it is not finite, then if it is not whole, then if
// it is out of range.
// Ruled out: x blamed for y; y judged first; whole after range; minus zero sent back; scaled before the test.
pub fn tablet(x: Reading, y: Reading) -> Result<Corner, Unread>
    ensures { of_tablet result ≡ tablet_sent x y }
{
    let m = coordinate::read_part(x, Axis::X)?;
    let n = coordinate::read_part(y, Axis::Y)?;
    Ok(Corner {
        sent: Sent {
            x: tablet::double(m),
            y: tablet::double(n),
        },
        x: m,
        y: n,
    })
}
