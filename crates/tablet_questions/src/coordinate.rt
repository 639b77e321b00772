// Inner functions: a reading of the tablet judged before its corner is answered.
ghost use Rattle.std.specs.Prelude.{◌≡◌};
ghost use Rattle.tablet_questions.specs.Coordinate.{Coordinated};

use answers::{Axis, Unread};
use tablet::reading::Reading;

// Returns the whole number of a reading, or its refusal: 17, 18 and 3 in this order.
pub fn read_part(reading: Reading, axis: Axis) -> Result<i32, Unread>
    ensures { Coordinated axis reading result }
{
    tablet::read(reading).map_err(
        |fault| -> Unread
            ensures { result ≡ record { axis = axis; fault = fault } }
        { Unread { axis, fault } },
    )
}
