// The call for a corner of the surveyor's tablet.
ghost use Rattle.std.specs.Prelude.{◌≡◌};
ghost use Rattle.tablet.specs.Reading.{tablet_reply};
ghost use Rattle.wire.specs.Told.{crossed, numbers};
ghost use Rattle.crossing.specs.Reading.{reading as reading_reading};

use crossing::readings;
use reply::Reply;

// Answers the whole numbers of millimetres of a corner, x and y. A reading is in eighths of a millimetre or in
// millimetres.
#[unsafe(no_mangle)]
pub extern "C" fn cocklesway_tablet(x_eighths: bool, x: f64, y_eighths: bool, y: f64) -> Reply
    ensures { numbers result ≡ crossed (tablet_reply (reading_reading x_eighths x) (reading_reading y_eighths y)) }
{
    reply::of_tablet(tablet_questions::tablet(
        readings::reading(x_eighths, x),
        readings::reading(y_eighths, y),
    ))
}
