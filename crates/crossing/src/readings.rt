// A reading of the tablet, from a double and its unit.
ghost use Rattle.std.specs.Prelude.{◌≡◌};
ghost use Rattle.crossing.specs.Reading.{reading as reading_reading};

use tablet::reading::Reading;

// Returns a reading that carries the double.
// Ruled out: eighths read as millimetres.
pub fn reading(eighths: bool, value: f64) -> Reading
    ensures { result ≡ reading_reading eighths value }
{
    if eighths {
        return Reading::Eighths(value);
    }
    Reading::Millimetres(value)
}
