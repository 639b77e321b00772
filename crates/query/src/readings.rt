// A corner of two readings: doubles made of their bits, and bits of doubles.
ghost use Rattle.std.specs.Prelude.{◌≡◌};
ghost use Rattle.std.specs.Float.{binary64};
ghost use Rattle.std.specs.Float.Ieee.{nan_bits};

use reply::Reply;
use tablet::reading::Reading;
use text::fields::Field;
use text::readings;
use wire::numbers;

// The weight of the sign, of the exponent, and the exponent of an infinity or a NaN.
const SIGN: u64 = 0x8000000000000000;

const EXPONENT: u64 = 0x10000000000000;

const ONES: u64 = 2047;

// Asks for the corner of the readings of two fields. The values told are the bits of the doubles that go back.
pub fn tablet(x: &Field, y: &Field) -> Reply {
    match tablet_questions::tablet(reading(x), reading(y)) {
        Ok(corner) => numbers::answered([pattern(corner.sent.x), pattern(corner.sent.y)]),
        Err(refusal) => Reply::from(refusal),
    }
}

// Returns the reading that a field holds. (A line whose fields are no readings is not asked.)
fn reading(field: &Field) -> Reading {
    match field.reading() {
        Some(readings::Reading::Millimetres(bits)) => Reading::Millimetres(double(bits)),
        Some(readings::Reading::Eighths(bits)) => Reading::Eighths(double(bits)),
        None => Reading::Millimetres(0.0),
    }
}

// Returns the double of a bit pattern. The language has no bits of a NaN.
fn double(bits: u64) -> f64 {
    if is_nan(bits) {
        f64::NAN
    } else {
        f64::from_bits(bits)
    }
}

// Whether a bit pattern is a NaN's.
fn is_nan(bits: u64) -> bool
    ensures { result ≡ nan_bits binary64 bits }
{
    bits % SIGN / EXPONENT == ONES && bits % EXPONENT != 0
}

// Returns the bit pattern of a double. (None that goes back is a NaN.)
fn pattern(v: f64) -> u64 {
    if v.is_nan() { 0 } else { v.to_bits() }
}
