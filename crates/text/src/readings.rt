// Readings of the tablet: a unit, `mm` for millimetres or `e8` for eighths, and the bits of a double, `0x` and 16
// hexadecimal digits.
use crate::{digits, words};

// How many digits the bits have.
const DIGITS: usize = 16;

// One digit more than those of a smaller number would pass 64 bits.
const SHORT: u64 = 0x1000000000000000;

// The unit and the bits of a reading.
#[derive(Clone, Copy)]
pub enum Reading {
    Millimetres(u64),
    Eighths(u64),
}

// Reads a text of two words, and returns none if it is no reading.
pub fn read(text: &[u8]) -> Option<Reading> {
    let mut words = words::of(text);
    let unit = words.next()?;
    let digits = words.next()?.strip_prefix(b"0x")?;
    if digits.len() != DIGITS || words.next().is_some() {
        return None;
    }
    let bits = hexadecimal(digits)?;
    match unit {
        b"mm" => Some(Reading::Millimetres(bits)),
        b"e8" => Some(Reading::Eighths(bits)),
        _ => None,
    }
}

// Returns the value of hexadecimal digits.
fn hexadecimal(text: &[u8]) -> Option<u64> {
    let mut value = 0;
    for byte in text {
        value = value % SHORT * 16 + u64::from(digits::hexadecimal(*byte)?);
    }
    Some(value)
}
