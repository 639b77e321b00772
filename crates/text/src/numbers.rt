// Numbers of 32 bits: words of decimal digits, with a minus before them or none.
ghost use Rattle.std.specs.Prelude.{◌≡◌};
ghost use Rattle.text.specs.Numeral.{number_of, size_of, grown_by};

use crate::reasons::Reason;
use crate::words::Words;
use arrayvec::ArrayVec;

// How many numbers the fields of a line hold together, at most.
const NUMBERS: usize = 16384;

// The size of the least number; the greatest has one less.
const LEAST: u64 = 2147483648;

// The numbers of a line, field after field.
pub type Numbers = ArrayVec<i32, NUMBERS>;

// Reads the numbers of a text after those that are held.
pub fn read(words: Words<'_>, numbers: &mut Numbers) -> Result<(), Reason> {
    for word in words {
        let number = number(word).ok_or(Reason::NotANumber)?;
        numbers
            .try_push(number)
            .map_err(|_| Reason::TooManyNumbers)?;
    }
    Ok(())
}

// Returns the number of a word, if it is one and 32 bits hold it.
pub fn number(word: &[u8]) -> Option<i32>
    ensures { result ≡ number_of word.now }
{
    match word {
        [b'-', digits @ ..] => i32::try_from(-i64::from(size(digits)?)).ok(),
        _ => i32::try_from(size(word)?).ok(),
    }
}

// Returns what decimal digits stand for, one or more, if it is at most the size of the least number.
fn size(digits: &[u8]) -> Option<u32>
    ensures { result ≡ size_of digits.now }
{
    if digits.is_empty() {
        return None;
    }
    let mut size = 0;
    for byte in digits {
        size = grown(size, *byte)?;
    }
    Some(size)
}

// Returns a size with one digit more, if the byte is one and the size is at most that.
fn grown(size: u32, byte: u8) -> Option<u32>
    ensures { result ≡ grown_by size byte }
{
    if !byte.is_ascii_digit() {
        return None;
    }
    let more = u64::from(size) * 10 + u64::from(byte - b'0');
    if more <= LEAST {
        Some(more as u32)
    } else {
        None
    }
}

// Whether a text is decimal digits, one or more.
pub fn is_decimal(text: &[u8]) -> bool {
    !text.is_empty() && text.iter().all(u8::is_ascii_digit)
}
