// The floor of a shape, which may come before its numbers: a word of an at sign and a number from 0 to 65,535.
use crate::words::Words;
use crate::{numbers, words};

// What a floor begins with.
const MARK: &[u8] = b"@";

// Returns the floor that the text of a field says, 0 if it says none; nothing if its first word should be a floor and
// is not.
pub fn read(text: &[u8]) -> Option<u16> {
    match words::first(text).strip_prefix(MARK) {
        Some(number) => u16::try_from(numbers::number(number)?).ok(),
        None => Some(0),
    }
}

// Returns the words of a text after the floor.
pub fn after(text: &[u8]) -> Words<'_> {
    let mut words = words::of(text);
    if words::first(text).starts_with(MARK) {
        let _ = words.next();
    }
    words
}
