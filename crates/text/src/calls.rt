// The calls of a sum in parts, as a text: words of digits, a colon and digits.
use crate::{numbers, words};

// Whether every word of a text is a call.
pub fn are_calls(text: &[u8]) -> bool {
    words::of(text).all(is_call)
}

// Whether a word is digits, a colon and digits.
fn is_call(word: &[u8]) -> bool {
    let mut parts = word.splitn(2, |byte| *byte == b':');
    let count = parts.next();
    let room = parts.next();
    count.is_some_and(numbers::is_decimal) && room.is_some_and(numbers::is_decimal)
}
