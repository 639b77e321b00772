// Bytes as text: pairs of hexadecimal digits, in small letters or large, with or without spaces between pairs.
use crate::{digits, words};
use arrayvec::ArrayVec;

// Reads the bytes of a text after those that are held, and returns none if it is no pairs of digits. Bytes that find no
// room are dropped.
pub fn read<const ROOM: usize>(text: &[u8], bytes: &mut ArrayVec<u8, ROOM>) -> Option<()> {
    for word in words::of(text) {
        read_word(word, bytes)?;
    }
    Some(())
}

// Reads the bytes of a word. An odd digit is no pair.
fn read_word<const ROOM: usize>(word: &[u8], bytes: &mut ArrayVec<u8, ROOM>) -> Option<()> {
    for pair in word.chunks(2) {
        let [high, low] = pair else {
            return None;
        };
        let byte = digits::hexadecimal(*high)? * 16 + digits::hexadecimal(*low)?;
        let _ = bytes.try_push(byte);
    }
    Some(())
}
