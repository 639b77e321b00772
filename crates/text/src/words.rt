// The parts of a text: pieces between bars, and words between spaces.
ghost use Rattle.std.specs.Prelude.{length};
ghost use Rattle.std.specs.Iterator.{at_most};

// What separates the pieces of a line.
const BAR: u8 = b'|';

// Returns how many bars a line has, and so how many fields.
pub fn count_bars(line: &[u8]) -> usize {
    line.iter().filter(|byte| is_bar(byte)).count()
}

// Returns piece k of a line: piece 0 is before the first bar. It is empty if there is no such piece.
pub fn piece(line: &[u8], k: usize) -> &[u8] {
    line.split(is_bar).nth(k).unwrap_or(&[])
}

// Whether a byte separates the pieces of a line.
pub(crate) fn is_bar(byte: &u8) -> bool {
    *byte == BAR
}

// The words of a text that are still to come.
#[derive(Drop)]
pub struct Words<'a> {
    text: &'a [u8],
    // Whether a colon separates words too.
    colons: bool,
}

// Returns the words between spaces.
pub fn of(text: &[u8]) -> Words<'_> {
    Words {
        text,
        colons: false,
    }
}

// Returns the words between spaces and colons.
pub fn parts(text: &[u8]) -> Words<'_> {
    Words { text, colons: true }
}

impl<'a> Iterator for Words<'a> {
    type Item = &'a [u8];

    ghost remaining = { λ s. at_most (length s.text.now) };

    fn next(&mut self) -> Option<&'a [u8]> {
        let colons = self.colons;
        let start = self.text.iter().position(|byte| !separates(*byte, colons))?;
        let (_, text) = self.text.split_at(start);
        let (_, tail) = text.split_first()?;
        let end = tail.iter().position(|byte| separates(*byte, colons));
        let (word, rest) = text.split_at(1 + end.unwrap_or(tail.len()));
        self.text = rest;
        Some(word)
    }
}

// Returns the first word of a text.
pub fn first(text: &[u8]) -> &[u8] {
    of(text).next().unwrap_or(&[])
}

// Returns the text without the spaces around it.
pub fn trimmed(text: &[u8]) -> &[u8] {
    let Some(start) = text.iter().position(|byte| !is_space(*byte)) else {
        return &[];
    };
    let end = text
        .iter()
        .rposition(|byte| !is_space(*byte))
        .unwrap_or(start);
    text.get(start..=end).unwrap_or(&[])
}

// Whether a byte separates words: a space, and a colon too if colons do.
fn separates(byte: u8, colons: bool) -> bool {
    is_space(byte) || colons && byte == b':'
}

// A tab and a carriage return count as spaces.
pub fn is_space(byte: u8) -> bool {
    matches!(byte, b' ' | b'\t' | b'\r')
}
