// Lines of standard input. Lines that begin with # or have nothing but spaces are passed over, and so is a byte order
// mark at the start of the input.
use crate::reasons::Reason;
use crate::standard::{Failure, Patient};
use crate::words;
use arrayvec::ArrayVec;
use std::io::{Read, Write};

// How many characters a line has, at most, and how many bytes are read at once.
const CHARACTERS: usize = 65536;

// What belongs to no line.
const ORDER_MARK: &[u8] = b"\xef\xbb\xbf";

// The lines of an input, and the one at hand.
#[derive(Drop)]
pub struct Lines<R> {
    input: Patient<R>,
    // What was read last. The bytes from `at` up to `end` are not yet taken.
    chunk: [u8; CHARACTERS],
    at: usize,
    end: usize,
    // Whether nothing more is read.
    ended: bool,
    line: Line,
}

impl<R: Read + Drop> Lines<R> {
    // Returns the lines of an input of which nothing is read yet.
    pub fn new(input: R) -> Self {
        Lines {
            input: Patient(input),
            chunk: [0; CHARACTERS],
            at: 0,
            end: 0,
            ended: false,
            line: Line::new(),
        }
    }

    // Goes on to the next line that is to be answered, and returns whether there is one. Before anything is waited for,
    // the answers that `out` holds are written. If the input cannot be read, a part of a line is not answered. A proved
    // loop has to end, so this one counts its turns, one a chunk, up to a number that no run uses up.
    pub fn advance(&mut self, out: &mut impl Write) -> Result<bool, Failure> {
        self.line.begin();
        for _ in 0..u64::MAX {
            if self.take() {
                return Ok(true);
            }
            out.flush().map_err(Failure::Write)?;
            self.read_chunk()?;
            if self.ended {
                return Ok(!self.line.is_passed_over());
            }
        }
        Ok(false)
    }

    // Returns the line at hand, without its newline, if it is not too long.
    pub fn text(&self) -> Result<&[u8], Reason> {
        if self.line.too_long {
            Err(Reason::LineTooLong)
        } else {
            Ok(self.line.held.as_slice())
        }
    }

    // Reads the next chunk. Nothing is read after the end of the input.
    fn read_chunk(&mut self) -> Result<(), Failure> {
        self.at = 0;
        self.end = 0;
        if !self.ended {
            self.end = self.input.read(&mut self.chunk).map_err(Failure::Read)?;
            self.ended = self.end == 0;
        }
        Ok(())
    }

    // Takes what is left of the chunk, up to the end of the first line that is to be answered, and returns whether
    // there is one.
    fn take(&mut self) -> bool {
        let mut left = self.chunk.get(self.at..self.end).unwrap_or(&[]);
        while let Some(count) = left.iter().position(|byte| *byte == b'\n') {
            let (piece, rest) = left.split_at(count);
            left = &rest[1..];
            if !piece.is_empty() {
                self.line.add(piece);
            }
            self.line.first = false;
            if !self.line.is_passed_over() {
                self.at = self.end.saturating_sub(left.len());
                return true;
            }
            self.line.begin();
        }
        self.line.add(left);
        self.at = self.end;
        false
    }
}

// A line, or the part of it that was taken.
#[derive(Drop)]
struct Line {
    held: ArrayVec<u8, CHARACTERS>,
    // Whether it has more characters.
    too_long: bool,
    // Whether it is the first of the input.
    first: bool,
}

impl Line {
    // Returns the first line, with nothing in it.
    fn new() -> Self {
        Line {
            held: ArrayVec::new(),
            too_long: false,
            first: true,
        }
    }

    // Begins a line.
    fn begin(&mut self) {
        self.held.clear();
        self.too_long = false;
    }

    // Adds a piece. An order mark at the start of the input is dropped as soon as it is whole.
    fn add(&mut self, piece: &[u8]) {
        let missing = ORDER_MARK.len().saturating_sub(self.held.len());
        if !self.first || missing == 0 {
            return self.append(piece);
        }
        let (start, rest) = piece.split_at(missing.min(piece.len()));
        self.append(start);
        if self.held.as_slice() == ORDER_MARK {
            self.first = false;
            self.held.clear();
        }
        self.append(rest);
    }

    // Adds a piece to what is held. A space that finds no room is dropped: all that can follow it is spaces, or
    // something that finds no room itself.
    fn append(&mut self, piece: &[u8]) {
        let room = self.held.remaining_capacity();
        let (kept, dropped) = piece.split_at(room.min(piece.len()));
        let _ = self.held.try_extend_from_slice(kept);
        if dropped.iter().any(|byte| !words::is_space(*byte)) {
            self.too_long = true;
        }
    }

    // Whether the line begins with # or has nothing but spaces. What is kept of a line that is too long may be spaces
    // alone.
    fn is_passed_over(&self) -> bool {
        let line = self.held.as_slice();
        line.starts_with(b"#") || !self.too_long && line.iter().all(|byte| words::is_space(*byte))
    }
}
