// Text for standard output, which is gathered and written when there is much of it, or when it is flushed.
ghost use Rattle.std.specs.Prelude.{◌≡◌, [], IfOk};
ghost use Rattle.std.specs.Io.Buffered.{writer_buffer, writer_capacity};

use crate::standard::{Failure, Patient};
use arrayvec::ArrayVec;
use itoa::Buffer;
use std::alloc::Global;
use std::io;
use std::io::{BufWriter, Write};

// How many bytes are written at once.
const SIZE: usize = 65536;

// Of how many bytes the digits are added at once, and how many digits they have.
const BYTES: usize = 32;

const PAIRS: usize = 64;

// The hexadecimal digits.
const DIGITS: &[u8; 16] = b"0123456789ABCDEF";

// A writer that gathers what is written to another. What it holds when it ends is not written: `flush` writes it.
#[derive(Drop)]
pub struct Gathered<W> {
    writer: Patient<W>,
    held: ArrayVec<u8, SIZE>,
}

// Returns a writer that gathers what is written to another, in a buffer that it allocates. When it is dropped it writes
// what it holds, if that can be written.
// Ruled out: half as much gathered.
pub fn gather<W: Write + Drop>(alloc: Global, writer: W) -> Result<BufWriter<Patient<W>>, Failure>
    ensures { IfOk result (λ w. (writer_buffer w ≡ []) × (writer_capacity w ≡ 65536)) }
{
    BufWriter::with_capacity(alloc, SIZE, Patient(writer)).map_err(Failure::Write)
}

// Returns a writer that gathers what is written to another, and holds it itself.
pub fn gather_inline<W: Write + Drop>(writer: W) -> Gathered<W> {
    Gathered {
        writer: Patient(writer),
        held: ArrayVec::new(),
    }
}

impl<W: Write + Drop> Write for Gathered<W> {
    fn write(&mut self, bytes: &[u8]) -> io::Result<usize> {
        if self.held.remaining_capacity() == 0 {
            self.flush()?;
        }
        let count = bytes.len().min(self.held.remaining_capacity());
        let _ = self.held.try_extend_from_slice(&bytes[..count]);
        Ok(count)
    }

    // A text that finds room is held at once.
    fn write_all(&mut self, bytes: &[u8]) -> io::Result<()> {
        if self.held.try_extend_from_slice(bytes).is_ok() {
            return Ok(());
        }
        let mut rest = bytes;
        for _ in 0..u64::MAX {
            if rest.is_empty() {
                break;
            }
            let count = self.write(rest)?;
            rest = rest.get(count..).unwrap_or(&[]);
        }
        Ok(())
    }

    // Writes all that is held. A write that takes nothing is made again. A proved loop has to end, so this one counts
    // its turns, up to a number that no run uses up.
    fn flush(&mut self) -> io::Result<()> {
        let mut done = 0;
        for _ in 0..u64::MAX {
            if self.held.len() <= done {
                break;
            }
            done = usize::saturating_add(done, self.writer.write(&self.held.as_slice()[done..])?);
        }
        self.held.clear();
        Ok(())
    }
}

// Adds numbers, with a space before each.
pub fn numbers(out: &mut impl Write, list: &[i32]) -> io::Result<()> {
    let mut digits = Buffer::new();
    for number in list {
        out.write_all(b" ")?;
        out.write_all(digits.format(*number).as_bytes())?;
    }
    Ok(())
}

// Adds bytes, two hexadecimal digits each, in large letters.
pub fn bytes(out: &mut impl Write, bytes: &[u8]) -> io::Result<()> {
    for piece in bytes.chunks(BYTES) {
        let mut digits = ArrayVec::<u8, PAIRS>::new();
        for byte in piece {
            let _ = digits.try_extend_from_slice(&pair(*byte));
        }
        out.write_all(digits.as_slice())?;
    }
    Ok(())
}

// Returns the two digits of a byte.
fn pair(byte: u8) -> [u8; 2] {
    let (high, low) = (byte / 16, byte % 16);
    [DIGITS[high as usize], DIGITS[low as usize]]
}

#[cfg(test)]
mod tests {
    use super::*;
    use std::test::Fail;

    #[test]
    fn writes_when_it_is_flushed(rt: HostRuntime) -> Result<(), Fail> {
        let mut out = gather(rt.alloc(), Vec::new(rt.alloc()))?;
        numbers(&mut out, &[3, -70])?;
        bytes(&mut out, &[0x0A, 0xFF])?;
        assert_eq!(rt; out.get_ref().0.len(), 0);
        out.flush()?;
        assert_eq!(rt; out.get_ref().0.as_slice(), b" 3 -700AFF".as_slice());
        Ok(())
    }
}
