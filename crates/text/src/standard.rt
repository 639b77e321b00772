// Standard input and output. A call that a signal interrupted, or that would have to wait, is made again.
use std::io::{Error, ErrorKind, Read, Write};
use std::{fmt, io, thread};

// Why the program ends before its input does, in the system's words.
#[derive(Debug, Drop)]
pub enum Failure {
    Read(Error),
    Write(Error),
}

impl fmt::Display for Failure {
    fn fmt<W: fmt::Write>(&self, f: &mut fmt::Formatter<W>) -> fmt::Result {
        match self {
            Failure::Read(error) => write!(f, "cannot read standard input: {error}"),
            Failure::Write(error) => write!(f, "cannot write standard output: {error}"),
        }
    }
}

// A reader or a writer that makes calls again. A proved loop has to end, so these count their turns, up to a number
// that no run uses up.
#[derive(Drop)]
pub struct Patient<T>(pub T);

impl<R: Read> Read for Patient<R> {
    fn read(&mut self, buffer: &mut [u8]) -> io::Result<usize> {
        for _ in 0..u64::MAX {
            match self.0.read(buffer) {
                Err(error) if is_passing(&error) => {}
                outcome => return outcome,
            }
        }
        Ok(0)
    }
}

impl<W: Write> Write for Patient<W> {
    fn write(&mut self, bytes: &[u8]) -> io::Result<usize> {
        for _ in 0..u64::MAX {
            match self.0.write(bytes) {
                Err(error) if is_passing(&error) => {}
                outcome => return outcome,
            }
        }
        Ok(0)
    }

    fn flush(&mut self) -> io::Result<()> {
        self.0.flush()
    }
}

// Whether the call that has just failed is to be made again.
fn is_passing(error: &Error) -> bool {
    let kind = error.kind();
    if kind == ErrorKind::WouldBlock {
        thread::yield_now();
        return true;
    }
    kind == ErrorKind::Interrupted
}
