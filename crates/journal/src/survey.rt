// Inner function: a pass over the records of a log.
ghost use Rattle.std.specs.Prelude.{◌≡◌};
ghost use Rattle.journal.specs.Survey.{Ample, surveyed};

use crate::{places, records};
use admission::answer::Refusal;
use polygon::limits;

// The length of a log for which a smaller buffer is enough. It takes less time to clear.
const SHORT: usize = 1024;

// The most numbers in a record of such a log.
const SHORT_NUMBERS: usize = 256;

// Where the first bad record of a log is.
#[derive(Clone, Copy)]
pub struct Damaged {
    pub place: usize,
}

impl From<Damaged> for Refusal {
    ghost use Rattle.journal.specs.Survey.{refused_at};

    ghost from_gives = { λ d r. r ≡ refused_at d };

    fn from(damaged: Damaged) -> Refusal {
        Refusal::Damaged {
            place: damaged.place,
        }
    }
}

// Goes over all whole records and judges the corners of each. Returns where the last whole record ends, if none is bad.
pub fn survey(log: &[u8]) -> Result<usize, Damaged>
    ensures { result ≡ surveyed log.now }
{
    if log.len() <= SHORT {
        let mut buffer = [0i32; SHORT_NUMBERS];
        return pass(log, &mut buffer);
    }
    let mut buffer = [0i32; limits::SHAPE_NUMBERS];
    pass(log, &mut buffer)
}

// The same, with a buffer that holds the numbers of any shape in the log.
fn pass(log: &[u8], buffer: &mut [i32]) -> Result<usize, Damaged>
    requires { Ample log.now buffer.old }
    ensures { result ≡ surveyed log.now }
{
    let mut end = 0;
    for place in places::all(log) {
        if records::bad_at(log, place, buffer) {
            return Err(Damaged { place });
        }
        end = records::next_at(log, place);
    }
    Ok(end)
}
