// Inner function: what the record at a place of a log says, read once.
ghost use Rattle.journal.specs.Survey.{Sound, Stated};

use crate::records;

// Where the numbers of a record are, how many they are, and its name and floor.
#[derive(Clone, Copy)]
pub struct Head {
    pub place: usize,
    pub count: usize,
    pub name: u16,
    pub floor: u16,
}

// Returns what the record at a place says, if no record from there on is bad.
// Ruled out: first record for the latest.
pub fn head_at(log: &[u8], p: usize) -> Head
    requires { Sound log.now p }
    ensures { Stated log.now p result }
{
    let fixed = records::kind_at(log, p).fixed_bytes();
    Head {
        place: p + (1 + fixed),
        count: (endian::pair_at(log, p) - fixed) / 4,
        name: endian::pair_at(log, p + 4) as u16,
        floor: records::floor_at(log, p, fixed),
    }
}
