// Inner functions: a walk over the records of a log.
ghost use Rattle.std.specs.Prelude.{◌≡◌};

use crate::records;

// The places of the records of a log from a place on, in their order.
#[derive(Drop)]
pub struct Places<'a> {
    log: &'a [u8],
    at: usize,
}

// Returns the places of all records of a log.
pub fn all(log: &[u8]) -> Places
    ensures { (result.log.now ≡ log.now) × (result.at ≡ 0) }
{
    from(log, 0)
}

// Returns the places of the records from a place on.
pub fn from(log: &[u8], p: usize) -> Places
    ensures { (result.log.now ≡ log.now) × (result.at ≡ p) }
{
    Places { log, at: p }
}

impl<'a> Iterator for Places<'a> {
    ghost use Rattle.std.specs.Prelude.{◌≤◌, ◌-◌, length};
    ghost use Rattle.std.specs.Iterator.{at_most};
    ghost use Rattle.journal.specs.Places.{Steps};

    type Item = usize;

    // The place is inside the log.
    ghost can_next = { λ s. s.at ≤ length s.log.now };

    ghost next_gives = { Steps };

    ghost remaining = { λ s. at_most (length s.log.now - s.at) };

    fn next(&mut self) -> Option<usize> {
        if !records::whole_at(self.log, self.at) {
            return None;
        }
        let place = self.at;
        self.at = records::next_at(self.log, place);
        Some(place)
    }
}
