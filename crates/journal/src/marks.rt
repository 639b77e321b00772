// Inner functions: a table of the places where names come last.
ghost use Rattle.std.specs.Prelude.{true, false, ◌≡◌, [], ◌%◌, ◌<◌, length, MatchOption};
ghost use Rattle.journal.specs.Format.{records};
ghost use Rattle.journal.specs.Reading.{damaged};
ghost use Rattle.journal.specs.Marks.{Marked, Placed, places_of};

use crate::places;

// How many places a table has: one for each value of a name's last ten bits.
pub const PLACES: usize = 1024;

// If no record is after this place, a look ahead takes less time than a table.
const SHORT: usize = 512;

// Places of logs below this length have at most 32 bits.
const LONG: usize = 4294967296;

// The places of a log where names come last; none if a look ahead takes less time than to find them.
#[derive(Clone, Copy)]
pub struct Table {
    places: Option<[u32; PLACES]>,
}

impl Table {
    // Returns the table of a log in which no record is bad.
    pub fn of(log: &[u8]) -> Table
        requires { damaged (records log.now) ≡ false }
        ensures { Marked log.now (places_of result) 0 }
    {
        if !serves(log) {
            return Table { places: None };
        }
        let mut places = [0u32; PLACES];
        mark(log, &mut places);
        Table {
            places: Some(places),
        }
    }

    // Returns the places, for each value of a name's last ten bits; none if there is no table.
    // Ruled out: half of the places lent.
    pub fn as_slice(&self) -> &[u32]
        ensures { result.now ≡ places_of self.now }
    {
        match &self.places {
            Some(places) => places,
            None => &[],
        }
    }

    // Returns the place for a name: that of the last record whose name has the same last ten bits, if any has them.
    pub fn place(&self, name: usize) -> Option<usize>
        ensures { MatchOption result (places_of self.now ≡ []) (Placed (places_of self.now) (name % 1024)) }
    {
        let places = self.places.as_ref()?;
        Some(places[name % PLACES] as usize)
    }
}

// Whether a table serves a log: there are records enough, and a place has at most 32 bits.
pub fn serves(log: &[u8]) -> bool
    ensures { result ≡ true → length log.now < 4294967296 }
{
    if LONG <= log.len() {
        return false;
    }
    for p in places::all(log) {
        if SHORT <= p {
            return true;
        }
    }
    false
}

// Notes, for each value of a name's last ten bits, the place of the last record that has it.
pub fn mark(log: &[u8], table: &mut [u32])
    requires { (damaged (records log.now) ≡ false) × (length log.now < 4294967296)
        × (length table.old ≡ 1024) }
    ensures { Marked log.now table.new 0 }
{
    for p in places::all(log) {
        table[endian::pair_at(log, p + 4) % PLACES] = p as u32;
    }
}
