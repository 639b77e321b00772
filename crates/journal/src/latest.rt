// Inner functions: the latest record of a name.
ghost use Rattle.std.specs.Prelude.{false, ◌≡◌};
ghost use Rattle.journal.specs.Format.{records};
ghost use Rattle.journal.specs.Reading.{damaged};
ghost use Rattle.journal.specs.Survey.{Latest, newer as survey_newer};

use crate::head::Head;
use crate::{head, places};

// Where the numbers of the latest record of a name are, how many they are, and the floor of the record.
#[derive(Clone, Copy)]
pub struct Found {
    pub place: usize,
    pub count: usize,
    pub floor: u16,
}

// Goes over all records of a log in which none is bad.
// Ruled out: record lost after another.
pub fn latest(log: &[u8], name: u16) -> Option<Found>
    requires { damaged (records log.now) ≡ false }
    ensures { Latest name log.now result }
{
    let mut found = None;
    for p in places::all(log) {
        found = newer(head::head_at(log, p), name, found);
    }
    found
}

// What is found once a record is looked at: a later record of the name counts.
fn newer(head: Head, name: u16, found: Option<Found>) -> Option<Found>
    ensures { result ≡ survey_newer name head found }
{
    if head.name != name {
        return found;
    }
    Some(Found {
        place: head.place,
        count: head.count,
        floor: head.floor,
    })
}
