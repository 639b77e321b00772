// Inner functions: the records that count, each the latest of its name.
ghost use Rattle.std.specs.Prelude.{false, not, ◌≡◌, drop};
ghost use Rattle.journal.specs.Format.{records, name as format_name};
ghost use Rattle.journal.specs.Reading.{damaged, held};
ghost use Rattle.journal.specs.Survey.{record_at, next_at, Sound, Reached, Entered};
ghost use Rattle.journal.specs.Marks.{Marked};

use crate::head::Head;
use crate::marks::Table;
use crate::{head, marks, places, records};

// Returns what the current record at a position says, if there are as many. Positions count from 0, in the order of the
// log.
// Ruled out: older record of a name counted; floor before latest.
pub fn entry(log: &[u8], k: usize) -> Option<Head>
    requires { damaged (records log.now) ≡ false }
    ensures { Entered log.now k result }
{
    let marked = Table::of(log);
    let table = marked.as_slice();
    let mut left = k;
    for p in places::all(log) {
        if is_latest(log, p, table) {
            if left == 0 {
                return Some(head::head_at(log, p));
            }
            left -= 1;
        }
    }
    None
}

// Whether no later record has the name of the record at a place. A record at its place of the table, or after it, is
// the last of its name, and one before a record of its name there is not. Others are looked up.
// Ruled out: record before its place counted.
pub fn is_latest(log: &[u8], p: usize, table: &[u32]) -> bool
    requires { Sound log.now p × Marked log.now table.now p }
    ensures { result ≡ not (held (format_name (record_at log.now p))
        (records (drop (next_at log.now p) log.now))) }
{
    let name = endian::pair_at(log, p + 4);
    let Some(&last) = table.get(name % marks::PLACES) else {
        return is_current(log, p);
    };
    let last = last as usize;
    if last <= p {
        return true;
    }
    if endian::pair_at(log, last + 4) == name {
        return false;
    }
    is_current(log, p)
}

// The same, by a look ahead.
pub fn is_current(log: &[u8], p: usize) -> bool
    requires { Sound log.now p }
    ensures { result ≡ not (held (format_name (record_at log.now p))
        (records (drop (next_at log.now p) log.now))) }
{
    !is_held(log, records::next_at(log, p), endian::pair_at(log, p + 4))
}

// Whether a record from a place on has the name.
fn is_held(log: &[u8], from: usize, name: usize) -> bool
    requires { Reached log.now from }
    ensures { result ≡ held name (records (drop from log.now)) }
{
    for p in places::from(log, from) {
        if endian::pair_at(log, p + 4) == name {
            return true;
        }
    }
    false
}
