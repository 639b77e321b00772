// Packing a log into a second run of bytes. Inner functions; callers ask the crate `questions`.
#![tactic(auto)]

mod copying;

ghost use Rattle.std.specs.Prelude.{false, ◌≡◌, ◌≤◌, leb, length, take, drop};
ghost use Rattle.journal.specs.Format.{records as format_records};
ghost use Rattle.journal.specs.Reading.{damaged};
ghost use Rattle.journal.specs.Survey.{record_at, next_at, Sound};
ghost use Rattle.journal.specs.Marks.{Marked};
ghost use Rattle.journal.specs.Adding.{made};
ghost use Rattle.packing.specs.Packing.{packed, mends_all};
ghost use Rattle.packing.specs.Copying.{is_kept};

use journal::{current, marks, places, records};

// Returns the count of bytes of the packed log.
pub fn packed_length(old: &[u8], but: usize) -> usize
    requires { damaged (format_records old.now) ≡ false }
    ensures { result ≡ length (packed old.now but) }
{
    if marks::serves(old) {
        let mut table = [0u32; marks::PLACES];
        marks::mark(old, &mut table);
        return measure(old, but, &table);
    }
    measure(old, but, &[])
}

// The same, with a table of the log's last places, or with an empty one. The table is lent: a `Table` handed back is
// copied, and an empty one is cleared.
fn measure(old: &[u8], but: usize, table: &[u32]) -> usize
    requires { (damaged (format_records old.now) ≡ false) × Marked old.now table.now 0 }
    ensures { result ≡ length (packed old.now but) }
{
    let mut n = 0;
    for p in places::all(old) {
        if is_kept(old, p, but, table) {
            n += records::next_at(old, p) - p;
        }
    }
    n
}

// Stores the packed log into a run that is long enough, and zeros after it: at most `allowed` stores, each where the
// byte differs. Returns whether they were enough.
// Ruled out: stale bytes left; blanked from the length of the old log; cut called finished.
pub fn pack(old: &[u8], new: &mut [u8], but: usize, allowed: usize) -> bool
    requires { (damaged (format_records old.now) ≡ false) × (length (packed old.now but) ≤ length new.old) }
    ensures { (result ≡ leb (length (mends_all old.now but new.old)) allowed)
        × (new.new
        ≡ made (take allowed (mends_all old.now but new.old)) new.old) }
{
    if marks::serves(old) {
        let mut table = [0u32; marks::PLACES];
        marks::mark(old, &mut table);
        return store(old, new, but, allowed, &table);
    }
    store(old, new, but, allowed, &[])
}

// The same, with a table of the log's last places, or with an empty one.
fn store(old: &[u8], new: &mut [u8], but: usize, allowed: usize, table: &[u32]) -> bool
    requires { (damaged (format_records old.now) ≡ false) × (length (packed old.now but) ≤ length new.old)
        × Marked old.now table.now 0 }
    ensures { (result ≡ leb (length (mends_all old.now but new.old)) allowed)
        × (new.new
        ≡ made (take allowed (mends_all old.now but new.old)) new.old) }
{
    let mut need = 0;
    let mut q = 0;
    for p in places::all(old) {
        if is_kept(old, p, but, table) {
            let size = records::next_at(old, p) - p;
            need = copying::copy(old, p, size, new, q, need, allowed);
            q += size;
        }
    }
    need = copying::blank(new, q, need, allowed);
    need <= allowed
}

// Whether the record at a place belongs to the packed log: it has another name than `but`, and no later record has its
// name.
// Ruled out: older record kept; only the name left out kept.
fn is_kept(old: &[u8], p: usize, but: usize, table: &[u32]) -> bool
    requires { Sound old.now p × Marked old.now table.now p }
    ensures { result ≡ is_kept but (record_at old.now p)
        (format_records (drop (next_at old.now p) old.now)) }
{
    endian::pair_at(old, p + 4) != but && current::is_latest(old, p, table)
}
