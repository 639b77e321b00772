// Adding a record to a log, byte by byte, with no more stores than are allowed. Inner functions; callers ask the crate
// `questions`. The definitions are those of the crate `journal`.
#![tactic(auto)]

ghost use Rattle.std.specs.Prelude.{true, ◌≡◌, [], ◌∷◌, ℕ, ◌+◌, ◌*◌, ◌-◌, ◌≤◌, ◌<◌, leb, ltb, length, take, drop};
ghost use Rattle.std.specs.Prelude.{get_or};
ghost use Rattle.endian.specs.Bytes.{pair as bytes_pair, word as bytes_word, words as bytes_words};
ghost use Rattle.journal.specs.Format.{recorded};
ghost use Rattle.journal.specs.Adding.{clears, writes, stores, made, end as adding_end};
ghost use Rattle.journal.specs.Allowance.{Blank, Ran, cleared};

use journal::kind::Kind;
use journal::records;

// Whether a record of the list, whatever its name and floor, has too little room from a place on: two bytes for the
// length, and what it counts.
// Ruled out: full one byte early.
pub fn is_full(log: &[u8], end: usize, list: &[i32]) -> bool
    requires { end ≤ length log.now }
    ensures { (n f : ℕ)
        → result ≡ ltb (length log.now - end) (length (recorded n f list.now)) }
{
    log.len() - end < 2 + Kind::Floored.fixed_bytes() + 4 * list.len()
}

// Clears what is after the last whole record, then stores the record there: at most as many stores as
// are allowed. Whether all were made.
pub fn add(log: &mut [u8], end: usize, name: u16, floor: u16, list: &[i32], allowed: usize) -> bool
    requires { (end ≡ adding_end log.old) × (end + length (recorded name floor list.now) ≤ length log.old) }
    ensures { (result ≡ leb (length (stores log.old (recorded name floor list.now))) allowed)
        × (log.new
        ≡ made (take allowed (stores log.old (recorded name floor list.now)))
        log.old) }
{
    let left = clear(log, end, allowed);
    write(log, end, name, floor, list, left)
}

// Stores a record from a place on, its last byte last. Whether all stores were made.
// Ruled out: cut called finished; last byte stored first.
fn write(log: &mut [u8], p: usize, name: u16, floor: u16, list: &[i32], allowed: usize) -> bool
    requires { p + length (recorded name floor list.now) ≤ length log.old }
    ensures { (result ≡ leb (length (writes p (recorded name floor list.now))) allowed)
        × (log.new
        ≡ made (take allowed (writes p (recorded name floor list.now))) log.old) }
{
    let size = Kind::Floored.fixed_bytes() + 4 * list.len();
    let last = p + 1 + size;
    let low = (size % 256) as u8;
    let mut left = byte(log, p, low, allowed);
    left = byte(log, p + 1, (size / 256 % 256) as u8, left);
    left = pair(log, p + 2, Kind::Floored as u16, left);
    left = pair(log, p + 4, name, left);
    left = pair(log, p + 6, floor, left);
    left = words(log, p + 8, list, left);
    byte(log, last, records::LAST_BYTE, left);
    0 < left
}

// Stores 0 for every byte from a place on that is not 0, from the far end down. How many stores are left.
// Ruled out: tail cleared from its front.
fn clear(log: &mut [u8], from: usize, allowed: usize) -> usize
    requires { from ≤ length log.old }
    ensures { Ran allowed (clears from (drop from log.old)) log.old result log.new }
{
    if is_blank(log, from) {
        return allowed;
    }
    let mut left = allowed;
    for p in (from..log.len()).rev() {
        left = tidy(log, p, left);
    }
    left
}

// Whether all bytes from a place on are 0, as they most often are. There is no exit from the loop, so that several
// bytes are compared at a time.
fn is_blank(log: &[u8], from: usize) -> bool
    ensures { result ≡ true → Blank log.now from }
{
    let mut most = 0u8;
    for p in from..log.len() {
        most = most.max(log[p]);
    }
    most == 0
}

// Stores 0 at a place if another byte is there. How many stores are left.
fn tidy(log: &mut [u8], p: usize, left: usize) -> usize
    requires { p < length log.old }
    ensures { Ran left (cleared p (get_or log.old p 0)) log.old result log.new }
{
    if log[p] == 0 {
        return left;
    }
    byte(log, p, 0, left)
}

// Stores numbers, four bytes each, from a place on. How many stores are left.
fn words(log: &mut [u8], p: usize, list: &[i32], allowed: usize) -> usize
    requires { p + 4 * length list.now ≤ length log.old }
    ensures { Ran allowed (writes p (bytes_words list.now)) log.old result log.new }
{
    let mut left = allowed;
    for (i, z) in list.iter().enumerate() {
        left = word(log, p + 4 * i, *z, left);
    }
    left
}

// Stores a number in four bytes. How many stores are left.
fn word(log: &mut [u8], p: usize, z: i32, allowed: usize) -> usize
    requires { 3 + p < length log.old }
    ensures { Ran allowed (writes p (bytes_word z)) log.old result log.new }
{
    let [a, b, c, d] = z.to_le_bytes();
    let mut left = byte(log, p, a, allowed);
    left = byte(log, p + 1, b, left);
    left = byte(log, p + 2, c, left);
    byte(log, p + 3, d, left)
}

// Stores a number in two bytes. How many stores are left.
fn pair(log: &mut [u8], p: usize, n: u16, allowed: usize) -> usize
    requires { 1 + p < length log.old }
    ensures { Ran allowed (writes p (bytes_pair n)) log.old result log.new }
{
    let [a, b] = n.to_le_bytes();
    let left = byte(log, p, a, allowed);
    byte(log, p + 1, b, left)
}

// Stores a byte if a store is left. How many are left then.
fn byte(log: &mut [u8], p: usize, x: u8, left: usize) -> usize
    requires { p < length log.old }
    ensures { Ran left (writes p (x ∷ [])) log.old result log.new }
{
    if left == 0 {
        return 0;
    }
    log[p] = x;
    left - 1
}
