// Inner functions: the record at a place of a log.
ghost use Rattle.std.specs.Prelude.{true, ◌≡◌, ◌+◌, ◌≤◌, length, take, drop};
ghost use Rattle.journal.specs.Format.{size as format_size, kind as format_kind, floor};
ghost use Rattle.journal.specs.Format.{whole, bad, fixed_bytes};
ghost use Rattle.journal.specs.Kind.{number};
ghost use Rattle.journal.specs.Survey.{Legible, Ample, next_at, Sound};

use crate::corners;
use crate::kind::Kind;

// The last byte of a record.
pub const LAST_BYTE: u8 = 90;

// Whether a whole record is at a place.
pub fn whole_at(log: &[u8], p: usize) -> bool
    requires { p ≤ length log.now }
    ensures { result ≡ whole (drop p log.now) }
{
    let room = log.len() - p;
    if room < 2 {
        return false;
    }
    let size = endian::pair_at(log, p);
    size != 0 && 2 + size <= room && log[p + 1 + size] == LAST_BYTE
}

// Returns the place after the whole record at a place.
pub fn next_at(log: &[u8], p: usize) -> usize
    requires { whole (drop p log.now) ≡ true }
    ensures { result ≡ next_at log.now p }
{
    p + (2 + endian::pair_at(log, p))
}

// Whether the whole record at a place is one of another kind or a wrong length, or has corners that are no shape. The
// least length is tested first, since a record may end before its kind. The buffer holds the corners of any
// shape in the log.
pub fn bad_at(log: &[u8], p: usize, buffer: &mut [i32]) -> bool
    requires { (whole (drop p log.now) ≡ true) × Ample log.now buffer.old }
    ensures { (result ≡ bad (take (2 + format_size (drop p log.now)) (drop p log.now)))
        × (length buffer.new ≡ length buffer.old) }
{
    let size = endian::pair_at(log, p);
    if size < Kind::Plain.fixed_bytes() {
        return true;
    }
    let number = endian::pair_at(log, p + 2);
    let Some(kind) = Kind::from_number(number) else {
        return true;
    };
    let fixed = kind.fixed_bytes();
    if size < fixed {
        return true;
    }
    if (size - fixed) % 8 != 0 {
        return true;
    }
    !corners::is_shape_at(log, p + 1 + fixed, (size - fixed) / 4, buffer)
}

// Returns the kind of the record at a place, if no record from there on is bad.
pub fn kind_at(log: &[u8], p: usize) -> Kind
    requires { Sound log.now p }
    ensures { format_kind (drop p log.now) ≡ number result }
{
    Kind::from_number(endian::pair_at(log, p + 2)).unwrap()
}

// What the length counts besides the corners in a record of the kind that a number stands for; in one of another kind,
// as many as in a record without a floor.
// Ruled out: other kind read as one with a floor.
pub fn fixed_bytes(kind: usize) -> usize
    ensures { result ≡ fixed_bytes kind }
{
    Kind::from_number(kind).unwrap_or(Kind::Plain).fixed_bytes()
}

// Returns the floor of the record at a place: 0 if none of its `fixed` bytes, which its length counts besides the
// corners, are a floor's.
// Ruled out: kind 1 read as its own floor.
pub fn floor_at(log: &[u8], p: usize, fixed: usize) -> u16
    requires { Legible log.now p × (fixed ≡ fixed_bytes (format_kind (drop p log.now))) }
    ensures { result ≡ floor (drop p log.now) }
{
    if fixed < Kind::Floored.fixed_bytes() {
        return 0;
    }
    endian::pair_at(log, p + 6) as u16
}
