// The list that bytes hold, read into a buffer.
ghost use Rattle.std.specs.Prelude.{◌≡◌, ◌&&◌, ◌≤◌, leb, length, take};
ghost use Rattle.bytewise.specs.Bytes.{list_of};
ghost use Rattle.bytewise.specs.Passing.{Alike, Cut, Enough, small_bytes};

use polygon::limits;

// More numbers than a shape may have, whether their count is even or odd.
pub const NUMBERS: usize = limits::SHAPE_NUMBERS + 3;

// The numbers of a small list. A buffer is cleared before it is used, and a small one takes less time.
pub const SMALL_NUMBERS: usize = 256;

// Returns whether this number of bytes holds a small list.
// Ruled out: long list in a small buffer.
pub fn is_small(bytes: usize) -> bool
    ensures { result ≡ leb bytes small_bytes }
{
    bytes <= 4 * SMALL_NUMBERS
}

// Whether two lists are small.
pub fn are_small(m: usize, n: usize) -> bool
    ensures { result ≡ (leb m small_bytes && leb n small_bytes) }
{
    is_small(m) && is_small(n)
}

// Reads the list that bytes hold to the front of a buffer, and returns how many numbers were read. Of a list that has
// too many numbers for a shape only a front is read, which is refused as the list is.
pub fn read(bytes: &[u8], numbers: &mut [i32]) -> usize
    requires { Enough (length bytes.now) (length numbers.old) }
    ensures { (result ≤ length numbers.new)
        × Alike (list_of bytes.now) (take result numbers.new) }
{
    if bytes.len() % 4 != 0 {
        return 0;
    }
    let n = cut(bytes.len() / 4);
    endian::decode(bytes, 0, n, numbers);
    n
}

// How many of n numbers are read. The count stays even or odd, since 1 goes before 2.
// Ruled out: long odd list refused 2.
fn cut(n: usize) -> usize
    ensures { Cut n result }
{
    if n < NUMBERS {
        return n;
    }
    NUMBERS - 1 + n % 2
}
