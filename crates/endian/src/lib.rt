// Inner functions: numbers as bytes, the lowest first.
#![tactic(auto)]

ghost use Rattle.std.specs.Prelude.{◌≡◌, ◌+◌, ◌*◌, ◌≤◌, ◌<◌, length, take};
ghost use Rattle.std.proofs.lemmas.List.Edits.{sets};
ghost use Rattle.std.specs.Int.{w32};
ghost use Rattle.std.proofs.Common.{of_z};
ghost use Rattle.plane.specs.Output.{overwritten};
ghost use Rattle.endian.specs.Bytes.{pair_at, word, word_at, words, words_at};

// Reads n numbers of four bytes from a place on, to the front of an output; all after them is kept.
pub fn decode(bytes: &[u8], p: usize, n: usize, out: &mut [i32])
    requires { (p + 4 * n ≤ length bytes.now) × (n ≤ length out.old) }
    ensures { out.new ≡ overwritten (words_at n bytes.now p) out.old }
{
    for i in 0..n {
        out[i] = word_at(bytes, p + 4 * i);
    }
}

// Writes the first n numbers of a list, four bytes each, to the front of an output; all after them is kept.
pub fn encode(list: &[i32], n: usize, out: &mut [u8])
    requires { (n ≤ length list.now) × (4 * n ≤ length out.old) }
    ensures { out.new ≡ overwritten (words (take n list.now)) out.old }
{
    for i in 0..n {
        put(out, 4 * i, list[i]);
    }
}

// Returns the four-byte number at a place.
fn word_at(bytes: &[u8], p: usize) -> i32
    requires { 3 + p < length bytes.now }
    ensures { result ≡ word_at bytes.now p }
{
    i32::from_le_bytes([bytes[p], bytes[p + 1], bytes[p + 2], bytes[p + 3]])
}

// Returns the two-byte number at a place.
pub fn pair_at(bytes: &[u8], p: usize) -> usize
    requires { 1 + p < length bytes.now }
    ensures { (result ≡ pair_at bytes.now p) × (result < 65536) }
{
    usize::from(u16::from_le_bytes([bytes[p], bytes[p + 1]]))
}

// Writes a number of four bytes at a place.
fn put(out: &mut [u8], p: usize, z: i32)
    requires { 3 + p < length out.old }
    ensures { out.new ≡ sets out.old p (word z) }
{
    out[p..p + 4].copy_from_slice(&z.to_le_bytes());
}

// Returns the bits of a number.
pub fn bits(z: i32) -> u32
    ensures { result ≡ of_z w32 z }
{
    z.cast_unsigned()
}
