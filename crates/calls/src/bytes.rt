// The calls on plain bytes (document 02, W14). A list is lent as bytes, four to a number, the lowest first. Each call
// returns one number, from its low end: a byte for the refusal, or 0; a byte for the shape that 1 to 5 blame, or 0; two
// bytes for 4's edge, or when answered for the count of corners, of a relation 0 apart, 1 touching, 2 overlapping; two
// for 4's corner, or when answered for the floor. The lists are decoded into buffers, which are small for small lists,
// the call on lists is asked, and its reply is packed.
ghost use Rattle.std.specs.Prelude.{◌≡◌, ◌≤◌, length};
ghost use Rattle.plane.specs.Question.{reply};
ghost use Rattle.bytewise.specs.Packing.{packed};
ghost use Rattle.bytewise.specs.Bytes.{ask_judge_bytes, ask_relation_bytes, ask_sum_bytes, ask_merge_bytes};
ghost use Rattle.bytewise.specs.Bytes.{bytes_after};
ghost use Rattle.bytewise.specs.Passing.{ask_bytes, small_bytes};

use crate::lent;
use bytewise::decoding;
use polygon::limits;

// Judges whether the bytes hold a shape, and returns how many corners it has. Refused: 1 to 5, where a count of bytes
// that is no multiple of four is 1; then 13 if the floor is above its limit.
// Ruled out: edge and corner exchanged; long odd list refused 2.
#[unsafe(no_mangle)]
pub extern "C" fn cocklesway_judge_bytes(list: &[u8], floor: u32) -> u64
    ensures { result ≡ packed (reply (ask_judge_bytes list.now floor)) }
{
    if decoding::is_small(list.len()) {
        let mut few = [0i32; decoding::SMALL_NUMBERS];
        return lent::judge(list, floor, &mut few);
    }
    let mut numbers = [0i32; decoding::NUMBERS];
    lent::judge(list, floor, &mut numbers)
}

// Writes the bytes of the shape of all corner-plus-corner points to the front of the output, keeps all after them, and
// returns how many corners the shape has. Refused, with the output as it was: 1 to 5 of the first list, then of the
// second; 13 if the floors differ or one is above its limit; then 6, 7, and 8 if the output has fewer than eight bytes
// to a corner.
// Ruled out: room counted in numbers; half of the answer written.
#[unsafe(no_mangle)]
pub extern "C" fn cocklesway_sum_bytes(a: &[u8], f: u32, b: &[u8], g: u32, out: &mut [u8]) -> u64
    ensures { (result ≡ packed (reply (ask_sum_bytes a.now f b.now g out.old)))
        × (out.new
        ≡ bytes_after (ask_sum_bytes a.now f b.now g out.old) out.old) }
{
    combine(false, a, f, b, g, out)
}

// Writes the bytes of the shape of both corner lists taken together, and returns how many corners it has. Refused as
// a sum is, but never 7.
// Ruled out: sum for merge; count and floor exchanged.
#[unsafe(no_mangle)]
pub extern "C" fn cocklesway_merge_bytes(a: &[u8], f: u32, b: &[u8], g: u32, out: &mut [u8]) -> u64
    ensures { (result ≡ packed (reply (ask_merge_bytes a.now f b.now g out.old)))
        × (out.new
        ≡ bytes_after (ask_merge_bytes a.now f b.now g out.old) out.old) }
{
    combine(true, a, f, b, g, out)
}

// Asks for the merge of the shapes, or for their sum.
fn combine(merged: bool, a: &[u8], f: u32, b: &[u8], g: u32, out: &mut [u8]) -> u64
    ensures { (result ≡ packed (reply (ask_bytes merged a.now f b.now g out.old)))
        × (out.new
        ≡ bytes_after (ask_bytes merged a.now f b.now g out.old) out.old) }
{
    if decoding::are_small(a.len(), b.len()) {
        return combine_small(merged, a, f, b, g, out);
    }
    combine_large(merged, a, f, b, g, out)
}

// The same of two small lists: what is made of them has no more numbers than both.
fn combine_small(merged: bool, a: &[u8], f: u32, b: &[u8], g: u32, out: &mut [u8]) -> u64
    requires { (length a.now ≤ small_bytes) × (length b.now ≤ small_bytes) }
    ensures { (result ≡ packed (reply (ask_bytes merged a.now f b.now g out.old)))
        × (out.new
        ≡ bytes_after (ask_bytes merged a.now f b.now g out.old) out.old) }
{
    let mut first = [0i32; decoding::SMALL_NUMBERS];
    let mut second = [0i32; decoding::SMALL_NUMBERS];
    let mut shape = [0i32; 2 * decoding::SMALL_NUMBERS];
    lent::combine(merged, a, f, b, g, &mut first, &mut second, &mut shape, out)
}

// The same of any two lists.
fn combine_large(merged: bool, a: &[u8], f: u32, b: &[u8], g: u32, out: &mut [u8]) -> u64
    ensures { (result ≡ packed (reply (ask_bytes merged a.now f b.now g out.old)))
        × (out.new
        ≡ bytes_after (ask_bytes merged a.now f b.now g out.old) out.old) }
{
    let mut first = [0i32; decoding::NUMBERS];
    let mut second = [0i32; decoding::NUMBERS];
    let mut shape = [0i32; limits::SHAPE_NUMBERS];
    lent::combine(merged, a, f, b, g, &mut first, &mut second, &mut shape, out)
}

// Returns whether the shapes are apart, touching or overlapping. Refused: 1 to 5 of the first list, then of the second;
// 13 if the floors differ or one is above its limit.
#[unsafe(no_mangle)]
pub extern "C" fn cocklesway_relation_bytes(a: &[u8], f: u32, b: &[u8], g: u32) -> u64
    ensures { result ≡ packed (reply (ask_relation_bytes a.now f b.now g)) }
{
    if decoding::are_small(a.len(), b.len()) {
        let mut few = [0i32; decoding::SMALL_NUMBERS];
        let mut others = [0i32; decoding::SMALL_NUMBERS];
        return lent::relation(a, f, b, g, &mut few, &mut others);
    }
    let mut first = [0i32; decoding::NUMBERS];
    let mut second = [0i32; decoding::NUMBERS];
    lent::relation(a, f, b, g, &mut first, &mut second)
}
