// Inner functions: the calls on bytes, with the buffers lent that they decode into. Small lists need small ones only.
ghost use Rattle.std.specs.Prelude.{◌≡◌, length};
ghost use Rattle.plane.specs.Question.{reply};
ghost use Rattle.bytewise.specs.Packing.{packed};
ghost use Rattle.bytewise.specs.Bytes.{ask_judge_bytes, ask_relation_bytes, bytes_after};
ghost use Rattle.bytewise.specs.Passing.{Enough, Spacious, ask_bytes};

use crate::{pairs, shapes, writing};
use bytewise::decoding;

// Judges the list.
pub fn judge(list: &[u8], floor: u32, numbers: &mut [i32]) -> u64
    requires { Enough (length list.now) (length numbers.old) }
    ensures { result ≡ packed (reply (ask_judge_bytes list.now floor)) }
{
    let n = decoding::read(list, numbers);
    bytewise::packing::packed_reply(shapes::cocklesway_judge(&numbers[..n], floor))
}

// Asks how the shapes are to each other.
pub fn relation(a: &[u8], f: u32, b: &[u8], g: u32, first: &mut [i32], second: &mut [i32]) -> u64
    requires { Enough (length a.now) (length first.old) × Enough (length b.now) (length second.old) }
    ensures { result ≡ packed (reply (ask_relation_bytes a.now f b.now g)) }
{
    let m = decoding::read(a, first);
    let n = decoding::read(b, second);
    bytewise::packing::packed_reply(pairs::cocklesway_relation(&first[..m], f, &second[..n], g))
}

// Asks for the merge of the shapes, or for their sum.
pub fn combine(
    merged: bool,
    a: &[u8],
    f: u32,
    b: &[u8],
    g: u32,
    first: &mut [i32],
    second: &mut [i32],
    shape: &mut [i32],
    out: &mut [u8],
) -> u64
    requires { Enough (length a.now) (length first.old) × Enough (length b.now) (length second.old)
        × Spacious (length first.old) (length second.old) (length shape.old) }
    ensures { (result ≡ packed (reply (ask_bytes merged a.now f b.now g out.old)))
        × (out.new
        ≡ bytes_after (ask_bytes merged a.now f b.now g out.old) out.old) }
{
    let m = decoding::read(a, first);
    let n = decoding::read(b, second);
    writing::combine(merged, &first[..m], f, &second[..n], g, shape, out)
}
