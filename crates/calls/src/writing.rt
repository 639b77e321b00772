// Inner functions: an answer's numbers, written to the output as bytes.
ghost use Rattle.std.specs.Prelude.{◌≡◌, length};
ghost use Rattle.plane.specs.Floor.{on};
ghost use Rattle.plane.specs.Question.{reply, output};
ghost use Rattle.wire.specs.Told.{crossed, numbers};
ghost use Rattle.bytewise.specs.Packing.{packed};
ghost use Rattle.bytewise.specs.Bytes.{words_in, bytes_after};
ghost use Rattle.bytewise.specs.Passing.{Holds, combined, asked};

use crate::pairs;
use bytewise::writing;
use reply::Reply;

// Asks for the merge of two lists, or for their sum, into a buffer of numbers; then writes their bytes and packs the
// reply. A refusal has no values, so that none are written.
// Ruled out: half of the answer written.
pub fn combine(
    merged: bool,
    a: &[i32],
    f: u32,
    b: &[i32],
    g: u32,
    shape: &mut [i32],
    out: &mut [u8],
) -> u64
    requires { Holds merged a.now b.now (length shape.old) }
    ensures { (result ≡ packed (reply (asked (combined merged) (on a.now f) (on b.now g)
        (words_in out.old))))
        × (out.new ≡ bytes_after (asked (combined merged) (on a.now f) (on b.now g)
        (words_in out.old)) out.old) }
{
    let n = writing::room(out.len(), shape.len());
    let reply = ask(merged, a, f, b, g, &mut shape[..n]);
    endian::encode(shape, 2 * reply.values[0] as usize, out);
    bytewise::packing::packed_reply(reply)
}

// Asks for the merge of two lists, or for their sum.
fn ask(merged: bool, a: &[i32], f: u32, b: &[i32], g: u32, shape: &mut [i32]) -> Reply
    ensures { (numbers result ≡ crossed (reply
        (asked (combined merged) (on a.now f) (on b.now g) shape.old)))
        × (shape.new
        ≡ output (asked (combined merged) (on a.now f) (on b.now g) shape.old)) }
{
    if merged {
        pairs::cocklesway_merge(a, f, b, g, shape)
    } else {
        pairs::cocklesway_sum(a, f, b, g, shape)
    }
}
