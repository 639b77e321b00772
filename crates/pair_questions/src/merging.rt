// Inner functions: a merge in a buffer of one of three sizes. To clear a buffer for the largest shapes takes a fifth of
// the merge of two small ones.
ghost use Rattle.std.specs.Prelude.{◌≡◌, ◌+◌, ◌^◌, ◌<◌, ◌≤◌, length};
ghost use Rattle.plane.specs.Refusal.{Valid};
ghost use Rattle.plane.specs.Floor.{on};
ghost use Rattle.plane.specs.Question.{reply, output, ask_merge};
ghost use Rattle.answers.specs.Answer.{of_answer};

use answers::Answer;
use polygon::limits::PAIR_NUMBERS;

// Numbers of a buffer for two small shapes, and for two of middle size.
const SMALL_NUMBERS: usize = 256;

const MIDDLE_NUMBERS: usize = 1_024;

// Writes the merge of two shapes on one floor at the front of the output, or refuses 6 or 8.
pub fn merge(a: &[i32], b: &[i32], floor: u16, out: &mut [i32]) -> Answer<usize>
    requires { Valid a.now × Valid b.now }
    ensures { (of_answer result ≡ reply (ask_merge (on a.now floor) (on b.now floor) out.old))
        × (out.new
        ≡ output (ask_merge (on a.now floor) (on b.now floor) out.old)) }
{
    let all = a.len() + b.len();
    if all <= SMALL_NUMBERS {
        return merge_within::<SMALL_NUMBERS>(a, b, floor, out);
    }
    if all <= MIDDLE_NUMBERS {
        return merge_within::<MIDDLE_NUMBERS>(a, b, floor, out);
    }
    merge_within::<PAIR_NUMBERS>(a, b, floor, out)
}

// Does the same in a buffer that holds the corners of both.
fn merge_within<const N: usize>(a: &[i32], b: &[i32], floor: u16, out: &mut [i32]) -> Answer<usize>
    requires { Valid a.now × Valid b.now × (length a.now + length b.now ≤ N) × (N < 2 ^ 32) }
    ensures { (of_answer result ≡ reply (ask_merge (on a.now floor) (on b.now floor) out.old))
        × (out.new
        ≡ output (ask_merge (on a.now floor) (on b.now floor) out.old)) }
{
    let mut shape = [0i32; N];
    let n = hull::merge(a, b, &mut shape);
    delivery::deliver(&shape[..2 * n], floor, out)
}
