// Inner functions: a sweep in a buffer of one of three sizes. To clear a buffer for the most points takes a fifth of
// the sweep of few.
ghost use Rattle.std.specs.Prelude.{◌≡◌, ◌*◌, ◌^◌, ◌<◌, ◌≤◌, length};
ghost use Rattle.plane.specs.Sweep.{ValidPoints};
ghost use Rattle.plane.specs.Floor.{on};
ghost use Rattle.plane.specs.Question.{reply, output, ask_sweep};
ghost use Rattle.answers.specs.Answer.{of_answer};

use answers::Answer;
use polygon::limits::CHAINS_NUMBERS;

// Numbers of a buffer for both chains of few points, and of some more.
const SMALL_NUMBERS: usize = 128;

const MIDDLE_NUMBERS: usize = 1_024;

// Writes the shape of the points of a sweep at the front of the output, or refuses 8.
pub fn sweep(list: &[i32], floor: u16, out: &mut [i32]) -> Answer<usize>
    requires { ValidPoints list.now }
    ensures { (of_answer result ≡ reply (ask_sweep (on list.now floor) out.old))
        × (out.new ≡ output (ask_sweep (on list.now floor) out.old)) }
{
    let both = 2 * list.len();
    if both <= SMALL_NUMBERS {
        return sweep_within::<SMALL_NUMBERS>(list, floor, out);
    }
    if both <= MIDDLE_NUMBERS {
        return sweep_within::<MIDDLE_NUMBERS>(list, floor, out);
    }
    sweep_within::<CHAINS_NUMBERS>(list, floor, out)
}

// The same in a buffer that holds both chains of the points.
fn sweep_within<const N: usize>(list: &[i32], floor: u16, out: &mut [i32]) -> Answer<usize>
    requires { ValidPoints list.now × (2 * length list.now ≤ N) × (N < 2 ^ 32) }
    ensures { (of_answer result ≡ reply (ask_sweep (on list.now floor) out.old))
        × (out.new ≡ output (ask_sweep (on list.now floor) out.old)) }
{
    let mut shape = [0i32; N];
    let n = hull::sweep(list, &mut shape);
    delivery::deliver(&shape[..2 * n], floor, out)
}
