// The room of an output in bytes, in numbers.
ghost use Rattle.std.specs.Prelude.{◌≤◌};
ghost use Rattle.bytewise.specs.Passing.{Room};

// Returns for how many numbers of an answer the bytes have room, at most the given number.
// Ruled out: room counted in numbers.
pub fn room(bytes: usize, most: usize) -> usize
    ensures { (result ≤ most) × Room bytes most result }
{
    let n = bytes / 4;
    if most < n {
        return most;
    }
    n
}
