// Inner functions: bytes stored where they differ, as far as stores are allowed. Each counts the stores that are
// needed, made or not, on top of those that were needed before.
ghost use Rattle.std.specs.Prelude.{[], ◌∷◌, ◌+◌, ◌-◌, ◌≤◌, ◌<◌, length, take, drop, replicate};
ghost use Rattle.packing.specs.Copying.{Copied};

// Copies n bytes of the old run, from place p on, to the new run, from place q on. Returns how many stores are needed
// by now.
pub fn copy(
    old: &[u8],
    p: usize,
    n: usize,
    new: &mut [u8],
    q: usize,
    need: usize,
    allowed: usize,
) -> usize
    requires { (p + n ≤ length old.now) × (q + n ≤ length new.old) × (need ≤ q) }
    ensures { Copied allowed need new.old q (take n (drop p old.now)) result
        new.new }
{
    let mut count = need;
    for i in 0..n {
        count = mend(new, q + i, old[p + i], count, allowed);
    }
    count
}

// Makes all bytes from a place on 0. Returns how many stores are needed by now.
pub fn blank(new: &mut [u8], q: usize, need: usize, allowed: usize) -> usize
    requires { (q ≤ length new.old) × (need ≤ q) }
    ensures { Copied allowed need new.old q (replicate (length new.old - q) 0) result
        new.new }
{
    let mut count = need;
    for at in q..new.len() {
        count = mend(new, at, 0, count, allowed);
    }
    count
}

// Makes the byte at a place x: no store is needed if it is x, and none is made past the allowance. Returns how many
// stores are needed by now.
fn mend(new: &mut [u8], at: usize, x: u8, need: usize, allowed: usize) -> usize
    requires { (at < length new.old) × (need ≤ at) }
    ensures { Copied allowed need new.old at (x ∷ []) result new.new }
{
    if new[at] == x {
        return need;
    }
    if need < allowed {
        new[at] = x;
    }
    need + 1
}
