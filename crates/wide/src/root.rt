// Inner functions: which number the search for a root tries next. Nothing hangs on it but the time.
ghost use Rattle.std.specs.Prelude.{◌<◌, ◌≤◌};

use crate::arithmetic::high_product;

// 3, where a one is 2^62.
const THREE: u64 = 0xc000_0000_0000_0000;

// 2.15, where a one is 2^63, without the 2, which wraps.
const START: u64 = 0x1333_3333_3333_3333;

// A number near t/√q. Of a root below 2^22 it is all but always the root or the next number; then two comparisons do.
// q is moved up by an even count of places, so that x, where a one is 2^64, is 1/4 or more; 1/√x begins at
// 2.15 - 1.25·x.
pub fn near_root(t: u64, q: u64) -> u64 {
    let half = q.leading_zeros() / 2 % 32;
    let x = q << (2 * half);
    let line = START.wrapping_sub(x / 2 + x / 8);
    let y = closer(x, closer(x, closer(x, line)));
    (high_product(t, y) >> (31 - half)).wrapping_add(1)
}

// Newton's step towards 1/√x, from y to y·(3 - x·y·y)/2, where a one of y is 2^63. It doubles the right digits.
fn closer(x: u64, y: u64) -> u64 {
    let square = high_product(high_product(y, y), x);
    high_product(y, THREE.wrapping_sub(square)) << 1
}

// The number that is thought near, if it lies between; else the one half way.
pub fn between(low: u64, high: u64, near: u64) -> u64
    requires { low < high }
    ensures { (low < result) × (result ≤ high) }
{
    if low < near && near <= high {
        near
    } else {
        high - (high - low) / 2
    }
}
