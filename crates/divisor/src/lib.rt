// The greatest common divisor of two numbers (document 02, request W12): refusal 12 asks it.
#![tactic(auto)]

ghost use Rattle.std.specs.Prelude.{◌≡◌, ◌/◌, ◌%◌, ◌^◌, ◌<◌};
ghost use Rattle.divisor.specs.Divisor.{gcd};

// The greatest common divisor, by halving (document 02, request W12). Of a number and 0 it is the number. The factors
// of two are counted and stripped; those that both numbers have are given back to the divisor of the odd parts.
// Ruled out: twos stripped from one part only; divisor one of a part and zero; more twos given back.
pub fn divisor(a: u32, b: u32) -> u32
    ensures { result ≡ gcd a b }
{
    if a == 0 {
        return b;
    }
    if b == 0 {
        return a;
    }
    let s = a.trailing_zeros();
    let t = b.trailing_zeros();
    let odd = odd_divisor(strip(a, s), strip(b, t));
    odd << s.min(t)
}

// The greatest common divisor of two odd numbers: the less is subtracted from the greater, and the difference, which is
// even, loses its factors of two, until the two are equal.
fn odd_divisor(a: u32, b: u32) -> u32
    requires odd { (a % 2 ≡ 1) × (b % 2 ≡ 1) }
    ensures { result ≡ gcd a b }
{
    let mut x = a;
    let mut y = b;
    while x != y {
        if x < y {
            y = strip(y - x, (y - x).trailing_zeros());
        } else {
            x = strip(x - y, (x - y).trailing_zeros());
        }
    }
    x
}

// Returns n without `twos` factors of two.
fn strip(n: u32, twos: u32) -> u32
    requires { twos < 32 }
    ensures { result ≡ n / 2 ^ twos }
{
    n >> twos
}
