// Inner functions: arithmetic on numbers of any count of words, the lowest word first. A number of no words is 0.
ghost use Rattle.std.specs.Prelude.{◌≡◌, ◌+◌, ◌*◌, ◌/◌, ◌^◌, length, nat_lt};
ghost use Rattle.wide.specs.Value.{value};

// Whether a is less than b, two numbers of as many words: the highest word that differs decides.
pub fn is_less(a: &[u64], b: &[u64]) -> bool
    requires same_length { length a.now ≡ length b.now }
    ensures { result ≡ nat_lt (value a.now) (value b.now) }
{
    for i in (0..a.len()).rev() {
        if a[i] != b[i] {
            return a[i] < b[i];
        }
    }
    false
}

// The product of a and the word w, which has one word more than a.
pub fn scale(a: &[u64], w: u64, out: &mut [u64])
    requires room { length out.old ≡ length a.now + 1 }
    ensures { value out.new ≡ value a.now * w }
{
    let mut carry = 0;
    for i in 0..a.len() {
        (out[i], carry) = a[i].carrying_mul(w, carry);
    }
    out[a.len()] = carry;
}

// The high word of x·y.
pub fn high_product(x: u64, y: u64) -> u64
    ensures { result ≡ x * y / 2 ^ 64 }
{
    x.carrying_mul(y, 0).1
}
