// Numbers of many words, and what width asks of them (document 01, "Width").
#![tactic(auto)]

pub mod arithmetic;
mod root;

ghost use Rattle.std.specs.Prelude.{◌≡◌, ◌*◌, ◌<◌, length, nat_lt};
ghost use Rattle.wide.specs.Value.{value};
ghost use Rattle.wide.specs.Root.{RoundedRoot};

// Whether t1·t1/q1 is less than t2·t2/q2 as exact fractions, multiplied out, for numbers of any
// size. Equal fractions are not less.
// Ruled out: carry dropped; carry lost from both words; lowest word not compared.
pub fn fraction_less(t1: u64, q1: u64, t2: u64, q2: u64) -> bool
    ensures { result ≡ nat_lt (t1 * t1 * q2) (t2 * t2 * q1) }
{
    let mut left = [0u64; 3];
    square_times(t1, q2, &mut left);
    let mut right = [0u64; 3];
    square_times(t2, q1, &mut right);
    arithmetic::is_less(&left, &right)
}

// The square root of t·t/q, rounded down; 0 where t·t is below q. The root lies between 0 and t. A number near it is
// tried first, then others, each further off, until it lies between two; then each turn halves what is left.
// Ruled out: root one too large.
pub fn root_of_fraction(t: u64, q: u64) -> u64
    requires positive { 0 < q }
    ensures { RoundedRoot t q result }
{
    let mut low: u64 = 0;
    let mut high = t;
    let mut near = root::near_root(t, q);
    let mut step: u64 = 0;
    while low < high {
        let middle = root::between(low, high, near);
        step = step << 1 | 1;
        if fraction_less(t, q, middle, 1) {
            high = middle - 1;
            near = middle.wrapping_sub(step);
        } else {
            low = middle;
            near = middle.wrapping_add(step);
        }
    }
    low
}

// t·t·q, which three words hold.
fn square_times(t: u64, q: u64, out: &mut [u64])
    requires room { length out.old ≡ 3 }
    ensures { value out.new ≡ t * t * q }
{
    let side = [t];
    let mut square = [0u64; 2];
    arithmetic::scale(&side, t, &mut square);
    arithmetic::scale(&square, q, out);
}
