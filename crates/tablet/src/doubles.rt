// Tests of a double by operations that are exact.
ghost use Rattle.std.specs.Prelude.{◌≡◌, true, T};
ghost use Rattle.std.specs.Float.{binary64};
ghost use Rattle.std.specs.Float.Ieee.{fits};
ghost use Rattle.tablet.specs.Double.{finite};
ghost use Rattle.tablet.specs.Test.{whole, small, short, truncated};

// The bits of the infinity above 0: no constant may be one.
const INFINITY: u64 = 0x7ff0_0000_0000_0000;

// Whether v is neither a NaN nor an infinity.
pub fn is_finite(v: f64) -> bool
    ensures { result ≡ finite v }
{
    let infinity = f64::from_bits(INFINITY);
    v < infinity && -infinity < v
}

// Whether v is a whole number: from 2^53 upward every double is, below that one that is equal to its whole part.
pub fn is_whole(v: f64) -> bool
    requires { T (fits binary64 v) × (finite v ≡ true) }
    ensures { result ≡ whole v }
{
    if -9007199254740992.0 < v && v < 9007199254740992.0 {
        return std::num::nearest_i64_to_f64(std::num::truncating_f64_to_i64(v)) == v;
    }
    true
}

// Whether v is not 0 and less than 1 in size.
pub fn is_small(v: f64) -> bool
    ensures { result ≡ small v }
{
    -1.0 < v && v < 1.0 && v != 0.0
}

// Whether v is less than 2^31 in size.
pub fn is_short(v: f64) -> bool
    requires { finite v ≡ true }
    ensures { result ≡ short v }
{
    -2147483648.0 < v && v < 2147483648.0
}

// A whole number of less than 2^31 as an integer. Minus zero, which the cast does not take, is 0.
pub fn number(v: f64) -> i32
    requires { (finite v ≡ true) × (whole v ≡ true) × (short v ≡ true) }
    ensures { result ≡ truncated v }
{
    if v == 0.0 {
        return 0;
    }
    v as i32
}
