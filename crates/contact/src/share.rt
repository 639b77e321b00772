// Inner functions: fractions of the way, which products of two words compare exactly.
ghost use Rattle.std.specs.Prelude.{◌≡◌, ◌*◌, ◌≤◌, ◌<◌, ◌^◌, ltb};
ghost use Rattle.integer.specs.Bound.{Within};
ghost use Rattle.divisor.specs.Divisor.{gcd};
ghost use Rattle.plane.specs.Measure.{root_below};
ghost use Rattle.motion.specs.Contact.{entering as contact_entering, later as contact_later};
ghost use Rattle.motion.specs.Contact.{lowest as contact_lowest};
ghost use Rattle.contact.specs.Share.{fraction, exceed as share_exceed};

use answers::Meeting;
use measure::magnitude;
use wide::arithmetic;

// The greatest root that is asked for: ways are shorter than 2^22 millimetres.
const LONGEST: u64 = 4_194_304;

// A numerator over a denominator.
#[derive(Clone, Copy)]
pub struct Share {
    pub numerator: u64,
    pub denominator: u64,
}

impl Share {
    pub const START: Share = Share {
        numerator: 0,
        denominator: 1,
    };

    pub const END: Share = Share {
        numerator: 1,
        denominator: 1,
    };

    // Where a way that is a past a wall at its start, and b at its end, enters it: at once if a is not above 0, and at
    // the end if both are.
    pub fn entering(a: i64, b: i64) -> Share
        requires { Within 8_000_000_000_000 a × Within 8_000_000_000_000 b }
        ensures { fraction result ≡ contact_entering a b }
    {
        if a <= 0 {
            Share::START
        } else if b <= 0 {
            Share {
                numerator: magnitude::magnitude(a),
                denominator: magnitude::magnitude(a - b),
            }
        } else {
            Share::END
        }
    }

    // The later of two fractions, the first if they are equal. Nothing is before the start, so that 0 needs no product:
    // a test of its own, since together with the other both are made.
    pub fn later(self, other: Share) -> Share
        ensures { fraction result ≡ contact_later (fraction self) (fraction other) }
    {
        if other.numerator == 0 {
            self
        } else if self.is_less(other) {
            other
        } else {
            self
        }
    }

    // Whether this part of a way from its start, and the other from its end, are together more than the way.
    // Ruled out: way into a shape taken for apart.
    pub fn exceeds(self, other: Share) -> bool
        requires { self.numerator ≤ self.denominator }
        ensures { result ≡ share_exceed (fraction self) (fraction other) }
    {
        let rest = Share {
            numerator: self.denominator - self.numerator,
            denominator: self.denominator,
        };
        rest.is_less(other)
    }

    // Whether this fraction is less than another one, by the products.
    pub fn is_less(self, other: Share) -> bool
        ensures { result ≡ ltb (self.numerator * other.denominator) (other.numerator * self.denominator) }
    {
        let mut left = [0u64; 2];
        arithmetic::scale(&[self.numerator], other.denominator, &mut left);
        let mut right = [0u64; 2];
        arithmetic::scale(&[other.numerator], self.denominator, &mut right);
        arithmetic::is_less(&left, &right)
    }

    // The same fraction in lowest terms.
    pub fn lowest(self) -> Share
        requires { 0 < self.denominator }
        ensures { fraction result ≡ contact_lowest (fraction self) }
    {
        let g = divisor(self.numerator, self.denominator);
        Share {
            numerator: self.numerator / g,
            denominator: self.denominator / g,
        }
    }

    // The millimetres to this fraction of a way whose squared length is given, rounded down: each turn halves what is
    // left.
    // Ruled out: safe way rounded up to one.
    pub fn millimetres(self, length: u64) -> u64
        requires { (self.numerator ≤ self.denominator) × (0 < self.denominator) × (length < 2 ^ 44) }
        ensures { result
            ≡ root_below (self.numerator * self.numerator * length) (self.denominator * self.denominator) }
    {
        let mut low: u64 = 0;
        let mut high = LONGEST;
        while low < high {
            let middle = high - (high - low) / 2;
            if wide::fraction_less(self.numerator, middle * middle, self.denominator, length) {
                high = middle - 1;
            } else {
                low = middle;
            }
        }
        low
    }
}

// The fraction of the way at which something is met.
impl From<Meeting> for Share {
    ghost use Rattle.contact.specs.Share.{share_of};

    ghost from_gives = { λ m s. s ≡ share_of m };

    fn from(meeting: Meeting) -> Share {
        Share {
            numerator: meeting.numerator,
            denominator: meeting.denominator,
        }
    }
}

// The greatest common divisor, by remainders. Of a number and 0 it is the number.
fn divisor(a: u64, b: u64) -> u64
    ensures { result ≡ gcd a b }
{
    let mut x = a;
    let mut y = b;
    while y != 0 {
        let rest = x % y;
        x = y;
        y = rest;
    }
    x
}
