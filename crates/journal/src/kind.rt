// Inner functions: the kinds of records.
ghost use Rattle.std.specs.Prelude.{true, ◌≡◌, MatchOption};
ghost use Rattle.journal.specs.Format.{fixed_bytes, other_kind};
ghost use Rattle.journal.specs.Kind.{number};

// What a record says besides its corners, with the number that stands for it.
#[derive(Clone, Copy)]
pub enum Kind {
    // No floor: it is on floor 0.
    Plain = 1,
    // Its floor: the kind that is written.
    Floored = 2,
}

impl Kind {
    // Returns the kind that a number stands for, or none.
    pub fn from_number(n: usize) -> Option<Kind>
        ensures { MatchOption result (other_kind n ≡ true) (λ k. n ≡ number k) }
    {
        if n == Kind::Plain as usize {
            return Some(Kind::Plain);
        }
        if n == Kind::Floored as usize {
            return Some(Kind::Floored);
        }
        None
    }

    // What the length counts besides the corners in a record of the kind: kind, name, any floor and last byte.
    pub fn fixed_bytes(self) -> usize
        ensures { result ≡ fixed_bytes (number self) }
    {
        match self {
            Kind::Plain => 5,
            Kind::Floored => 7,
        }
    }
}
