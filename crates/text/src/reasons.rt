// Why a line is no question.
use std::fmt;

#[derive(Clone, Copy)]
pub enum Reason {
    LineTooLong,
    UnknownWord,
    MissingField,
    TooManyFields,
    NotANumber,
    TooManyNumbers,
    WrongCount,
    NotACount,
    NotAReading,
    NotBytes,
    NotAName,
    NotAWalk,
    NotACall,
    NotAFloor,
}

// The answer that says so, without a newline.
impl fmt::Display for Reason {
    fn fmt<W: fmt::Write>(&self, f: &mut fmt::Formatter<W>) -> fmt::Result {
        let words = match self {
            Reason::LineTooLong => "line too long",
            Reason::UnknownWord => "unknown word",
            Reason::MissingField => "missing field",
            Reason::TooManyFields => "too many fields",
            Reason::NotANumber => "not a number of 32 bits",
            Reason::TooManyNumbers => "too many numbers",
            Reason::WrongCount => "wrong count of numbers",
            Reason::NotACount => "not a count",
            Reason::NotAReading => "not a reading",
            Reason::NotBytes => "not bytes",
            Reason::NotAName => "not a name",
            Reason::NotAWalk => "not a walk",
            Reason::NotACall => "not a call",
            Reason::NotAFloor => "not a floor",
        };
        write!(f, "unreadable: {words}")
    }
}
