// The fields of a question: the text of each, and its numbers. The numbers of all fields of a line are in one list,
// which the caller lends.
use crate::numbers::Numbers;
use crate::readings::Reading;
use crate::reasons::Reason;
use crate::{bytes, calls, floors, numbers, readings, words};
use arrayvec::ArrayVec;

// How many fields a line has, at most.
pub const FIELDS: usize = 4;

// Names have 16 bits.
const GREATEST_NAME: i32 = 65535;

// Nobody's name.
const NOBODY: u32 = 65536;

// What a field holds.
#[derive(Clone, Copy, PartialEq, Eq)]
pub enum Kind {
    // Any numbers, with a floor before them or none.
    Shape,
    // Two numbers.
    Direction,
    // One number, not below 0: how many numbers an output holds, or how many stores may be made. It is the last field
    // and may be left out, with its bar.
    Room,
    // A reading of the tablet, which holds no numbers: it is read again when it is asked for.
    Reading,
    // Bytes, likewise.
    Bytes,
    // One number from 0 to 65,535.
    Name,
    // The state of a walk: two numbers, not below 0, then 0 or 1.
    Walk,
    // A call of a sum in parts: how many corners it may write, and the room.
    Call,
    // Any calls, each as one word with a colon.
    Calls,
    // A name that is left out, one number from 0 to 65,535; nothing if nobody is.
    But,
    // A position: one number, not below 0, which may not be left out.
    Position,
    // A name to leave out, as `But`; the field may be left out too.
    Excepted,
}

impl Kind {
    // Whether a field of the kind may be left out at the end of a line.
    fn may_be_left_out(self) -> bool {
        matches!(self, Kind::Room | Kind::Excepted)
    }

    // Reads the text of a field of the kind into numbers, after those that are held.
    fn read(self, text: &[u8], numbers: &mut Numbers) -> Result<(), Reason> {
        match self {
            Kind::Shape => {
                floors::read(text).ok_or(Reason::NotAFloor)?;
                numbers::read(floors::after(text), numbers)
            }
            Kind::Reading => {
                readings::read(text).ok_or(Reason::NotAReading)?;
                Ok(())
            }
            Kind::Bytes => bytes::read(text, &mut ArrayVec::<u8, 0>::new()).ok_or(Reason::NotBytes),
            Kind::Calls if !calls::are_calls(text) => Err(Reason::NotACall),
            Kind::Calls => numbers::read(words::parts(text), numbers),
            _ => numbers::read(words::of(text), numbers),
        }
    }

    // Checks that the numbers of a field are what the kind says.
    fn check(self, numbers: &[i32]) -> Result<(), Reason> {
        match self {
            Kind::Direction => check_count(numbers, 2),
            Kind::Room | Kind::Position => check_within(numbers, 1, i32::MAX, Reason::NotACount),
            Kind::Call => check_within(numbers, 2, i32::MAX, Reason::NotACount),
            Kind::Name => check_name(numbers),
            Kind::But | Kind::Excepted if numbers.is_empty() => Ok(()),
            Kind::But | Kind::Excepted => check_name(numbers),
            Kind::Walk => check_walk(numbers),
            Kind::Shape | Kind::Reading | Kind::Bytes | Kind::Calls => Ok(()),
        }
    }
}

// A count of numbers is wanted.
fn check_count(numbers: &[i32], count: usize) -> Result<(), Reason> {
    if numbers.len() == count {
        Ok(())
    } else {
        Err(Reason::WrongCount)
    }
}

// A count of numbers is wanted, from 0 to the greatest.
fn check_within(
    numbers: &[i32],
    count: usize,
    greatest: i32,
    reason: Reason,
) -> Result<(), Reason> {
    check_count(numbers, count)?;
    if numbers.iter().all(|number| (0..=greatest).contains(number)) {
        Ok(())
    } else {
        Err(reason)
    }
}

// A name is wanted.
fn check_name(numbers: &[i32]) -> Result<(), Reason> {
    check_within(numbers, 1, GREATEST_NAME, Reason::NotAName)
}

// The state of a walk is wanted.
fn check_walk(numbers: &[i32]) -> Result<(), Reason> {
    match numbers {
        [first, second, 0 | 1] if 0 <= *first && 0 <= *second => Ok(()),
        [_, _, _] => Err(Reason::NotAWalk),
        _ => Err(Reason::WrongCount),
    }
}

// A field of a line.
#[derive(Clone, Copy)]
pub struct Field<'a> {
    // None: the line has no such field, and the rest is empty.
    kind: Option<Kind>,
    text: &'a [u8],
    pub numbers: &'a [i32],
}

impl Field<'_> {
    // Returns the number at a position, or 0 if there is none.
    fn number(&self, i: usize) -> i32 {
        self.numbers.get(i).copied().unwrap_or(0)
    }

    // Returns the number at a position of a field that counts something.
    pub fn count(&self, i: usize) -> usize {
        self.number(i).unsigned_abs() as usize
    }

    // Returns the two parts of a direction.
    pub fn direction(&self) -> (i32, i32) {
        (self.number(0), self.number(1))
    }

    // Returns the name that the field holds. (A line whose field is no name is not asked.)
    pub fn name(&self) -> u16 {
        (self.number(0).unsigned_abs() % NOBODY) as u16
    }

    // Returns the name that the field leaves out, or nobody's.
    pub fn but(&self) -> u32 {
        if self.numbers.is_empty() {
            return NOBODY;
        }
        u32::from(self.name())
    }

    // Returns what a room says; more than any output holds if it is left out.
    pub fn room(&self) -> usize {
        if self.numbers.is_empty() {
            return usize::MAX;
        }
        self.count(0)
    }

    // Returns the floor of the shape that the field holds. (A line whose field has a wrong one is not asked.)
    pub fn floor(&self) -> u16 {
        floors::read(self.text).unwrap_or(0)
    }

    // Returns the reading that the field holds.
    pub fn reading(&self) -> Option<Reading> {
        readings::read(self.text)
    }

    // Reads the bytes that the field holds; none if it is of another kind.
    pub fn log<const ROOM: usize>(&self, bytes: &mut ArrayVec<u8, ROOM>) {
        if self.kind == Some(Kind::Bytes) {
            let _ = bytes::read(self.text, bytes);
        }
    }

    // Checks that the numbers are what the kind says.
    fn check(&self) -> Result<(), Reason> {
        match self.kind {
            Some(kind) => kind.check(self.numbers),
            None => Ok(()),
        }
    }
}

// The fields of a line.
#[derive(Clone, Copy)]
pub struct Fields<'a> {
    pub each: [Field<'a>; FIELDS],
}

// Reads the fields of a line, or says why it is no question. The reasons come in this order: too few fields or too
// many;
// what is wrong in the text of the first field that cannot be read; what is wrong with the numbers of the first field
// that does not hold what its kind says.
pub fn read<'a>(
    line: &'a [u8],
    kinds: &[Kind],
    numbers: &'a mut Numbers,
) -> Result<Fields<'a>, Reason> {
    let kinds = kinds_of(kinds, words::count_bars(line))?;
    let texts = texts(line);
    let [first, second, third, fourth] = read_numbers(&texts, kinds, numbers)?;
    let numbers = numbers.as_slice();
    let [one, two, three, four] = texts;
    let each = [
        cut(one, kinds, numbers, 0, 0, first),
        cut(two, kinds, numbers, 1, first, second),
        cut(three, kinds, numbers, 2, second, third),
        cut(four, kinds, numbers, 3, third, fourth),
    ];
    for field in &each {
        field.check()?;
    }
    Ok(Fields { each })
}

// Returns the texts of the fields of a line. Those that it lacks are empty.
fn texts(line: &[u8]) -> [&[u8]; FIELDS] {
    let mut pieces = line.split(words::is_bar);
    let _ = pieces.next();
    [
        pieces.next().unwrap_or(&[]),
        pieces.next().unwrap_or(&[]),
        pieces.next().unwrap_or(&[]),
        pieces.next().unwrap_or(&[]),
    ]
}

// Returns field k of a line, of a text, whose numbers are those from a position up to another.
fn cut<'a>(
    text: &'a [u8],
    kinds: &[Kind],
    numbers: &'a [i32],
    k: usize,
    from: usize,
    to: usize,
) -> Field<'a> {
    Field {
        kind: kinds.get(k).copied(),
        text,
        numbers: numbers.get(from..to).unwrap_or(&[]),
    }
}

// Returns the kinds of as many fields as a line has.
fn kinds_of(kinds: &[Kind], count: usize) -> Result<&[Kind], Reason> {
    match kinds.get(count) {
        Some(missing) if !missing.may_be_left_out() => Err(Reason::MissingField),
        _ => kinds.get(..count).ok_or(Reason::TooManyFields),
    }
}

// Reads the numbers of all fields, and returns how many there are up to the end of each.
fn read_numbers(
    texts: &[&[u8]; FIELDS],
    kinds: &[Kind],
    numbers: &mut Numbers,
) -> Result<[usize; FIELDS], Reason> {
    let mut ends = [0; FIELDS];
    numbers.clear();
    for (k, end) in ends.iter_mut().enumerate() {
        if let (Some(kind), Some(text)) = (kinds.get(k), texts.get(k)) {
            kind.read(text, numbers)?;
        }
        *end = numbers.len();
    }
    Ok(ends)
}
