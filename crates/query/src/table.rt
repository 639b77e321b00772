// The table of questions: a row says a question's word, the kinds of its fields, and how its answer is written.
use self::Question::{Log, One, Pair};
use crate::replies::Form;
use text::fields::Kind;

// What can be asked.
#[derive(Clone, Copy)]
pub enum Question {
    One(OnOne),
    Pair(OnPair),
    // The calls of a sum in parts.
    Parts,
    Log(OnLog),
}

// The questions on one shape, and that on a corner's readings.
#[derive(Clone, Copy)]
pub enum OnOne {
    Judge,
    Furthest,
    Mirror,
    Sweep,
    Ring,
    Length,
    Area,
    Width,
    Box,
    Tablet,
}

// The questions on two shapes, or on a third between them.
#[derive(Clone, Copy)]
pub enum OnPair {
    Sum,
    Part,
    Merge,
    Grow,
    Relation,
    Inside,
    Offer,
    Find,
    Clearance,
    Greatest,
    Excess,
    Tangents,
    Passage,
    Contact,
}

// The questions on a log.
#[derive(Clone, Copy)]
pub enum OnLog {
    Read,
    Add,
    Entry,
    Nearest,
    Gap,
    Contact,
    Pack,
}

// What a word asks: a question, the kinds of its fields, and how its answer is written.
#[derive(Clone, Copy)]
pub struct Entry {
    pub question: Question,
    pub kinds: &'static [Kind],
    pub form: Form,
}

// A word, and what it asks.
struct Row(&'static str, Question, &'static [Kind], Form);

// The kinds of the fields of one shape, of two and of three.
const ONE: &[Kind] = &[Kind::Shape];

const AIMED: &[Kind] = &[Kind::Shape, Kind::Direction];

const WRITTEN: &[Kind] = &[Kind::Shape, Kind::Room];

const PAIR: &[Kind] = &[Kind::Shape, Kind::Shape];

const THREE: &[Kind] = &[Kind::Shape, Kind::Shape, Kind::Shape];

const PAIR_WRITTEN: &[Kind] = &[Kind::Shape, Kind::Shape, Kind::Room];

const PAIR_AIMED: &[Kind] = &[Kind::Shape, Kind::Shape, Kind::Direction];

const PAIR_DRIVEN: &[Kind] = &[Kind::Shape, Kind::Shape, Kind::Direction, Kind::Direction];

const PAIR_CALLED: &[Kind] = &[Kind::Shape, Kind::Shape, Kind::Calls];

const PAIR_WALKED: &[Kind] = &[Kind::Shape, Kind::Shape, Kind::Walk, Kind::Call];

const READINGS: &[Kind] = &[Kind::Reading, Kind::Reading];

// The kinds of the fields of a log.
const LOG_READ: &[Kind] = &[Kind::Bytes, Kind::Name, Kind::Room];

const LOG_ADDED: &[Kind] = &[Kind::Bytes, Kind::Name, Kind::Shape, Kind::Room];

const LOG_LISTED: &[Kind] = &[Kind::Bytes, Kind::Position, Kind::Room];

const LOG_AROUND: &[Kind] = &[Kind::Bytes, Kind::Shape];

const LOG_DRIVEN: &[Kind] = &[Kind::Bytes, Kind::Shape, Kind::Direction, Kind::Direction];

const LOG_NEAREST: &[Kind] = &[Kind::Bytes, Kind::Shape, Kind::Excepted];

const LOG_PACKED: &[Kind] = &[Kind::Bytes, Kind::Bytes, Kind::But, Kind::Room];

static ROWS: [Row; 32] = [
    // The questions on one shape.
    Row("judge", One(OnOne::Judge), ONE, Form::Numbers),
    Row("furthest", One(OnOne::Furthest), AIMED, Form::Numbers),
    Row("mirror", One(OnOne::Mirror), WRITTEN, Form::Shape),
    Row("length", One(OnOne::Length), ONE, Form::Numbers),
    Row("area", One(OnOne::Area), ONE, Form::Numbers),
    Row("width", One(OnOne::Width), ONE, Form::Numbers),
    Row("box", One(OnOne::Box), ONE, Form::Numbers),
    // How two shapes relate to each other, whether a third passes between them, and where a drive first meets one.
    Row("relation", Pair(OnPair::Relation), PAIR, Form::Relation),
    Row("inside", Pair(OnPair::Inside), PAIR, Form::YesNo),
    Row("offer", Pair(OnPair::Offer), PAIR_AIMED, Form::YesNo),
    Row("find", Pair(OnPair::Find), PAIR, Form::Direction),
    Row("clearance", Pair(OnPair::Clearance), PAIR, Form::Clearance),
    Row("greatest", Pair(OnPair::Greatest), PAIR, Form::Numbers),
    Row("excess", Pair(OnPair::Excess), PAIR, Form::Excess),
    Row("tangents", Pair(OnPair::Tangents), PAIR, Form::Numbers),
    Row("passage", Pair(OnPair::Passage), THREE, Form::Passage),
    Row("contact", Pair(OnPair::Contact), PAIR_DRIVEN, Form::Contact),
    // The shapes that are made of two.
    Row("sum", Pair(OnPair::Sum), PAIR_WRITTEN, Form::Shape),
    Row("parts", Question::Parts, PAIR_CALLED, Form::Begun),
    Row("part", Pair(OnPair::Part), PAIR_WALKED, Form::Shape),
    Row("merge", Pair(OnPair::Merge), PAIR_WRITTEN, Form::Shape),
    Row("grow", Pair(OnPair::Grow), PAIR_WRITTEN, Form::Shape),
    // The points of a sweep, those of a ring, and the corner of two readings.
    Row("sweep", One(OnOne::Sweep), WRITTEN, Form::Shape),
    Row("ring", One(OnOne::Ring), WRITTEN, Form::Shape),
    Row("tablet", One(OnOne::Tablet), READINGS, Form::Bits),
    // The log, by name and as a whole.
    Row("bookread", Log(OnLog::Read), LOG_READ, Form::Shape),
    Row("bookadd", Log(OnLog::Add), LOG_ADDED, Form::Addition),
    Row("entry", Log(OnLog::Entry), LOG_LISTED, Form::Shape),
    Row("nearest", Log(OnLog::Nearest), LOG_NEAREST, Form::Nearest),
    Row("gap", Log(OnLog::Gap), LOG_AROUND, Form::Gap),
    Row("drive", Log(OnLog::Contact), LOG_DRIVEN, Form::Contact),
    Row("pack", Log(OnLog::Pack), LOG_PACKED, Form::Addition),
];

// Looks a word up.
pub fn look_up(word: &[u8]) -> Option<Entry> {
    let row = ROWS.iter().find(|row| row.0.as_bytes() == word)?;
    let Row(_, question, kinds, form) = row;
    Some(Entry {
        question: *question,
        kinds,
        form: *form,
    })
}
