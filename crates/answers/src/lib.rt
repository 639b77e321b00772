// What the questions answer. Every answer on shapes carries their floor; a refusal carries none. Callers find these in
// `questions::answer`.
// Passed on: what an inner function answers as it is asked, from below the questions.
#![tactic(auto)]

pub use admission::answer::{Answer, OnFloor, Refusal};
pub use clearance::measured::Distance;
pub use direction::Face;
pub use measure::{Length, Width};
pub use polygon::point::Point;
pub use separation::answer::Relation;
pub use tablet::reading::Fault;
pub use tangents::Line;

// The edge that has the least box, its greatest turn over the corners, the spread of the corners' values along it, and
// its squared length.
#[derive(Clone, Copy)]
pub struct LeastBox {
    pub edge: usize,
    pub height: u64,
    pub along: u64,
    pub squared: u64,
}

// The corner of a new shape that is furthest from an old one, where the old one is nearest to it, and the distance in
// millimetres rounded up: a corner, with the squared distance; or an edge, with the size of the corner's turn against
// it and the edge's squared length.
#[derive(Clone, Copy)]
pub enum Beyond {
    Corners {
        corner: usize,
        other: usize,
        squared: u64,
        up: u64,
    },
    Edge {
        corner: usize,
        edge: usize,
        turn: u64,
        squared: u64,
        up: u64,
    },
}

// The name of the nearest shape of a floor, and how near it is to the asked shape: None if it meets that.
#[derive(Clone, Copy)]
pub struct Nearest {
    pub name: u16,
    pub distance: Option<Distance>,
}

// The names of the two shapes of a floor with the narrowest gap, and how far apart they are, both grown by the cart:
// None if these meet.
#[derive(Clone, Copy)]
pub struct Gap {
    pub name: u16,
    pub other: u16,
    pub distance: Option<Distance>,
}

// Where a drive first meets an obstacle: the fraction of the way, and the millimetres before it, rounded down.
#[derive(Clone, Copy)]
pub struct Meeting {
    pub numerator: u64,
    pub denominator: u64,
    pub safe: u64,
}

// Which shape of a floor a drive meets first: its name, and where.
#[derive(Clone, Copy)]
pub struct Drive {
    pub name: u16,
    pub meeting: Meeting,
}

// How a cart may pass straight between two obstacles: the direction across, from the right obstacle to the left one,
// the values in it between which the cart's origin stays, and the width of that in millimetres, rounded down.
#[derive(Clone, Copy)]
pub struct Lane {
    pub u: i32,
    pub v: i32,
    pub low: i64,
    pub high: i64,
    pub width: u64,
}

// The four lines that just touch both shapes: both on the left or on the line; both on the right; the first left and
// the second right; the reverse.
#[derive(Clone, Copy)]
pub struct Tangents {
    pub left: Line,
    pub right: Line,
    pub crossing: Line,
    pub reverse: Line,
}

// A corner that goes back to the tablet: two doubles that hold whole numbers of millimetres.
#[derive(Clone, Copy)]
pub struct Sent {
    pub x: f64,
    pub y: f64,
}

// A corner of two readings: the doubles that go back, and the whole numbers that they hold.
#[derive(Clone, Copy)]
pub struct Corner {
    pub sent: Sent,
    pub x: i32,
    pub y: i32,
}

// The two readings of a corner, which a refusal tells as 1 and 2.
#[derive(Clone, Copy)]
pub enum Axis {
    X,
    Y,
}

// A reading of the tablet that is refused: which part of the corner it is, and why.
#[derive(Clone, Copy)]
pub struct Unread {
    pub axis: Axis,
    pub fault: Fault,
}

// Whether an addition to a log, or a packing of one, made all of its stores, or ran out of those that it was allowed.
#[derive(Clone, Copy)]
pub enum Addition {
    Finished,
    Cut,
}

// The current shape at a position of a log: how many corners it has, and its name.
#[derive(Clone, Copy)]
pub struct Entry {
    pub count: usize,
    pub name: u16,
}
