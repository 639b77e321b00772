// A refusal, and the answer of a question on shapes, which carries their floor. A refusal carries none.

// A row of document 01's table, and what it carries: 1 to 5 the shape that is blamed, the first or the second, and 4
// the edge and the corner that break the left rule.
#[derive(Clone, Copy)]
pub enum Refusal {
    // 1: an empty list, or an odd count of numbers
    Count {
        shape: usize,
    },
    // 2: more corners than a shape may have, or more points than a sweep may have
    Corners {
        shape: usize,
    },
    // 3: a coordinate out of range
    Range {
        shape: usize,
    },
    // 4: two equal corners in a list of two, or a broken left rule
    Side {
        shape: usize,
        edge: usize,
        corner: usize,
    },
    // 5: not begun at the standard corner
    Start {
        shape: usize,
    },
    // 6: more corners in the answer than a shape may have
    LargeAnswer,
    // 7: a corner of the answer out of range
    FarAnswer,
    // 8: an output that holds fewer numbers than the answer
    Room,
    // 9: lines that just touch two shapes which are not apart
    NotApart,
    // 10: the width of a shape of fewer than three corners
    Flat,
    // 11: a direction (0, 0), or with a part out of range
    Direction,
    // 12: a direction whose parts have a common divisor above 1
    NotPrimitive,
    // 13: two shapes on different floors
    Floors,
    // 14: a walk that is at no place of the sum of these two shapes
    NotAPlace,
    // 15: a whole record of a log that is of another kind or a wrong length, or whose corners are no shape: the byte
    // place of the first such record
    Damaged {
        place: usize,
    },
    // 16: too little room after the last whole record of a log
    Full,
    // 19: a name that no record of a log has
    NoRecord,
    // 20: fewer shapes on the floor, or in the log, than the question compares
    TooFew,
}

// The answer of a question on shapes, with their floor.
#[derive(Clone, Copy)]
pub struct OnFloor<T> {
    pub answer: T,
    pub floor: u16,
}

// What a question on shapes gives: an answer with its floor, or a refusal.
pub type Answer<T> = Result<OnFloor<T>, Refusal>;
