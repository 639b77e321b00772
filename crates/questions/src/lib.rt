// The questions of documents 01 and 02, those of our own, and all that callers need of this library. Each judges its
// own lists, once each, gives its refusals in the order of the table, and asks one inner function. A shape is lent with
// its floor, and every answer on shapes carries it: of two shapes, a on floor f and b on floor g, both have the same,
// or are refused 13 after 1 to 5 of the first and of the second. The questions are stated where they are proved, and
// passed on here.
#![tactic(auto)]

pub mod answer;
pub mod books;
pub mod rings;
pub mod separators;
pub mod walk;

pub use drive_questions::{contact, log_contact};
pub use log_questions::{log_add, log_read};
pub use pair_questions::changes::excess;
pub use pair_questions::reaches::greatest;
pub use pair_questions::{clearance, grow, inside, merge, passage, relation, sum, tangents};
pub use polygon::limits::SHAPE_NUMBERS;
pub use shape_questions::boxing::least_box;
pub use shape_questions::{area, furthest, judge, length, mirror, sweep, width};
pub use tablet::reading::Reading;
pub use tablet_questions::tablet;
