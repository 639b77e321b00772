// A log of shapes in a lent run of bytes (document 02, W5 and W11: the floor book). Inner functions; callers ask the
// crate `questions`.
#![tactic(auto)]

mod corners;
pub mod current;
pub mod head;
pub mod kind;
pub mod latest;
pub mod marks;
pub mod places;
pub mod records;
pub mod survey;
