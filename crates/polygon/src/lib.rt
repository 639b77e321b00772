// Inner functions on one list of corners, for the crates above: corners by position, the rules that make a shape,
// how far they reach, the mirror image, the limits. Callers ask the crate `questions`.
#![tactic(auto)]

pub mod corners;
pub mod extent;
pub mod limits;
pub mod numbers;
pub mod opposite;
pub mod peak;
pub mod point;
pub mod rules;
