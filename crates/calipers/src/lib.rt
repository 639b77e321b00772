// Inner functions for the caliper walk round two shapes: their edges, their sides, and the image of the second. The sum
// is in the crate `sums`.
#![tactic(auto)]

pub mod edges;
pub mod image;
pub mod round;
pub mod side;
