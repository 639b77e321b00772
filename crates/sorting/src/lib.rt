// Inner functions that put the points of a sweep in order (document 02, W10): most points that cannot be corners are
// dropped, the others are brought near their order by digits and then inserted one by one.
#![tactic(auto)]

pub mod buffer;
pub mod digits;
pub mod insertion;
pub mod interior;
pub mod order;
