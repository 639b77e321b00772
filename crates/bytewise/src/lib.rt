// Lists and outputs of a host that are bytes, and a reply in one number. Inner functions.
#![tactic(auto)]

pub mod decoding;
pub mod packing;
pub mod writing;
