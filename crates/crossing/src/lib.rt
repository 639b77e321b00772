// What the calls of a host do besides asking: floors that are any numbers, and readings with their unit.
#![tactic(auto)]

pub mod floors;
pub mod readings;
