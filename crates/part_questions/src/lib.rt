// The questions on a sum in parts. Callers ask the crate `questions`.
#![tactic(auto)]

pub mod answer;
pub mod walk;
