// A reply as the struct of numbers that crosses to a host, and refusals in it.
#![tactic(auto)]

pub mod numbers;
pub mod refusals;

// `number` is 0 for an answer, else the refusal's. `count` says how many of `values` an answer has, or how many of
// `carried` a refusal has; the rest is 0. The values are in document 01's order, the floor last. A value below 0 is its
// two's complement in 64 bits.
#[repr(C)]
#[derive(Clone, Copy)]
pub struct Reply {
    pub number: u64,
    pub carried: [u64; 3],
    pub count: u64,
    pub values: [u64; 9],
}
