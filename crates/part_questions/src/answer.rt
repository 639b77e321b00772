// What the question on a part of a sum answers.
use crate::walk::Walk;

// How many corners were written of a sum in parts, and the walk that the next call is given.
#[derive(Clone, Copy)]
pub struct Part {
    pub count: usize,
    pub walk: Walk,
}
