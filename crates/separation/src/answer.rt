// How two shapes relate to each other.
#[derive(Clone, Copy)]
pub enum Relation {
    Apart,
    Touching,
    Overlapping,
}
