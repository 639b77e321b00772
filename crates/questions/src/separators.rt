// Directions in which one shape is below another (document 02, request W13).
pub use pair_questions::separators::{find, offer};
