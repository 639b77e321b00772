// The sum in parts (document 02, request W6).
pub use part_questions::walk::{Walk, begin};
