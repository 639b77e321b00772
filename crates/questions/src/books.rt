// Questions over all current shapes of a log: of each name the latest record counts, and then its floor.
pub use log_questions::books::{log_entry, log_gap, log_nearest, log_pack};
