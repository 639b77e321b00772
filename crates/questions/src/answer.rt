// What the questions answer. Every answer on shapes carries their floor; a refusal carries none.
pub use answers::{
    Addition, Answer, Axis, Beyond, Corner, Distance, Drive, Entry, Face, Fault, Gap, Lane,
    LeastBox, Length, Line, Meeting, Nearest, OnFloor, Point, Refusal, Relation, Sent, Tangents,
    Unread, Width,
};
pub use part_questions::answer::Part;
