// An outline as people have it, brought to the standard list. Our own, not of documents 01 and 02.
pub use shape_questions::rings::ring;
