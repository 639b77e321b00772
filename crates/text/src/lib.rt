// Lines of text in and out: the lines of standard input, the fields of a line and their numbers, and text for standard
// output. No function here asks anything of its caller.
//
// A line has at most 65,536 characters, without its newline; spaces after them are dropped. The fields of a line hold
// together at most 16,384 numbers.
#![tactic(auto)]

mod bytes;
mod calls;
mod digits;
pub mod fields;
mod floors;
pub mod lines;
pub mod numbers;
pub mod output;
pub mod readings;
pub mod reasons;
pub mod standard;
pub mod words;
