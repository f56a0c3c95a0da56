//! Reads one line at a time, each as a text of its own, and the characters of a reader, one by one.
//!
//! These modules show the format in another way than the library's reader, which decodes a whole line at once, finds
//! its parts as spans, and joins lines that it holds. They are for tests, and for callers of single lines.
#![tactic(auto)]

pub mod decode;
pub mod decode_iter;
mod join;
pub mod logical;
pub mod natural;
pub mod parse;
mod read_ahead;
