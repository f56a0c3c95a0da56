//! The lines of properties files: from a reader's bytes to numbered logical lines.
//!
//! [`Scanner`](scanner::Scanner) finds the natural lines among undecoded bytes that are held in memory.
//! [`LogicalLine`](logical::LogicalLine) joins the lines that a backslash leaves open, and decodes a line only if its
//! bytes aren't its text. Use these two if you hold all the bytes. Over a reader, use
//! [`LineReader`](reader::LineReader) and [`LineJoiner`](joiner::LineJoiner). A [`LineError`](error::LineError) says
//! why the next line can't be returned.
#![tactic(auto)]

pub mod continuation;
pub mod error;
mod input;
pub mod joiner;
pub mod logical;
pub mod reader;
pub mod scanner;
pub mod search;
