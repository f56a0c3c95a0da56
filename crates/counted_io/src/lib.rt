//! Readers and sinks that count their faults.
//!
//! A contract can't say that a stream failed, because no value shows the failure. A counted stream keeps a number that
//! rises with each failure, so a contract can demand that an error is returned only if the number rose.
//!
//! For tests and proofs, a scripted reader and a scripted sink split, accept and fail as a script says.
//!
//! ```text
//! let mut input = Counted::new(file);
//! let items = read_lines(alloc, &mut input, Encoding::UTF_8);
//! let failed = input.faults() > 0;
//! ```
#![tactic(auto)]

mod counted;
mod read;
mod scripted_reader;
mod scripted_sink;
mod transfer;
mod write;

pub use counted::Counted;
pub use read::CountedRead;
pub use scripted_reader::{ScriptedReader, Tail};
pub use scripted_sink::{ScriptedSink, SinkFault};
pub use transfer::send;
pub use write::CountedWrite;
