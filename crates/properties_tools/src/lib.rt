//! What the programs `propfilter` and `propedit` do, over any streams.
//!
//! [`filter::filter`] copies the pairs of a reader to a sink, one per line. [`propfilter::run`] and [`propedit::run`]
//! are the programs without their `main` functions.
//!
//! ```text
//! let mut input: &[u8] = b"# a comment\nb = 2\na";
//! let mut output = Counted::new(Vec::new(alloc));
//! filter(alloc, &mut input, &mut output, Encoding::WINDOWS_1252)?;
//! // The sink holds `b=2` and `a=`, each ended by a line feed.
//! ```
#![tactic(auto)]

pub mod arguments;
pub mod filter;
pub mod propedit;
pub mod propfilter;

/// Prints lines on an error stream.
pub mod messages {
    pub use properties_tables::messages::{Escaped, print_error, print_line};
}
