//! Changes of a `.properties` source, and of a file in place: edits, steps that rename keys or set comments, and conversions.
//!
//! [`change::change`] gives the bytes of a source after a change, and [`in_place::edit_file`] replaces a file by them,
//! whole or not at all.
//!
//! ```text
//! let edits = Change::Edits(Edits {
//!     list: vec![in alloc; Edit::Put(port, number)]?,
//!     ascii_only: false,
//!     latin_1: false,
//!     absent: AbsentKeys::Added,
//! });
//! let bytes = change(alloc, b"host = a\n", Encoding::UTF_8, &edits)?;
//! ```
#![tactic(auto)]

pub mod change;
pub mod counts;
pub mod in_place;
mod remove;
mod rename;
pub mod request;
pub mod same_file;
mod set_comments;
