//! What the arguments of `propedit` ask for.
//!
//! [`asked_for`] makes a request of the arguments after the program's name, and [`explain`] prints why they ask for
//! nothing:
//!
//! ```text
//! match asked_for(alloc, &words) {
//!     Ok(request) => answer(&request),
//!     Err(error) => explain(alloc, error, &mut output, &mut errors),
//! }
//! ```
#![tactic(auto)]

mod command_line;
mod doubts;
mod edits;
mod kinds;
mod labels;
mod meant;
pub mod mistake;
mod not_utf_8;
mod options;
pub mod other_format;
pub mod parse;
mod shell;
pub mod typed;
mod wrong_edits;
mod wrong_options;

pub use command_line::{CommandName, CommandRow, OptionName, OptionRow, TypedOption};
pub use not_utf_8::{
    explain_directory, explain_name, explain_not_utf_8, marked_words, name_of_marked,
};
pub use parse::{asked_for, explain};
