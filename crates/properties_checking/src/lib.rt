//! What is wrong in a `.properties` source: lines that are ill-formed or read differently than people think, malformed
//! escapes, and keys that come twice.
//!
//! [`check::report`] returns a line, or a JSON object on a line, for each finding.
#![tactic(auto)]

pub mod check;
mod check_json;
pub mod kinds;
pub mod line_findings;
mod misread;
pub mod objects;
mod open_lines;
pub mod request;
