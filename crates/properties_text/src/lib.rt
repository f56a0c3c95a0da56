//! The texts of properties files: decoding their bytes, finding their parts, resolving their escapes, printing and
//! converting them.
//!
//! This crate has what a reader or a writer does with a single line, and knows nothing of streams. A
//! [`TextBuffer`](encoding::TextBuffer) decodes bytes, [`parse_spans`](parse::parse_spans) finds the parts of a logical
//! line, [`unescape`](escape::unescape) resolves escapes, and [`print_text`](print::print_text) prints texts to a
//! [`LineBuffer`](print::LineBuffer). A [byte order mark](encoding::byte_order_mark) belongs to the input as a whole.
#![tactic(auto)]

pub mod characters;
mod classes;
pub mod convert;
pub mod encoding;
pub mod escape;
mod line_buffer;
pub mod parse;
pub mod print;
