//! The library for programs in C, and through them for other languages.
//!
//! Each export returns what the function of `java_properties` for its task gives. A slice is a pointer and a length,
//! which for `out` is the room there. Texts are UTF-8. Each call but [`todrenval_version`], [`todrenval_release`] and
//! [`todrenval_encoding`] sets `length` and `line` and returns a status:
//!
//! - at 0, `length` bytes were written to `out`;
//! - if `out` has too little room, nothing is written, and `length` is what is needed;
//! - at any other status nothing is written and `length` is 0, but [`todrenval_items`] then gives the items before the
//!   error, and [`todrenval_edit`] the index of an edit that is refused;
//! - `line` is the line of the error, or 0.
//!
//! A call with flags refuses those that it has no use for. What is in `out` past `length` stays as it was. A parameter
//! of the type `Global` takes no place in a call from C.
#![tactic(auto)]

mod asked;
pub mod convert;
pub mod edit;
mod encoding;
mod findings;
mod items;
mod key_call;
pub mod keys;
pub mod label;
mod lists;
mod numbers;
mod out;
mod part;
pub mod read;
mod records;
mod sound;
mod spans;
mod status;
pub mod text;
pub mod version;
pub mod write;
