//! Edits `.properties` files that are in memory, and says the laws of edits.
//!
//! [`set_key`], [`set_value`] and [`remove_key`] make one edit, [`edit_all`] a list of them. [`edit_with`] does so with
//! [`SourceOptions`]: in ASCII only, or passing over comments. A [`Document`] is a source that is kept open for edits.
//! A [`View`] shows the groups of a source, and where their parts are. `java_properties` re-exports all of it.
#![tactic(auto)]

mod bytes;
mod cuts;
mod document;
mod edit;
mod group;
mod groups;
pub mod laws;
mod layout;
mod new_pair;
mod new_value;
mod parts;
mod plan;
mod source;
mod view;
mod walk;

pub use document::Document;
pub use edit::{Edit, edit_all, edit_with, remove_key, set_key, set_value};
pub use group::{Flaw, GroupKind, PartPlaces, ViewedGroup};
pub use source::{Comments, SourceOptions};
pub use view::View;
