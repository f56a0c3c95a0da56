//! Renames keys of a `.properties` source where they stand, sets comments of keys, or removes keys with their comments, and
//! keeps all other bytes.
//!
//! ```text
//! let options = SourceOptions::new(Encoding::UTF_8);
//! match rename_key(alloc, source, options, "login.user", "user") {
//!     Ok(renamed) => {} // the bytes of the source, with another key
//!     Err(RenameError::KeyTaken(line)) => {} // a pair in this line has the key `user`
//!     Err(error) => {} // no pair has the key `login.user`, or the source can't be edited
//! }
//! ```
#![tactic(auto)]

pub mod comment_lines;
mod commenting;
mod comments;
mod copied;
mod documents;
mod key_edits;
mod keyed;
pub mod laws;
mod renames;
mod renaming;
pub mod separators;

pub use commenting::{NewComment, set_comment, set_comments};
pub use comments::{remove_with_comment, remove_with_comments};
pub use documents::{remove_with_comment_in, rename_in, set_comment_in};
pub use key_edits::{KeyEdit, edit_keys};
pub use properties_editing::{Comments, Edit, SourceOptions};
pub use properties_items::error::{ErrorKind, PropertiesError};
pub use properties_text::encoding::Encoding;
pub use renames::{Rename, RenamesError, rename_keys};
pub use renaming::{RenameError, rename_key};
