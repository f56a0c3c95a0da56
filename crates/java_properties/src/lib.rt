//! Reads, writes and edits Java `.properties` files.
//!
//! [`PropertiesIter`] reads the comments and pairs of a file, each with its line number. [`PropertiesWriter`] writes
//! comments and pairs. [`set_key`], [`set_value`], [`remove_key`], [`edit_all`] and [`Document`] edit the pairs of a
//! file, and so does [`edit_with`], with [`SourceOptions`]. [`rename_key`] renames a key where it stands,
//! [`rename_keys`] renames many, [`set_comments`] sets the comments of keys, and [`remove_with_comments`] removes keys
//! with their comments. [`edit_keys`] applies a list of edits of all these kinds. [`View`] shows where each part of a file
//! is. [`convert`] changes its encoding.
//!
//! ```text
//! for item in PropertiesIter::new(alloc, &mut input)? {
//!     let line = item?;
//!     println!(rt; "{}", line.line_number())?;
//! }
//!
//! let mut writer = PropertiesWriter::new(alloc, &mut output)?;
//! writer.write("greeting", "hello world")?;
//! writer.finish()?;
//! ```
#![tactic(auto)]

mod comments;
mod converting;
mod copy;
mod iter;
pub mod laws;
mod maps;
mod sources;
mod writer;

pub use comments::{comment_in, comment_of};
pub use converting::convert;
pub use copy::CopyError;
pub use iter::{
    PropertiesIter, Stopped, key_lines, malformed_escapes, map_of, read_lines, value_of, value_with,
};
pub use maps::{read, read_sorted, write, write_sorted};
pub use properties_editing::{
    Comments, Document, Edit, Flaw, GroupKind, PartPlaces, SourceOptions, View, ViewedGroup,
    edit_all, edit_with, remove_key, set_key, set_value,
};
pub use properties_items::borrowed::{ContentRef, LineRef};
pub use properties_items::error::{At, Cause, ErrorKind, PropertiesError, Reason};
pub use properties_items::findings::{KeyLine, MalformedEscape};
pub use properties_items::found::Found;
pub use properties_items::line::{Line, LineContent, LineEnding};
pub use properties_renaming::{
    KeyEdit, NewComment, Rename, RenameError, RenamesError, edit_keys, remove_with_comment,
    remove_with_comment_in, remove_with_comments, rename_in, rename_key, rename_keys, set_comment,
    set_comment_in, set_comments,
};
pub use properties_text::convert::Spelling;
pub use properties_text::encoding::Encoding;
pub use properties_text::print::Repertoire;
pub use sources::{read_source, write_source};
pub use writer::{Call, PropertiesWriter, run_calls};
