//! Classes of bytes, tested sixteen bytes at a time: which bytes belong to a class, and where the first of them is.
//!
//! A [`ByteClass`] tests one byte, or a block of sixteen. [`Byte`] is the class of one byte, and [`Within`] that of a
//! range; line endings, control characters and the non-ASCII bytes have classes of their own; [`Either`] and [`Except`]
//! combine classes, and a class of your own takes one call of [`table_marks`]. For example, a reader of CSV finds the
//! end of a field:
//!
//! ```text
//! type FieldEnds = Either<Byte<b','>, LineEndings>;
//!
//! let end = find::<FieldEnds>(b"one,two\n"); // Some(3)
//! ```
//!
//! [`find`] searches any number of bytes. If a loop handles its last bytes one by one anyway, [`find_in_block`] is
//! faster, and so are the [`Marks`] of a block if you test it for two classes.
//!
//! [`put_spread`] writes a block with another byte before each marked byte, for example a backslash. It uses a table,
//! eight bytes at a time.
#![tactic(auto)]

mod classes;
mod marks;
mod search;
mod short;
mod spread;

pub use classes::{
    Byte, ByteClass, Controls, Either, Except, LineEndings, NonAscii, Within, table_marks,
};
pub use marks::Marks;
pub use search::{find, find_in_block};
pub use spread::put_spread;
