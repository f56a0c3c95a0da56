// What a view says of a group.

use properties_items::error::ErrorKind;

/// What a group of lines is.
#[derive(Debug, Clone, Copy, PartialEq, Eq)]
pub enum GroupKind {
    /// Blanks, or nothing.
    Blank,
    /// A comment.
    Comment,
    /// A pair.
    Pair,
}

/// A group of a source: the natural lines that make one logical line. Places are positions of bytes, counted from the
/// source's first byte, and the bytes of a byte order mark count too.
///
/// [`View::next`](crate::View::next) gives it.
#[derive(Debug, Clone, Copy, PartialEq, Eq)]
pub struct ViewedGroup {
    /// What its logical line is.
    pub kind: GroupKind,
    /// The number of its first natural line. Lines are numbered from 1.
    pub line_number: usize,
    /// How many natural lines it has.
    pub line_count: usize,
    /// Where it begins.
    pub start: usize,
    /// Where its last line's ending begins, or the source ends.
    pub end: usize,
    /// Where it ends, and the next group begins.
    pub next: usize,
}

/// Where the parts of a group begin and end, in bytes from the source's first byte. The places don't descend. Each but
/// the last is the end of the text before it: a backslash, a line ending and blanks that join two lines belong to the
/// part that follows them. The value of a pair ends where its group's last line ends, behind a last backslash too.
///
/// [`View::places`](crate::View::places) finds them.
#[derive(Debug, Clone, Copy, PartialEq, Eq)]
pub struct PartPlaces {
    /// Where the key begins, or the sign of a comment.
    pub key_start: usize,
    /// Where the key ends, or the sign of a comment.
    pub key_end: usize,
    /// Where the value begins, or the text of a comment.
    pub value_start: usize,
    /// Where the value ends, or the text of a comment.
    pub value_end: usize,
}

/// A malformed escape, with its place.
///
/// [`View::flaw`](crate::View::flaw) finds it.
#[derive(Debug, Clone, Copy, PartialEq, Eq)]
pub struct Flaw {
    /// How it is malformed: `NotEnoughDigits`, `NotHex` or `InvalidCharacter`.
    pub kind: ErrorKind,
    /// Where its backslash is, in bytes from the source's first byte.
    pub place: usize,
    /// The number of the natural line that its backslash is in, which may be a later line of the group.
    pub line_number: usize,
    /// Which byte of that line its backslash is, counted from 1.
    pub column: usize,
}
