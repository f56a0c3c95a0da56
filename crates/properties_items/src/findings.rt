// What is found about the lines of a source: the keys of pairs, and malformed escapes.

use crate::error::ErrorKind;

/// The key of a pair, with the number of the line that the pair begins in.
///
/// ```text
/// for key in &key_lines(alloc, source, Encoding::UTF_8)? {
///     if key.first_line_number != key.line_number {
///         println!(rt; "{name}:{}: the key of line {} again", key.line_number, key.first_line_number)?;
///     }
/// }
/// ```
#[derive(Clone, Debug, PartialEq, Eq, PartialOrd, Ord, Hash, Drop)]
pub struct KeyLine {
    /// The number of the pair's first natural line. Lines are numbered from 1.
    pub line_number: usize,
    /// The key.
    pub key: String,
    /// The number of the line that the first pair with this key begins in. It equals `line_number` if no earlier pair
    /// has the key.
    pub first_line_number: usize,
}

/// The first malformed escape of a logical line.
///
/// ```text
/// for escape in &malformed_escapes(alloc, source, Encoding::UTF_8)? {
///     println!(rt; "{name}:{}: {}", escape.line_number, escape.kind)?;
/// }
/// ```
#[derive(Clone, Copy, Debug, PartialEq, Eq, PartialOrd, Ord, Hash)]
pub struct MalformedEscape {
    /// The number of the logical line's first natural line. Lines are numbered from 1.
    pub line_number: usize,
    /// How it is malformed: `NotEnoughDigits`, `NotHex` or `InvalidCharacter`.
    pub kind: ErrorKind,
    /// Whether the line is a comment.
    pub in_comment: bool,
}
