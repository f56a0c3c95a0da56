// Borrowed items.

ghost use Rattle.std.specs.Prelude.{◌≡◌};
ghost use Rattle.properties_items.specs.BorrowedItems.{IsLineOf, IsContentOf};

use crate::error::PropertiesError;
use crate::line::{Line, LineContent};
use std::alloc::Global;
use std::borrow::CowStr;

/// The content of a borrowed line: a comment or a pair.
///
/// A text without escapes is borrowed from the line that was read. A text with escapes is owned.
#[derive(Debug, Drop)]
pub enum ContentRef<'a> {
    /// The text of a comment, without the comment sign and without the blanks around the text.
    Comment(CowStr<'a>),
    /// A key and its value.
    KVPair(CowStr<'a>, CowStr<'a>),
}

/// A comment or a pair, with the number of the line that it begins in, borrowed from the iterator until its next call.
///
/// ```text
/// let mut input: &[u8] = b"greeting = hello\\tworld";
/// let mut items = PropertiesIter::new(alloc, &mut input)?;
/// if let Some(Ok(line)) = items.next_ref() {
///     // The key is borrowed, and the value owned.
///     if let ContentRef::KVPair(key, value) = line.content() {
///         println!(rt; "{}: {key} is {value}", line.line_number())?;
///     }
/// }
/// ```
#[derive(Debug, Drop)]
pub struct LineRef<'a> {
    line_number: usize,
    content: ContentRef<'a>,
}

impl<'a> LineRef<'a> {
    pub(crate) fn new(line_number: usize, content: ContentRef<'a>) -> LineRef<'a>
        ensures number { result.line_number ≡ line_number }
        ensures content { result.content ≡ content.entry }
    {
        LineRef {
            line_number,
            content,
        }
    }

    /// Returns the number of the line that the comment or pair begins in.
    pub fn line_number(&self) -> usize
        ensures { result ≡ self.now.line_number }
    {
        self.line_number
    }

    /// Returns the comment or pair.
    pub fn content(&self) -> &ContentRef<'a>
        ensures { result.now ≡ self.now.content }
    {
        &self.content
    }

    /// Returns a copy with owned texts, as `next` would have returned it. Fails only if memory runs out.
    pub fn to_line(&self, alloc: Global) -> Result<Line, PropertiesError>
        ensures { IsLineOf self.now result }
    {
        let LineRef {
            line_number,
            content,
        } = self;
        match content.to_content(alloc) {
            Ok(content) => Ok(Line::new(*line_number, content)),
            Err(error) => Err(error),
        }
    }
}

impl<'a> ContentRef<'a> {
    fn to_content(&self, alloc: Global) -> Result<LineContent, PropertiesError>
        ensures { IsContentOf self.now result }
    {
        match self {
            ContentRef::Comment(text) => {
                let text = String::from_str(alloc, text.as_str())?;
                Ok(LineContent::Comment(text))
            }
            ContentRef::KVPair(key, value) => {
                let key = String::from_str(alloc, key.as_str())?;
                let value = String::from_str(alloc, value.as_str())?;
                Ok(LineContent::KVPair(key, value))
            }
        }
    }
}
