// Comments and pairs with their line numbers, and what ends lines.

ghost use Rattle.std.specs.Prelude.{◌≡◌};
ghost use Rattle.properties_items.specs.Line.{line_number_of, content_of, ending_of};
ghost use Rattle.properties_items.specs.DisplayTexts.{content_display, line_display};
ghost use Rattle.std.specs.Str.{chars};
ghost use Rattle.properties_format.specs.Text.{line_ending_text};

use std::fmt;

/// The content of a [`Line`]: a comment or a pair.
///
/// Comments order before pairs. Two comments are ordered by the bytes of their texts. Two pairs are ordered by the
/// bytes of their keys, then by the bytes of their values.
#[derive(Debug, Clone, PartialEq, Eq, PartialOrd, Ord, Hash, Drop)]
pub enum LineContent {
    /// The text of a comment, without the comment sign and without the blanks around the text.
    Comment(String),
    /// A key and its value.
    KVPair(String, String),
}

/// A comment or a pair, with the number of the line that it begins in. Lines are numbered from 1.
///
/// Values of this type are ordered by line number, then by content.
#[derive(Clone, Debug, PartialEq, Eq, PartialOrd, Ord, Hash, Drop)]
pub struct Line {
    line_number: usize,
    content: LineContent,
}

impl Line {
    pub(crate) fn new(line_number: usize, content: LineContent) -> Line
        ensures number { line_number_of result ≡ line_number }
        ensures content { content_of result ≡ content }
    {
        Line {
            line_number,
            content,
        }
    }

    /// Returns the number of the line that the comment or pair begins in.
    pub fn line_number(&self) -> usize
        ensures { result ≡ line_number_of self.now }
    {
        self.line_number
    }

    /// Returns the comment or pair.
    pub fn content(&self) -> &LineContent
        ensures { result.now ≡ content_of self.now }
    {
        &self.content
    }

    /// Converts the line into its comment or pair.
    pub fn consume_content(self) -> LineContent
        ensures { result ≡ content_of self }
    {
        self.content
    }
}

impl From<Line> for LineContent {
    ghost from_gives = { λ line content. content ≡ content_of line };

    fn from(line: Line) -> LineContent {
        line.consume_content()
    }
}

impl fmt::Display for LineContent {
    ghost output = { content_display };

    fn fmt<W: fmt::Write>(&self, f: &mut fmt::Formatter<W>) -> fmt::Result {
        match self {
            LineContent::Comment(text) => write!(f, "Comment({text:?})"),
            LineContent::KVPair(key, value) => write!(f, "KVPair({key:?}, {value:?})"),
        }
    }
}

impl fmt::Display for Line {
    ghost output = { line_display };

    fn fmt<W: fmt::Write>(&self, f: &mut fmt::Formatter<W>) -> fmt::Result {
        let Line {
            line_number,
            content,
        } = self;
        write!(f, "Line {{line_number: {line_number}, content: {content}}}")
    }
}

/// What ends a line that is written.
#[derive(Clone, Copy, Debug, PartialEq, Eq, PartialOrd, Ord, Hash)]
pub enum LineEnding {
    /// A carriage return.
    CR,
    /// A line feed.
    LF,
    /// A carriage return and a line feed.
    CRLF,
}

impl fmt::Display for LineEnding {
    ghost use Rattle.std.specs.Prelude.{Some};
    ghost use Rattle.properties_items.specs.DisplayTexts.{line_ending_display};

    ghost output = { λ ending. Some (line_ending_display ending) };

    fn fmt<W: fmt::Write>(&self, f: &mut fmt::Formatter<W>) -> fmt::Result {
        f.write_str(match self {
            LineEnding::CR => "LineEnding::CR",
            LineEnding::LF => "LineEnding::LF",
            LineEnding::CRLF => "LineEnding::CRLF",
        })
    }
}

/// Returns the characters of a line ending.
#[tactic(auto, using(crate::proofs::RawTexts::ending_chars))]
pub fn ending_text(ending: LineEnding) -> &'static str
    ensures { chars result.now ≡ line_ending_text (ending_of ending) }
{
    match ending {
        LineEnding::CR => "\r",
        LineEnding::LF => "\n",
        LineEnding::CRLF => "\r\n",
    }
}
