// Iterates over the groups of a body that is held in memory: logical lines, with the spans of their bytes.

ghost use Rattle.std.specs.Prelude.{◌≡◌, ℕ, List, false, IfOk};
ghost use Rattle.properties_lines.specs.Private.HeldLines.{IsInBody};
ghost use Rattle.properties_text.specs.Encoding.{encoding_of};
ghost use Rattle.properties_lines.specs.LineSearch.{unit_size};
ghost use Rattle.properties_lines.specs.LogicalLine.{TellsLine, is_natural};
ghost use Rattle.properties_lines.specs.Scanner.{HasRightFlags};
ghost use Rattle.properties_editing.specs.Private.BodyGroups.{closing_of, IsWithin, FindsLine, GivesGroup, IsBegun, JoinsReadGroup, IsFirstGroup, group_text, IsTextHeld};
ghost use Rattle.properties_editing.specs.Private.BodyParts.{span_of_group};

use crate::bytes::BodySpan;
use properties_lines::continuation::is_open;
use properties_lines::logical::{LogicalLine, is_line_in};
use properties_lines::scanner::{RawLine, Scan, Scanner};
use properties_text::encoding::Encoding;
use std::alloc::{AllocError, Global};

/// A group of a body, as a span of its bytes.
#[derive(Clone, Copy)]
pub struct Group {
    /// The number of the group's first line.
    pub number: usize,
    /// The position of its first byte.
    pub start: usize,
    /// The position after the bytes of its last line, where that line's ending begins.
    pub end: usize,
    /// Whether it is left open, so that a line after it would be joined to it.
    pub is_open: bool,
    /// Whether it is a single line without bytes.
    pub is_empty: bool,
}

/// What separates a new pair from the last group of a body.
#[derive(Clone, Copy)]
pub enum Closing {
    /// Nothing, after an empty line.
    Nothing,
    /// One line ending.
    OneEnding,
    /// Two line endings, after a line that a backslash leaves open.
    TwoEndings,
}

/// Returns what separates a new pair from this group.
pub fn closing_after(group: Group) -> Closing
    ensures { result ≡ closing_of group.is_empty group.is_open }
{
    if group.is_empty {
        Closing::Nothing
    } else if group.is_open {
        Closing::TwoEndings
    } else {
        Closing::OneEnding
    }
}

impl Group {
    /// Returns where the group is, without its last line ending.
    pub fn span(self) -> BodySpan
        ensures { result ≡ span_of_group self }
    {
        BodySpan {
            start: self.start,
            end: self.end,
        }
    }
}

/// Reads the first group of a body. The encoding's units are one byte long.
pub fn first_group(
    alloc: Global,
    encoding: Encoding,
    body: &[u8],
) -> Result<(GroupReader, Group), AllocError>
    requires { unit_size (encoding_of encoding) ≡ 1 }
    ensures { IfOk result (λ read. IsFirstGroup (encoding_of encoding) body.now read.1 read.0) }
{
    let mut groups = GroupReader::new(alloc, encoding);
    match groups.next(body)? {
        Some(group) => Ok((groups, group)),
        // Even an empty body has a line.
        None => unreachable!(),
    }
}

/// Reads the groups of a body that is passed to each call.
#[derive(Drop)]
pub struct GroupReader {
    scanner: Scanner,
    // The logical line of the group that was returned last.
    line: LogicalLine,
}

impl GroupReader {
    /// Starts before the first group of a body. The encoding's units are one byte long.
    pub fn new(alloc: Global, encoding: Encoding) -> GroupReader
        ensures encoding { result.scanner.encoding ≡ encoding }
        ensures start { result.scanner.at ≡ 0 }
        ensures none { result.scanner.passed ≡ 0 }
        ensures going { result.scanner.is_done ≡ false }
        ensures within_body { (body : List ℕ) → IsInBody result.scanner body }
    {
        GroupReader {
            scanner: Scanner::in_body(encoding),
            line: LogicalLine::new(alloc),
        }
    }

    /// Starts where another reader was in this state.
    pub fn from_state(alloc: Global, scanner: Scanner) -> GroupReader
        ensures { result.scanner ≡ scanner }
    {
        GroupReader {
            scanner,
            line: LogicalLine::new(alloc),
        }
    }

    /// Returns the state between two groups.
    pub fn state(&self) -> Scanner
        ensures { result ≡ self.now.scanner }
    {
        self.scanner
    }

    /// Returns the logical line of the group that was returned last.
    pub fn line<'a>(&'a self, body: &'a [u8], group: Group) -> &'a str
        requires { IsTextHeld body.now self.now group }
        ensures { result.now ≡ group_text body.now self.now group }
    {
        self.line.as_str(&body[group.start..group.end])
    }

    /// Returns whether the text of the group that was returned last is its bytes as they are.
    pub fn is_borrowed(&self) -> bool
        ensures { result ≡ is_natural self.now.line.place }
    {
        self.line.is_borrowed()
    }

    /// Returns the position after the group that was returned last.
    pub fn place(&self) -> usize
        ensures { result ≡ self.now.scanner.at }
    {
        self.scanner.place()
    }

    /// Returns the number of the natural line that was found last, or 0.
    pub fn number(&self) -> usize
        ensures { result ≡ self.now.scanner.passed }
    {
        self.scanner.number()
    }

    /// Returns the encoding.
    pub fn encoding(&self) -> Encoding
        ensures { result ≡ self.now.scanner.encoding }
    {
        self.scanner.encoding()
    }

    /// Returns the next group, or `None` after the last one.
    #[inline(always)]
    pub fn next(&mut self, body: &[u8]) -> Result<Option<Group>, AllocError>
        requires { IsWithin body.now self.old }
        ensures { GivesGroup body.now self.old result self.new }
    {
        if !self.find_line(body)? {
            return Ok(None);
        }
        let line = *self.scanner.line();
        let bytes = &body[line.start..line.end];
        let encoding = self.scanner.encoding();
        let group = Group {
            number: self.scanner.number(),
            start: line.start,
            end: line.end,
            is_open: false,
            is_empty: line.start == line.end,
        };
        if line.is_ascii && !is_open(bytes) {
            // Its bytes are its text.
            self.line.borrow(encoding);
            return Ok(Some(group));
        }
        let is_line = is_line(encoding, line, bytes);
        let is_open = self.line.begin(encoding, is_line, bytes)?;
        let joined = self.join(body, Group { is_open, ..group })?;
        Ok(Some(joined))
    }

    // Joins the following lines to a group that is open, up to and including the first line that isn't open, and
    // decodes the logical line.
    fn join(&mut self, body: &[u8], group: Group) -> Result<Group, AllocError>
        requires { IsBegun body.now self.old group }
        ensures { IfOk result (λ joined. JoinsReadGroup body.now self.old group joined self.new) }
    {
        let mut joined = group;
        while joined.is_open && self.find_line(body)? {
            let line = *self.scanner.line();
            let bytes = &body[line.start..line.end];
            let encoding = self.scanner.encoding();
            let is_line = is_line(encoding, line, bytes);
            let is_open = self.line.join(encoding, is_line, bytes)?;
            joined = Group {
                end: line.end,
                is_open,
                is_empty: false,
                ..joined
            };
        }
        self.line.make_text(&body[joined.start..joined.end])?;
        Ok(joined)
    }

    /// Returns the natural line that was found last.
    pub fn raw_line(&self) -> RawLine
        ensures { result ≡ self.now.scanner.line }
    {
        *self.scanner.line()
    }

    /// Finds the next natural line and returns whether there is one.
    pub fn find_line(&mut self, body: &[u8]) -> Result<bool, AllocError>
        requires { IsWithin body.now self.old }
        ensures { FindsLine body.now self.old result self.new }
    {
        match self.scanner.next(body, true) {
            Scan::Line => Ok(true),
            Scan::End => Ok(false),
            // No memory can hold a body with that many lines.
            Scan::More | Scan::TooMany => Err(AllocError),
        }
    }
}

/// Returns whether a line with these bytes is in windows-1252 or in well-formed UTF-8.
pub fn is_line(encoding: Encoding, line: RawLine, bytes: &[u8]) -> bool
    requires { HasRightFlags (encoding_of encoding) bytes.now line }
    ensures { TellsLine (encoding_of encoding) bytes.now result }
{
    line.is_ascii || is_line_in(encoding, bytes)
}
