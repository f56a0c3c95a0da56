// Joins natural lines into logical lines.

ghost use Rattle.std.specs.Prelude.{◌≡◌, ◌<◌, ◌≤◌, ◌^◌, true, false, None, [], OnSome, length};
ghost use Rattle.std.specs.Result.{result_err};
ghost use Rattle.std.specs.Str.{IsUtf8};
ghost use Rattle.counted_io.specs.Streams.{IsSameReader};
ghost use Rattle.properties_format.specs.ItemsToCome.{start};
ghost use Rattle.properties_text.specs.Encoding.{encoding_of};
ghost use Rattle.properties_text.specs.Escaping.{holds_backslash, IsWell};
ghost use Rattle.properties_lines.specs.LineReader.{lines_left, HasRightLineFlags};
ghost use Rattle.properties_lines.specs.LogicalLine.{BeginsWith, IsSoundLogicalLine, IsUnfinishedLine, unfinished_text};
ghost use Rattle.properties_lines.specs.LineJoiner.{LineJoining, Joins, Advances, JoinsOn, ReadsRest};
ghost use Rattle.properties_lines.specs.declared.logical.Place.TheVariants.{Joined};

use crate::continuation::is_open;
use crate::error::LineError;
use crate::logical::LogicalLine;
use crate::reader::LineReader;
use counted_io::CountedRead;
use properties_text::encoding::{Encoding, LineEncoding};
use properties_text::escape;
use std::alloc::Global;
use std::marker::Model;

/// Joins the natural lines of an input into its logical lines, one after another.
///
/// A logical line of one natural line is borrowed from the input, unless it must be decoded. An error is kept until
/// [`finish`](LineJoiner::finish) returns it.
#[derive(Drop)]
pub struct LineJoiner {
    lines: LineReader,
    // The logical line that was joined last, over the bytes of the natural line that was found last.
    line: LogicalLine,
    has_backslash: bool,
}

impl Model for LineJoiner {
    ghost use Rattle.std.specs.Prelude.{◌&&◌};
    ghost use Rattle.properties_lines.specs.LineJoiner.{LineJoining};
    ghost use Rattle.properties_lines.specs.LogicalLine.{bytes_with, is_natural, IsSoundLogicalLine};

    ghost Value = { LineJoining };

    ghost view = { λ s. record {
      at = record { state = s.lines.state; line = bytes_with s.line s.lines.line };
      encoding = s.line.encoding;
      is_ascii = s.lines.is_ascii && is_natural s.line.place;
      has_backslash = s.has_backslash;
      error = s.lines.error;
    } };

    ghost invariant = { λ s. IsSoundLogicalLine s.line };
}

impl LineJoiner {
    /// Starts at the beginning of an input. Allocates nothing.
    pub fn new(alloc: Global, encoding: Encoding) -> LineJoiner
        ensures at { result.at ≡ record { state = start (encoding_of encoding); line = [] } }
        ensures error { result.error ≡ None }
    {
        LineJoiner {
            lines: LineReader::new(alloc, encoding),
            line: LogicalLine::new(alloc),
            has_backslash: false,
        }
    }

    /// Advances to the next logical line and returns the number of its first natural line. If it returns `None`, the
    /// reading has ended permanently.
    #[inline(always)]
    pub fn next_line<R: CountedRead>(&mut self, reader: &mut R) -> Option<usize>
        ensures advances { Advances R.CountedRead self.old reader.old result self.new reader.new }
        ensures same_reader { IsSameReader R.CountedRead reader.old reader.new }
        ensures nearer { OnSome result (lines_left self.new.at.state < lines_left self.old.at.state) }
        ensures fits { self.old.at.state.passed < 2 ^ 64 }
    {
        if !self.lines.find_line(reader) {
            return None;
        }
        self.has_backslash = self.lines.has_backslash();
        if self.lines.is_well_formed() && !is_open(self.lines.line()) {
            self.line.borrow(self.lines.encoding());
            return Some(self.lines.number());
        }
        read_rest(
            &mut self.lines,
            &mut self.line,
            &mut self.has_backslash,
            reader,
        )
    }

    /// Does what [`next_line`](LineJoiner::next_line) does, and decodes the line, so that [`line`](LineJoiner::line)
    /// may be called.
    #[inline(always)]
    pub fn next_text<R: CountedRead>(&mut self, reader: &mut R) -> Option<usize>
        ensures joins { Joins R.CountedRead self.old reader.old result self.new reader.new }
        ensures text { OnSome result (IsUtf8 self.new.at.line) }
        ensures same_reader { IsSameReader R.CountedRead reader.old reader.new }
        ensures nearer { OnSome result (lines_left self.new.at.state < lines_left self.old.at.state) }
        ensures fits { self.old.at.state.passed < 2 ^ 64 }
    {
        let number = self.next_line(reader)?;
        if self.lines.is_ascii() && self.line.is_borrowed() {
            return Some(number);
        }
        match self.line.make_text(self.lines.line()) {
            Ok(()) => Some(number),
            Err(_) => {
                self.lines.fail(LineError::Memory);
                None
            }
        }
    }

    /// Returns a slice that begins with the logical line that was joined last. Any bytes after it don't belong to it;
    /// blocks may be read over them.
    #[inline(always)]
    pub fn with_room(&self) -> &[u8]
        ensures { BeginsWith self.now.at.line result.now }
    {
        self.line.with_room(self.lines.bytes_onward())
    }

    /// Returns the number of bytes in that line.
    #[inline(always)]
    pub fn length(&self) -> usize
        ensures { result ≡ length self.now.at.line }
    {
        self.line.length(self.lines.length())
    }

    /// Returns the encoding of that line.
    #[inline(always)]
    pub fn encoding(&self) -> LineEncoding
        ensures { result ≡ self.now.encoding }
    {
        self.line.encoding()
    }

    /// Returns the text of that line, if [`next_text`](LineJoiner::next_text) joined it.
    #[inline(always)]
    pub fn line(&self) -> &str
        requires { IsUtf8 self.now.at.line }
        ensures { result.now ≡ self.now.at.line }
    {
        self.line.as_str(self.lines.line())
    }

    /// Returns whether that line may contain a backslash.
    #[inline(always)]
    pub fn has_backslash(&self) -> bool
        ensures { result ≡ self.now.has_backslash }
    {
        self.has_backslash
    }

    /// Ends the reading permanently.
    pub fn end(&mut self)
        ensures { self.new ≡ record self.old { at = record self.old.at { state = record self.old.at.state { is_done = true } } } }
    {
        self.lines.end();
    }

    /// Fails with the error that ended the reading, if there is one and it wasn't returned before.
    pub fn finish(&mut self) -> Result<(), LineError>
        ensures error { result_err result ≡ self.old.error }
        ensures taken { self.new ≡ record self.old { error = None } }
    {
        match self.lines.take_error() {
            None => Ok(()),
            Some(error) => Err(error),
        }
    }
}

// Decodes the natural line that was found, or joins the following lines to it.
#[inline(never)]
fn read_rest<R: CountedRead>(
    lines: &mut LineReader,
    line: &mut LogicalLine,
    has_backslash: &mut bool,
    reader: &mut R,
) -> Option<usize>
    requires flags { HasRightLineFlags lines.old }
    requires decided { lines.old.state.is_decided ≡ true }
    requires backslash { has_backslash.old ≡ false → holds_backslash lines.old.line ≡ false }
    requires error { lines.old.error ≡ None }
    ensures sound { IsSoundLogicalLine line.new }
    ensures reads { ReadsRest R.CountedRead lines.old reader.old result lines.new line.new has_backslash.new reader.new }
    ensures same_reader { IsSameReader R.CountedRead reader.old reader.new }
    ensures left { lines_left lines.new.state ≤ lines_left lines.old.state }
{
    let number = lines.number();
    let is_line = lines.is_well_formed();
    match line.begin(lines.encoding(), is_line, lines.line()) {
        Ok(false) => Some(number),
        Ok(true) => {
            if !join_lines(lines, line, reader) {
                return None;
            }
            *has_backslash = escape::has_backslash(line.bytes(lines.line()));
            Some(number)
        }
        Err(_) => {
            lines.fail(LineError::Memory);
            None
        }
    }
}

// Joins the following lines to an open line, up to and including the first one that isn't open, or up to the end of the
// input. Returns `false` if it fails.
fn join_lines<R: CountedRead>(
    lines: &mut LineReader,
    line: &mut LogicalLine,
    reader: &mut R,
) -> bool
    requires error { lines.old.error ≡ None }
    requires decided { lines.old.state.is_decided ≡ true }
    requires unfinished { IsUnfinishedLine lines.old.state.encoding line.old }
    ensures joins { JoinsOn R.CountedRead lines.old reader.old (unfinished_text line.old) result lines.new reader.new (unfinished_text line.new) }
    ensures place { result ≡ true → line.new.place ≡ Joined }
    ensures well { result ≡ true → IsWell line.new.encoding line.new.joined }
    ensures sound { IsSoundLogicalLine line.new }
    ensures same_reader { IsSameReader R.CountedRead reader.old reader.new }
    ensures left { lines_left lines.new.state ≤ lines_left lines.old.state }
{
    while lines.find_line(reader) {
        let is_line = lines.is_well_formed();
        match line.join(lines.encoding(), is_line, lines.line()) {
            Ok(true) => {}
            Ok(false) => return true,
            Err(_) => {
                lines.fail(LineError::Memory);
                return false;
            }
        }
    }
    !lines.has_failed()
}
