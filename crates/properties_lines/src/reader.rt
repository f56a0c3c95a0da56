//! The natural lines of a reader, one after another, as undecoded bytes.

ghost use Rattle.std.specs.Prelude.{◌≡◌, ◌+◌, ◌<◌, ◌≤◌, ◌^◌, None, Some, true, [], length, take};
ghost use Rattle.std.specs.Option.{is_some};
ghost use Rattle.counted_io.specs.Streams.{IsSameReader};
ghost use Rattle.properties_format.specs.ItemsToCome.{start};
ghost use Rattle.properties_format.specs.Encoding.{utf_8};
ghost use Rattle.properties_text.specs.Encoding.{encoding_of};
ghost use Rattle.properties_lines.specs.LogicalLine.{TellsLine};
ghost use Rattle.properties_lines.specs.LineReader.{Finds, Reads, ScansHeld, HasRightLineFlags, lines_left};

use crate::error::LineError;
use crate::input::InputBuffer;
use crate::scanner::{Scan, Scanner};
use counted_io::CountedRead;
use properties_text::encoding::{Encoding, well_formed_length};
use std::alloc::Global;
use std::marker::Model;

// The result of a read.
#[derive(Clone, Copy)]
enum Read {
    // More bytes.
    Bytes,
    // No bytes, because the input ended.
    End,
    // An error, which is kept.
    Failed,
}

/// Reads the natural lines of an input, one after another. The reader is passed to each call that reads.
///
/// An error is kept until [`take_error`](LineReader::take_error) returns it.
#[derive(Drop)]
pub struct LineReader {
    input: InputBuffer,
    scanner: Scanner,
    // Up to here, the bytes that are held are known to be well-formed UTF-8, from the start of some line on.
    well_formed: usize,
    error: Option<LineError>,
}

impl Model for LineReader {
    ghost use Rattle.std.specs.Prelude.{◌≡◌, ◌≢◌, ◌-◌, true, None, length};
    ghost use Rattle.properties_lines.specs.Scanner.{scanner_state, raw_line_bytes, Fits};
    ghost use Rattle.properties_lines.specs.LineReader.{LineReading};
    ghost use Rattle.properties_lines.specs.Private.InputBuffer.{IsTested};

    ghost Value = { LineReading };

    ghost view = { λ s. record {
      state = scanner_state s.scanner s.input.held;
      line = raw_line_bytes s.input.held s.scanner.line;
      is_ascii = s.scanner.line.is_ascii;
      has_backslash = s.scanner.line.has_backslash;
      waiting = length s.input.held - s.scanner.at;
      error = s.error;
    } };

    ghost invariant = { λ s. Fits s.scanner s.input.held × (s.error ≢ None → s.scanner.is_done ≡ true)
        × IsTested s.scanner s.input.held s.well_formed };
}

// How many bytes from the start of a line on are tested at once.
const WINDOW: usize = 1024;

impl LineReader {
    /// Starts at the beginning of an input. Allocates nothing.
    pub fn new(alloc: Global, encoding: Encoding) -> LineReader
        ensures state { result.state ≡ start (encoding_of encoding) }
        ensures line { result.line ≡ [] }
        ensures error { result.error ≡ None }
    {
        LineReader {
            input: InputBuffer::new(alloc),
            scanner: Scanner::new(encoding),
            well_formed: 0,
            error: None,
        }
    }

    /// Returns the bytes of the line that was found last, without its line ending.
    #[inline(always)]
    pub fn line(&self) -> &[u8]
        ensures { result.now ≡ self.now.line }
    {
        let line = self.scanner.line();
        &self.input.held()[line.start..line.end]
    }

    // Returns the bytes that are held, from the start of that line on.
    #[inline(always)]
    pub(crate) fn bytes_onward(&self) -> &[u8]
        ensures line { take (length self.now.line) result.now ≡ self.now.line }
        ensures within { length self.now.line ≤ length result.now }
    {
        &self.input.held()[self.scanner.line().start..]
    }

    /// Returns the number of bytes in that line.
    #[inline(always)]
    pub fn length(&self) -> usize
        ensures { result ≡ length self.now.line }
    {
        let line = self.scanner.line();
        line.end - line.start
    }

    /// Returns whether that line consists of ASCII characters of one byte each.
    #[inline(always)]
    pub fn is_ascii(&self) -> bool
        ensures { result ≡ self.now.is_ascii }
    {
        self.scanner.line().is_ascii
    }

    /// Returns whether the bytes of that line are in windows-1252 or in well-formed UTF-8.
    #[inline(always)]
    pub fn is_well_formed(&mut self) -> bool
        requires flags { HasRightLineFlags self.old }
        requires decided { self.old.state.is_decided ≡ true }
        ensures tells { TellsLine self.old.state.encoding self.old.line result }
        ensures same { self.new ≡ self.old }
    {
        if self.is_ascii() {
            return true;
        }
        match self.encoding() {
            Encoding::WINDOWS_1252 => true,
            Encoding::UTF_8 => self.scanner.line().end <= self.well_formed || self.test(),
            Encoding::UTF_16LE | Encoding::UTF_16BE => false,
        }
    }

    // Tests the line, and lines after it.
    #[inline(never)]
    fn test(&mut self) -> bool
        requires some { 0 < length self.old.line }
        requires decided { self.old.state.is_decided ≡ true }
        requires encoding { self.old.state.encoding ≡ utf_8 }
        ensures tells { TellsLine utf_8 self.old.line result }
        ensures same { self.new ≡ self.old }
    {
        let line = self.scanner.line();
        let held = self.input.held();
        let end = held
            .len()
            .min(line.end.max(line.start.saturating_add(WINDOW)));
        self.well_formed = line.start + well_formed_length(&held[line.start..end]);
        line.end <= self.well_formed
    }

    /// Returns whether one of that line's bytes is the byte of a backslash.
    #[inline(always)]
    pub fn has_backslash(&self) -> bool
        ensures { result ≡ self.now.has_backslash }
    {
        self.scanner.line().has_backslash
    }

    /// Returns the number of that line, or 0 before the first line.
    #[inline(always)]
    pub fn number(&self) -> usize
        ensures { result ≡ self.now.state.passed }
    {
        self.scanner.number()
    }

    /// Returns the encoding of that line, or the requested encoding while it isn't decided.
    #[inline(always)]
    pub fn encoding(&self) -> Encoding
        ensures { encoding_of result ≡ self.now.state.encoding }
    {
        self.scanner.encoding()
    }

    /// Ends the reading permanently.
    pub fn end(&mut self)
        ensures { self.new ≡ record self.old { state = record self.old.state { is_done = true } } }
    {
        self.scanner.end();
    }

    /// Ends the reading permanently, and keeps this error.
    #[inline(never)]
    pub fn fail(&mut self, error: LineError)
        ensures { self.new ≡ record self.old { state = record self.old.state { is_done = true }; error = Some error } }
    {
        self.scanner.end();
        self.error = Some(error);
    }

    /// Returns the error that ended the reading, if there is one and it wasn't returned before.
    pub fn take_error(&mut self) -> Option<LineError>
        ensures error { result ≡ self.old.error }
        ensures taken { self.new ≡ record self.old { error = None } }
    {
        self.error.take()
    }

    /// Returns whether an error is kept.
    pub fn has_failed(&self) -> bool
        ensures { result ≡ is_some self.now.error }
    {
        self.error.is_some()
    }

    /// Finds the next line and returns whether there is one. If there is none, the reading has ended permanently.
    ///
    /// A line that ends in a CR is found at once: an LF that comes next belongs to the same line ending.
    #[inline(always)]
    pub fn find_line<R: CountedRead>(&mut self, reader: &mut R) -> bool
        ensures finds { Finds R.CountedRead self.old reader.old result self.new reader.new }
        ensures same_reader { IsSameReader R.CountedRead reader.old reader.new }
        ensures nearer { result ≡ true → lines_left self.new.state < lines_left self.old.state }
        ensures fits { self.old.state.passed < 2 ^ 64 }
    {
        // Proof only: the number fits a `usize`.
        let _number = self.number();
        match self.scan(false) {
            Scan::Line => true,
            Scan::More | Scan::End | Scan::TooMany => self.read_line(reader),
        }
    }

    // Finds the next line, and reads if necessary.
    #[inline(never)]
    fn read_line<R: CountedRead>(&mut self, reader: &mut R) -> bool
        ensures finds { Finds R.CountedRead self.old reader.old result self.new reader.new }
        ensures same_reader { IsSameReader R.CountedRead reader.old reader.new }
        ensures nearer { result ≡ true → lines_left self.new.state < lines_left self.old.state }
    {
        let mut ended = false;
        'reads: loop {
            match self.scan(ended) {
                Scan::Line => return true,
                Scan::More => {}
                Scan::End => return false,
                Scan::TooMany => {
                    self.fail(LineError::TooManyLines);
                    return false;
                }
            }
            match self.read(reader) {
                Read::Bytes => {}
                Read::End => ended = true,
                Read::Failed => return false,
            }
        }
    }

    // Searches for a line among the bytes that are held.
    #[inline(always)]
    fn scan(&mut self, ended: bool) -> Scan
        ensures { ScansHeld self.old ended result self.new }
    {
        self.scanner.next(self.input.held(), ended)
    }

    // Reads once.
    fn read<R: CountedRead>(&mut self, reader: &mut R) -> Read
        requires numbered { self.old.state.passed + 1 < 2 ^ 64 }
        ensures reads { Reads R.CountedRead self.old reader.old result self.new reader.new }
        ensures same_reader { IsSameReader R.CountedRead reader.old reader.new }
        ensures fits { self.old.waiting < 2 ^ 64 }
    {
        // Proof only: the length fits a `usize`.
        let _length = self.input.held().len();
        let Ok(gone) = self.input.make_room(self.scanner.place()) else {
            self.fail(LineError::Memory);
            return Read::Failed;
        };
        self.scanner.release(gone);
        self.well_formed = self.well_formed.saturating_sub(gone);
        match self.input.fill(reader) {
            Ok(0) => Read::End,
            Ok(_) => Read::Bytes,
            Err(error) => {
                let number = self.scanner.number() + 1;
                self.fail(LineError::Io(number, error));
                Read::Failed
            }
        }
    }
}
