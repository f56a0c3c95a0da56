//! Natural lines: each ends in a line ending or at the end of the input.

ghost use Rattle.std.specs.Prelude.{◌≡◌, None, IfOk, string_bytes};
ghost use Rattle.std.specs.Str.{chars};
ghost use Rattle.properties_lines.specs.LineJoiner.{line_text};
ghost use Rattle.std.specs.Iterator.{at_most};
ghost use Rattle.properties_format.specs.ItemsToCome.{start};
ghost use Rattle.properties_text.specs.Encoding.{encoding_of};
ghost use Rattle.properties_lines.specs.LineReader.{lines_left};
ghost use Rattle.single_lines.specs.Lines.{NaturalReading, NextLineGives};

use crate::decode::decode_line;
use counted_io::CountedRead;
use properties_lines::error::LineError;
use properties_lines::reader::LineReader;
use properties_text::encoding::Encoding;
use std::alloc::{AllocError, Global};
use std::borrow::CowStr;
use std::marker::Model;

/// A line without its line ending, with its number. Lines are numbered from 1.
#[derive(Drop)]
pub struct NaturalLine(pub usize, pub String);

/// The natural lines of a reader, decoded.
#[derive(Drop)]
pub struct NaturalLines<R> {
    reader: R,
    lines: LineReader,
    alloc: Global,
}

impl<R> Model for NaturalLines<R> {
    ghost Value = { NaturalReading R };

    ghost view = { λ it. record { reader = it.reader; state = it.lines.state } };

    ghost invariant = { λ it. it.lines.error ≡ None };
}

impl<R: CountedRead> NaturalLines<R> {
    /// Starts at the beginning of a reader, and reads nothing yet.
    pub fn new(alloc: Global, reader: R, encoding: Encoding) -> NaturalLines<R>
        ensures { result ≡ record { reader = reader; state = start (encoding_of encoding) } }
    {
        NaturalLines {
            reader,
            lines: LineReader::new(alloc, encoding),
            alloc,
        }
    }
}

impl<R: CountedRead> Iterator for NaturalLines<R> {
    type Item = Result<NaturalLine, LineError>;

    ghost next_gives = { λ old answer new. NextLineGives R.CountedRead old answer new };

    ghost remaining = { λ it. at_most (lines_left it.state) };

    fn next(&mut self) -> Option<Result<NaturalLine, LineError>> {
        if !self.lines.find_line(&mut self.reader) {
            let error = self.lines.take_error()?;
            return Some(Err(error));
        }
        let number = self.lines.number();
        match line_text(self.alloc, &self.lines) {
            Ok(text) => Some(Ok(NaturalLine(number, text))),
            Err(error) => {
                self.lines.end();
                Some(Err(LineError::from(error)))
            }
        }
    }
}

// Returns the text of the line that was found.
fn line_text(alloc: Global, lines: &LineReader) -> Result<String, AllocError>
    ensures { IfOk result (λ text. chars (string_bytes text) ≡ line_text lines.now) }
{
    match decode_line(alloc, lines.encoding(), lines.line())? {
        CowStr::Borrowed(text) => String::from_str(alloc, text),
        CowStr::Owned(text) => Ok(text),
    }
}
