// Copies the pairs of a reader to a writer.

ghost use Rattle.std.specs.Prelude.{◌≡◌, true, None, All};
ghost use Rattle.counted_io.specs.Streams.{IsSameReader, IsSameSink};
ghost use Rattle.properties_format.specs.Text.{byte};
ghost use Rattle.properties_text.specs.Escaping.{text_in, IsWell};
ghost use Rattle.java_properties.specs.Copying.{error_in, Copies};
ghost use Rattle.java_properties.specs.Private.GivenItems.{as_text, iteration_of};
ghost use Rattle.java_properties.specs.Private.LineByLine.{BuildsLine};
ghost use Rattle.java_properties.specs.Private.Engine.{writing};

use crate::iter::PropertiesIter;
use crate::writer::PropertiesWriter;
use crate::writer::engine::Engine;
use counted_io::{CountedRead, CountedWrite};
use properties_items::error::{ErrorKind, PropertiesError, make};
use properties_lines::joiner::LineJoiner;
use properties_text::escape::{UnescapeError, check_escapes};
use properties_text::parse::{ParsedSpans, parse_bytes};
use properties_text::print::Pair;
use std::error::Error;
use std::fmt;

/// Why [`copy_pairs`](PropertiesWriter::copy_pairs) stopped: reading failed, or writing did. If memory runs out,
/// it may be either.
///
/// It prints as the error in it.
#[derive(Debug, Drop)]
pub enum CopyError {
    /// The error that `advance` would have returned.
    Read(PropertiesError),
    /// The error that `write` would have returned.
    Write(PropertiesError),
}

impl From<CopyError> for PropertiesError {
    ghost from_gives = { λ error e. e ≡ error_in error };

    fn from(error: CopyError) -> PropertiesError {
        match error {
            CopyError::Read(error) | CopyError::Write(error) => error,
        }
    }
}

impl fmt::Display for CopyError {
    ghost use Rattle.properties_items.specs.DisplayTexts.{error_display};

    ghost output = { λ error. error_display (error_in error) };

    fn fmt<W: fmt::Write>(&self, f: &mut fmt::Formatter<W>) -> fmt::Result {
        match self {
            CopyError::Read(error) | CopyError::Write(error) => write!(f, "{error}"),
        }
    }
}

impl Error for CopyError {}

impl<W: CountedWrite> PropertiesWriter<W> {
    /// Reads the items to their end and writes each pair, as [`advance`](PropertiesIter::advance),
    /// [`get`](PropertiesIter::get) and [`write`](PropertiesWriter::write) would.
    ///
    /// After a write error, another call continues with the next item.
    ///
    /// ```text
    /// writer.copy_pairs(&mut items)?;
    /// writer.finish()?;
    /// ```
    pub fn copy_pairs<R: CountedRead>(
        &mut self,
        items: &mut PropertiesIter<R>,
    ) -> Result<(), CopyError>
        ensures copies { Copies R.CountedRead W.CountedWrite items.old self.old result items.new self.new }
        ensures same_reader { IsSameReader R.CountedRead items.old.reader items.new.reader }
        ensures same_sink { IsSameSink W.CountedWrite self.old.sink self.new.sink }
    {
        let lines = &mut items.items.lines;
        let reader = &mut items.reader;
        if self.engine.settings.readable() {
            return copy_readable_lines(lines, reader, &mut self.engine, &mut self.sink);
        }
        copy_lines(lines, reader, &mut self.engine, &mut self.sink, false)
    }
}

// Kept out of line so that other pairs take no longer.
#[inline(never)]
fn copy_readable_lines<R: CountedRead, W: CountedWrite>(
    lines: &mut LineJoiner,
    reader: &mut R,
    engine: &mut Engine,
    sink: &mut W,
) -> Result<(), CopyError>
    requires error { lines.old.error ≡ None }
    requires readable { engine.old.settings.readable ≡ true }
    ensures copies { let start = iteration_of (as_text lines.old.at) reader.old in
        Copies R.CountedRead W.CountedWrite start (writing engine.old sink.old) result
        (iteration_of (as_text lines.new.at) reader.new) (writing engine.new sink.new) }
    ensures error { lines.new.error ≡ None }
    ensures same_reader { IsSameReader R.CountedRead reader.old reader.new }
    ensures same_sink { IsSameSink W.CountedWrite sink.old sink.new }
{
    copy_lines(lines, reader, engine, sink, true)
}

// Copies the pairs of all lines that are to come. `readable` is the setting, which is the same for all of them.
#[inline(always)]
fn copy_lines<R: CountedRead, W: CountedWrite>(
    lines: &mut LineJoiner,
    reader: &mut R,
    engine: &mut Engine,
    sink: &mut W,
    readable: bool,
) -> Result<(), CopyError>
    requires error { lines.old.error ≡ None }
    requires readable { engine.old.settings.readable ≡ readable }
    ensures copies { let start = iteration_of (as_text lines.old.at) reader.old in
        Copies R.CountedRead W.CountedWrite start (writing engine.old sink.old) result
        (iteration_of (as_text lines.new.at) reader.new) (writing engine.new sink.new) }
    ensures error { lines.new.error ≡ None }
    ensures same_reader { IsSameReader R.CountedRead reader.old reader.new }
    ensures same_sink { IsSameSink W.CountedWrite sink.old sink.new }
{
    while let Some(number) = lines.next_line(reader) {
        match build_line(engine, lines, readable) {
            Ok(Built::Nothing) => {}
            Ok(Built::Pair(Ok(line))) => {
                if let Err(fault) = engine.send_line(sink, line) {
                    let error = make::write_fault(Some(line), fault);
                    return Err(CopyError::Write(error));
                }
            }
            Ok(Built::Pair(Err(why))) => return Err(CopyError::Write(make::bare(why))),
            Err(error) => {
                lines.end();
                return Err(CopyError::Read(make::unresolved(number, error)));
            }
        }
    }
    match lines.finish() {
        Ok(()) => Ok(()),
        Err(error) => Err(CopyError::Read(PropertiesError::from(error))),
    }
}

// What is to be written for a logical line.
#[derive(Drop)]
enum Built {
    // Nothing, since it is blank or a comment.
    Nothing,
    // A pair: its line was built, and has this number or is refused.
    Pair(Result<usize, ErrorKind>),
}

// Builds what is to be written for the logical line that was joined last. `readable` is the setting.
#[inline(always)]
fn build_line(
    engine: &mut Engine,
    lines: &LineJoiner,
    readable: bool,
) -> Result<Built, UnescapeError>
    requires well { IsWell lines.now.encoding lines.now.at.line }
    requires readable { engine.old.settings.readable ≡ readable }
    ensures builds { BuildsLine (text_in lines.now.encoding lines.now.at.line) result engine.new }
    ensures same { engine.new ≡ record engine.old { line = engine.new.line } }
{
    let length = lines.length();
    if length == 0 {
        return Ok(Built::Nothing);
    }
    let bytes = lines.with_room();
    each_is_a_byte(bytes);
    match parse_bytes(&bytes[..length]) {
        None => Ok(Built::Nothing),
        Some(ParsedSpans::Comment(text)) => {
            match check_escapes(lines.encoding(), &bytes[text.start..text.end]) {
                Ok(()) => Ok(Built::Nothing),
                Err(malformed) => Err(UnescapeError::Malformed(malformed)),
            }
        }
        Some(ParsedSpans::KVPair(key, value)) => {
            engine.build_pair(Pair::spelt(lines.encoding(), bytes, key, value), readable)?;
            Ok(Built::Pair(engine.next_number(engine.takes_span(key))))
        }
    }
}

// Proof only: the elements of a slice of bytes are bytes.
#[inline(always)]
fn each_is_a_byte(bytes: &[u8])
    ensures { All byte bytes.now }
{
    let _ = bytes.first();
}
