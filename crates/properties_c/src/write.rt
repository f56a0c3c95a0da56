// The export that writes.

ghost use Rattle.std.specs.Prelude.{◌≡◌};
ghost use Rattle.std.specs.Str.{chars};
ghost use Rattle.properties_items.specs.Line.{ending_of};
ghost use Rattle.properties_text.specs.Encoding.{encoding_of};
ghost use Rattle.properties_c.specs.Crossing.{crossing};
ghost use Rattle.properties_c.specs.Writing.{given_or as chosen, flag_ending, settings_for, WritesAcross};
ghost use Rattle.java_properties.specs.PropertiesWriter.{new_writer};
ghost use Rattle.properties_format.specs.Encoding.{output_encoding};
ghost use Rattle.properties_c.specs.Private.Lists.{line_content};
ghost use Rattle.properties_c.specs.Private.Results.{acceptance, WritesContent, AddsLines, Opens, RefusesListFirst, SetsSettings, WritesList, WritesOn};

use crate::encoding::{FOR_LINES, Flags, encoding_numbered, flags_numbered, text_of};
use crate::lists::{Line, first_line};
use crate::out::{refuse, write_bytes};
use crate::status::{Status, status_of};
use counted_io::{Counted, CountedWrite};
use java_properties::{Encoding, ErrorKind, LineEnding, PropertiesError, PropertiesWriter};
use std::alloc::Global;

/// Gives the bytes of a packed list of comments and pairs, as a writer writes them with these settings. A prefix or a
/// separator of no bytes is that of a new writer.
#[unsafe(no_mangle)]
pub extern "C" fn todrenval_write(
    alloc: Global,
    list: &[u8],
    encoding: u32,
    flags: u32,
    prefix: &[u8],
    separator: &[u8],
    out: &mut [u8],
    length: &mut usize,
    line: &mut usize,
) -> i32
    ensures { let x = crossing out.old result length.new line.new out.new in
        WritesAcross list.now encoding flags prefix.now separator.now x }
{
    let Some(encoding) = encoding_numbered(encoding) else {
        return refuse(Status::UnknownEncoding, length, line);
    };
    let Some(flags) = flags_numbered(flags, FOR_LINES) else {
        return refuse(Status::UnknownFlags, length, line);
    };
    let Some(prefix) = text_of(prefix) else {
        return refuse(Status::NotUtf8, length, line);
    };
    let Some(separator) = text_of(separator) else {
        return refuse(Status::NotUtf8, length, line);
    };
    match written_going_on(alloc, list, encoding, flags, prefix, separator) {
        Ok((bytes, front)) => write_bytes(&bytes[front..], out, length, line),
        Err(status) => refuse(status, length, line),
    }
}

// Returns what a writer with these settings writes for the lines of a list, and how long its front is that isn't asked
// for.
fn written_going_on(
    alloc: Global,
    list: &[u8],
    encoding: Encoding,
    flags: Flags,
    prefix: &str,
    separator: &str,
) -> Result<(Vec<u8>, usize), Status>
    ensures { let settings = settings_for flags (chars prefix.now) (chars separator.now) in
        WritesOn (encoding_of encoding) settings flags.goes_on list.now result }
{
    let bytes = written(alloc, list, encoding, flags, prefix, separator)?;
    match opened_writer(alloc, encoding, flags, prefix, separator) {
        Ok(writer) => {
            let sink = writer.into_inner();
            let opening = sink.into_inner();
            Ok((bytes, opening.len()))
        }
        Err(status) => Err(status),
    }
}

// Returns what a writer with these settings writes for the lines of a list, behind its opening.
fn written(
    alloc: Global,
    list: &[u8],
    encoding: Encoding,
    flags: Flags,
    prefix: &str,
    separator: &str,
) -> Result<Vec<u8>, Status>
    ensures { let settings = settings_for flags (chars prefix.now) (chars separator.now) in
        WritesList (encoding_of encoding) settings flags.goes_on list.now result }
{
    let mut writer = match opened_writer(alloc, encoding, flags, prefix, separator) {
        Ok(writer) => writer,
        Err(Status::NoMemory) => return Err(Status::NoMemory),
        Err(status) => return Err(refused_for(alloc, list, encoding, status)),
    };
    match write_lines(list, &mut writer) {
        Ok(true) => Err(Status::EmptyKey),
        Ok(false) => {
            let sink = writer.into_inner();
            Ok(sink.into_inner())
        }
        Err(status) => Err(status),
    }
}

// Returns a new writer with these settings. If lines were written before, it has written a comment, so that no other
// line is the first of a file.
fn opened_writer(
    alloc: Global,
    encoding: Encoding,
    flags: Flags,
    prefix: &str,
    separator: &str,
) -> Result<PropertiesWriter<Counted<Vec<u8>>>, Status>
    ensures { let settings = settings_for flags (chars prefix.now) (chars separator.now) in
        Opens (encoding_of encoding) settings flags.goes_on result }
{
    let sink = Counted::new(Vec::new(alloc));
    let mut writer = writer_for(alloc, sink, encoding, flags, prefix, separator)?;
    if !flags.goes_on {
        return Ok(writer);
    }
    match write_line(Line::Comment(""), &mut writer) {
        Ok(_) => Ok(writer),
        Err(status) => Err(status),
    }
}

// Returns why a list is refused if the settings are refused with this status: first because of itself.
fn refused_for(alloc: Global, list: &[u8], encoding: Encoding, status: Status) -> Status
    ensures { RefusesListFirst list.now status result }
{
    let sink = Counted::new(Vec::new(alloc));
    let Ok(mut writer) = PropertiesWriter::new_with_encoding(alloc, sink, encoding) else {
        return Status::NoMemory;
    };
    match write_lines(list, &mut writer) {
        Ok(_) => status,
        Err(refused) => refused,
    }
}

// Writes the lines of a list, and returns whether the writer didn't accept one of them.
fn write_lines<W: CountedWrite>(
    list: &[u8],
    writer: &mut PropertiesWriter<W>,
) -> Result<bool, Status>
    ensures { AddsLines W.CountedWrite list.now writer.old result writer.new }
{
    let mut has_refused = false;
    let mut rest = list;
    while !rest.is_empty() {
        match first_line(rest) {
            Ok((line, after)) => match write_line(line, writer) {
                Ok(is_accepted) => {
                    has_refused = has_refused || !is_accepted;
                    rest = after;
                }
                Err(status) => return Err(status),
            },
            Err(status) => return Err(status),
        }
    }
    Ok(has_refused)
}

// Writes a line, and returns whether the writer accepted it.
#[tactic(auto, using(crate::proofs::WrittenLines::adding))]
#[inline(always)]
fn write_line<W: CountedWrite>(
    line: Line<'_>,
    writer: &mut PropertiesWriter<W>,
) -> Result<bool, Status>
    ensures { WritesContent W.CountedWrite (line_content line.entry) writer.old result writer.new }
{
    match line {
        Line::Comment(text) => was_accepted(writer.write_comment(text)),
        Line::Pair(key, value) => was_accepted(writer.write(key, value)),
    }
}

// Returns whether a line was accepted. Any other error comes of writing to memory, which fails only if it runs out.
#[inline(always)]
fn was_accepted(done: Result<(), PropertiesError>) -> Result<bool, Status>
    ensures { result ≡ acceptance done }
{
    match done {
        Ok(()) => Ok(true),
        Err(error) => match error.kind() {
            ErrorKind::EmptyKey => Ok(false),
            _ => Err(Status::NoMemory),
        },
    }
}

// Returns a new writer with these settings, or why they are refused.
fn writer_for<W: CountedWrite>(
    alloc: Global,
    sink: W,
    encoding: Encoding,
    flags: Flags,
    prefix: &str,
    separator: &str,
) -> Result<PropertiesWriter<W>, Status>
    ensures { let settings = settings_for flags (chars prefix.now) (chars separator.now) in
        SetsSettings (new_writer (output_encoding (encoding_of encoding)) sink) settings result }
{
    let Ok(mut writer) = PropertiesWriter::new_with_encoding(alloc, sink, encoding) else {
        return Err(Status::NoMemory);
    };
    if let Err(error) = writer.set_comment_prefix(given_or(prefix, "# ")) {
        return Err(status_of(error.kind()));
    }
    if let Err(error) = writer.set_kv_separator(given_or(separator, "=")) {
        return Err(status_of(error.kind()));
    }
    writer.set_line_ending(ending_for(flags));
    writer.set_ascii_only(flags.ascii_only);
    writer.set_readable(flags.readable);
    Ok(writer)
}

// Returns the text, or another one in the place of an empty text.
#[tactic(auto, using(java_properties::proofs::Settings::Tests::emptiness))]
fn given_or<'a>(text: &'a str, other: &'a str) -> &'a str
    ensures { chars result.now ≡ chosen (chars text.now) (chars other.now) }
{
    if text.is_empty() { other } else { text }
}

// Returns what ends lines.
fn ending_for(flags: Flags) -> LineEnding
    ensures { ending_of result ≡ flag_ending flags }
{
    if flags.crlf {
        LineEnding::CRLF
    } else if flags.cr {
        LineEnding::CR
    } else {
        LineEnding::LF
    }
}
