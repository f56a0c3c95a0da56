// Lines that end in a backslash which continues nothing, and those that only look as if the next line continued them.

ghost use Rattle.std.specs.Prelude.{◌≡◌, length, OnOk};
ghost use Rattle.properties_format.specs.Lines.{is_comment_line, is_open};
ghost use Rattle.properties_format.specs.Computed.Cut.{decoded_line};
ghost use Rattle.properties_text.specs.Encoding.{encoding_of};
ghost use Rattle.properties_lines.specs.LineSearch.{unit_size};
ghost use Rattle.properties_checking.specs.Misread.{looks_open};
ghost use Rattle.properties_tables.specs.Private.Flawed.{IsScanning};
ghost use Rattle.properties_checking.specs.Private.OpenLines.{holds_pair, joins_next, may_end_line, said_end, AddsEnds, BeginsWithAscii, EndsInAscii, FindsOpenLine, IsAsciiUnit, SeesNone};

use crate::check::Finding;
use crate::misread::{Misread, push_misread};
use java_properties::Encoding;
use memchr::memmem;
use properties_lines::scanner::{Scan, Scanner};
use properties_lines::search::unit_size;
use properties_tables::ill_formed::holds;
use properties_text::characters::{is_blank, is_comment_sign};
use properties_text::encoding::byte_order_mark::encoding_in_force;
use std::alloc::AllocError;

/// Adds what Java reads differently than people think at the ends of lines that are no comment lines.
pub(crate) fn push_ends(
    findings: &mut Vec<Finding>,
    source: &[u8],
    encoding: Encoding,
) -> Result<(), AllocError>
    ensures { OnOk result (AddsEnds (encoding_of encoding) source.now findings.old.items findings.new.items) }
{
    let (in_force, start) = encoding_in_force(source, encoding);
    let body = &source[start..];
    if !may_hold_ends(in_force, body) {
        return Ok(());
    }
    let mut scanner = Scanner::in_body(in_force);
    // Whether the next line continues the one before.
    let mut is_joined = false;
    while let Some(number) = next_line(&mut scanner, body) {
        let line = scanner.line();
        let is_last = scanner.place() == body.len();
        let bytes = &body[line.start..line.end];
        let (misread, is_open) = said_end(in_force, bytes, is_joined, is_last);
        push_misread(findings, number, misread)?;
        is_joined = is_open;
    }
    Ok(())
}

// Returns the number of the next line, if there is one.
fn next_line(scanner: &mut Scanner, body: &[u8]) -> Option<usize>
    requires { IsScanning body.now scanner.old }
    ensures { FindsOpenLine body.now scanner.old result scanner.new }
{
    match scanner.next(body, true) {
        Scan::Line => Some(scanner.number()),
        Scan::End => None,
        // No slice has that many lines.
        Scan::TooMany => unreachable!(),
        Scan::More => unreachable!(),
    }
}

// Returns what Java reads differently at the end of a line, and whether the next line continues it. Only a line that
// continues none can be a comment line. After the last one comes nothing, or an empty line.
fn said_end(
    encoding: Encoding,
    bytes: &[u8],
    is_joined: bool,
    is_last: bool,
) -> (Option<Misread>, bool)
    ensures said { result.0 ≡ said_end is_joined (decoded_line (encoding_of encoding) bytes.now) is_last }
    ensures joins { result.1 ≡ joins_next is_joined (decoded_line (encoding_of encoding) bytes.now) }
{
    if !is_joined && is_comment(encoding, bytes) {
        return (None, false);
    }
    let is_open = is_open(encoding, bytes);
    if looks_open(encoding, bytes) {
        (Some(Misread::BlankAfterBackslash), is_open)
    } else if is_open && is_last {
        (Some(Misread::OpenAtEnd), is_open)
    } else {
        (None, is_open)
    }
}

// Returns whether a line may be one that is sought. Most sources have none.
fn may_hold_ends(encoding: Encoding, body: &[u8]) -> bool
    ensures { SeesNone (encoding_of encoding) body.now result }
{
    match encoding {
        Encoding::WINDOWS_1252 | Encoding::UTF_8 => may_end(body),
        _ => true,
    }
}

// Returns whether a blank comes after a backslash, or one of the last three bytes is a backslash: no more than two are a
// line ending.
fn may_end(body: &[u8]) -> bool
    ensures { result ≡ may_end_line body.now }
{
    let late = body.len().saturating_sub(3);
    holds(&body[late..], b'\\')
        || holds_pair(body, b' ')
        || holds_pair(body, b'\t')
        || holds_pair(body, b'\x0c')
}

// Returns whether this byte comes after a backslash.
fn holds_pair(bytes: &[u8], byte: u8) -> bool
    ensures { result ≡ holds_pair byte bytes.now }
{
    if !holds(bytes, byte) {
        return false;
    }
    memmem::find(bytes, &[b'\\', byte]).is_some()
}

// Returns whether the line ends in blanks, after an odd number of backslashes.
fn looks_open(encoding: Encoding, bytes: &[u8]) -> bool
    ensures { result ≡ looks_open (decoded_line (encoding_of encoding) bytes.now) }
{
    let size = unit_size(encoding);
    let mut rest = bytes;
    let mut is_blank_last = false;
    while let Some(last) = last_ascii(encoding, rest) {
        if !is_blank(char::from(last)) {
            return is_blank_last && is_open(encoding, rest);
        }
        is_blank_last = true;
        rest = &rest[..rest.len() - size];
    }
    false
}

// Returns whether the line ends in an odd number of backslashes.
fn is_open(encoding: Encoding, bytes: &[u8]) -> bool
    ensures { result ≡ is_open (decoded_line (encoding_of encoding) bytes.now) }
{
    let size = unit_size(encoding);
    let mut rest = bytes;
    let mut odd = false;
    while let Some(last) = last_ascii(encoding, rest) {
        if last != b'\\' {
            return odd;
        }
        odd = !odd;
        rest = &rest[..rest.len() - size];
    }
    odd
}

// Returns whether the first character that is no blank is a comment sign.
fn is_comment(encoding: Encoding, bytes: &[u8]) -> bool
    ensures { result ≡ is_comment_line (decoded_line (encoding_of encoding) bytes.now) }
{
    let size = unit_size(encoding);
    let mut rest = bytes;
    while let Some(first) = first_ascii(encoding, rest) {
        let first = char::from(first);
        if !is_blank(first) {
            return is_comment_sign(first);
        }
        rest = &rest[size..];
    }
    false
}

// Returns the last character, if it is in ASCII.
fn last_ascii(encoding: Encoding, bytes: &[u8]) -> Option<u8>
    ensures { EndsInAscii (encoding_of encoding) bytes.now result }
{
    let size = unit_size(encoding);
    let end = bytes.len();
    if end < size || end % size != 0 {
        return None;
    }
    ascii_unit(encoding, &bytes[end - size..])
}

// Returns the first character, if it is in ASCII.
fn first_ascii(encoding: Encoding, bytes: &[u8]) -> Option<u8>
    ensures { BeginsWithAscii (encoding_of encoding) bytes.now result }
{
    let size = unit_size(encoding);
    if bytes.len() < size {
        return None;
    }
    ascii_unit(encoding, &bytes[..size])
}

// Returns the character of a unit, if it is in ASCII.
fn ascii_unit(encoding: Encoding, unit: &[u8]) -> Option<u8>
    requires { length unit.now ≡ unit_size (encoding_of encoding) }
    ensures { IsAsciiUnit (encoding_of encoding) unit.now result }
{
    let (low, high) = match encoding {
        Encoding::WINDOWS_1252 | Encoding::UTF_8 => (unit[0], 0),
        Encoding::UTF_16LE => (unit[0], unit[1]),
        Encoding::UTF_16BE => (unit[1], unit[0]),
    };
    if high == 0 && low < 0x80 {
        Some(low)
    } else {
        None
    }
}
