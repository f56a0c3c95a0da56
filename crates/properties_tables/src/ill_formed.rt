// The lines of a source whose bytes are not those of a text, or not those of a text in ASCII.

ghost use Rattle.std.specs.Prelude.{◌≡◌, false, true};
ghost use Rattle.properties_format.specs.Utf16.{is_high, is_low};
ghost use Rattle.properties_text.specs.Encoding.{encoding_of};
ghost use Rattle.properties_lines.specs.Scanner.{raw_line_bytes};
ghost use Rattle.properties_tables.specs.Lines as spec;
ghost use Rattle.properties_tables.specs.Lines.{FindsFlawed, IsFirstFlawed, IsFirstUtf8, starts_with_bom, starts_with_utf_32_mark};
ghost use Rattle.properties_tables.specs.Private.Flawed.{are_ascii, are_paired, holds_mark_unit, is_ascii, is_flawed, is_of_windows_1252, is_well_formed, unit_at, FindsFlawedLine, HasLinesOf, IsFoundLine, IsScanning};
ghost use Rattle.properties_tables.specs.declared.ill_formed.Flaw.TheVariants.{Byte, IllFormed, MarkInside, Misread, NonAscii, Zero};

use byte_blocks::{Within, find};
use java_properties::{Encoding, PropertiesError};
use memchr::memchr;
use properties_lines::scanner::{RawLine, Scan, Scanner};
use properties_text::encoding::byte_order_mark::encoding_in_force;
use properties_text::encoding::well_formed_length;
use std::alloc::Global;

/// What may be wrong with the bytes of a line.
#[derive(Clone, Copy)]
pub enum Flaw {
    /// They are ill-formed in the encoding in force. In windows-1252 none are.
    IllFormed,
    /// One of them is 0, as every other one is in ASCII characters of UTF-16. It is sought only if UTF-8 is in force,
    /// and no byte order mark says so.
    Zero,
    /// They are well-formed, and have a character that isn't ASCII.
    NonAscii,
    /// One of them is this byte. It is sought only if windows-1252 is in force.
    Byte(u8),
    /// They hold U+FEFF, which is a byte order mark only at the front of a source.
    MarkInside,
    /// ISO 8859-1 reads one of them differently than windows-1252, as a control character. It is sought only if
    /// windows-1252 is in force.
    Misread,
}

/// Returns the numbers of the natural lines that are ill-formed in the encoding in force, in order. Fails only if
/// memory runs out.
///
/// ```text
/// let numbers = ill_formed_lines(alloc, b"a=1\nb=caf\xe9\n", Encoding::UTF_8)?; // line 2
/// ```
pub fn ill_formed_lines(
    alloc: Global,
    source: &[u8],
    encoding: Encoding,
) -> Result<Vec<usize>, PropertiesError>
    ensures { FindsFlawed IllFormed (encoding_of encoding) source.now result }
{
    flawed_lines(alloc, source, encoding, Flaw::IllFormed)
}

/// Returns the numbers of the natural lines with this flaw, in order. Fails only if memory runs out.
#[tactic(auto, using(crate::proofs::FlawedLines::flawed))]
pub fn flawed_lines(
    alloc: Global,
    source: &[u8],
    encoding: Encoding,
    flaw: Flaw,
) -> Result<Vec<usize>, PropertiesError>
    ensures { FindsFlawed flaw (encoding_of encoding) source.now result }
{
    let (in_force, body) = body_to_search(source, encoding, flaw);
    let mut scanner = Scanner::in_body(in_force);
    let mut numbers = Vec::new(alloc);
    while let Some(number) = next_flawed(&mut scanner, body, flaw) {
        numbers.push(number)?;
    }
    Ok(numbers)
}

/// Returns the number of the first natural line with this flaw, if there is one.
#[tactic(auto, using(crate::proofs::FlawedLines::flawed))]
pub fn first_flawed_line(source: &[u8], encoding: Encoding, flaw: Flaw) -> Option<usize>
    ensures { IsFirstFlawed flaw (encoding_of encoding) source.now result }
{
    let (in_force, body) = body_to_search(source, encoding, flaw);
    let mut scanner = Scanner::in_body(in_force);
    next_flawed(&mut scanner, body, flaw)
}

/// Returns the number of the first line with a non-ASCII character of a source that is well-formed UTF-8, though
/// windows-1252 is in force.
pub fn first_utf_8_line(source: &[u8], encoding: Encoding) -> Option<usize>
    ensures { IsFirstUtf8 (encoding_of encoding) source.now result }
{
    let (in_force, _) = encoding_in_force(source, encoding);
    let Encoding::WINDOWS_1252 = in_force else {
        return None;
    };
    if well_formed_length(source) < source.len() {
        return None;
    }
    first_flawed_line(source, encoding, Flaw::NonAscii)
}

/// Returns whether a source begins with the byte order mark of UTF-8.
pub fn has_byte_order_mark(source: &[u8]) -> bool
    ensures { result ≡ starts_with_bom source.now }
{
    source.starts_with(b"\xef\xbb\xbf")
}

/// Returns whether a source begins with the byte order mark of UTF-32, in either order of bytes.
pub fn has_utf_32_mark(source: &[u8]) -> bool
    ensures { result ≡ starts_with_utf_32_mark source.now }
{
    source.starts_with(b"\xff\xfe\0\0") || source.starts_with(b"\0\0\xfe\xff")
}

// Returns the encoding in force, and the bytes after a byte order mark, or no bytes if no line of them has this flaw.
fn body_to_search(source: &[u8], encoding: Encoding, flaw: Flaw) -> (Encoding, &[u8])
    ensures { HasLinesOf flaw (encoding_of encoding) source.now (encoding_of result.0) result.1.now }
{
    match flaw {
        Flaw::IllFormed => body_to_decode(source, encoding),
        Flaw::Zero => body_with_zeros(source, encoding),
        Flaw::NonAscii => whole_body(source, encoding),
        Flaw::Byte(_) => body_in_windows_1252(source, encoding, flaw),
        Flaw::MarkInside => body_with_marks(source, encoding),
        Flaw::Misread => body_misread(source, encoding),
    }
}

fn body_to_decode(source: &[u8], encoding: Encoding) -> (Encoding, &[u8])
    ensures { HasLinesOf IllFormed (encoding_of encoding) source.now (encoding_of result.0) result.1.now }
{
    let (in_force, start) = encoding_in_force(source, encoding);
    let body = &source[start..];
    match in_force {
        Encoding::WINDOWS_1252 => (in_force, &[]),
        Encoding::UTF_8 if well_formed_length(body) == body.len() => (in_force, &[]),
        _ => (in_force, body),
    }
}

fn body_with_zeros(source: &[u8], encoding: Encoding) -> (Encoding, &[u8])
    ensures { HasLinesOf Zero (encoding_of encoding) source.now (encoding_of result.0) result.1.now }
{
    let (in_force, start) = encoding_in_force(source, encoding);
    let body = &source[start..];
    let Encoding::UTF_8 = in_force else {
        return (in_force, &[]);
    };
    if has_byte_order_mark(source) {
        return (in_force, &[]);
    }
    if !holds_zero(body) {
        return (in_force, &[]);
    }
    (in_force, body)
}

fn body_in_windows_1252(source: &[u8], encoding: Encoding, flaw: Flaw) -> (Encoding, &[u8])
    requires { is_of_windows_1252 flaw ≡ true }
    ensures { HasLinesOf flaw (encoding_of encoding) source.now (encoding_of result.0) result.1.now }
{
    let (in_force, start) = encoding_in_force(source, encoding);
    match in_force {
        Encoding::WINDOWS_1252 => (in_force, &source[start..]),
        _ => (in_force, &[]),
    }
}

// Most sources have none of the bytes, which this tells faster than a walk of the lines.
fn body_misread(source: &[u8], encoding: Encoding) -> (Encoding, &[u8])
    ensures { HasLinesOf Misread (encoding_of encoding) source.now (encoding_of result.0) result.1.now }
{
    let (in_force, body) = body_in_windows_1252(source, encoding, Flaw::Misread);
    match find::<Within<0x80, 0x9f>>(body) {
        Some(_) => (in_force, body),
        None => (in_force, &[]),
    }
}

fn body_with_marks(source: &[u8], encoding: Encoding) -> (Encoding, &[u8])
    ensures { HasLinesOf MarkInside (encoding_of encoding) source.now (encoding_of result.0) result.1.now }
{
    let (in_force, start) = encoding_in_force(source, encoding);
    let body = &source[start..];
    match in_force {
        Encoding::WINDOWS_1252 => (in_force, &[]),
        Encoding::UTF_8 if !holds_mark(body) => (in_force, &[]),
        _ => (in_force, body),
    }
}

fn whole_body(source: &[u8], encoding: Encoding) -> (Encoding, &[u8])
    ensures { HasLinesOf NonAscii (encoding_of encoding) source.now (encoding_of result.0) result.1.now }
{
    let (in_force, start) = encoding_in_force(source, encoding);
    (in_force, &source[start..])
}

// Returns the number of the next line with this flaw, if there is one.
fn next_flawed(scanner: &mut Scanner, body: &[u8], flaw: Flaw) -> Option<usize>
    requires { IsScanning body.now scanner.old }
    ensures { FindsFlawedLine flaw body.now scanner.old result scanner.new }
{
    loop {
        match scanner.next(body, true) {
            Scan::Line => {
                if has_flaw(scanner.encoding(), body, scanner.line(), flaw) {
                    return Some(scanner.number());
                }
            }
            Scan::End => return None,
            // No slice has that many lines.
            Scan::TooMany => unreachable!(),
            Scan::More => unreachable!(),
        }
    }
}

fn has_flaw(encoding: Encoding, body: &[u8], line: &RawLine, flaw: Flaw) -> bool
    requires { IsFoundLine (encoding_of encoding) body.now line.now }
    ensures { result ≡ is_flawed flaw (encoding_of encoding) (raw_line_bytes body.now line.now) }
{
    match flaw {
        Flaw::IllFormed => !is_well_formed(encoding, body, line),
        Flaw::Zero => holds_zero(&body[line.start..line.end]),
        Flaw::Byte(byte) => holds(&body[line.start..line.end], byte),
        Flaw::MarkInside => holds_mark_in(encoding, &body[line.start..line.end]),
        Flaw::Misread => holds_misread(&body[line.start..line.end]),
        Flaw::NonAscii => {
            !is_ascii(encoding, body, line) && is_well_formed(encoding, body, line)
        }
    }
}

#[tactic(auto, using(crate::proofs::FlawedLines::flawed))]
fn is_well_formed(encoding: Encoding, body: &[u8], line: &RawLine) -> bool
    requires { IsFoundLine (encoding_of encoding) body.now line.now }
    ensures { result ≡ is_well_formed (encoding_of encoding) (raw_line_bytes body.now line.now) }
{
    let bytes = &body[line.start..line.end];
    match encoding {
        Encoding::WINDOWS_1252 => true,
        Encoding::UTF_8 => line.is_ascii || well_formed_length(bytes) == bytes.len(),
        _ => is_utf_16(encoding, bytes),
    }
}

// Returns whether a line has ASCII characters alone.
fn is_ascii(encoding: Encoding, body: &[u8], line: &RawLine) -> bool
    requires { IsFoundLine (encoding_of encoding) body.now line.now }
    ensures { result ≡ is_ascii (encoding_of encoding) (raw_line_bytes body.now line.now) }
{
    match encoding {
        Encoding::WINDOWS_1252 | Encoding::UTF_8 => line.is_ascii,
        _ => is_ascii_in_utf_16(encoding, &body[line.start..line.end]),
    }
}

fn holds_zero(bytes: &[u8]) -> bool
    ensures { result ≡ spec.holds_zero bytes.now }
{
    holds(bytes, 0)
}

// Returns whether ISO 8859-1 reads one of the bytes differently.
fn holds_misread(line: &[u8]) -> bool
    ensures { result ≡ spec.holds_misread line.now }
{
    for byte in line {
        if is_read_otherwise(*byte) {
            return true;
        }
    }
    false
}

fn is_read_otherwise(byte: u8) -> bool
    ensures { result ≡ spec.is_read_otherwise byte }
{
    byte >= 0x80 && byte <= 0x9f && !matches!(byte, 0x81 | 0x8d | 0x8f | 0x90 | 0x9d)
}

/// Returns whether this byte is among some.
#[tactic(auto, using(crate::proofs::FlawedLines::tells_byte))]
pub fn holds(bytes: &[u8], byte: u8) -> bool
    ensures { result ≡ spec.holds_byte byte bytes.now }
{
    memchr(byte, bytes).is_some()
}

// Returns whether U+FEFF is in some bytes.
fn holds_mark_in(encoding: Encoding, bytes: &[u8]) -> bool
    ensures { result ≡ spec.holds_mark_in (encoding_of encoding) bytes.now }
{
    match encoding {
        Encoding::WINDOWS_1252 => false,
        Encoding::UTF_8 => holds_mark(bytes),
        _ => holds_mark_unit(encoding, bytes),
    }
}

// Returns whether one of the units is U+FEFF.
fn holds_mark_unit(encoding: Encoding, bytes: &[u8]) -> bool
    ensures { result ≡ holds_mark_unit (unit_at (encoding_of encoding)) bytes.now }
{
    let mut rest = bytes;
    while let [first, second, others @ ..] = rest {
        if unit(encoding, *first, *second) == 0xfeff {
            return true;
        }
        rest = others;
    }
    false
}

// Returns whether U+FEFF is in some bytes in UTF-8.
fn holds_mark(bytes: &[u8]) -> bool
    ensures { result ≡ spec.holds_mark bytes.now }
{
    let mut rest = bytes;
    while let Some(at) = memchr(0xef, rest) {
        rest = &rest[at..];
        if has_byte_order_mark(rest) {
            return true;
        }
        rest = &rest[1..];
    }
    false
}

// Returns whether each surrogate is one of a pair, and no byte is left over.
fn is_utf_16(encoding: Encoding, bytes: &[u8]) -> bool
    ensures { result ≡ are_paired (unit_at (encoding_of encoding)) false bytes.now }
{
    let mut rest = bytes;
    let mut after_high = false;
    while let [first, second, others @ ..] = rest {
        let unit = unit(encoding, *first, *second);
        if is_low(unit) != after_high {
            return false;
        }
        after_high = is_high(unit);
        rest = others;
    }
    rest.is_empty() && !after_high
}

// Returns whether each unit is an ASCII character, and no byte is left over.
fn is_ascii_in_utf_16(encoding: Encoding, bytes: &[u8]) -> bool
    ensures { result ≡ are_ascii (unit_at (encoding_of encoding)) bytes.now }
{
    let mut rest = bytes;
    while let [first, second, others @ ..] = rest {
        if unit(encoding, *first, *second) >= 0x80 {
            return false;
        }
        rest = others;
    }
    rest.is_empty()
}

// Returns the unit that two bytes make.
fn unit(encoding: Encoding, first: u8, second: u8) -> u16
    ensures { result ≡ unit_at (encoding_of encoding) first second }
{
    let (low, high) = match encoding {
        Encoding::UTF_16BE => (second, first),
        _ => (first, second),
    };
    u16::from(high) * 0x100 + u16::from(low)
}

fn is_high(unit: u16) -> bool
    ensures { result ≡ is_high unit }
{
    matches!(unit, 0xd800..=0xdbff)
}

fn is_low(unit: u16) -> bool
    ensures { result ≡ is_low unit }
{
    matches!(unit, 0xdc00..=0xdfff)
}
