//! Printing texts: escaping and encoding them.

ghost use Rattle.std.specs.Prelude.{◌≡◌, ◌≤◌, ◌<◌, ◌++◌, ◌∷◌, true, false, [], ℕ, length, take, get_or, OnErr};
ghost use Rattle.std.specs.Str.{chars};
ghost use Rattle.memchr.specs.Find.{IsFirstByte};
ghost use Rattle.properties_format.specs.Text.{backslash};
ghost use Rattle.properties_format.specs.Encoding.{begins_like_bom, all_of};
ghost use Rattle.properties_format.specs.Escapes.{means};
ghost use Rattle.properties_format.specs.Computed.Escapes.{meaning_of};
ghost use Rattle.properties_format.specs.Printing.{unicode_escape, literal, encoded_text};
ghost use Rattle.properties_text.specs.Encoding.{line_of};
ghost use Rattle.properties_text.specs.Parsing.{IsSpan, bytes_in};
ghost use Rattle.properties_text.specs.Escaping.{text_in, IsWell};
ghost use Rattle.properties_text.specs.Printing.{in_format, AppendsOnOk, character_bytes, text_bytes, put_of, puts_of, value_bytes, rest_bytes, inside_bytes, key_bytes, escaped_key, is_first_escaped, last_run};
ghost use Rattle.properties_text.specs.PrintedTexts.{is_copied, StopsIn, meaning_in, Prints, bytes_of, key_meaning, value_meaning, IsWellPair, PrintsPair, ReadsBy, PrintsMeant};

use crate::characters::{is_comment_sign, is_separator};
use crate::encoding::byte_order_mark::begins_like_byte_order_mark;
use crate::encoding::{LineEncoding, ReadCharacter};
use crate::escape::{Malformed, UnescapeError};
use crate::line_buffer::{make_room, put_raw};
use crate::parse::Span;
use byte_blocks::{Byte, ByteClass, Controls, Either, NonAscii, find};
use escapes::{LONGEST, put_escape};
use part::Part;
use runs::{first_character, print_bytes, put_literal, put_printed};
use std::alloc::AllocError;

mod bytes;
mod convert;
mod escapes;
mod part;
mod readable;
mod runs;

pub use crate::line_buffer::LineBuffer;
pub(crate) use convert::convert_text;
pub use readable::{print_readable_pair, print_readable_texts};

/// Where a text stands that is neither a key nor a value. It decides what is escaped besides the characters outside the
/// repertoire.
#[derive(Clone, Copy)]
pub enum Place {
    /// Escapes backslashes, CR and LF.
    Comment,
    /// Escapes only the characters outside the repertoire.
    Prefix,
}

/// The characters that are written as they are, and the encoding of the bytes. All other characters are written as
/// `\u` escapes.
#[derive(Clone, Copy, Debug, PartialEq, Eq)]
pub enum Repertoire {
    /// The characters of windows-1252, one byte each.
    Windows1252,
    /// All characters, in UTF-8.
    Utf8,
    /// The characters of ASCII. The bytes are the same in windows-1252, ISO 8859-1 and UTF-8.
    Ascii,
    /// The characters that windows-1252 and ISO 8859-1 have at the same byte, up to U+007F and from U+00A0 to U+00FF, one
    /// byte each. So `Properties.load(InputStream)` of Java, which takes every byte as the character of its number, reads
    /// them as they are meant.
    Latin1,
}

impl From<LineEncoding> for Repertoire {
    ghost from_gives = { λ from to. in_format to ≡ all_of (line_of from) };

    fn from(encoding: LineEncoding) -> Repertoire {
        match encoding {
            LineEncoding::Windows1252 => Repertoire::Windows1252,
            LineEncoding::Utf8 => Repertoire::Utf8,
        }
    }
}

/// A pair to print.
#[derive(Clone, Copy)]
pub struct Pair<'a> {
    encoding: LineEncoding,
    // Whether a backslash begins an escape, as in a file. Otherwise it stands for itself.
    escaped: bool,
    key: Part<'a>,
    value: Part<'a>,
}

impl<'a> Pair<'a> {
    // A key and a value.
    #[inline(always)]
    fn literal(key: &'a str, value: &'a str) -> Pair<'a>
        ensures well { IsWellPair result }
        ensures key { key_meaning result ≡ means (chars key.now) }
        ensures value { value_meaning result ≡ means (chars value.now) }
    {
        Pair {
            encoding: LineEncoding::Utf8,
            escaped: false,
            key: Part::of(key),
            value: Part::of(value),
        }
    }

    /// The key and the value at these positions in a line, as a file spells them. The line is well-formed.
    #[inline(always)]
    pub fn spelt(encoding: LineEncoding, line: &'a [u8], key: Span, value: Span) -> Pair<'a>
        requires key_ordered { key.start ≤ key.end }
        requires key_within { key.end ≤ length line.now }
        requires value_ordered { value.start ≤ value.end }
        requires value_within { value.end ≤ length line.now }
        requires key { IsWell encoding (bytes_in line.now key) }
        requires value { IsWell encoding (bytes_in line.now value) }
        ensures well { IsWellPair result }
        ensures key { key_meaning result ≡ meaning_of (text_in encoding (bytes_in line.now key)) }
        ensures value { value_meaning result ≡ meaning_of (text_in encoding (bytes_in line.now value)) }
    {
        Pair {
            encoding,
            escaped: true,
            key: Part::at(line, key),
            value: Part::at(line, value),
        }
    }
}

/// The line of a pair: which characters are printed as they are, and what stands around the key and the value.
#[derive(Clone, Copy)]
pub struct PairLayout<'a> {
    pub repertoire: Repertoire,
    /// Whether the key comes first in a file. Then it is printed so that it isn't taken for a byte order mark.
    pub first: bool,
    /// What separates the key and the value, as it is printed.
    pub separator: &'a str,
    /// What ends the line, as it is printed.
    pub ending: &'a str,
}

// Where a run of bytes stops, by whether a backslash begins an escape, and by whether non-ASCII bytes are copied.
type Literal = Controls;

type Escaped = Either<Controls, Byte<b'\\'>>;

type LiteralAscii = Either<Controls, NonAscii>;

type EscapedAscii = Either<NonAscii, Either<Controls, Byte<b'\\'>>>;

// Whether non-ASCII bytes are copied.
#[inline(always)]
fn is_copied(encoding: LineEncoding, repertoire: Repertoire) -> bool
    ensures { result ≡ is_copied encoding repertoire }
{
    match (encoding, repertoire) {
        (LineEncoding::Windows1252, Repertoire::Windows1252) => true,
        (LineEncoding::Utf8, Repertoire::Utf8) => true,
        _ => false,
    }
}

/// Appends a pair. Fails with the first malformed escape, or if memory runs out; then nothing is appended.
#[inline(always)]
pub fn print_pair(
    line: &mut LineBuffer,
    layout: PairLayout<'_>,
    pair: Pair<'_>,
) -> Result<(), UnescapeError>
    requires { IsWellPair pair }
    ensures printed { let l = layout.entry in
        PrintsPair l.repertoire l.first (puts_of l.repertoire) line.old pair.entry l.separator.now l.ending.now result line.new }
    ensures unchanged { OnErr result (line.new ≡ line.old) }
{
    match (pair.escaped, is_copied(pair.encoding, layout.repertoire)) {
        (true, true) => print_parts::<Escaped>(line, layout, pair),
        (true, false) => print_parts::<EscapedAscii>(line, layout, pair),
        (false, true) => print_parts::<Literal>(line, layout, pair),
        (false, false) => print_parts::<LiteralAscii>(line, layout, pair),
    }
}

// Prints a pair whose runs stop at these bytes.
#[inline(always)]
fn print_parts<Stops: ByteClass>(
    line: &mut LineBuffer,
    layout: PairLayout<'_>,
    pair: Pair<'_>,
) -> Result<(), UnescapeError>
    requires well { IsWellPair pair }
    requires stops { StopsIn Stops.holds pair.encoding layout.repertoire }
    requires escaped { Stops.holds backslash ≡ pair.escaped }
    ensures printed { let l = layout.entry in
        PrintsPair l.repertoire l.first (puts_of l.repertoire) line.old pair.entry l.separator.now l.ending.now result line.new }
    ensures unchanged { OnErr result (line.new ≡ line.old) }
{
    let Pair {
        encoding,
        escaped: _,
        key,
        value,
    } = pair;
    let out = &mut line.bytes;
    let filled = line.filled;
    let repertoire = layout.repertoire;
    let after_key = print_first::<Stops>(out, filled, layout, encoding, key)?;
    let after_separator = put_raw(out, after_key, layout.separator.as_bytes())?;
    let after_value = print_bytes::<Stops>(out, after_separator, repertoire, encoding, value)?;
    line.filled = put_raw(out, after_value, layout.ending.as_bytes())?;
    Ok(())
}

// Puts a key after the first `at` bytes, and returns the index after it. If it is the first one, and would begin like a
// byte order mark, its first character is escaped.
#[inline(always)]
fn print_first<Stops: ByteClass>(
    out: &mut Vec<u8>,
    at: usize,
    layout: PairLayout<'_>,
    encoding: LineEncoding,
    part: Part<'_>,
) -> Result<usize, UnescapeError>
    requires at { at ≤ length out.old.items }
    requires stops { StopsIn Stops.holds encoding layout.repertoire }
    requires well { IsWell encoding (bytes_of part) }
    ensures printed { let key = key_bytes layout.entry.repertoire layout.entry.first in
        Prints (meaning_in encoding (Stops.holds backslash) (bytes_of part.entry)) key out.old.items at out.new.items result }
    ensures same { take at out.new.items ≡ take at out.old.items }
    ensures longer { length out.old.items ≤ length out.new.items }
{
    let repertoire = layout.repertoire;
    let first = layout.first;
    let end = print_bytes::<Stops>(out, at, repertoire, encoding, part)?;
    if first && begins_like_byte_order_mark(&out[at..end]) {
        return print_with_first_escaped::<Stops>(out, at, repertoire, encoding, part);
    }
    Ok(end)
}

// Puts a key with its first character escaped.
#[inline(never)]
fn print_with_first_escaped<Stops: ByteClass>(
    out: &mut Vec<u8>,
    at: usize,
    repertoire: Repertoire,
    encoding: LineEncoding,
    part: Part<'_>,
) -> Result<usize, UnescapeError>
    requires at { at ≤ length out.old.items }
    requires stops { StopsIn Stops.holds encoding repertoire }
    requires well { IsWell encoding (bytes_of part) }
    requires some { 0 < part.size }
    ensures printed { Prints (meaning_in encoding (Stops.holds backslash) (bytes_of part.entry)) (escaped_key repertoire) out.old.items at out.new.items result }
    ensures same { take at out.new.items ≡ take at out.old.items }
    ensures longer { length out.old.items ≤ length out.new.items }
{
    let first = match first_character::<Stops>(encoding, &part.bytes[..part.size]) {
        Ok(first) => first,
        Err(malformed) => return Err(UnescapeError::Malformed(malformed)),
    };
    make_room(out, at, LONGEST)?;
    let end = put_escape(out, at, first.character);
    let rest = Part {
        bytes: &part.bytes[first.length..],
        size: part.size - first.length,
    };
    print_bytes::<Stops>(out, end, repertoire, encoding, rest)
}

/// Appends a pair of texts, as [`print_pair`] does. Fails if memory runs out.
#[inline(always)]
pub fn print_texts(
    line: &mut LineBuffer,
    layout: PairLayout<'_>,
    key: &str,
    value: &str,
) -> Result<(), AllocError>
    ensures appended { let l = layout.entry in
        let value = puts_of l.repertoire (chars value.now) in
        let bytes = key_bytes l.repertoire l.first (chars key.now) ++ (l.separator.now ++ (value ++ l.ending.now)) in
        AppendsOnOk line.old bytes result line.new }
    ensures unchanged { OnErr result (line.new ≡ line.old) }
{
    let pair = Pair::literal(key, value);
    match print_pair(line, layout, pair) {
        Ok(()) => Ok(()),
        // No escape is malformed, since a backslash begins none.
        Err(_) => Err(AllocError),
    }
}

/// Appends the bytes of a text, escaped as its place in the line requires. Fails if memory runs out.
///
/// ```text
/// print_text(&mut line, repertoire, Place::Comment, "a\n")?; // appends `a\n`, a backslash and a letter
/// ```
pub fn print_text(
    line: &mut LineBuffer,
    repertoire: Repertoire,
    place: Place,
    text: &str,
) -> Result<(), AllocError>
    ensures { AppendsOnOk line.old (text_bytes repertoire place (chars text.now)) result line.new }
{
    for character in text.chars() {
        print_character(line, repertoire, place, character)?;
    }
    Ok(())
}

/// Appends a value as people write it, without the backslashes that a key needs inside: after blanks only, or after a
/// separator.
///
/// Spaces, separators and comment signs are not escaped, except at the ends: a space at the start is escaped with a
/// backslash, and so is a separator at the start if only blanks come before it. A space at the end is `\u0020`, which
/// survives editors that trim lines. Everything else is printed as in a key: characters outside the repertoire are
/// escaped. Fails if memory runs out.
///
/// ```text
/// print_value(&mut line, repertoire, false, " a:b ")?; // appends `\ a:b\u0020`
/// ```
pub fn print_value(
    line: &mut LineBuffer,
    repertoire: Repertoire,
    after_blanks: bool,
    text: &str,
) -> Result<(), AllocError>
    ensures { AppendsOnOk line.old (value_bytes repertoire after_blanks (chars text.now)) result line.new }
{
    let value = Spelt {
        encoding: LineEncoding::Utf8,
        escaped: false,
        bytes: text.as_bytes(),
    };
    match print_value_in(line, repertoire, after_blanks, value) {
        Ok(()) => Ok(()),
        // No escape is malformed, since a backslash begins none.
        Err(_) => Err(AllocError),
    }
}

// Bytes that mean a text, and how they are read.
#[derive(Clone, Copy)]
struct Spelt<'a> {
    encoding: LineEncoding,
    // Whether a backslash begins an escape.
    escaped: bool,
    bytes: &'a [u8],
}

// Prints the value that bytes mean.
fn print_value_in(
    line: &mut LineBuffer,
    repertoire: Repertoire,
    after_blanks: bool,
    value: Spelt<'_>,
) -> Result<(), UnescapeError>
    requires { IsWell value.encoding value.bytes.now }
    ensures { let v = value.entry in
        PrintsMeant (meaning_in v.encoding v.escaped v.bytes.now) (value_bytes repertoire after_blanks) line.old result line.new }
{
    let Spelt {
        encoding,
        escaped,
        bytes,
    } = value;
    if bytes.is_empty() {
        return Ok(());
    }
    let first = match read_first(encoding, escaped, bytes) {
        Ok(first) => first,
        Err(malformed) => return Err(UnescapeError::Malformed(malformed)),
    };
    let rest = &bytes[first.length..];
    if !is_first_escaped(after_blanks, first.character, rest.is_empty()) {
        return print_rest_of_value(line, repertoire, encoding, escaped, bytes);
    }
    print_in_key_or_value(line, repertoire, first.character)?;
    print_rest_of_value(line, repertoire, encoding, escaped, rest)
}

// Returns the first character that bytes mean.
#[inline(always)]
fn read_first(
    encoding: LineEncoding,
    escaped: bool,
    bytes: &[u8],
) -> Result<ReadCharacter, Malformed>
    requires some { 0 < length bytes.now }
    requires well { IsWell encoding bytes.now }
    ensures { ReadsBy escaped encoding bytes.now result }
{
    if escaped {
        return first_character::<Escaped>(encoding, bytes);
    }
    first_character::<Literal>(encoding, bytes)
}

// Returns whether the first character of a value gets a backslash. A space that is the last one too gets none.
fn is_first_escaped(after_blanks: bool, first: char, is_last: bool) -> bool
    ensures { result ≡ is_first_escaped after_blanks first is_last }
{
    if first == ' ' {
        !is_last
    } else {
        after_blanks && is_separator(first)
    }
}

// Prints the characters of a value whose first one needs no backslash: runs of ASCII as they are, and by turns a
// character that may need an escape, or was spelt as one.
fn print_rest_of_value(
    line: &mut LineBuffer,
    repertoire: Repertoire,
    encoding: LineEncoding,
    escaped: bool,
    bytes: &[u8],
) -> Result<(), UnescapeError>
    requires { IsWell encoding bytes.now }
    ensures { PrintsMeant (meaning_in encoding escaped bytes.now) (rest_bytes repertoire) line.old result line.new }
{
    let mut rest = bytes;
    while let Some(plain) = find_stop::<EscapedAscii>(rest) {
        let (run, others) = rest.split_at(plain);
        line.extend(run)?;
        let stop = match read_first(encoding, escaped, others) {
            Ok(stop) => stop,
            Err(malformed) => return Err(UnescapeError::Malformed(malformed)),
        };
        rest = &others[stop.length..];
        print_inside_value(line, repertoire, stop.character, rest.is_empty())?;
    }
    print_last_run(line, rest)?;
    Ok(())
}

// The index of the first byte that isn't printed as it is. Between adjacent escapes no search is needed.
#[inline(always)]
fn find_stop<Stops: ByteClass>(bytes: &[u8]) -> Option<usize>
    requires { Stops.holds backslash ≡ true }
    ensures { IsFirstByte Stops.holds bytes.now result }
{
    match bytes {
        [b'\\', ..] => Some(0),
        _ => find::<Stops>(bytes),
    }
}

// Prints a character after the first, which may be the last one.
#[inline(always)]
fn print_inside_value(
    line: &mut LineBuffer,
    repertoire: Repertoire,
    character: char,
    is_last: bool,
) -> Result<(), AllocError>
    ensures { AppendsOnOk line.old (inside_bytes repertoire is_last character) result line.new }
{
    if is_last && character == ' ' {
        return print_escape(line, ' ');
    }
    if character == ' ' || is_separator(character) || is_comment_sign(character) {
        return print_literal(line, repertoire, character);
    }
    print_in_key_or_value(line, repertoire, character)
}

// Prints ASCII as it is, but for a space at the end, which is printed as an escape.
fn print_last_run(line: &mut LineBuffer, run: &[u8]) -> Result<(), AllocError>
    ensures { AppendsOnOk line.old (last_run run.now) result line.new }
{
    match run.split_last() {
        Some((b' ', inside)) => {
            line.extend(inside)?;
            print_escape(line, ' ')
        }
        _ => line.extend(run),
    }
}

fn print_character(
    line: &mut LineBuffer,
    repertoire: Repertoire,
    place: Place,
    character: char,
) -> Result<(), AllocError>
    ensures { AppendsOnOk line.old (character_bytes repertoire place character) result line.new }
{
    match place {
        Place::Comment => print_in_comment(line, repertoire, character),
        Place::Prefix => print_literal(line, repertoire, character),
    }
}

#[inline(always)]
fn print_in_key_or_value(
    line: &mut LineBuffer,
    repertoire: Repertoire,
    character: char,
) -> Result<(), AllocError>
    ensures { AppendsOnOk line.old (put_of repertoire character) result line.new }
{
    make_room(&mut line.bytes, line.filled, LONGEST)?;
    line.filled = put_printed(&mut line.bytes, line.filled, repertoire, character);
    Ok(())
}

fn print_in_comment(
    line: &mut LineBuffer,
    repertoire: Repertoire,
    character: char,
) -> Result<(), AllocError>
    ensures { let bytes = character_bytes repertoire Place.Comment character in
        AppendsOnOk line.old bytes result line.new }
{
    match character {
        '\n' => print_after_backslash(line, b'n'),
        '\r' => print_after_backslash(line, b'r'),
        '\\' => print_after_backslash(line, b'\\'),
        _ => print_literal(line, repertoire, character),
    }
}

// Prints a character unescaped if that is allowed, otherwise as a `\u` escape.
fn print_literal(
    line: &mut LineBuffer,
    repertoire: Repertoire,
    character: char,
) -> Result<(), AllocError>
    ensures { let r = in_format repertoire in
        AppendsOnOk line.old (encoded_text r.encoding (literal r character)) result line.new }
{
    make_room(&mut line.bytes, line.filled, LONGEST)?;
    line.filled = put_literal(&mut line.bytes, line.filled, repertoire, character);
    Ok(())
}

fn print_after_backslash(line: &mut LineBuffer, byte: u8) -> Result<(), AllocError>
    ensures { AppendsOnOk line.old (backslash ∷ byte ∷ []) result line.new }
{
    line.extend(&[b'\\', byte])
}

// Prints a character as `\u` and four digits, or as two such escapes: a high and a low surrogate.
pub(crate) fn print_escape(line: &mut LineBuffer, character: char) -> Result<(), AllocError>
    ensures { AppendsOnOk line.old (unicode_escape character) result line.new }
{
    make_room(&mut line.bytes, line.filled, LONGEST)?;
    line.filled = put_escape(&mut line.bytes, line.filled, character);
    Ok(())
}
