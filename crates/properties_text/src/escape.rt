//! Resolving the escapes of a key, a value or a comment's text.

ghost use Rattle.std.specs.Prelude.{◌≡◌, ◌≤◌, ◌<◌, ◌+◌, not, length, ◌++◌, get_or, true, IfOk, OnOk};
ghost use Rattle.std.specs.Str.{chars};
ghost use Rattle.std.specs.String.{string_bytes};
ghost use Rattle.memchr.specs.Find.{IsFirstByte, is_byte};
ghost use Rattle.properties_format.specs.Text.{backslash};
ghost use Rattle.properties_format.specs.Lines.{ending_backslashes};
ghost use Rattle.properties_text.specs.declared.escape.UnescapeError.TheVariants.{Memory};
ghost use Rattle.properties_text.specs.MalformedEscapes.{FindsMalformed};
ghost use Rattle.properties_text.specs.Escaping.{IsWell, Checks, holds_backslash, is_borrowed_result, Unescapes, Appends, ResolvesFront};

use crate::encoding::{LineEncoding, put_character};
use byte_blocks::{Byte, find};
use memchr::memchr;
use std::alloc::{AllocError, Global};
use std::borrow::CowStr;

mod read;

pub(crate) use read::read_escape;

// Up to this many bytes, a backslash is searched for inline. In longer texts, the larger steps of `memchr` pay off.
const SHORT: usize = 128;

/// The ways in which an escape is malformed.
#[derive(Clone, Copy, Debug, PartialEq, Eq)]
pub enum Malformed {
    /// Fewer than four characters follow a `\u`.
    NotEnoughDigits,
    /// One of the four characters after a `\u` isn't a hexadecimal digit.
    NotHex,
    /// An escape is a surrogate without its other half.
    InvalidCharacter,
}

/// Why the escapes of a text can't be resolved.
#[derive(Clone, Copy, Debug, PartialEq, Eq)]
pub enum UnescapeError {
    /// An escape is malformed. If there are several, this is the first one.
    Malformed(Malformed),
    /// Memory ran out.
    Memory,
}

impl From<AllocError> for UnescapeError {
    ghost from_gives = { λ _ e. e ≡ Memory };

    fn from(_: AllocError) -> UnescapeError {
        UnescapeError::Memory
    }
}

/// Returns the text with its escapes resolved. A text without a backslash is borrowed, not copied.
///
/// A backslash at the end of the text means U+0000. Fails if an escape is malformed, with the error of the first one,
/// or if memory runs out.
///
/// ```text
/// let text = unescape(alloc, r"caf\u00e9\tbar")?; // `café`, a tab and `bar`, owned
/// ```
pub fn unescape(alloc: Global, s: &str) -> Result<CowStr<'_>, UnescapeError>
    ensures meaning { Unescapes (chars s.now) result }
    ensures borrowed { is_borrowed_result result ≡ not (holds_backslash (chars s.now)) }
{
    let Some(first) = find_backslash(s.as_bytes()) else {
        return Ok(CowStr::Borrowed(s));
    };
    // A resolved escape is never longer than the escape itself.
    let mut text = String::with_capacity(alloc, s.len())?;
    push_part(&mut text, &s[..first])?;
    push_resolved(&mut text, &s[first..])?;
    Ok(CowStr::Owned(text))
}

/// Returns whether one of the bytes is that of a backslash.
#[tactic(auto, using(crate::proofs::Texts::Resolving::tells_backslash))]
pub fn has_backslash(bytes: &[u8]) -> bool
    ensures { result ≡ holds_backslash bytes.now }
{
    find_backslash(bytes).is_some()
}

// How many bytes of resolved characters are collected before they are appended.
const RESOLVED_RUN: usize = 64;

// Appends the text with its escapes resolved.
fn push_resolved(text: &mut String, s: &str) -> Result<(), UnescapeError>
    ensures { Appends (chars s.now) (chars (string_bytes text.old)) result (chars (string_bytes text.new)) }
{
    let mut run = [0; RESOLVED_RUN];
    let mut rest = s;
    while let Some(at) = find_next(rest.as_bytes()) {
        push_part(text, &rest[..at])?;
        let escapes = match put_escapes(&mut run, &rest[at..]) {
            Ok(escapes) => escapes,
            Err(malformed) => return Err(UnescapeError::Malformed(malformed)),
        };
        // SAFETY: the bytes written to the run are valid UTF-8.
        let more = unsafe { str::from_utf8_unchecked(&run[..escapes.end]) };
        text.push_str(more)?;
        rest = escapes.rest;
    }
    push_part(text, rest)?;
    Ok(())
}

// The index after the characters that were written, and the text after their escapes.
#[derive(Clone, Copy)]
struct Escapes<'a> {
    end: usize,
    rest: &'a str,
}

// Resolves the escapes at the front and writes their characters to the run, as long as there is room.
#[inline(always)]
fn put_escapes<'a>(run: &mut [u8], text: &'a str) -> Result<Escapes<'a>, Malformed>
    ensures same_room { length run.new ≡ length run.old }
    ensures resolves { ResolvesFront text.now run.new result }
    ensures shorter { IfOk result (λ escapes. 4 ≤ length run.old → get_or text.now 0 0 ≡ backslash
        → length escapes.rest.now < length text.now) }
    ensures far { IfOk result (λ escapes. get_or escapes.rest.now 0 0 ≡ backslash → length run.new < escapes.end + 4) }
{
    let mut end = 0;
    let mut rest = text;
    while run.len() - end >= 4 && starts_with_backslash(rest) {
        let escape = read_escape(LineEncoding::Utf8, rest.as_bytes())?;
        end = put_character(run, end, escape.character);
        rest = &rest[escape.length..];
    }
    Ok(Escapes { end, rest })
}

#[inline(always)]
fn starts_with_backslash(text: &str) -> bool
    ensures some { result ≡ true → 0 < length text.now }
    ensures first { result ≡ true → get_or text.now 0 0 ≡ backslash }
    ensures other { 0 < length text.now → get_or text.now 0 0 ≡ backslash → result ≡ true }
{
    !text.is_empty() && text.as_bytes()[0] == b'\\'
}

/// Returns whether the escapes of a well-formed text can be resolved, or else why the first malformed one can't.
// Inlined even where two loops call it, as those that copy pairs do.
#[inline(always)]
pub fn check_escapes(encoding: LineEncoding, text: &[u8]) -> Result<(), Malformed>
    requires { IsWell encoding text.now }
    ensures { Checks encoding text.now result }
{
    let mut rest = text;
    while let Some(at) = find_next(rest) {
        let escapes = &rest[at..];
        let escape = read_escape(encoding, escapes)?;
        rest = &escapes[escape.length..];
    }
    Ok(())
}

/// Returns the position of the first malformed escape of a well-formed text, and how it is malformed, if it has one.
pub fn first_malformed(encoding: LineEncoding, text: &[u8]) -> Option<(usize, Malformed)>
    requires { IsWell encoding text.now }
    ensures { FindsMalformed encoding text.now result }
{
    let mut at = 0;
    while let Some(next) = find_next(&text[at..]) {
        at += next;
        match read_escape(encoding, &text[at..]) {
            Ok(escape) => at += escape.length,
            Err(how) => return Some((at, how)),
        }
    }
    None
}

// Appends part of a text. Between adjacent escapes it is empty.
#[inline(always)]
fn push_part(text: &mut String, part: &str) -> Result<(), AllocError>
    ensures { OnOk result (string_bytes text.new ≡ string_bytes text.old ++ part.now) }
{
    if part.is_empty() {
        return Ok(());
    }
    text.push_str(part)
}

// The index of the first backslash. Between adjacent escapes no search is needed.
#[inline]
fn find_next(text: &[u8]) -> Option<usize>
    ensures { IsFirstByte (is_byte backslash) text.now result }
{
    match text {
        [b'\\', ..] => Some(0),
        _ => find_backslash(text),
    }
}

// The index of the first backslash. In a short text, found without a call.
#[inline(always)]
fn find_backslash(text: &[u8]) -> Option<usize>
    ensures { IsFirstByte (is_byte backslash) text.now result }
{
    match text.len() {
        0..=SHORT => find::<Byte<b'\\'>>(text),
        _ => memchr(b'\\', text),
    }
}

/// Returns the number of backslashes at the end of a text.
pub fn count_ending_backslashes(s: &str) -> usize
    ensures { result ≡ ending_backslashes (chars s.now) }
{
    let bytes = s.as_bytes();
    let mut start = bytes.len();
    while start > 0 && bytes[start - 1] == b'\\' {
        start -= 1;
    }
    bytes.len() - start
}
