//! Finds the parts of a logical line.

ghost use Rattle.std.specs.Prelude.{◌≡◌, ◌+◌, ◌<◌, ◌≤◌, ◌⊎◌, get_or, Some, true, false, length, take, drop, slice_index};
ghost use Rattle.std.specs.List.{All};
ghost use Rattle.std.specs.Str.{IsUtf8, chars};
ghost use Rattle.properties_format.specs.Text.{is_blank, is_blanks, without_leading_blanks};
ghost use Rattle.properties_format.specs.Split.{IsSplit};
ghost use Rattle.properties_format.specs.Computed.Split.{without_trailing_blanks, trimmed, ends_key, cut_key, past_separator};
ghost use Rattle.properties_text.specs.Parsing.{stays_in_key, may_end, bytes_in, spanned, in_characters, IsSpan, AreSpans, AreInPlace, AreFoundInText};

use crate::characters::{is_blank, is_comment_sign, is_separator};
use crate::classes::{Blanks, Specials};
use byte_blocks::{Controls, Either, Except, find_in_block};

/// The position of a part of a line, in bytes from the start of the line.
#[derive(Clone, Copy, Debug)]
pub struct Span {
    /// The index of its first byte.
    pub start: usize,
    /// The index after its last byte.
    pub end: usize,
}

/// The positions of a line's parts.
#[derive(Clone, Copy)]
pub enum ParsedSpans {
    /// The text after the comment sign, without the blanks around it.
    Comment(Span),
    /// The key, and the value with any blanks at its end.
    KVPair(Span, Span),
}

/// Returns the positions of a line's parts, or `None` if the line is all blanks.
///
/// CR and LF have no special meaning here.
#[inline(always)]
pub fn parse_spans(line: &str) -> Option<ParsedSpans>
    ensures slices { IsSplit line.now (spanned line.now result) }
    ensures meets { IsSplit (chars line.now) (in_characters (spanned line.now result)) }
    ensures spans { AreSpans line.now result }
    ensures places { AreInPlace line.now result }
{
    parse_bytes(line.as_bytes())
}

/// Returns the positions of the parts of a line of bytes, or `None` if it is all blanks.
///
/// Any encoding will do that has each ASCII character as one byte and no such byte elsewhere.
#[inline(always)]
pub fn parse_bytes(line: &[u8]) -> Option<ParsedSpans>
    ensures slices { IsSplit line.now (spanned line.now result) }
    ensures places { AreInPlace line.now result }
    ensures text { IsUtf8 line.now → AreFoundInText line.now result }
{
    let start = past_blanks(line, 0);
    let first = *line.get(start)?;
    if is_comment_sign(char::from(first)) {
        return Some(ParsedSpans::Comment(trimmed_span(line, start + 1)));
    }
    let key_end = start + key_length(&line[start..]);
    let value_start = value_start(line, key_end);
    let key = Span {
        start,
        end: key_end,
    };
    let value = Span {
        start: value_start,
        end: line.len(),
    };
    Some(ParsedSpans::KVPair(key, value))
}

// The position of the bytes from `from` on, without the blanks around them.
fn trimmed_span(line: &[u8], from: usize) -> Span
    requires { from ≤ length line.now }
    ensures ordered { result.start ≤ result.end }
    ensures within { result.end ≤ length line.now }
    ensures start { drop result.start line.now ≡ without_leading_blanks (drop from line.now) }
    ensures text { bytes_in line.now result ≡ trimmed (drop from line.now) }
{
    let start = past_blanks(line, from);
    let end = start + length_without_trailing_blanks(&line[start..]);
    Span { start, end }
}

impl Span {
    /// Returns the part of the line at this position. The line must be the one in which the span was found.
    pub fn cut(self, line: &str) -> &str
        requires { IsSpan line.now self }
        ensures { result.now ≡ bytes_in line.now self }
    {
        &line[self.start..self.end]
    }
}

/// Returns the number of blanks at the front of the text.
pub fn leading_blanks(text: &[u8]) -> usize
    ensures within { result ≤ length text.now }
    ensures rest { drop result text.now ≡ without_leading_blanks text.now }
{
    past_blanks(text, 0)
}

/// Returns whether a text is blanks and nothing else.
pub fn are_blanks(text: &str) -> bool
    ensures { result ≡ is_blanks (chars text.now) }
{
    leading_blanks(text.as_bytes()) == text.len()
}

// The index of the first byte from `from` on that isn't a blank. Usually there are no blanks or one, which takes no
// call.
#[inline(always)]
fn past_blanks(text: &[u8], from: usize) -> usize
    requires { from ≤ length text.now }
    ensures after { from ≤ result }
    ensures within { result ≤ length text.now }
    ensures rest { drop result text.now ≡ without_leading_blanks (drop from text.now) }
{
    if !is_blank_at(text, from) {
        return from;
    }
    if !is_blank_at(text, from + 1) {
        return from + 1;
    }
    from + 2 + count_blanks(&text[from + 2..])
}

// Skips blanks one by one.
#[inline(always)]
fn past_few_blanks(text: &[u8], from: usize) -> usize
    requires { from ≤ length text.now }
    ensures after { from ≤ result }
    ensures within { result ≤ length text.now }
    ensures rest { drop result text.now ≡ without_leading_blanks (drop from text.now) }
{
    let mut at = from;
    while is_blank_at(text, at) {
        at += 1;
    }
    at
}

// The number of blanks at the front of the text, counted in blocks of sixteen.
#[inline(never)]
fn count_blanks(text: &[u8]) -> usize
    ensures within { result ≤ length text.now }
    ensures rest { drop result text.now ≡ without_leading_blanks text.now }
{
    let mut at = 0;
    while text.len() - at >= 16 {
        if let Some(first) = find_in_block::<Except<Blanks>>(text, at) {
            return at + first;
        }
        at += 16;
    }
    past_few_blanks(text, at)
}

// Whether the byte at this index is a blank.
#[inline(always)]
fn is_blank_at(text: &[u8], at: usize) -> bool
    ensures { result ≡ is_blank (slice_index text.now at) }
{
    at < text.len() && is_blank(char::from(text[at]))
}

// The length of the text without the blanks at its end.
#[tactic(auto, using(crate::proofs::Scanning::trailing_more, crate::proofs::Scanning::trailing_stop))]
fn length_without_trailing_blanks(text: &[u8]) -> usize
    ensures within { result ≤ length text.now }
    ensures front { take result text.now ≡ without_trailing_blanks text.now }
{
    let mut end = text.len();
    while end > 0 && is_blank(char::from(text[end - 1])) {
        end -= 1;
    }
    end
}

// The length of the key at the front of the text. It ends at a blank or a separator that isn't escaped by a backslash.
fn key_length(text: &[u8]) -> usize
    ensures within { result ≤ length text.now }
    ensures key { (cut_key text.now false).key ≡ take result text.now }
    ensures rest { (cut_key text.now false).rest ≡ drop result text.now }
{
    let mut at = key_front(text);
    while at < text.len() {
        let byte = text[at];
        if ends_key(byte) {
            return at;
        }
        at += if byte == b'\\' { 2 } else { 1 };
    }
    text.len()
}

// A number of bytes at the front that neither end the key nor are backslashes: those before the first special byte or
// control character, unless it is among the last fifteen bytes.
fn key_front(text: &[u8]) -> usize
    ensures within { result ≤ length text.now }
    ensures plain { All (λ c. stays_in_key c ≡ true) (take result text.now) }
    ensures far { length text.now < result + 16 ⊎ (may_end (get_or text.now result 0) ≡ true) }
{
    let mut at = 0;
    while text.len() - at >= 16 {
        if let Some(first) = find_in_block::<Either<Controls, Specials>>(text, at) {
            return at + first;
        }
        at += 16;
    }
    at
}

// The index at which the value starts, given where the key ends.
#[inline(always)]
fn value_start(line: &[u8], key_end: usize) -> usize
    requires { key_end ≤ length line.now }
    ensures after { key_end ≤ result }
    ensures within { result ≤ length line.now }
    ensures rest { drop result line.now ≡ past_separator (without_leading_blanks (drop key_end line.now)) }
{
    let start = past_blanks(line, key_end);
    match line.get(start) {
        Some(byte) if is_separator(char::from(*byte)) => past_blanks(line, start + 1),
        _ => start,
    }
}

fn ends_key(byte: u8) -> bool
    ensures { result ≡ ends_key byte }
{
    is_blank(char::from(byte)) || is_separator(char::from(byte))
}
