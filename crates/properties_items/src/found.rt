// Items that are found but not yet borrowed. A found item borrows nothing, so reading can continue while it is held.

ghost use Rattle.std.specs.Prelude.{◌≡◌, encode_utf8_all, length, Some, None, false, not, IfOk, Ok};
ghost use Rattle.std.specs.Option.{is_some, option_map};
ghost use Rattle.std.specs.Str.{chars};
ghost use Rattle.std.specs.Cow.{cow_str_bytes};
ghost use Rattle.properties_text.specs.Parsing.{AreSpans, IsSpan, in_characters, spanned};
ghost use Rattle.properties_format.specs.Items.{given};
ghost use Rattle.properties_format.specs.Computed.Body.{outcome_key};
ghost use Rattle.properties_items.specs.Line.{entry_of};
ghost use Rattle.properties_items.specs.Texts.{characters};
ghost use Rattle.properties_items.specs.BorrowedItems.{text_characters, outcome_pair, FindsItem, FindsText, FindsContent, FindsIn, borrowed_entry, borrowed_content, is_borrowed, BorrowsPlain, found_bytes, found_content, found_entry, AreTextsIn, spans_of, IsFoundIn, IsFoundText, TellsKeySize};
ghost use Rattle.properties_format.specs.Split.{IsSplit};
ghost use Rattle.properties_text.specs.Escaping.{holds_backslash};

use crate::borrowed::{ContentRef, LineRef};
use crate::error::{PropertiesError, make};
use crate::line::{Line, LineContent};
use properties_text::escape::{UnescapeError, has_backslash, unescape};
use properties_text::parse::{ParsedSpans, Span, parse_spans};
use std::alloc::{AllocError, Global};
use std::borrow::CowStr;

/// An item that was found in the logical line that an iterator keeps, to be passed to `get`.
///
/// It borrows nothing. It holds the positions of the texts in the line that the iterator keeps, and the texts whose
/// escapes had to be resolved.
#[derive(Debug, Drop)]
pub struct Found {
    line_number: usize,
    content: FoundContent,
}

#[derive(Debug, Drop)]
enum FoundContent {
    Comment(FoundText),
    KVPair(FoundText, FoundText),
}

#[derive(Debug, Drop)]
struct FoundText {
    span: Span,
    // The text with its escapes resolved, if its slice of the line contains a backslash.
    resolved: Option<String>,
}

/// Finds the item of a logical line that begins in the line with this number. Returns `None` if the logical line is
/// blank. Fails if one of its escapes is malformed, or if memory runs out.
#[tactic(auto, using(crate::proofs::BorrowedItems::plain_texts))]
#[inline(always)]
pub fn find_item(
    alloc: Global,
    line_number: usize,
    line: &str,
) -> Result<Option<Found>, PropertiesError>
    ensures { FindsItem line.now line_number result }
{
    if !has_backslash(line.as_bytes()) {
        return Ok(find_plain(line_number, line));
    }
    match find_escaped(alloc, line_number, line) {
        Ok(found) => Ok(found),
        Err(error) => Err(make::unresolved(line_number, error)),
    }
}

/// Finds the item of a logical line that begins in the line with this number. Returns `None` if the logical line is
/// blank, and an error if its escapes can't be resolved.
#[tactic(auto, using(crate::proofs::FoundItems::blank_items))]
pub fn find_escaped(
    alloc: Global,
    line_number: usize,
    line: &str,
) -> Result<Option<Found>, UnescapeError>
    ensures { FindsIn line.now line_number result }
{
    let Some(spans) = parse_spans(line) else {
        return Ok(None);
    };
    let content = find_content(alloc, line, spans)?;
    Ok(Some(Found {
        line_number,
        content,
    }))
}

/// Finds the item of a logical line without a backslash that begins in the line with this number. Returns `None` if the
/// logical line is blank. Allocates nothing.
#[tactic(auto, using(crate::proofs::FoundItems::blank_items))]
#[inline(always)]
pub fn find_plain(line_number: usize, line: &str) -> Option<Found>
    requires { holds_backslash (chars line.now) ≡ false }
    ensures { FindsIn line.now line_number (Ok result) }
{
    if line.is_empty() {
        return None;
    }
    let Some(spans) = parse_spans(line) else {
        return None;
    };
    let content = match spans {
        ParsedSpans::Comment(text) => FoundContent::Comment(FoundText::verbatim(text)),
        ParsedSpans::KVPair(key, value) => {
            FoundContent::KVPair(FoundText::verbatim(key), FoundText::verbatim(value))
        }
    };
    Some(Found {
        line_number,
        content,
    })
}

fn find_content(
    alloc: Global,
    line: &str,
    spans: ParsedSpans,
) -> Result<FoundContent, UnescapeError>
    requires spans { AreSpans line.now (Some spans) }
    requires slices { IsSplit (chars line.now) (in_characters (spanned line.now (Some spans))) }
    ensures { FindsContent line.now spans result }
{
    match spans {
        ParsedSpans::Comment(text) => match find_text(alloc, line, text) {
            Ok(text) => Ok(FoundContent::Comment(text)),
            Err(error) => Err(error),
        },
        ParsedSpans::KVPair(key, value) => {
            let key = match find_text(alloc, line, key) {
                Ok(key) => key,
                Err(error) => return Err(error),
            };
            match find_text(alloc, line, value) {
                Ok(value) => Ok(FoundContent::KVPair(key, value)),
                Err(error) => Err(error),
            }
        }
    }
}

#[tactic(auto, using(crate::proofs::BorrowedItems::plain_texts))]
fn find_text(alloc: Global, line: &str, span: Span) -> Result<FoundText, UnescapeError>
    requires { IsSpan line.now span }
    ensures { FindsText line.now span result }
{
    match unescape(alloc, span.cut(line)) {
        Ok(CowStr::Borrowed(_)) => Ok(FoundText::verbatim(span)),
        Ok(CowStr::Owned(text)) => Ok(FoundText {
            span,
            resolved: Some(text),
        }),
        Err(error) => Err(error),
    }
}

/// Returns the item, with its texts cut out of the line that it was found in.
pub fn cut_item(found: Found, line: &str) -> LineRef<'_>
    requires { IsFoundIn line.now found }
    ensures item { borrowed_entry result ≡ found_entry line.now found }
    ensures borrowed { BorrowsPlain (chars line.now) result.content }
{
    let Found {
        line_number,
        content,
    } = found;
    LineRef::new(line_number, content.cut(line))
}

/// Returns the item with texts of its own.
#[inline(always)]
pub fn own_item(alloc: Global, found: Found, line: &str) -> Result<Line, AllocError>
    requires { IsFoundIn line.now found }
    ensures { IfOk result (λ owned. entry_of owned ≡ found_entry line.now found) }
{
    let Found {
        line_number,
        content,
    } = found;
    let content = match content {
        FoundContent::Comment(text) => LineContent::Comment(text.into_owned(alloc, line)?),
        FoundContent::KVPair(key, value) => {
            let key = key.into_owned(alloc, line)?;
            LineContent::KVPair(key, value.into_owned(alloc, line)?)
        }
    };
    Ok(Line::new(line_number, content))
}

/// Returns the key and the value, or `None` if the item is a comment. Borrows them from the line, or from the found item
/// if an escape was resolved.
#[inline(always)]
pub fn pair_texts<'a>(found: &'a Found, line: &'a str) -> Option<(&'a str, &'a str)>
    requires { IsFoundIn line.now found.now }
    ensures { option_map text_characters result ≡ outcome_pair (given (found_content line.now found.now.content)) }
{
    match &found.content {
        FoundContent::Comment(_) => None,
        FoundContent::KVPair(key, value) => Some((key.text(line), value.text(line))),
    }
}

/// Returns how many bytes the key of a logical line without a backslash has, or `None` if the line isn't a pair.
#[inline(always)]
pub fn plain_key_size(line: &str) -> Option<usize>
    requires { holds_backslash (chars line.now) ≡ false }
    ensures { TellsKeySize (chars line.now) result }
{
    let found = find_plain(0, line)?;
    match &found.content {
        FoundContent::Comment(_) => None,
        FoundContent::KVPair(key, _) => Some(key.size(line)),
    }
}

/// Returns the key, or `None` if the item is a comment.
pub fn item_key(alloc: Global, found: Found, line: &str) -> Result<Option<String>, AllocError>
    requires { IsFoundIn line.now found }
    ensures { IfOk result (λ key. option_map characters key ≡ outcome_key (given (found_content line.now found.content))) }
{
    match found.content {
        FoundContent::Comment(_) => Ok(None),
        FoundContent::KVPair(key, _) => Ok(Some(key.into_owned(alloc, line)?)),
    }
}

impl FoundContent {
    fn cut(self, line: &str) -> ContentRef<'_>
        requires texts { AreTextsIn line.now self }
        requires slices { IsSplit (chars line.now) (in_characters (spanned line.now (Some (spans_of self)))) }
        ensures content { borrowed_content result ≡ found_content line.now self }
        ensures borrowed { BorrowsPlain (chars line.now) result }
    {
        match self {
            FoundContent::Comment(text) => ContentRef::Comment(text.cut(line)),
            FoundContent::KVPair(key, value) => {
                ContentRef::KVPair(key.cut(line), value.cut(line))
            }
        }
    }
}

impl FoundText {
    // A text without escapes.
    fn verbatim(span: Span) -> FoundText
        ensures { result ≡ record { span = span; resolved = None } }
    {
        FoundText {
            span,
            resolved: None,
        }
    }

    // Returns how many bytes the text has.
    #[inline(always)]
    fn size(&self, line: &str) -> usize
        requires { IsFoundText line.now self.now }
        ensures { result ≡ length (encode_utf8_all (chars (found_bytes line.now self.now))) }
    {
        match &self.resolved {
            None => self.span.end - self.span.start,
            Some(text) => text.as_str().len(),
        }
    }

    // Returns the text.
    #[inline(always)]
    fn text<'a>(&'a self, line: &'a str) -> &'a str
        requires { IsFoundText line.now self.now }
        ensures { result.now ≡ found_bytes line.now self.now }
    {
        match &self.resolved {
            None => self.span.cut(line),
            Some(text) => text.as_str(),
        }
    }

    // Returns the text as one of its own. Copies it only if no escape was resolved.
    #[inline(always)]
    fn into_owned(self, alloc: Global, line: &str) -> Result<String, AllocError>
        requires { IsFoundText line.now self }
        ensures { IfOk result (λ text. characters text ≡ chars (found_bytes line.now self)) }
    {
        let FoundText { span, resolved } = self;
        match resolved {
            None => String::from_str(alloc, span.cut(line)),
            Some(text) => Ok(text),
        }
    }

    fn cut(self, line: &str) -> CowStr<'_>
        requires { IsFoundText line.now self }
        ensures text { cow_str_bytes result ≡ found_bytes line.now self }
        ensures borrowed { is_borrowed result ≡ not (is_some self.resolved) }
    {
        let FoundText { span, resolved } = self;
        match resolved {
            None => CowStr::Borrowed(span.cut(line)),
            Some(text) => CowStr::Owned(text),
        }
    }
}
