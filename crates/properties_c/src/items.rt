// The items of a source, packed: what its logical lines give.

ghost use Rattle.std.specs.Prelude.{◌≡◌, ℕ, List, false, IfOk, Some};
ghost use Rattle.std.specs.Str.{chars};
ghost use Rattle.properties_text.specs.Encoding.{encoding_of};
ghost use Rattle.properties_text.specs.Escaping.{holds_backslash};
ghost use Rattle.properties_text.specs.Parsing.{AreSpans, in_characters, spanned};
ghost use Rattle.properties_items.specs.BorrowedItems.{borrowed_content};
ghost use Rattle.properties_c.specs.Items.{asked_texts};
ghost use Rattle.properties_c.specs.Packed.{record_in};
ghost use Rattle.properties_c.specs.Private.Results.{HasItems, PushesLine, PushesRead, content_record, kind_of_content, standing_record};

use crate::asked::{Asked, Texts, are_passed_over, are_read};
use crate::records::{Record, push_record};
use crate::status::{Status, status_of};
use java_properties::{ContentRef, Encoding, PropertiesError};
use properties_items::found::{cut_item, find_item};
use properties_lines::joiner::LineJoiner;
use properties_text::parse::{ParsedSpans, parse_spans};
use std::alloc::{AllocError, Global};

/// The kind of a comment.
pub const COMMENT: usize = 0;

/// The kind of a pair.
pub const PAIR: usize = 1;

/// The items of a source, packed, with the status and the line of the end of the source, or of its first malformed
/// escape.
#[derive(Drop)]
pub struct PackedItems {
    pub bytes: Vec<u8>,
    pub status: Status,
    pub line: usize,
}

/// Returns the items of a source, packed. Fails only if memory runs out.
pub fn items_in(
    alloc: Global,
    source: &[u8],
    encoding: Encoding,
    asked: Asked,
) -> Result<PackedItems, AllocError>
    ensures { IfOk result (λ items. HasItems asked (encoding_of encoding) source.now items) }
{
    let mut input = source;
    let mut lines = LineJoiner::new(alloc, encoding);
    let mut bytes = Vec::new(alloc);
    while let Some(number) = lines.next_text(&mut input) {
        let is_escaped = lines.has_backslash();
        let line = lines.line();
        match push_line(alloc, &mut bytes, asked, number, line, is_escaped) {
            Ok(()) => {}
            Err(error) => match status_of(error.kind()) {
                Status::NoMemory => return Err(AllocError),
                status => {
                    return Ok(PackedItems {
                        bytes,
                        status,
                        line: number,
                    });
                }
            },
        }
    }
    match lines.finish() {
        Ok(()) => Ok(PackedItems {
            bytes,
            status: Status::Done,
            line: 0,
        }),
        Err(_) => Err(AllocError),
    }
}

// Appends what a logical line gives. Fails if an escape that is read is malformed, or if memory runs out.
#[inline(always)]
fn push_line(
    alloc: Global,
    bytes: &mut Vec<u8>,
    asked: Asked,
    number: usize,
    line: &str,
    is_escaped: bool,
) -> Result<(), PropertiesError>
    requires { is_escaped ≡ false → holds_backslash (chars line.now) ≡ false }
    ensures { PushesLine asked number (chars line.now) bytes.old.items result bytes.new.items }
{
    let Some(spans) = parse_spans(line) else {
        return Ok(());
    };
    let texts = texts_for(asked, spans);
    if are_passed_over(texts) {
        return Ok(());
    }
    if is_escaped && are_read(texts) {
        return push_read(alloc, bytes, number, line);
    }
    push_record(bytes, line_record(number, line, spans))?;
    Ok(())
}

// Returns how the texts of a line with these parts are given.
#[inline(always)]
fn texts_for(asked: Asked, spans: ParsedSpans) -> Texts
    ensures { (line : List ℕ) → asked_texts asked (in_characters (spanned line (Some spans))) ≡ result }
{
    match spans {
        ParsedSpans::Comment(_) => asked.comments,
        ParsedSpans::KVPair(_, _) => asked.pairs,
    }
}

// Appends the item of a logical line with its escapes resolved.
fn push_read(
    alloc: Global,
    bytes: &mut Vec<u8>,
    number: usize,
    line: &str,
) -> Result<(), PropertiesError>
    ensures { PushesRead number (chars line.now) bytes.old.items result bytes.new.items }
{
    let Some(found) = find_item(alloc, number, line)? else {
        return Ok(());
    };
    let item = cut_item(found, line);
    let content = item.content();
    push_record(bytes, item_record(item_kind(content), number, content))?;
    Ok(())
}

// Returns the record of a line with its texts as they stand.
#[inline(always)]
fn line_record(number: usize, line: &str, spans: ParsedSpans) -> Record<'_>
    requires { AreSpans line.now (Some spans) }
    ensures { record_in result ≡ standing_record number (in_characters (spanned line.now (Some spans))) }
{
    match spans {
        ParsedSpans::Comment(text) => Record {
            kind: COMMENT,
            line: number,
            key: b"".as_slice(),
            value: text.cut(line).as_bytes(),
        },
        ParsedSpans::KVPair(key, value) => Record {
            kind: PAIR,
            line: number,
            key: key.cut(line).as_bytes(),
            value: value.cut(line).as_bytes(),
        },
    }
}

fn item_kind(content: &ContentRef<'_>) -> usize
    ensures { result ≡ kind_of_content (borrowed_content content.now) }
{
    match content {
        ContentRef::Comment(_) => COMMENT,
        ContentRef::KVPair(_, _) => PAIR,
    }
}

/// Returns the record of an item, of this kind.
pub fn item_record<'a>(kind: usize, number: usize, content: &'a ContentRef<'_>) -> Record<'a>
    ensures { record_in result ≡ content_record kind number (borrowed_content content.now) }
{
    match content {
        ContentRef::Comment(text) => Record {
            kind,
            line: number,
            key: b"".as_slice(),
            value: text.as_str().as_bytes(),
        },
        ContentRef::KVPair(key, value) => Record {
            kind,
            line: number,
            key: key.as_str().as_bytes(),
            value: value.as_str().as_bytes(),
        },
    }
}
