//! Converting a source: to another encoding, or to readable or escaped characters.

ghost use Rattle.std.specs.Prelude.{◌≡◌, ◌<◌, IfOk, true, length};
ghost use Rattle.properties_format.specs.Converting.{IsConverted, first_escaped};
ghost use Rattle.properties_format.specs.Printing.{encoded_text};
ghost use Rattle.properties_text.specs.Encoding.{encoding_of};
ghost use Rattle.properties_text.specs.Escaping.{IsWell, text_in};
ghost use Rattle.properties_text.specs.Printing.{in_format};
ghost use Rattle.properties_text.specs.Converted.{is_readable, body_bytes, line_encoding_of};

use crate::encoding::byte_order_mark::{begins_like_byte_order_mark, encoding_in_force};
use crate::encoding::{Encoding, LineEncoding, TextBuffer, as_text};
use crate::line_buffer::LineBuffer;
use crate::print::{Repertoire, convert_text, print_escape};
use std::alloc::{AllocError, Global};

/// How a conversion spells a non-ASCII character that the result can have as itself.
#[derive(Clone, Copy, Debug, PartialEq, Eq)]
pub enum Spelling {
    /// As the source spells it: as itself, or as an escape.
    Kept,
    /// As itself.
    Readable,
}

/// Converts a source to the characters of a repertoire, and keeps all else: comments, blank lines, layout, line endings,
/// and what each key, value and comment means.
///
/// A character outside the repertoire becomes a `\u` escape. Other characters and escapes stay as they are written; if
/// the result is to be readable, non-ASCII characters that the repertoire has are written as themselves. A byte order
/// mark is dropped. Fails if memory runs out.
pub fn convert(
    alloc: Global,
    source: &[u8],
    encoding: Encoding,
    repertoire: Repertoire,
    spelling: Spelling,
) -> Result<Vec<u8>, AllocError>
    ensures { IfOk result (λ bytes. IsConverted (encoding_of encoding) (in_format repertoire) (is_readable spelling) source.now bytes.items) }
{
    let (in_force, start) = encoding_in_force(source, encoding);
    let readable = is_readable(spelling);
    let line = convert_body(alloc, in_force, repertoire, readable, &source[start..])?;
    if begins_like_byte_order_mark(line.as_slice()) {
        return escape_first(alloc, repertoire, line.as_slice());
    }
    Ok(line.into_bytes())
}

fn is_readable(spelling: Spelling) -> bool
    ensures { result ≡ is_readable spelling }
{
    match spelling {
        Spelling::Kept => false,
        Spelling::Readable => true,
    }
}

// Converts a body in this encoding.
fn convert_body(
    alloc: Global,
    encoding: Encoding,
    repertoire: Repertoire,
    readable: bool,
    body: &[u8],
) -> Result<LineBuffer, AllocError>
    ensures { IfOk result (λ line. line ≡ body_bytes repertoire readable encoding body.now) }
{
    // UTF-8 has every character.
    let kept = !readable && matches!(repertoire, Repertoire::Utf8);
    if let (Encoding::WINDOWS_1252, false) = (encoding, kept) {
        return convert_text(alloc, repertoire, readable, LineEncoding::Windows1252, body);
    }
    if let Some(text) = as_text(encoding, body) {
        return convert_text(
            alloc,
            repertoire,
            readable,
            LineEncoding::Utf8,
            text.as_bytes(),
        );
    }
    let mut text = TextBuffer::new(alloc);
    text.push_decoded(encoding, body)?;
    if kept {
        return Ok(text.into_line());
    }
    convert_text(
        alloc,
        repertoire,
        readable,
        LineEncoding::Utf8,
        text.as_line().as_slice(),
    )
}

// Escapes the first character of some bytes.
#[inline(never)]
#[tactic(auto, using(crate::proofs::Converted::front_bytes))]
fn escape_first(alloc: Global, repertoire: Repertoire, bytes: &[u8]) -> Result<Vec<u8>, AllocError>
    requires some { 0 < length bytes.now }
    requires well { IsWell (line_encoding_of repertoire) bytes.now }
    ensures { IfOk result (λ escaped. escaped.items ≡ encoded_text (in_format repertoire).encoding (first_escaped (text_in (line_encoding_of repertoire) bytes.now))) }
{
    let first = line_in(repertoire).first_character(bytes);
    let mut escaped = LineBuffer::new(alloc);
    print_escape(&mut escaped, first.character)?;
    escaped.extend(&bytes[first.length..])?;
    Ok(escaped.into_bytes())
}

// The encoding of a result.
fn line_in(repertoire: Repertoire) -> LineEncoding
    ensures { result ≡ line_encoding_of repertoire }
{
    match repertoire {
        Repertoire::Windows1252 | Repertoire::Latin1 => LineEncoding::Windows1252,
        Repertoire::Utf8 | Repertoire::Ascii => LineEncoding::Utf8,
    }
}
