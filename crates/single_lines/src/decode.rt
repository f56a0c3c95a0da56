//! Decodes the bytes of a line into a text of its own.

ghost use Rattle.std.specs.Prelude.{◌≡◌, ◌↔◌, IfOk};
ghost use Rattle.std.specs.Str.{chars};
ghost use Rattle.std.specs.Cow.{cow_str_bytes};
ghost use Rattle.properties_text.specs.Encoding.{encoding_of, IsText, text_of};
ghost use Rattle.single_lines.specs.Lines.{IsBorrowed};

use properties_text::encoding::{Encoding, TextBuffer, as_text};
use std::alloc::{AllocError, Global};
use std::borrow::CowStr;

/// Returns the text of these bytes, decoded on their own, such as those of one line. It is borrowed if and only if the
/// bytes are that text already, which bytes of UTF-16 never are.
///
/// Bytes that form no character of the encoding become U+FFFD, as many times as the WHATWG Encoding Standard says.
///
/// ```text
/// let text = decode_line(alloc, Encoding::WINDOWS_1252, b"caf\xe9")?; // `café`, owned
/// ```
#[inline]
pub fn decode_line(
    alloc: Global,
    encoding: Encoding,
    bytes: &[u8],
) -> Result<CowStr<'_>, AllocError>
    ensures text { IfOk result (λ text. chars (cow_str_bytes text) ≡ text_of encoding bytes.now) }
    ensures borrowed { IfOk result (λ text. IsBorrowed text ↔ IsText (encoding_of encoding) bytes.now) }
    ensures same { IfOk result (λ text. IsBorrowed text → cow_str_bytes text ≡ bytes.now) }
{
    match as_text(encoding, bytes) {
        Some(text) => Ok(CowStr::Borrowed(text)),
        None => {
            let mut decoded = TextBuffer::new(alloc);
            decoded.push_decoded(encoding, bytes)?;
            let text = String::from_str(alloc, decoded.as_str())?;
            Ok(CowStr::Owned(text))
        }
    }
}
