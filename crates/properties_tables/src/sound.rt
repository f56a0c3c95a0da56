// Refuses a source for its bytes, or for a malformed escape in a pair.

ghost use Rattle.std.specs.Prelude.{◌≡◌};
ghost use Rattle.properties_text.specs.Encoding.{encoding_of};
ghost use Rattle.properties_tables.specs.Sources.{is_in_utf_16, first_in_pair, RefusesBytes, RefusesUnsound};

use crate::error::Failure;
use crate::ill_formed::{Flaw, first_flawed_line, has_byte_order_mark, has_utf_32_mark};
use java_properties::{Encoding, MalformedEscape, malformed_escapes};
use properties_text::encoding::byte_order_mark::encoding_in_force;
use std::alloc::Global;

/// Refuses a source for its bytes, or else one that has a malformed escape in a pair. The failure has the first of
/// them.
pub fn refuse_unsound(alloc: Global, source: &[u8], encoding: Encoding) -> Result<(), Failure>
    ensures { RefusesUnsound (encoding_of encoding) source.now result }
{
    refuse_bytes(source, encoding)?;
    let escapes = malformed_escapes(alloc, source, encoding)?;
    match first_in_pair(&escapes) {
        Some(escape) => Err(Failure::Malformed(escape)),
        None => Ok(()),
    }
}

/// Returns the first escape that isn't in a comment.
pub fn first_in_pair(escapes: &[MalformedEscape]) -> Option<MalformedEscape>
    ensures { result ≡ first_in_pair escapes.now }
{
    for escape in escapes {
        if !escape.in_comment {
            return Some(*escape);
        }
    }
    None
}

/// Refuses a source for its bytes: it begins with the byte order mark of UTF-32; or else UTF-8 is in force without a
/// byte order mark, and it has U+0000; or else a line is ill-formed in the encoding in force. The failure has the first
/// such line. A source with U+0000 may be in UTF-16. That comes before the last, since it is often not UTF-8 either, and
/// no other encoding reads it right.
pub fn refuse_bytes(source: &[u8], encoding: Encoding) -> Result<(), Failure>
    ensures { RefusesBytes (encoding_of encoding) source.now result }
{
    if has_utf_32_mark(source) {
        return Err(Failure::Utf32Mark);
    }
    if let Some(number) = first_flawed_line(source, encoding, Flaw::Zero) {
        return Err(Failure::HoldsZero(number));
    }
    let Some(number) = first_flawed_line(source, encoding, Flaw::IllFormed) else {
        return Ok(());
    };
    if in_utf_16(source, encoding) {
        return Err(Failure::NotUtf16(number));
    }
    if has_byte_order_mark(source) {
        return Err(Failure::NotUtf8ByMark(number));
    }
    Err(Failure::NotUtf8(number))
}

/// Returns whether UTF-16 is in force.
pub fn in_utf_16(source: &[u8], encoding: Encoding) -> bool
    ensures { result ≡ is_in_utf_16 (encoding_of encoding) source.now }
{
    let (in_force, _) = encoding_in_force(source, encoding);
    match in_force {
        Encoding::UTF_16LE | Encoding::UTF_16BE => true,
        _ => false,
    }
}
