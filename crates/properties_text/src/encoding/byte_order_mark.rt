//! The byte order mark at the front of an input.

ghost use Rattle.std.specs.Prelude.{◌≡◌};
ghost use Rattle.properties_format.specs.Encoding.{begins_like_bom};
ghost use Rattle.properties_text.specs.Encoding.{FindsByteOrderMark, IsBody, encoding_of};

use super::Encoding;

/// What the bytes at the front of an input say about a byte order mark.
#[derive(Clone, Copy, Debug, PartialEq, Eq)]
pub enum ByteOrderMark {
    /// There is one. It has this encoding and this length in bytes.
    Present(Encoding, usize),
    /// There is none.
    Absent,
    /// More bytes are needed to decide. If the input ends here, there is none.
    Undecided,
}

/// Looks for a byte order mark at the front of the bytes.
pub fn byte_order_mark(bytes: &[u8]) -> ByteOrderMark
    ensures { FindsByteOrderMark bytes.now result }
{
    match bytes {
        [0xef, 0xbb, 0xbf, ..] => ByteOrderMark::Present(Encoding::UTF_8, 3),
        [0xfe, 0xff, ..] => ByteOrderMark::Present(Encoding::UTF_16BE, 2),
        [0xff, 0xfe, ..] => ByteOrderMark::Present(Encoding::UTF_16LE, 2),
        [] | [0xef] | [0xef, 0xbb] | [0xfe] | [0xff] => ByteOrderMark::Undecided,
        _ => ByteOrderMark::Absent,
    }
}

/// Returns the encoding in force and the position where the body starts: a byte order mark selects both. Without one,
/// the requested encoding applies to all bytes.
pub fn encoding_in_force(bytes: &[u8], requested: Encoding) -> (Encoding, usize)
    ensures { IsBody (encoding_of requested) bytes.now (encoding_of result.0) result.1 }
{
    match byte_order_mark(bytes) {
        ByteOrderMark::Present(encoding, start) => (encoding, start),
        ByteOrderMark::Absent | ByteOrderMark::Undecided => (requested, 0),
    }
}

/// Returns whether the bytes begin like a byte order mark.
#[inline(never)]
pub fn begins_like_byte_order_mark(bytes: &[u8]) -> bool
    ensures { result ≡ begins_like_bom bytes.now }
{
    matches!(byte_order_mark(bytes), ByteOrderMark::Present(_, _))
}
