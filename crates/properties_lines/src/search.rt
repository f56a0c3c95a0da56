// Searches for line endings among undecoded bytes.

ghost use Rattle.std.specs.Prelude.{◌≡◌, ◌≤◌, length, take};
ghost use Rattle.properties_format.specs.Lines.{HoldsNoLineEnding};
ghost use Rattle.properties_text.specs.Encoding.{encoding_of};
ghost use Rattle.properties_lines.specs.LineSearch.{unit_size, whole_units, IsSearched, IsLineEndingUnit};
ghost use Rattle.properties_lines.specs.LineSearch.{FindsLineEnding, FindsLineEndingByte};
ghost use Rattle.properties_lines.specs.Private.PlainEnds.{is_plain_end};
ghost use Rattle.properties_lines.specs.Scanner.{FindsByte, IsBefore};

use byte_blocks::{ByteClass, LineEndings, Marks, NonAscii, find, table_marks};
use memchr::memchr2;
use properties_text::encoding::Encoding;
use std::simd::prelude::*;

/// The position of a line ending among undecoded bytes.
#[derive(Clone, Copy, Debug, PartialEq, Eq)]
pub struct FoundEnding {
    /// The position of its first byte.
    pub at: usize,
    /// Whether it is a CR. An LF after it may belong to the same line ending.
    pub is_cr: bool,
}

// The result of a search among blocks of bytes.
#[derive(Clone, Copy)]
pub(crate) enum BlockSearch {
    // This many bytes come before the byte that was sought. `is_ascii` says whether they are ASCII.
    Found { size: usize, is_ascii: bool },
    // It isn't among this many bytes at the front.
    Searched(usize),
}

/// Returns the number of bytes in a unit.
pub fn unit_size(encoding: Encoding) -> usize
    ensures { result ≡ unit_size (encoding_of encoding) }
{
    match encoding {
        Encoding::WINDOWS_1252 | Encoding::UTF_8 => 1,
        Encoding::UTF_16LE | Encoding::UTF_16BE => 2,
    }
}

// Returns how many of `length` bytes form whole units.
//
// If a search found no line ending among them, the next search, over these bytes and more, continues there.
pub(crate) fn whole_units(encoding: Encoding, length: usize) -> usize
    ensures { result ≡ whole_units (encoding_of encoding) length }
{
    length - length % unit_size(encoding)
}

// Finds the first CR or LF among the units of the bytes. The bytes before `from` are whole units that contain none.
#[inline(always)]
pub(crate) fn find_line_ending(encoding: Encoding, bytes: &[u8], from: usize) -> Option<FoundEnding>
    requires { IsSearched (encoding_of encoding) bytes.now from }
    ensures { FindsLineEnding (encoding_of encoding) bytes.now result }
{
    match encoding {
        Encoding::WINDOWS_1252 | Encoding::UTF_8 => find_in_bytes(bytes, from),
        Encoding::UTF_16LE | Encoding::UTF_16BE => find_in_units(encoding, bytes, from),
    }
}

// Finds the first CR or LF, where units are one byte long.
#[inline(always)]
fn find_in_bytes(bytes: &[u8], from: usize) -> Option<FoundEnding>
    requires within { from ≤ length bytes.now }
    requires none_before { HoldsNoLineEnding (take from bytes.now) }
    ensures { FindsLineEndingByte bytes.now result }
{
    let offset = memchr2(b'\n', b'\r', &bytes[from..])?;
    let at = from + offset;
    let is_cr = bytes[at] == b'\r';
    Some(FoundEnding { at, is_cr })
}

// Finds the first CR or LF, where units are two bytes long. The byte of a CR or LF counts only in a unit whose other
// byte is zero.
#[inline(never)]
fn find_in_units(encoding: Encoding, bytes: &[u8], from: usize) -> Option<FoundEnding>
    requires size { unit_size (encoding_of encoding) ≡ 2 }
    requires searched { IsSearched (encoding_of encoding) bytes.now from }
    ensures { FindsLineEnding (encoding_of encoding) bytes.now result }
{
    let mut searched = from;
    'hits: while let Some(first) = find::<LineEndings>(&bytes[searched..]) {
        let hit = searched + first;
        let at = hit - hit % 2;
        if bytes.len() - at < 2 {
            return None;
        }
        if let Some(is_cr) = line_ending_unit(encoding, bytes[at], bytes[at + 1]) {
            return Some(FoundEnding { at, is_cr });
        }
        searched = at + 2;
    }
    None
}

// Returns whether a two-byte unit is a CR, or `None` if it isn't a line ending.
fn line_ending_unit(encoding: Encoding, first: u8, second: u8) -> Option<bool>
    requires { unit_size (encoding_of encoding) ≡ 2 }
    ensures { IsLineEndingUnit (encoding_of encoding) first second result }
{
    match (encoding, first, second) {
        (Encoding::UTF_16LE, b'\n', 0) | (Encoding::UTF_16BE, 0, b'\n') => Some(false),
        (Encoding::UTF_16LE, b'\r', 0) | (Encoding::UTF_16BE, 0, b'\r') => Some(true),
        _ => None,
    }
}

// CR, LF and the backslash.
pub(crate) struct PlainEnds;

static PLAIN_ENDS: [u8; 16] = [1, 0, 0, 0, 0, 0, 0, 0, 0, 0, b'\n', 0, b'\\', b'\r', 0, 0];

impl ByteClass for PlainEnds {
    ghost holds = { is_plain_end };

    #[inline(always)]
    fn marks(block: u8x16) -> Marks {
        table_marks(block, PLAIN_ENDS)
    }

    #[inline(always)]
    fn contains(byte: u8) -> bool {
        matches!(byte, b'\n' | b'\r' | b'\\')
    }
}

// Finds the first byte of the class, sixteen bytes at a time, until fewer than sixteen are left.
#[inline(always)]
pub(crate) fn search_blocks<C: ByteClass>(
    bytes: &[u8],
    from: usize,
    is_ascii_before: bool,
) -> BlockSearch
    requires { IsBefore C.holds bytes.now from is_ascii_before }
    ensures { FindsByte C.holds bytes.now result }
{
    let mut at = from;
    let mut is_ascii = is_ascii_before;
    while bytes.len() - at >= 16 {
        let v = u8x16::from_slice(&bytes[at..]);
        let past = NonAscii::marks(v);
        if let Some(first) = C::marks(v).first() {
            let is_ascii = is_ascii && past.is_clear_before(first);
            return BlockSearch::Found {
                size: at + first,
                is_ascii,
            };
        }
        is_ascii = is_ascii && past.is_clear();
        at += 16;
    }
    BlockSearch::Searched(at)
}
