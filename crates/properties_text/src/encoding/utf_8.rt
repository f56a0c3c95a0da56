// UTF-8: sequences of one to four bytes. The first byte determines the length.

ghost use Rattle.std.specs.Prelude.{ℕ, ◌≡◌, ◌++◌, ◌+◌, ◌*◌, ◌%◌, ◌^◌, ◌<◌, ◌≤◌, ◌∷◌, map, length, take, Some, None, IsSome, IfSome, ◌↔◌, MatchOption};
ghost use Rattle.std.specs.Simd.Lanes.{mask_l};
ghost use Rattle.std.specs.Str.{IsUtf8};
ghost use Rattle.properties_format.specs.Utf8.{well_formed_rows, sequence_character, IsWellFormedText};
ghost use Rattle.properties_format.specs.Computed.Encoding.{is_in, ranges_after, fitting};
ghost use Rattle.properties_format.specs.Encoding.{utf_8};
ghost use Rattle.properties_text.specs.Encoding.{IsFirstPiece, IsLongestText, range_of};
ghost use Rattle.properties_text.specs.Escaping.{IsFirst, length_by_first};
ghost use Rattle.properties_text.specs.Private.Tails.{ones, OwesTails};
ghost use Rattle.properties_text.specs.declared.encoding.line_encoding.LineEncoding.TheVariants.{Utf8};

use super::first_piece::FirstPiece;
use super::line_encoding::ReadCharacter;
use byte_blocks::{ByteClass, Either, NonAscii, Within};
use std::simd::prelude::*;

// A range of bytes, both ends included.
#[derive(Clone, Copy)]
struct ByteRange(u8, u8);

impl ByteRange {
    fn contains(self, byte: u8) -> bool
        ensures { result ≡ is_in (range_of self) byte }
    {
        let ByteRange(least, most) = self;
        least <= byte && byte <= most
    }
}

// Most bytes after the first are in this range.
const TAIL: ByteRange = ByteRange(0x80, 0xbf);

// The ranges for the byte after these first bytes.
const AFTER_E0: ByteRange = ByteRange(0xa0, 0xbf);

const AFTER_ED: ByteRange = ByteRange(0x80, 0x9f);

const AFTER_F0: ByteRange = ByteRange(0x90, 0xbf);

const AFTER_F4: ByteRange = ByteRange(0x80, 0x8f);

// The ranges of the bytes after a first byte, or `None` if it begins no sequence.
fn ranges_after(first: u8) -> Option<&'static [ByteRange]>
    ensures { MatchOption result
        (ranges_after well_formed_rows first ≡ None)
        (λ ranges. ranges_after well_formed_rows first ≡ Some (map range_of ranges.now)) }
{
    match first {
        0x00..=0x7f => Some(&[]),
        0xc2..=0xdf => Some(&[TAIL]),
        0xe0 => Some(&[AFTER_E0, TAIL]),
        0xe1..=0xec | 0xee..=0xef => Some(&[TAIL, TAIL]),
        0xed => Some(&[AFTER_ED, TAIL]),
        0xf0 => Some(&[AFTER_F0, TAIL, TAIL]),
        0xf1..=0xf3 => Some(&[TAIL, TAIL, TAIL]),
        0xf4 => Some(&[AFTER_F4, TAIL, TAIL]),
        _ => None,
    }
}

// How many bytes at the front are in their ranges.
fn fitting_length(ranges: &[ByteRange], bytes: &[u8]) -> usize
    ensures value { result ≡ length (fitting (map range_of ranges.now) bytes.now) }
    ensures within { result ≤ length bytes.now }
{
    let Some((range, ranges)) = ranges.split_first() else {
        return 0;
    };
    let Some((byte, bytes)) = bytes.split_first() else {
        return 0;
    };
    if range.contains(*byte) {
        1 + fitting_length(ranges, bytes)
    } else {
        0
    }
}

// The character of a sequence: the payload bits of its bytes, one after another.
fn sequence_character(first: u8, tail: &[u8]) -> u32
    ensures { result ≡ sequence_character (first ∷ tail.now) }
{
    match tail {
        [] => u32::from(first % 0x80),
        [second] => with_tail(u32::from(first % 0x20), *second),
        [second, third] => with_tail(with_tail(u32::from(first % 0x10), *second), *third),
        [second, third, fourth, ..] => with_tail(
            with_tail(with_tail(u32::from(first % 0x08), *second), *third),
            *fourth,
        ),
    }
}

fn with_tail(bits: u32, tail: u8) -> u32
    requires { bits < 2 ^ 26 }
    ensures { result ≡ bits * 2 ^ 6 + tail % 2 ^ 6 }
{
    bits * 0x40 + u32::from(tail % 0x40)
}

/// Returns the first piece of the bytes `first` and then `rest`.
pub fn first_piece(first: u8, rest: &[u8]) -> FirstPiece
    ensures { IsFirstPiece utf_8 first rest.now result }
{
    let Some(ranges) = ranges_after(first) else {
        return FirstPiece::broken(1, false);
    };
    let fitting = fitting_length(ranges, rest);
    if fitting == ranges.len() {
        FirstPiece::whole(sequence_character(first, &rest[..fitting]), 1 + fitting)
    } else {
        FirstPiece::broken(1 + fitting, fitting == rest.len())
    }
}

/// Returns the bytes as text if all of them are well-formed; otherwise `None`.
#[inline]
pub fn as_text(bytes: &[u8]) -> Option<&str>
    ensures exactly { IsSome result ↔ IsWellFormedText bytes.now }
    ensures same { IfSome result (λ text. text.now ≡ bytes.now) }
{
    if well_formed_length(bytes) < bytes.len() {
        return None;
    }
    // SAFETY: all of the bytes are well-formed.
    Some(unsafe { str::from_utf8_unchecked(bytes) })
}

/// Returns the longest well-formed front, and the bytes after it.
pub fn text_front(bytes: &[u8]) -> (&str, &[u8])
    ensures whole { bytes.now ≡ result.0.now ++ result.1.now }
    ensures text { IsUtf8 result.0.now }
    ensures longest { IsLongestText bytes.now (length result.0.now) }
{
    let (front, after) = bytes.split_at(well_formed_length(bytes));
    // SAFETY: the front is well-formed.
    (unsafe { str::from_utf8_unchecked(front) }, after)
}

/// Returns the length of the longest well-formed front.
pub fn well_formed_length(bytes: &[u8]) -> usize
    ensures { IsLongestText bytes.now result }
{
    let mut at = 0;
    let mut blocks_from = 0;
    loop {
        if at >= blocks_from {
            at += blocks_length(&bytes[at..]);
            // Sequences pass what the blocks end before.
            blocks_from = at + 16;
        }
        let length = sequence_length(&bytes[at..]);
        if length == 0 {
            return at;
        }
        at += length;
    }
}

// The length of the well-formed sequence at the front, or 0 if there is none.
#[inline(always)]
fn sequence_length(bytes: &[u8]) -> usize
    ensures within { result ≤ length bytes.now }
    ensures text { IsUtf8 (take result bytes.now) }
    ensures none { result ≡ 0 → IsLongestText bytes.now 0 }
{
    let Some((first, rest)) = bytes.split_first() else {
        return 0;
    };
    if *first < 0x80 {
        return 1;
    }
    let Some(ranges) = ranges_after(*first) else {
        return 0;
    };
    if fitting_length(ranges, rest) == ranges.len() {
        1 + ranges.len()
    } else {
        0
    }
}

// The length of a well-formed front that is found by blocks of sixteen bytes. It ends where a block does.
fn blocks_length(bytes: &[u8]) -> usize
    ensures { (result ≤ length bytes.now) × IsUtf8 (take result bytes.now) }
{
    let mut known = 0;
    let mut wanted = 0;
    let mut at = 0;
    while bytes.len() - at >= 16 {
        let Some(after) = tails_after(wanted, u8x16::from_slice(&bytes[at..])) else {
            break;
        };
        wanted = after;
        at += 16;
        if wanted == 0 {
            known = at;
        }
    }
    known
}

// Which bytes after the block have to be tails: bit i stands for byte i. `wanted` says it of the bytes of the block.
// `None` if one of its bytes is not as wanted, or begins a sequence whose second byte may not be any tail.
#[inline(always)]
fn tails_after(wanted: u64, block: u8x16) -> Option<u64>
    requires { wanted ≤ 0xffff }
    ensures few { IfSome result (λ after. after ≤ 0xffff) }
    ensures goes_on { IfSome result (λ after.
        (n : ℕ) → wanted ≡ ones n → (m : ℕ) × (after ≡ ones m) × OwesTails n block m) }
{
    let past = bits_of::<NonAscii>(block);
    if past + wanted == 0 {
        return Some(0);
    }
    let tails = bits_of::<Within<0x80, 0xbf>>(block);
    let twos = bits_of::<Within<0xc2, 0xdf>>(block);
    let threes = bits_of::<Either<Within<0xe1, 0xec>, Within<0xee, 0xef>>>(block);
    let fours = bits_of::<Within<0xf1, 0xf3>>(block);
    let all = wanted + 2 * (twos + 3 * threes + 7 * fours);
    // Sums are as good as bits here: a byte belongs to at most one of these classes.
    if past != tails + twos + threes + fours || all % 0x1_0000 != tails {
        return None;
    }
    Some(all / 0x1_0000)
}

// The bytes of the block that belong to the class, as bits.
#[inline(always)]
fn bits_of<C: ByteClass>(block: u8x16) -> u64
    ensures value { result ≡ mask_l (map C.holds block) }
    ensures small { result < 0x1_0000 }
{
    C::marks(block).bits()
}

/// Returns the first character of a text that is well-formed and not empty.
#[inline(always)]
pub fn first_character(text: &[u8]) -> ReadCharacter
    requires some { 0 < length text.now }
    requires well { IsUtf8 text.now }
    ensures { IsFirst Utf8 text.now result }
{
    let length = length_by_first(text[0]);
    let code = sequence_character(text[0], &text[1..length]);
    ReadCharacter {
        character: char::from_u32(code).unwrap_or(char::REPLACEMENT_CHARACTER),
        length,
    }
}

// The number of bytes of a character with this first byte.
#[inline(always)]
fn length_by_first(first: u8) -> usize
    ensures { result ≡ length_by_first first }
{
    match first {
        0x00..=0x7f => 1,
        0x80..=0xdf => 2,
        0xe0..=0xef => 3,
        _ => 4,
    }
}
