//! Decoding bytes to characters.

ghost use Rattle.std.specs.Prelude.{◌↔◌, ◌⊎◌, IsSome, ◌≡◌, ◌≤◌, ◌<◌, ◌+◌, ◌*◌, ◌%◌, ◌++◌, ◌∷◌, [], length, take, IfSome};
ghost use Rattle.std.specs.Char.{encode_utf8, IsScalar};
ghost use Rattle.std.specs.List.{AllByRecursion};
ghost use Rattle.std.specs.Str.{IsUtf8};
ghost use Rattle.properties_text.specs.Encoding.{encoding_of, IsText, DecodesFront, utf_16_of, lows_of, highs_of};
ghost use Rattle.properties_text.specs.declared.encoding.Encoding.TheVariants.{WINDOWS_1252};

use super::first_piece::first_piece;
use super::latin_1::{put_latin_1, tabled};
use super::utf_16::ByteOrder;
use super::windows_1252::text_of_byte;
use super::{Encoding, utf_8, windows_1252};
use byte_blocks::{Byte, ByteClass, Except};
use std::simd::prelude::*;

/// Returns the bytes as text if they are UTF-8 already in this encoding; otherwise `None`.
#[inline(always)]
pub fn as_text(encoding: Encoding, bytes: &[u8]) -> Option<&str>
    ensures exactly { IsSome result ↔ IsText (encoding_of encoding) bytes.now }
    ensures same { IfSome result (λ text. text.now ≡ bytes.now) }
{
    match encoding {
        Encoding::WINDOWS_1252 => windows_1252::as_text(bytes),
        Encoding::UTF_8 => utf_8::as_text(bytes),
        Encoding::UTF_16LE | Encoding::UTF_16BE => None,
    }
}

/// The result of decoding some bytes.
#[derive(Clone, Copy)]
pub struct Decoded<'a> {
    /// The index after the decoded text.
    pub end: usize,
    /// The bytes that weren't decoded.
    pub rest: &'a [u8],
}

/// Decodes bytes from the front as long as there is room. Their text is written after the text that ends at `start`.
#[inline(always)]
pub fn decode_run<'a>(
    run: &mut [u8],
    start: usize,
    encoding: Encoding,
    bytes: &'a [u8],
) -> Decoded<'a>
    requires room { start + 4 ≤ length run.old }
    requires is_text { IsUtf8 (take start run.old) }
    ensures front { DecodesFront encoding bytes.now run.old start run.new result }
    ensures shorter { 0 < length bytes.now → length result.rest.now < length bytes.now }
    ensures stops { length result.rest.now ≡ 0 ⊎ length run.new < result.end + 64 }
{
    // Each encoding has a loop of its own, so the encoding isn't tested at each character.
    match encoding {
        Encoding::WINDOWS_1252 => decode_windows_1252(run, start, bytes),
        Encoding::UTF_8 => decode_run_of(run, start, Encoding::UTF_8, bytes),
        Encoding::UTF_16LE => decode_utf_16(run, start, ByteOrder::LowFirst, bytes),
        Encoding::UTF_16BE => decode_utf_16(run, start, ByteOrder::HighFirst, bytes),
    }
}

// Decodes blocks of sixteen, and fewer bytes as for the other encodings.
#[inline(always)]
fn decode_windows_1252<'a>(run: &mut [u8], start: usize, bytes: &'a [u8]) -> Decoded<'a>
    requires room { start + 4 ≤ length run.old }
    requires is_text { IsUtf8 (take start run.old) }
    ensures front { DecodesFront WINDOWS_1252 bytes.now run.old start run.new result }
    ensures shorter { 0 < length bytes.now → length result.rest.now < length bytes.now }
    ensures stops { length result.rest.now ≡ 0 ⊎ length run.new < result.end + 64 }
{
    let front = decode_blocks(run, start, bytes);
    // If more blocks follow, the next run starts with them.
    if front.end > start && front.rest.len() >= 16 {
        return front;
    }
    decode_run_of(run, front.end, Encoding::WINDOWS_1252, front.rest)
}

// Decodes windows-1252 sixteen bytes at a time, as long as there are as many bytes and room for them.
#[inline(always)]
fn decode_blocks<'a>(run: &mut [u8], start: usize, bytes: &'a [u8]) -> Decoded<'a>
    requires within { start ≤ length run.old }
    requires is_text { IsUtf8 (take start run.old) }
    ensures front { DecodesFront WINDOWS_1252 bytes.now run.old start run.new result }
    ensures shorter { result.end + 4 * length result.rest.now ≤ start + 4 * length bytes.now }
    ensures stops { length result.rest.now < 16 ⊎ length run.new < result.end + 64 }
{
    let mut at = start;
    let mut rest = bytes;
    while rest.len() >= 16 && run.len() - at >= 64 {
        let v = u8x16::from_slice(rest);
        // The first block may be shorter, so that only whole blocks are left.
        let block_size = (rest.len() - 1) % 16 + 1;
        if tabled(v).is_clear_before(block_size) {
            at = put_latin_1(run, at, v, block_size);
            rest = &rest[block_size..];
        } else {
            let each = decode_each(run, at, rest, block_size);
            at = each.end;
            rest = each.rest;
        }
    }
    Decoded { end: at, rest }
}

// Decodes `count` bytes of windows-1252 one by one.
#[inline(always)]
fn decode_each<'a>(run: &mut [u8], start: usize, bytes: &'a [u8], count: usize) -> Decoded<'a>
    requires room { start + 4 * count ≤ length run.old }
    requires count { count ≤ length bytes.now }
    requires is_text { IsUtf8 (take start run.old) }
    ensures front { DecodesFront WINDOWS_1252 bytes.now run.old start run.new result }
    ensures end { result.end ≤ start + 3 * count }
    ensures left { length result.rest.now + count ≡ length bytes.now }
{
    let mut at = start;
    let mut rest = bytes;
    let mut left = count;
    while left > 0 {
        let text = text_of_byte(rest[0]);
        put_four(run, at, text.bytes);
        at += text.length;
        rest = &rest[1..];
        left -= 1;
    }
    Decoded { end: at, rest }
}

// Decodes sixteen units at a time as far as they are characters of Latin-1, and others one by one.
#[inline(always)]
fn decode_utf_16<'a>(run: &mut [u8], start: usize, order: ByteOrder, bytes: &'a [u8]) -> Decoded<'a>
    requires room { start + 4 ≤ length run.old }
    requires is_text { IsUtf8 (take start run.old) }
    ensures front { DecodesFront (utf_16_of order) bytes.now run.old start run.new result }
    ensures shorter { 0 < length bytes.now → length result.rest.now < length bytes.now }
    ensures stops { length result.rest.now ≡ 0 ⊎ length run.new < result.end + 64 }
{
    let encoding = utf_16_of(order);
    let mut at = start;
    let mut rest = bytes;
    while rest.len() >= 32 && run.len() - at >= 64 {
        let units = split_units(
            order,
            u8x16::from_slice(rest),
            u8x16::from_slice(&rest[16..]),
        );
        let kept = Except::<Byte<0>>::marks(units.highs).clear_front();
        at = put_latin_1(run, at, units.lows, kept);
        rest = &rest[2 * kept..];
        if kept < 16 {
            let next = first_piece(encoding, rest[0], &rest[1..]);
            at = put_character(run, at, next.character);
            rest = &rest[next.length..];
        }
    }
    decode_run_of(run, at, encoding, rest)
}

#[inline(always)]
fn utf_16_of(order: ByteOrder) -> Encoding
    ensures { result ≡ utf_16_of order }
{
    match order {
        ByteOrder::LowFirst => Encoding::UTF_16LE,
        ByteOrder::HighFirst => Encoding::UTF_16BE,
    }
}

// The low bytes of units, and their high bytes.
#[derive(Clone, Copy)]
struct Units {
    lows: u8x16,
    highs: u8x16,
}

#[inline(always)]
fn split_units(order: ByteOrder, a: u8x16, b: u8x16) -> Units
    ensures lows { result.lows ≡ lows_of order (a ++ b) }
    ensures highs { result.highs ≡ highs_of order (a ++ b) }
    ensures small { AllByRecursion (λ low. low < 0x100) result.lows }
{
    let evens = a.shuffle(
        b,
        [0, 2, 4, 6, 8, 10, 12, 14, 16, 18, 20, 22, 24, 26, 28, 30],
    );
    let odds = a.shuffle(
        b,
        [1, 3, 5, 7, 9, 11, 13, 15, 17, 19, 21, 23, 25, 27, 29, 31],
    );
    match order {
        ByteOrder::LowFirst => Units {
            lows: evens,
            highs: odds,
        },
        ByteOrder::HighFirst => Units {
            lows: odds,
            highs: evens,
        },
    }
}

// Decodes any encoding from front to back.
#[inline(always)]
fn decode_run_of<'a>(
    run: &mut [u8],
    start: usize,
    encoding: Encoding,
    bytes: &'a [u8],
) -> Decoded<'a>
    requires within { start ≤ length run.old }
    requires is_text { IsUtf8 (take start run.old) }
    ensures front { DecodesFront encoding bytes.now run.old start run.new result }
    ensures shorter { start + 4 ≤ length run.old → 0 < length bytes.now
        → length result.rest.now < length bytes.now }
    ensures stops { length result.rest.now ≡ 0 ⊎ length run.new < result.end + 64 }
{
    let mut at = start;
    let mut rest = bytes;
    while !rest.is_empty() && run.len() - at >= 4 {
        let next = first_piece(encoding, rest[0], &rest[1..]);
        at = put_character(run, at, next.character);
        rest = &rest[next.length..];
    }
    Decoded { end: at, rest }
}

// Writes four bytes at index `at`.
#[inline(always)]
fn put_four(run: &mut [u8], at: usize, text: [u8; 4])
    requires { at + 4 ≤ length run.old }
    ensures same_room { length run.new ≡ length run.old }
    ensures text { take (at + 4) run.new ≡ take at run.old ++ text }
{
    run[at..at + 4].copy_from_slice(&text);
}

/// Writes a character at index `at`, and returns the index after it.
#[inline(always)]
pub fn put_character(run: &mut [u8], at: usize, character: char) -> usize
    requires { at + 4 ≤ length run.old }
    ensures within { result ≤ at + 4 }
    ensures more { at < result }
    ensures scalar { IsScalar character }
    ensures same_room { length run.new ≡ length run.old }
    ensures text { take result run.new ≡ take at run.old ++ encode_utf8 character }
{
    let code = u32::from(character);
    if code < 0x80 {
        put(run, at, code)
    } else if code < 0x800 {
        let at = put(run, at, 0xc0 + code / 0x40);
        put_continuation(run, at, code)
    } else if code < 0x1_0000 {
        let at = put(run, at, 0xe0 + code / 0x1000);
        let at = put_continuation(run, at, code / 0x40);
        put_continuation(run, at, code)
    } else {
        let at = put(run, at, 0xf0 + code / 0x4_0000);
        let at = put_continuation(run, at, code / 0x1000);
        let at = put_continuation(run, at, code / 0x40);
        put_continuation(run, at, code)
    }
}

// Writes a continuation byte with the six low bits of `bits` at index `at`, and returns the index after it.
#[inline(always)]
fn put_continuation(run: &mut [u8], at: usize, bits: u32) -> usize
    requires { at < length run.old }
    ensures after { result ≡ at + 1 }
    ensures same_room { length run.new ≡ length run.old }
    ensures byte { take result run.new ≡ take at run.old ++ (0x80 + bits % 0x40) ∷ [] }
{
    put(run, at, 0x80 + bits % 0x40)
}

#[inline(always)]
fn put(run: &mut [u8], at: usize, byte: u32) -> usize
    requires within { at < length run.old }
    requires byte { byte < 0x100 }
    ensures after { result ≡ at + 1 }
    ensures same_room { length run.new ≡ length run.old }
    ensures byte { take result run.new ≡ take at run.old ++ byte ∷ [] }
{
    run[at] = byte as u8;
    at + 1
}
