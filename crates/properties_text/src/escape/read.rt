// Reads an escape from the bytes of a text.

ghost use Rattle.std.specs.Prelude.{◌≡◌, ◌≢◌, ◌<◌, ◌≤◌, ℕ, length, get_or, drop, Option, Some, None, Ok, Err, IfSome, if◌then◌else◌, ◌&&◌};
ghost use Rattle.std.specs.Char.{IsScalar};
ghost use Rattle.properties_format.specs.Text.{backslash};
ghost use Rattle.properties_format.specs.Escapes.{letter_u, is_high, is_low, pair_character, escaped_character};
ghost use Rattle.properties_text.specs.Escaping.{digit_value, IsWell, IsRead, ReadsSpelt, BeginsUnit, HasDigits, LacksDigits, HasLow, LacksLow, CountsFour};

use super::Malformed;
use crate::encoding::{LineEncoding, ReadCharacter, pair_character};

// A value that no four digits have.
const NONE: u32 = 0x1_0000;

// The value of each byte as a hexadecimal digit, or `NONE` if it isn't one.
static DIGIT_VALUES: [u32; 256] = [
    NONE, NONE, NONE, NONE, NONE, NONE, NONE, NONE, NONE, NONE, NONE, NONE, NONE, NONE, NONE, NONE,
    NONE, NONE, NONE, NONE, NONE, NONE, NONE, NONE, NONE, NONE, NONE, NONE, NONE, NONE, NONE, NONE,
    NONE, NONE, NONE, NONE, NONE, NONE, NONE, NONE, NONE, NONE, NONE, NONE, NONE, NONE, NONE, NONE,
    0, 1, 2, 3, 4, 5, 6, 7, 8, 9, NONE, NONE, NONE, NONE, NONE, NONE, NONE, 10, 11, 12, 13, 14, 15,
    NONE, NONE, NONE, NONE, NONE, NONE, NONE, NONE, NONE, NONE, NONE, NONE, NONE, NONE, NONE, NONE,
    NONE, NONE, NONE, NONE, NONE, NONE, NONE, NONE, NONE, NONE, 10, 11, 12, 13, 14, 15, NONE, NONE,
    NONE, NONE, NONE, NONE, NONE, NONE, NONE, NONE, NONE, NONE, NONE, NONE, NONE, NONE, NONE, NONE,
    NONE, NONE, NONE, NONE, NONE, NONE, NONE, NONE, NONE, NONE, NONE, NONE, NONE, NONE, NONE, NONE,
    NONE, NONE, NONE, NONE, NONE, NONE, NONE, NONE, NONE, NONE, NONE, NONE, NONE, NONE, NONE, NONE,
    NONE, NONE, NONE, NONE, NONE, NONE, NONE, NONE, NONE, NONE, NONE, NONE, NONE, NONE, NONE, NONE,
    NONE, NONE, NONE, NONE, NONE, NONE, NONE, NONE, NONE, NONE, NONE, NONE, NONE, NONE, NONE, NONE,
    NONE, NONE, NONE, NONE, NONE, NONE, NONE, NONE, NONE, NONE, NONE, NONE, NONE, NONE, NONE, NONE,
    NONE, NONE, NONE, NONE, NONE, NONE, NONE, NONE, NONE, NONE, NONE, NONE, NONE, NONE, NONE, NONE,
    NONE, NONE, NONE, NONE, NONE, NONE, NONE, NONE, NONE, NONE, NONE, NONE, NONE, NONE, NONE, NONE,
    NONE, NONE, NONE, NONE, NONE, NONE, NONE, NONE, NONE, NONE, NONE, NONE, NONE, NONE, NONE, NONE,
    NONE, NONE, NONE, NONE, NONE, NONE, NONE,
];

// Reads the escape at the front of a well-formed text, whose first byte is a backslash. A backslash at the end of the
// text means U+0000.
#[inline(always)]
pub(crate) fn read_escape(encoding: LineEncoding, text: &[u8]) -> Result<ReadCharacter, Malformed>
    requires some { 0 < length text.now }
    requires escape { get_or text.now 0 0 ≡ backslash }
    requires well { IsWell encoding text.now }
    ensures { ReadsSpelt encoding text.now result }
{
    if text.len() > 1 {
        if text[1] == b'u' {
            return read_unicode(encoding, text);
        }
        if text[1] < 0x80 {
            return Ok(ReadCharacter {
                character: char::from(escaped_byte(text[1])),
                length: 2,
            });
        }
    }
    Ok(read_other(encoding, text))
}

// What a backslash means before a non-ASCII character, and at the end of a text.
#[inline(never)]
fn read_other(encoding: LineEncoding, text: &[u8]) -> ReadCharacter
    requires some { 0 < length text.now }
    requires escape { get_or text.now 0 0 ≡ backslash }
    requires past { 1 < length text.now → 0x80 ≤ get_or text.now 1 0 }
    requires well { IsWell encoding text.now }
    ensures { IsRead encoding text.now result }
{
    if text.len() == 1 {
        return ReadCharacter {
            character: '\0',
            length: 1,
        };
    }
    let escaped = encoding.first_character(&text[1..]);
    ReadCharacter {
        character: escaped.character,
        length: 1 + escaped.length,
    }
}

// The character that a backslash and this ASCII character mean, if the latter isn't `u`.
#[inline(always)]
fn escaped_byte(byte: u8) -> u8
    ensures { result ≡ escaped_character byte }
{
    // Most are punctuation, which sorts before these letters.
    if byte < b'f' {
        return byte;
    }
    match byte {
        b't' => b'\t',
        b'n' => b'\n',
        b'f' => b'\x0c',
        b'r' => b'\r',
        other => other,
    }
}

// Reads a `\u` escape. If its digits are a high surrogate, the next escape must be the low one; both make one character.
#[inline(always)]
fn read_unicode(encoding: LineEncoding, text: &[u8]) -> Result<ReadCharacter, Malformed>
    requires begins { BeginsUnit text.now }
    requires well { IsWell encoding text.now }
    ensures { ReadsSpelt encoding text.now result }
{
    let Some(unit) = digits_after(text) else {
        return Err(what_is_wrong(encoding, &text[2..]));
    };
    if let Some(character) = char::from_u32(unit) {
        return Ok(ReadCharacter {
            character,
            length: 6,
        });
    }
    match low_surrogate(unit, &text[6..]) {
        Some(character) => Ok(ReadCharacter {
            character,
            length: 12,
        }),
        None => Err(Malformed::InvalidCharacter),
    }
}

// Joins the surrogate `high` with the `\u` escape at the front of the text, if that is the other half. Kept out of line
// because surrogates are rare.
#[inline(never)]
fn low_surrogate(high: u32, text: &[u8]) -> Option<char>
    requires { 0xd800 ≤ high }
    ensures scalar { IfSome result IsScalar }
    ensures some { IfSome result (λ character. HasLow high text.now character) }
    ensures none { result ≡ None → LacksLow high text.now }
{
    if text.len() < 2 || text[0] != b'\\' || text[1] != b'u' {
        return None;
    }
    let low = digits_after(text)?;
    join_surrogates(high, low)
}

// The character of a high and a low surrogate.
fn join_surrogates(high: u32, low: u32) -> Option<char>
    requires { 0xd800 ≤ high }
    ensures scalar { IfSome result IsScalar }
    ensures value { result ≡ (if is_high high && is_low low then Some (pair_character high low) else None) }
{
    if high >= 0xdc00 || low < 0xdc00 || low >= 0xe000 {
        return None;
    }
    char::from_u32(pair_character(high, low))
}

// The value of the four hexadecimal digits after the first two bytes, if there are four.
#[inline(always)]
fn digits_after(text: &[u8]) -> Option<u32>
    ensures some { IfSome result (λ value. HasDigits text.now value) }
    ensures none { result ≡ None → LacksDigits text.now }
{
    if text.len() < 6 {
        return None;
    }
    let high = digit_value(text[2]) * 0x1000 + digit_value(text[3]) * 0x100;
    let value = high + digit_value(text[4]) * 0x10 + digit_value(text[5]);
    if value < NONE { Some(value) } else { None }
}

#[inline(always)]
#[tactic(auto, using(crate::proofs::Texts::Units::digit_at))]
fn digit_value(byte: u8) -> u32
    ensures value { result ≡ digit_value byte }
    ensures small { result ≤ 0x10000 }
{
    DIGIT_VALUES[usize::from(byte)]
}

// Why a text doesn't begin with four hexadecimal digits.
#[inline(never)]
fn what_is_wrong(encoding: LineEncoding, text: &[u8]) -> Malformed
    requires { IsWell encoding text.now }
    ensures { CountsFour encoding text.now result }
{
    let mut rest = text;
    let mut count: usize = 0;
    while count < 4 {
        if rest.is_empty() {
            return Malformed::NotEnoughDigits;
        }
        rest = &rest[encoding.first_character(rest).length..];
        count += 1;
    }
    Malformed::NotHex
}
