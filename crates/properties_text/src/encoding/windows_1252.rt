// windows-1252: one byte per character.

ghost use Rattle.std.specs.Prelude.{◌≡◌, ◌↔◌, IfSome, IsSome, is_some};
ghost use Rattle.std.specs.Str.{IsAscii};
ghost use Rattle.properties_format.specs.Windows1252.{windows_1252_table, windows_1252_character, windows_1252_byte, place_from};
ghost use Rattle.properties_text.specs.Encoding.{IsTextOfByte};

use super::ascii::is_ascii;
use texts::TEXTS;

mod texts;

// The characters of the bytes 80 to 9F.
const HIGH: [char; 32] = [
    '\u{20ac}', '\u{81}', '\u{201a}', '\u{192}', '\u{201e}', '\u{2026}', '\u{2020}', '\u{2021}',
    '\u{2c6}', '\u{2030}', '\u{160}', '\u{2039}', '\u{152}', '\u{8d}', '\u{17d}', '\u{8f}',
    '\u{90}', '\u{2018}', '\u{2019}', '\u{201c}', '\u{201d}', '\u{2022}', '\u{2013}', '\u{2014}',
    '\u{2dc}', '\u{2122}', '\u{161}', '\u{203a}', '\u{153}', '\u{9d}', '\u{17e}', '\u{178}',
];

/// Returns the character of a byte.
#[inline]
pub fn character_of(byte: u8) -> char
    ensures { result ≡ windows_1252_character byte }
{
    match byte {
        0x80..=0x9f => HIGH[usize::from(byte - 0x80)],
        _ => char::from(byte),
    }
}

/// Returns the UTF-8 bytes of a byte's character, and how many there are.
#[inline(always)]
pub fn text_of_byte(byte: u8) -> ByteText
    ensures { IsTextOfByte byte result }
{
    let bytes = TEXTS[usize::from(byte)];
    ByteText {
        bytes,
        length: usize::from(bytes[3]),
    }
}

/// The character of a byte in UTF-8.
#[derive(Clone, Copy)]
pub struct ByteText {
    /// The character's bytes, padded with others.
    pub bytes: [u8; 4],
    /// The number of bytes in the character.
    pub length: usize,
}

/// Returns the bytes as text if all of them are ASCII, which is also UTF-8; otherwise `None`.
#[inline(always)]
pub fn as_text(bytes: &[u8]) -> Option<&str>
    ensures exactly { IsSome result ↔ IsAscii bytes.now }
    ensures same { IfSome result (λ text. text.now ≡ bytes.now) }
{
    if is_ascii(bytes) {
        // SAFETY: ASCII is UTF-8.
        Some(unsafe { str::from_utf8_unchecked(bytes) })
    } else {
        None
    }
}

/// Returns the byte of a character, or `None` if it has none. For the characters of most other scripts, comparing code
/// points decides it, without a search.
#[inline(always)]
pub fn byte_of(character: char) -> Option<u8>
    ensures { result ≡ windows_1252_byte character }
{
    match character {
        '\0'..='\x7f' | '\u{a0}'..='\u{ff}' => u8::try_from(u32::from(character)).ok(),
        '\u{2dd}'..='\u{2012}' | '\u{2123}'..=char::MAX => None,
        _ => high_byte_of(character),
    }
}

// The byte from 80 to 9F of a character, if it has one. Such characters are rare, so the search isn't repeated in each
// caller.
#[inline(never)]
fn high_byte_of(character: char) -> Option<u8>
    ensures { result ≡ place_from 0x80 windows_1252_table character }
{
    let byte = match character {
        '\u{20ac}' => 0x80,
        '\u{81}' => 0x81,
        '\u{201a}' => 0x82,
        '\u{192}' => 0x83,
        '\u{201e}' => 0x84,
        '\u{2026}' => 0x85,
        '\u{2020}' => 0x86,
        '\u{2021}' => 0x87,
        '\u{2c6}' => 0x88,
        '\u{2030}' => 0x89,
        '\u{160}' => 0x8a,
        '\u{2039}' => 0x8b,
        '\u{152}' => 0x8c,
        '\u{8d}' => 0x8d,
        '\u{17d}' => 0x8e,
        '\u{8f}' => 0x8f,
        '\u{90}' => 0x90,
        '\u{2018}' => 0x91,
        '\u{2019}' => 0x92,
        '\u{201c}' => 0x93,
        '\u{201d}' => 0x94,
        '\u{2022}' => 0x95,
        '\u{2013}' => 0x96,
        '\u{2014}' => 0x97,
        '\u{2dc}' => 0x98,
        '\u{2122}' => 0x99,
        '\u{161}' => 0x9a,
        '\u{203a}' => 0x9b,
        '\u{153}' => 0x9c,
        '\u{9d}' => 0x9d,
        '\u{17e}' => 0x9e,
        '\u{178}' => 0x9f,
        _ => return None,
    };
    Some(byte)
}
