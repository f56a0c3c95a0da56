// The encodings of a line that is printed, and of one that is printed from its bytes.

ghost use Rattle.std.specs.Prelude.{◌≡◌, ◌<◌, length};
ghost use Rattle.properties_format.specs.Encoding.{output_encoding};
ghost use Rattle.properties_text.specs.Encoding.{encoding_of, line_of};
ghost use Rattle.properties_text.specs.Escaping.{IsWell, IsFirst};

use super::windows_1252::character_of;
use super::{Encoding, utf_8};

/// An encoding in which each ASCII character is one byte, and no such byte is elsewhere.
#[derive(Clone, Copy, PartialEq, Eq)]
pub enum LineEncoding {
    /// One byte per character. Some characters have none.
    Windows1252,
    /// One to four bytes per character.
    Utf8,
}

impl From<Encoding> for LineEncoding {
    ghost from_gives = { λ from to. line_of to ≡ output_encoding (encoding_of from) };

    fn from(encoding: Encoding) -> LineEncoding {
        match encoding {
            Encoding::WINDOWS_1252 => LineEncoding::Windows1252,
            Encoding::UTF_8 | Encoding::UTF_16LE | Encoding::UTF_16BE => LineEncoding::Utf8,
        }
    }
}

/// A character that was read, and the number of bytes that it was read from.
#[derive(Clone, Copy)]
pub struct ReadCharacter {
    /// The character.
    pub character: char,
    /// The number of its bytes.
    pub length: usize,
}

impl LineEncoding {
    /// Returns the character at the front of a text that is well-formed and not empty.
    #[inline(always)]
    pub fn first_character(self, text: &[u8]) -> ReadCharacter
        requires some { 0 < length text.now }
        requires well { IsWell self text.now }
        ensures { IsFirst self text.now result }
    {
        match self {
            LineEncoding::Windows1252 => ReadCharacter {
                character: character_of(text[0]),
                length: 1,
            },
            LineEncoding::Utf8 => utf_8::first_character(text),
        }
    }
}
