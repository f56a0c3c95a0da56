//! The first piece of some bytes: those that are decoded to one character.

ghost use Rattle.std.specs.Prelude.{◌≡◌, ◌<◌, ◌≤◌, ◌+◌, length, false};
ghost use Rattle.properties_format.specs.Text.{replacement, scalar};
ghost use Rattle.properties_text.specs.Encoding.{encoding_of, IsFirstPiece};

use super::utf_16::{self, ByteOrder};
use super::windows_1252::character_of;
use super::{Encoding, utf_8};

/// The first piece of some bytes.
#[derive(Clone, Copy, Debug, PartialEq, Eq)]
pub struct FirstPiece {
    /// The character that the piece is decoded to.
    pub character: char,
    /// The number of bytes in the piece.
    pub length: usize,
    /// Whether further bytes may still change the piece.
    pub may_change: bool,
}

impl FirstPiece {
    // The piece of `length` bytes that encode this character.
    pub(super) fn whole(code: u32, length: usize) -> FirstPiece
        requires { scalar code }
        ensures { result ≡ record { character = code; length = length; may_change = false } }
    {
        FirstPiece {
            character: char::from_u32(code).unwrap_or(char::REPLACEMENT_CHARACTER),
            length,
            may_change: false,
        }
    }

    // A piece of `length` bytes that encode no character; it is decoded to U+FFFD.
    pub(super) fn broken(length: usize, may_change: bool) -> FirstPiece
        ensures { result ≡
            record { character = replacement; length = length; may_change = may_change } }
    {
        FirstPiece {
            character: char::REPLACEMENT_CHARACTER,
            length,
            may_change,
        }
    }
}

/// Returns the first piece of the bytes `first` and then `rest`.
#[inline(always)]
pub fn first_piece(encoding: Encoding, first: u8, rest: &[u8]) -> FirstPiece
    ensures shown { IsFirstPiece (encoding_of encoding) first rest.now result }
    ensures some { 0 < result.length }
    ensures within { result.length ≤ 1 + length rest.now }
{
    match encoding {
        Encoding::WINDOWS_1252 => FirstPiece {
            character: character_of(first),
            length: 1,
            may_change: false,
        },
        Encoding::UTF_8 => utf_8::first_piece(first, rest),
        Encoding::UTF_16LE => utf_16::first_piece(ByteOrder::LowFirst, first, rest),
        Encoding::UTF_16BE => utf_16::first_piece(ByteOrder::HighFirst, first, rest),
    }
}
