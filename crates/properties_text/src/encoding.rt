//! Decoding bytes to characters, and encoding characters as bytes.

ghost use Rattle.std.specs.Prelude.{◌≡◌};
ghost use Rattle.std.specs.Option.{option_map};
ghost use Rattle.properties_format.specs.Encoding.{output_encoding};
ghost use Rattle.properties_format.specs.Names.{IsLabelled, name_of, IsNamed};
ghost use Rattle.properties_text.specs.Encoding.{encoding_of};

mod ascii;
pub mod byte_order_mark;
mod decode;
pub mod first_piece;
mod labels;
mod latin_1;
mod line_encoding;
mod text_buffer;
mod utf_16;
mod utf_8;
mod windows_1252;

pub use ascii::is_ascii;
pub use decode::as_text;
pub(crate) use decode::put_character;
pub use line_encoding::{LineEncoding, ReadCharacter};
use std::fmt;
pub use text_buffer::TextBuffer;
pub use utf_8::well_formed_length;
pub(crate) use utf_16::pair_character;
pub(crate) use windows_1252::byte_of;

/// The encodings of properties files, named as in the WHATWG Encoding Standard.
///
/// An encoding prints as its [`name`](Encoding::name). Encodings are ordered as the variants are listed here.
///
/// ```text
/// println!(rt; "{}", Encoding::UTF_16LE)?; // utf-16le
/// ```
#[allow(non_camel_case_types)]
#[derive(Clone, Copy, Debug, PartialEq, Eq, PartialOrd, Ord, Hash)]
pub enum Encoding {
    /// One byte per character. Java's files are in this encoding unless they say otherwise.
    WINDOWS_1252,
    /// One to four bytes per character.
    UTF_8,
    /// UTF-16 with the low byte of each unit first.
    UTF_16LE,
    /// UTF-16 with the high byte of each unit first.
    UTF_16BE,
}

impl Encoding {
    /// Returns the encoding to write in: UTF-8 for either form of UTF-16, otherwise the encoding itself.
    pub fn output_encoding(self) -> Encoding
        ensures { encoding_of result ≡ output_encoding (encoding_of self) }
    {
        match self {
            Encoding::WINDOWS_1252 => Encoding::WINDOWS_1252,
            Encoding::UTF_8 | Encoding::UTF_16LE | Encoding::UTF_16BE => Encoding::UTF_8,
        }
    }

    /// Returns the encoding with this name: `windows-1252`, `utf-8`, `utf-16le` or `utf-16be`. Returns `None` for any
    /// other text.
    ///
    /// Names are in lower case, and other spellings such as `UTF-8` aren't accepted;
    /// [`for_label`](Encoding::for_label) takes these.
    ///
    /// ```text
    /// Encoding::from_name("utf-16le"); // Some(Encoding::UTF_16LE)
    /// Encoding::from_name("latin1"); // None
    /// ```
    pub fn from_name(name: &str) -> Option<Encoding>
        ensures { IsNamed name.now (option_map encoding_of result) }
    {
        match name {
            "windows-1252" => Some(Encoding::WINDOWS_1252),
            "utf-8" => Some(Encoding::UTF_8),
            "utf-16le" => Some(Encoding::UTF_16LE),
            "utf-16be" => Some(Encoding::UTF_16BE),
            _ => None,
        }
    }

    /// Returns the encoding that this label means in the WHATWG Encoding Standard, or `None` if it means none of these
    /// four.
    ///
    /// ASCII case doesn't count, nor does ASCII whitespace at the ends. In the standard, the labels of ISO 8859-1 and of
    /// ASCII mean windows-1252.
    ///
    /// ```text
    /// Encoding::for_label(" UTF8\n"); // Some(Encoding::UTF_8)
    /// Encoding::for_label("latin1"); // Some(Encoding::WINDOWS_1252)
    /// Encoding::for_label("latin2"); // None
    /// ```
    pub fn for_label(label: &str) -> Option<Encoding>
        ensures { IsLabelled label.now (option_map encoding_of result) }
    {
        let label = label.trim_ascii();
        if labels::is_one_of(label, labels::WINDOWS_1252) {
            Some(Encoding::WINDOWS_1252)
        } else if labels::is_one_of(label, labels::UTF_8) {
            Some(Encoding::UTF_8)
        } else if labels::is_one_of(label, labels::UTF_16LE) {
            Some(Encoding::UTF_16LE)
        } else if labels::is_one_of(label, labels::UTF_16BE) {
            Some(Encoding::UTF_16BE)
        } else {
            None
        }
    }

    /// Returns the encoding's name, which [`from_name`](Encoding::from_name) accepts.
    ///
    /// ```text
    /// Encoding::UTF_16LE.name(); // "utf-16le"
    /// ```
    pub fn name(self) -> &'static str
        ensures { result.now ≡ name_of (encoding_of self) }
    {
        match self {
            Encoding::WINDOWS_1252 => "windows-1252",
            Encoding::UTF_8 => "utf-8",
            Encoding::UTF_16LE => "utf-16le",
            Encoding::UTF_16BE => "utf-16be",
        }
    }
}

impl fmt::Display for Encoding {
    ghost use Rattle.std.specs.Prelude.{Some};

    ghost output = { λ encoding. Some (name_of (encoding_of encoding)) };

    fn fmt<W: fmt::Write>(&self, f: &mut fmt::Formatter<W>) -> fmt::Result {
        f.write_str(self.name())
    }
}
