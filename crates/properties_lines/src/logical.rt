//! The bytes of a logical line: those of its only natural line, or others that are kept.

ghost use Rattle.std.specs.Prelude.{◌≡◌, ◌≢◌, ℕ, List, [], length, false, if◌then◌else◌, OnOk};
ghost use Rattle.std.specs.Str.{IsUtf8, chars};
ghost use Rattle.properties_format.specs.Encoding.{output_encoding};
ghost use Rattle.properties_format.specs.Computed.Cut.{decoded_line};
ghost use Rattle.properties_text.specs.Encoding.{encoding_of, line_of};
ghost use Rattle.properties_text.specs.Escaping.{IsWell, text_in};
ghost use Rattle.properties_text.specs.declared.encoding.line_encoding.LineEncoding.TheVariants.{Utf8};
ghost use Rattle.properties_lines.specs.LogicalLine.{is_natural, placed_bytes, bytes_with, BeginsWith, IsSoundLogicalLine, IsTextOf, TellsLine, BeginsLine, AddsLine, IsUnfinishedLine};
ghost use Rattle.properties_lines.specs.declared.logical.Place.TheVariants.{Natural, Decoded, Joined};

use crate::continuation::{begin_bytes, join_bytes};
use properties_text::encoding::{Encoding, LineEncoding, TextBuffer, as_text};
use properties_text::print::LineBuffer;
use std::alloc::{AllocError, Global};

// Where the bytes are.
#[derive(Clone, Copy)]
enum Place {
    // They are those of the natural line, which is passed to each call.
    Natural,
    Decoded,
    Joined,
}

/// A logical line, in bytes of windows-1252 or of well-formed UTF-8. If it consists of one natural line whose bytes are
/// that, it keeps no bytes: they are passed to [`bytes`](LogicalLine::bytes).
#[derive(Drop)]
pub struct LogicalLine {
    place: Place,
    encoding: LineEncoding,
    // The natural line that was decoded last.
    decoded: TextBuffer,
    joined: LineBuffer,
}

impl LogicalLine {
    /// Returns an empty line. Allocates nothing.
    pub fn new(alloc: Global) -> LogicalLine
        ensures empty { (natural : List ℕ) → bytes_with result natural ≡ [] }
        ensures encoding { result.encoding ≡ Utf8 }
    {
        LogicalLine {
            place: Place::Decoded,
            encoding: LineEncoding::Utf8,
            decoded: TextBuffer::new(alloc),
            joined: LineBuffer::new(alloc),
        }
    }

    /// Returns the encoding of the bytes.
    #[inline(always)]
    pub fn encoding(&self) -> LineEncoding
        ensures { result ≡ self.now.encoding }
    {
        self.encoding
    }

    /// Returns the bytes and some after them, given the natural line and the bytes after it.
    #[inline(always)]
    pub fn with_room<'a>(&'a self, natural: &'a [u8]) -> &'a [u8]
        ensures { (line : List ℕ) → BeginsWith line natural.now → BeginsWith (bytes_with self.now line) result.now }
    {
        if self.is_borrowed() {
            return natural;
        }
        self.kept().with_room()
    }

    /// Returns the number of bytes, given that of the natural line.
    #[inline(always)]
    pub fn length(&self, natural: usize) -> usize
        ensures { (line : List ℕ) → natural ≡ length line → result ≡ length (bytes_with self.now line) }
    {
        if self.is_borrowed() {
            return natural;
        }
        self.kept().len()
    }

    // Kept out of line because most lines are borrowed.
    #[inline(never)]
    fn kept(&self) -> &LineBuffer
        requires { is_natural self.now.place ≡ false }
        ensures { (natural : List ℕ) → result.now ≡ bytes_with self.now natural }
    {
        match self.place {
            Place::Joined => &self.joined,
            _ => self.decoded.as_line(),
        }
    }

    /// Returns the bytes, given those of the natural line.
    #[inline(always)]
    pub fn bytes<'a>(&'a self, natural: &'a [u8]) -> &'a [u8]
        ensures { result.now ≡ bytes_with self.now natural.now }
    {
        &self.with_room(natural)[..self.length(natural.len())]
    }

    /// Returns the text. The line must be in UTF-8, or ASCII.
    #[inline(always)]
    pub fn as_str<'a>(&'a self, natural: &'a [u8]) -> &'a str
        requires { IsUtf8 (bytes_with self.now natural.now) }
        ensures { result.now ≡ bytes_with self.now natural.now }
    {
        // SAFETY: the line is UTF-8.
        unsafe { str::from_utf8_unchecked(self.bytes(natural)) }
    }

    /// Makes this a natural line whose bytes are in this encoding.
    #[inline(always)]
    pub fn borrow(&mut self, encoding: Encoding)
        ensures place { self.new.place ≡ Natural }
        ensures encoding { line_of self.new.encoding ≡ output_encoding (encoding_of encoding) }
    {
        self.place = Place::Natural;
        self.encoding = LineEncoding::from(encoding);
    }

    /// Returns whether the bytes are those of the natural line.
    #[inline(always)]
    pub fn is_borrowed(&self) -> bool
        ensures { result ≡ is_natural self.now.place }
    {
        matches!(self.place, Place::Natural)
    }

    /// Makes this the natural line with these bytes, and returns whether the next line is joined to it. If so, the
    /// backslash that leaves it open is removed. `is_line` says whether the bytes are in windows-1252 or well-formed
    /// UTF-8.
    pub fn begin(
        &mut self,
        encoding: Encoding,
        is_line: bool,
        bytes: &[u8],
    ) -> Result<bool, AllocError>
        requires { TellsLine (encoding_of encoding) bytes.now is_line }
        ensures begins { BeginsLine (encoding_of encoding) bytes.now result self.new }
        ensures sound { IsSoundLogicalLine self.new }
    {
        self.borrow(encoding);
        if is_line {
            let is_continued = begin_bytes(&mut self.joined, bytes)?;
            self.set_place(is_continued, Place::Natural);
            return Ok(is_continued);
        }
        self.decode(encoding, bytes)?;
        let is_continued = begin_bytes(&mut self.joined, self.decoded.as_line().as_slice())?;
        self.set_place(is_continued, Place::Decoded);
        Ok(is_continued)
    }

    fn set_place(&mut self, is_joined: bool, otherwise: Place)
        ensures { self.new ≡ record self.old { place = if is_joined then Joined else otherwise } }
    {
        self.place = if is_joined { Place::Joined } else { otherwise };
    }

    /// Joins the line with these bytes to this one, and returns whether the next line is joined too.
    pub fn join(
        &mut self,
        encoding: Encoding,
        is_line: bool,
        bytes: &[u8],
    ) -> Result<bool, AllocError>
        requires line { TellsLine (encoding_of encoding) bytes.now is_line }
        requires unfinished { IsUnfinishedLine (encoding_of encoding) self.old }
        ensures adds { AddsLine (encoding_of encoding) bytes.now self.old result self.new }
        ensures sound { IsSoundLogicalLine self.new }
    {
        if is_line {
            return join_bytes(&mut self.joined, bytes);
        }
        self.decode(encoding, bytes)?;
        join_bytes(&mut self.joined, self.decoded.as_line().as_slice())
    }

    /// Decodes the line to UTF-8, unless it is UTF-8 or ASCII.
    #[inline(never)]
    pub fn make_text(&mut self, natural: &[u8]) -> Result<(), AllocError>
        requires well { IsWell self.old.encoding (bytes_with self.old natural.now) }
        requires sound { IsSoundLogicalLine self.old }
        ensures sound { IsSoundLogicalLine self.new }
        ensures text { OnOk result (IsTextOf (text_in self.old.encoding (bytes_with self.old natural.now)) (bytes_with self.new natural.now)) }
    {
        if self.encoding == LineEncoding::Utf8 {
            return Ok(());
        }
        let line = undecoded(self.place, natural, &self.joined);
        if as_text(Encoding::WINDOWS_1252, line).is_some() {
            return Ok(());
        }
        self.decoded.clear();
        self.decoded.push_decoded(Encoding::WINDOWS_1252, line)?;
        self.place = Place::Decoded;
        self.encoding = LineEncoding::Utf8;
        Ok(())
    }

    // Decodes a natural line to UTF-8.
    fn decode(&mut self, encoding: Encoding, bytes: &[u8]) -> Result<(), AllocError>
        ensures decoded { OnOk result (chars self.new.decoded ≡ decoded_line (encoding_of encoding) bytes.now) }
        ensures utf8 { IsUtf8 self.new.decoded }
        ensures same { self.new ≡ record self.old { decoded = self.new.decoded } }
    {
        self.decoded.clear();
        self.decoded.push_decoded(encoding, bytes)
    }
}

// The bytes of a line that isn't decoded.
fn undecoded<'a>(place: Place, natural: &'a [u8], joined: &'a LineBuffer) -> &'a [u8]
    requires { place ≢ Decoded }
    ensures { (decoded : List ℕ) → result.now ≡ placed_bytes place natural.now decoded joined.now }
{
    match place {
        Place::Joined => joined.as_slice(),
        _ => natural,
    }
}

/// Returns whether a natural line is in windows-1252 or in well-formed UTF-8.
pub fn is_line_in(encoding: Encoding, bytes: &[u8]) -> bool
    ensures { TellsLine (encoding_of encoding) bytes.now result }
{
    match encoding {
        Encoding::WINDOWS_1252 => true,
        _ => as_text(encoding, bytes).is_some(),
    }
}
