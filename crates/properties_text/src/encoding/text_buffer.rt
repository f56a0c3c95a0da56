// The buffer into which lines are decoded.

ghost use Rattle.std.specs.Prelude.{◌≡◌, ◌⊎◌, ◌≤◌, ◌<◌, ◌+◌, ◌++◌, List, ℕ, [], length, IfOk, OnOk, OnErr};
ghost use Rattle.std.specs.Str.{chars, IsUtf8};
ghost use Rattle.properties_text.specs.Encoding.{text_of, KeepsText, PassesText};

use super::decode::decode_run;
use super::{Encoding, utf_8};
use crate::line_buffer::{LineBuffer, make_room};
use std::alloc::{AllocError, Global};
use std::marker::Model;

// The least room that a run of decoded text has, in bytes.
const DECODED_RUN: usize = 256;

/// A buffer of decoded text. Clearing it keeps its memory for the next text.
///
/// ```text
/// let mut text = TextBuffer::new(alloc);
/// text.push_decoded(Encoding::WINDOWS_1252, b"caf\xe9")?;
/// text.push_text(" = x")?;
/// assert_eq!(rt; text.as_str(), "caf\u{e9} = x");
/// ```
#[derive(Drop)]
pub struct TextBuffer {
    // The bytes of the text. Bytes are decoded straight into this buffer.
    line: LineBuffer,
}

impl Model for TextBuffer {
    ghost Value = { List ℕ };

    ghost view = { λ s. s.line };

    ghost invariant = { λ s. IsUtf8 s.line };
}

impl TextBuffer {
    /// Returns an empty buffer. Allocates nothing.
    pub fn new(alloc: Global) -> TextBuffer
        ensures { result ≡ [] }
    {
        TextBuffer {
            line: LineBuffer::new(alloc),
        }
    }

    /// Makes the text empty, and keeps the memory.
    pub fn clear(&mut self)
        ensures { self.new ≡ [] }
    {
        self.line.clear();
    }

    /// Returns the text.
    pub fn as_str(&self) -> &str
        ensures { result.now ≡ self.now }
    {
        // SAFETY: the filled bytes are valid UTF-8.
        unsafe { str::from_utf8_unchecked(self.line.as_slice()) }
    }

    /// Returns the bytes of the text.
    #[inline(always)]
    pub fn as_line(&self) -> &LineBuffer
        ensures { result.now ≡ self.now }
    {
        &self.line
    }

    // Takes the bytes of the text out of the buffer.
    pub(crate) fn into_line(self) -> LineBuffer
        ensures { result ≡ self }
    {
        self.line
    }

    /// Appends a text. Fails if memory runs out, and then appends nothing.
    #[inline]
    pub fn push_text(&mut self, more: &str) -> Result<(), AllocError>
        ensures appended { OnOk result (chars self.new ≡ chars self.old ++ chars more.now) }
        ensures longer { length self.old ≤ length self.new }
        ensures unchanged { OnErr result (self.new ≡ self.old) }
    {
        self.line.extend(more.as_bytes())?;
        Ok(())
    }

    /// Decodes bytes and appends their text. Fails if memory runs out, and then may have appended the beginning of the
    /// text.
    #[inline(never)]
    pub fn push_decoded(&mut self, encoding: Encoding, bytes: &[u8]) -> Result<(), AllocError>
        ensures appended { OnOk result (chars self.new ≡ chars self.old ++ text_of encoding bytes.now) }
        ensures kept { OnErr result (KeepsText self.old (text_of encoding bytes.now) self.new) }
        ensures utf8 { IsUtf8 self.new }
    {
        // Proof only: the text so far is UTF-8.
        let _line = &self.line;
        let mut rest = bytes;
        while !rest.is_empty() {
            let after = self.push_front(encoding, rest)?;
            rest = self.push_run(encoding, after)?;
        }
        Ok(())
    }

    // Appends the longest front of UTF-8 bytes that is valid text, and returns the bytes after it. In other encodings,
    // appends nothing.
    #[inline(always)]
    fn push_front<'a>(
        &mut self,
        encoding: Encoding,
        bytes: &'a [u8],
    ) -> Result<&'a [u8], AllocError>
        ensures text { IfOk result (λ rest.
            chars self.new ++ text_of encoding rest.now ≡ chars self.old ++ text_of encoding bytes.now) }
        ensures unchanged { OnErr result (self.new ≡ self.old) }
        ensures longer { length self.old ≤ length self.new }
        ensures left { IfOk result (λ rest. length rest.now ≤ length bytes.now) }
        ensures far { IfOk result (λ rest. PassesText encoding bytes.now rest.now) }
    {
        match encoding {
            Encoding::UTF_8 => {
                let (front, rest) = utf_8::text_front(bytes);
                self.push_text(front)?;
                Ok(rest)
            }
            Encoding::WINDOWS_1252 | Encoding::UTF_16LE | Encoding::UTF_16BE => Ok(bytes),
        }
    }

    // Decodes one run of bytes and appends its text. Returns the bytes after it.
    #[inline(always)]
    fn push_run<'a>(&mut self, encoding: Encoding, bytes: &'a [u8]) -> Result<&'a [u8], AllocError>
        ensures text { IfOk result (λ rest.
            chars self.new ++ text_of encoding rest.now ≡ chars self.old ++ text_of encoding bytes.now) }
        ensures unchanged { OnErr result (self.new ≡ self.old) }
        ensures longer { length self.old ≤ length self.new }
        ensures left { IfOk result (λ rest. length rest.now ≤ length bytes.now) }
        ensures shorter { IfOk result (λ rest. 0 < length bytes.now → length rest.now < length bytes.now) }
        ensures far { IfOk result (λ rest. length rest.now ≡ 0 ⊎ length self.old + 192 < length self.new) }
        ensures utf8 { IsUtf8 self.new }
    {
        make_room(&mut self.line.bytes, self.line.filled, DECODED_RUN)?;
        let decoded = decode_run(&mut self.line.bytes, self.line.filled, encoding, bytes);
        self.line.filled = decoded.end;
        Ok(decoded.rest)
    }
}
