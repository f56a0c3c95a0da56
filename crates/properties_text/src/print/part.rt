// The bytes of a key or a value.

ghost use Rattle.std.specs.Prelude.{◌≡◌, ◌≤◌, ◌<◌, ℕ, length, take, get_or};
ghost use Rattle.properties_text.specs.Parsing.{bytes_in};

use crate::parse::Span;

/// The bytes of a key or a value, and others after them, which aren't printed but may be read as part of a block.
#[derive(Clone, Copy)]
pub struct Part<'a> {
    pub bytes: &'a [u8],
    /// The number of bytes in the text.
    pub size: usize,
    ghost within: { size ≤ length bytes.now },
    ghost small: { (i : ℕ) → get_or bytes.now i 0 < 256 },
}

impl<'a> Part<'a> {
    #[inline(always)]
    pub fn of(text: &'a str) -> Part<'a>
        ensures size { result.size ≡ length text.now }
        ensures bytes { result.bytes.now ≡ text.now }
    {
        Part {
            bytes: text.as_bytes(),
            size: text.len(),
        }
    }

    #[inline(always)]
    pub fn at(line: &'a [u8], span: Span) -> Part<'a>
        requires ordered { span.start ≤ span.end }
        requires within { span.end ≤ length line.now }
        ensures { take result.size result.bytes.now ≡ bytes_in line.now span }
    {
        Part {
            bytes: &line[span.start..],
            size: span.end - span.start,
        }
    }
}
