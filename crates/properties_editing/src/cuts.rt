// Where a cut of a group's logical line is among the bytes of the group.

ghost use Rattle.std.specs.Prelude.{◌≡◌, ◌≤◌, ◌+◌, min, true, length, IfOk};
ghost use Rattle.std.specs.Str.{IsUtf8, chars};
ghost use Rattle.properties_format.specs.Computed.Cut.{decoded_line};
ghost use Rattle.properties_format.specs.Computed.Valued.{head_of};
ghost use Rattle.properties_text.specs.Encoding.{encoding_of};
ghost use Rattle.properties_lines.specs.LineSearch.{unit_size};
ghost use Rattle.properties_lines.specs.Private.HeldLines.{held_lines_left};
ghost use Rattle.properties_editing.specs.Private.BodyGroups.{IsWithin};
ghost use Rattle.properties_editing.specs.Private.BodyCuts.{adds, cut_at, indent_size, placed};

use crate::groups::GroupReader;
use properties_lines::continuation::{addition, is_comment, without_open_backslash};
use properties_text::encoding::first_piece::first_piece;
use properties_text::encoding::{Encoding, is_ascii};
use properties_text::parse::leading_blanks;
use std::alloc::AllocError;

/// A cut of a logical line, among the bytes of a body.
#[derive(Clone, Copy)]
pub struct Cut {
    /// The number of the natural line that it is in.
    pub number: usize,
    /// The position of that line's first byte.
    pub line_start: usize,
    /// The position of the cut.
    pub at: usize,
}

/// Returns the cut after this many characters of the logical line that begins with the next line of a reader. The
/// encoding's units are one byte long.
pub fn find_cut(lines: GroupReader, body: &[u8], count: usize) -> Result<Cut, AllocError>
    requires { IsWithin body.now lines }
    ensures { let s = lines.scanner in IfOk result (λ cut.
        cut ≡ placed s.at s.passed (cut_at (encoding_of s.encoding) true count (held_lines_left body.now s))) }
{
    let mut lines = lines;
    let mut wanted = count;
    let mut is_first = true;
    while lines.find_line(body)? {
        let line = lines.raw_line();
        let bytes = &body[line.start..line.end];
        let passed = pass_characters(lines.encoding(), added(is_first, bytes), wanted);
        if passed.count == wanted {
            return Ok(Cut {
                number: lines.number(),
                line_start: line.start,
                at: line.start + (indent_size(is_first, bytes) + passed.size),
            });
        }
        wanted -= passed.count;
        is_first = false;
    }
    // The lines add fewer characters.
    Ok(Cut {
        number: lines.number(),
        line_start: lines.place(),
        at: lines.place(),
    })
}

// Returns how many bytes of a line come before what it adds to the logical line.
fn indent_size(is_first: bool, bytes: &[u8]) -> usize
    ensures size { result ≡ indent_size is_first bytes.now }
    ensures within { result ≤ length bytes.now }
{
    if is_first { 0 } else { leading_blanks(bytes) }
}

// Returns what a line adds to the logical line.
fn added(is_first: bool, bytes: &[u8]) -> &[u8]
    ensures { result.now ≡ adds is_first bytes.now }
{
    if !is_first {
        return addition(bytes);
    }
    if is_comment(bytes) {
        return bytes;
    }
    without_open_backslash(bytes)
}

// Characters at the front of some bytes.
#[derive(Clone, Copy)]
struct Passed {
    count: usize,
    // How many bytes they have.
    size: usize,
}

// Returns the characters at the front, at most `wanted`.
fn pass_characters(encoding: Encoding, bytes: &[u8], wanted: usize) -> Passed
    requires { unit_size (encoding_of encoding) ≡ 1 }
    ensures count { result.count ≡ min wanted (length (decoded_line (encoding_of encoding) bytes.now)) }
    ensures size { result.size ≡ length (head_of (encoding_of encoding) wanted bytes.now) }
    ensures within { result.size ≤ length bytes.now }
{
    let front = wanted.min(bytes.len());
    if is_ascii(&bytes[..front]) {
        return Passed {
            count: front,
            size: front,
        };
    }
    let mut count = 0;
    let mut size = 0;
    while count < wanted && size < bytes.len() {
        size += first_piece(encoding, bytes[size], &bytes[size + 1..]).length;
        count += 1;
    }
    Passed { count, size }
}

/// Returns the number of characters of a text.
pub fn count_characters(text: &[u8]) -> usize
    requires { IsUtf8 text.now }
    ensures count { result ≡ length (chars text.now) }
    ensures few { result ≤ length text.now }
{
    pass_characters(Encoding::UTF_8, text, text.len()).count
}
