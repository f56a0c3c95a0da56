//! How natural lines are joined. Blanks, comment signs and backslashes are ASCII, so lines are examined by their bytes.

ghost use Rattle.std.specs.Prelude.{◌≡◌};
ghost use Rattle.properties_format.specs.Text.{without_leading_blanks};
ghost use Rattle.properties_format.specs.Lines.{addition, is_comment_line, is_open, without_open_backslash};
ghost use Rattle.properties_lines.specs.LogicalLine.{AddsText, BeginsText, is_continued};

use properties_text::characters::is_comment_sign;
use properties_text::parse::leading_blanks;
use properties_text::print::LineBuffer;
use std::alloc::AllocError;

/// Returns whether the first byte that isn't a blank is a comment sign.
pub fn is_comment(bytes: &[u8]) -> bool
    ensures { result ≡ is_comment_line bytes.now }
{
    match bytes.get(leading_blanks(bytes)) {
        Some(first) => is_comment_sign(char::from(*first)),
        None => false,
    }
}

/// Returns whether the line ends in an odd number of backslashes, of which the last one leaves it open.
#[inline(always)]
pub fn is_open(bytes: &[u8]) -> bool
    ensures { result ≡ is_open bytes.now }
{
    match bytes.last() {
        Some(b'\\') => ends_open(bytes),
        _ => false,
    }
}

#[inline(never)]
fn ends_open(bytes: &[u8]) -> bool
    ensures { result ≡ is_open bytes.now }
{
    let mut end = bytes.len();
    let mut odd = false;
    while end > 0 && bytes[end - 1] == b'\\' {
        odd = !odd;
        end -= 1;
    }
    odd
}

// Returns whether the next line is joined to this one, which isn't joined to one before it: it is open and isn't a
// comment.
#[inline(always)]
fn is_continued(bytes: &[u8]) -> bool
    ensures { result ≡ is_continued bytes.now }
{
    is_open(bytes) && !is_comment(bytes)
}

/// Returns the line without the backslash that leaves it open, if there is one.
#[inline(always)]
#[tactic(auto, using(crate::proofs::OpenLines::open_lines))]
pub fn without_open_backslash(bytes: &[u8]) -> &[u8]
    ensures { result.now ≡ without_open_backslash bytes.now }
{
    if is_open(bytes) {
        &bytes[..bytes.len() - 1]
    } else {
        bytes
    }
}

/// Returns what a line adds to an open line before it.
#[inline(always)]
pub fn addition(bytes: &[u8]) -> &[u8]
    ensures { result.now ≡ addition bytes.now }
{
    without_open_backslash(after_blanks(bytes))
}

// Returns the bytes without the blanks at their front.
#[inline(always)]
fn after_blanks(bytes: &[u8]) -> &[u8]
    ensures { result.now ≡ without_leading_blanks bytes.now }
{
    &bytes[leading_blanks(bytes)..]
}

// Returns whether the next line is joined to the line with these bytes. If so, makes `joined` this line without the
// backslash that leaves it open.
#[inline(always)]
#[tactic(auto, using(crate::proofs::OpenLines::open_lines))]
pub(crate) fn begin_bytes(joined: &mut LineBuffer, bytes: &[u8]) -> Result<bool, AllocError>
    ensures { BeginsText bytes.now result joined.new }
{
    if !is_continued(bytes) {
        return Ok(false);
    }
    joined.clear();
    joined.extend(&bytes[..bytes.len() - 1])?;
    Ok(true)
}

// Joins the line with these bytes to `joined`, and returns whether the next line is joined too.
#[inline(always)]
#[tactic(auto, using(crate::proofs::OpenLines::open_lines))]
pub(crate) fn join_bytes(joined: &mut LineBuffer, bytes: &[u8]) -> Result<bool, AllocError>
    ensures { AddsText bytes.now joined.old result joined.new }
{
    let rest = after_blanks(bytes);
    if is_open(rest) {
        joined.extend(&rest[..rest.len() - 1])?;
        Ok(true)
    } else {
        joined.extend(rest)?;
        Ok(false)
    }
}
