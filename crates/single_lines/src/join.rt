// How natural lines that are texts are joined.

ghost use Rattle.std.specs.Prelude.{◌≡◌};
ghost use Rattle.std.specs.Str.{chars};
ghost use Rattle.properties_format.specs.Text.{without_leading_blanks};
ghost use Rattle.properties_format.specs.Lines.{addition, is_comment_line, is_open, without_open_backslash};

use properties_lines::continuation::is_comment;
use properties_text::escape::count_ending_backslashes;
use properties_text::parse::leading_blanks;

/// Returns whether the first character that isn't a blank is a comment sign.
pub fn is_comment_line(text: &str) -> bool
    ensures { result ≡ is_comment_line (chars text.now) }
{
    is_comment(text.as_bytes())
}

/// Returns whether the line ends in an odd number of backslashes, of which the last one leaves it open.
pub fn is_open(text: &str) -> bool
    ensures { result ≡ is_open (chars text.now) }
{
    count_ending_backslashes(text) % 2 == 1
}

/// Returns what a line adds to an open line before it.
pub fn addition(text: &str) -> &str
    ensures { chars result.now ≡ addition (chars text.now) }
{
    without_open_backslash(without_leading_blanks(text))
}

// Returns the line without the backslash that leaves it open, if there is one.
fn without_open_backslash(text: &str) -> &str
    ensures { chars result.now ≡ without_open_backslash (chars text.now) }
{
    if is_open(text) {
        &text[..text.len() - 1]
    } else {
        text
    }
}

fn without_leading_blanks(text: &str) -> &str
    ensures { chars result.now ≡ without_leading_blanks (chars text.now) }
{
    &text[leading_blanks(text.as_bytes())..]
}
