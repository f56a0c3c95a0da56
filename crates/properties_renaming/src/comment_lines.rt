//! Comment lines of a view, and their texts.

ghost use Rattle.std.specs.Prelude.{◌≡◌, true};
ghost use Rattle.std.specs.Str.{chars};
ghost use Rattle.properties_format.specs.Lines.{is_comment_line};
ghost use Rattle.properties_renaming.specs.CommentLines.{IsCommentLine, is_line_of_comment};
ghost use Rattle.properties_renaming.specs.Private.CommentTexts.{without_first_blank};

use properties_editing::{GroupKind, ViewedGroup};
use properties_text::parse::leading_blanks;

/// Returns whether a group is a comment line. A comment that joining lines makes is none.
pub fn is_comment_line(group: ViewedGroup) -> bool
    ensures { result ≡ is_line_of_comment group }
{
    match group.kind {
        GroupKind::Comment => group.line_count == 1,
        _ => false,
    }
}

/// Returns the text of a comment line: what follows its sign and one blank.
pub fn comment_text(line: &str) -> &str
    requires { is_comment_line (chars line.now) ≡ true }
    ensures { IsCommentLine (chars line.now) (chars result.now) }
{
    let sign = leading_blanks(line.as_bytes());
    without_first_blank(&line[sign + 1..])
}

// Returns the text without the blank that it begins with, if it begins with one.
fn without_first_blank(text: &str) -> &str
    ensures { chars result.now ≡ without_first_blank (chars text.now) }
{
    let blanks = leading_blanks(text.as_bytes());
    if blanks == 0 {
        return text;
    }
    &text[1..]
}
