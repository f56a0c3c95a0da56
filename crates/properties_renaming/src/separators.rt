//! Separators of Spring Boot's documents among comment lines.

ghost use Rattle.std.specs.Prelude.{◌≡◌, [], true};
ghost use Rattle.std.specs.Str.{chars};
ghost use Rattle.properties_format.specs.Text.{is_comment_sign};
ghost use Rattle.properties_format.specs.Lines.{is_comment_line};
ghost use Rattle.properties_renaming.specs.CommentLines.{is_line_of_comment};
ghost use Rattle.properties_format.specs.Separators.{has_shape, sign_of};
ghost use Rattle.properties_renaming.specs.FoundSeparators.{IsRunOf, PassesGroup};

use crate::comment_lines::is_comment_line;
use properties_editing::ViewedGroup;
use properties_text::parse::{are_blanks, leading_blanks};

/// The run in which the groups so far end: comment lines with one sign that directly follow each other.
#[derive(Clone, Copy)]
pub struct LastRun {
    // The sign, or 0 if there are no lines.
    pub(crate) sign: u8,
    // Whether there are lines, and each has the shape of a separator.
    separates: bool,
}

impl LastRun {
    /// Returns the run before the first group, which has no lines.
    pub fn new() -> LastRun
        ensures { IsRunOf [] result }
    {
        LastRun {
            sign: 0,
            separates: false,
        }
    }

    /// Passes one more group, of which this is the logical line. Returns whether a separator is directly above it, which
    /// isn't part of a comment, and ends one.
    pub fn pass(&mut self, group: ViewedGroup, line: &str) -> bool
        requires { is_line_of_comment group ≡ true → is_comment_line (chars line.now) ≡ true }
        ensures { PassesGroup (is_line_of_comment group) (chars line.now) self.old result self.new }
    {
        if !is_comment_line(group) {
            let separates = self.separates;
            *self = LastRun::new();
            return separates;
        }
        let sign = sign_of(line);
        if sign == self.sign {
            self.separates = self.separates && has_shape(line, sign);
            return false;
        }
        let separates = self.separates;
        *self = LastRun {
            sign,
            separates: has_shape(line, sign),
        };
        separates
    }
}

// Returns the sign of a comment line.
fn sign_of(line: &str) -> u8
    requires { is_comment_line (chars line.now) ≡ true }
    ensures sign { result ≡ sign_of (chars line.now) }
    ensures marks { is_comment_sign result ≡ true }
{
    let bytes = line.as_bytes();
    bytes[leading_blanks(bytes)]
}

// Returns whether a comment line, which has this sign, has the shape of a separator.
fn has_shape(line: &str, sign: u8) -> bool
    requires sign { sign ≡ sign_of (chars line.now) }
    requires marks { is_comment_sign sign ≡ true }
    ensures { result ≡ has_shape (chars line.now) }
{
    let marker = [sign, b'-', b'-', b'-'];
    if !line.as_bytes().starts_with(&marker) {
        return false;
    }
    are_blanks(&line[4..])
}
