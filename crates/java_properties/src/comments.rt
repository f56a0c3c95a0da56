// The comments of keys: the comment lines directly above a pair.

ghost use Rattle.std.specs.Prelude.{◌≡◌, bytes_eq, true, OnOk};
ghost use Rattle.std.specs.Str.{chars};
ghost use Rattle.properties_format.specs.Lines.{is_comment_line};
ghost use Rattle.properties_text.specs.Encoding.{encoding_of};
ghost use Rattle.properties_renaming.specs.CommentLines.{is_line_of_comment};
ghost use Rattle.java_properties.specs.Commented.{TellsComment, TellsCommentIn};
ghost use Rattle.java_properties.specs.Private.PassedGroups.{AddsPassedLine, IsKindOf, LeavesOut, PassesGroup, TellsKey, after_other, passed_texts};

use properties_editing::{Document, GroupKind, View, ViewedGroup};
use properties_items::error::PropertiesError;
use properties_items::found::{find_item, pair_texts};
use properties_renaming::comment_lines::{comment_text, is_comment_line};
use properties_renaming::separators::LastRun;
use properties_text::encoding::Encoding;
use std::alloc::{AllocError, Global};
use std::mem;

/// Returns the comment of a key: the texts of the comment lines directly above the last pair with the key, or `None` if
/// no pair has it.
///
/// No blank line, no pair and no separator of Spring's documents is between them: a line `#---` or `!---`, unless a
/// comment line with the same sign is directly above or below it. A text is what follows the sign and one blank, as it
/// is written: escapes stay, since Java resolves none in a comment. A byte order mark at the front overrides the
/// encoding.
///
/// UTF-16 is refused. A source with a malformed escape in a pair is refused with the error of the first one; a comment
/// may have any text.
///
/// ```text
/// let source = b"# the user\n# of C:\\data\nuser = app\n";
/// if let Some(texts) = comment_of(alloc, source, Encoding::UTF_8, "user")? {
///     // They are `the user` and `of C:\data`.
///     assert!(rt; texts.len() == 2);
/// }
/// ```
pub fn comment_of(
    alloc: Global,
    source: &[u8],
    encoding: Encoding,
    key: &str,
) -> Result<Option<Vec<String>>, PropertiesError>
    ensures { TellsComment (encoding_of encoding) source.now (chars key.now) result }
{
    let mut view = View::open(alloc, source, encoding)?;
    let mut passed = Passed {
        above: Vec::new(alloc),
        last: LastRun::new(),
        comment: None,
    };
    while let Some(group) = view.next()? {
        passed.pass(alloc, group, view.line(), key)?;
    }
    Ok(passed.comment)
}

/// Returns the comment of a key of a document, as [`comment_of`] does. It copies the document's bytes and reads them.
///
/// ```text
/// let document = Document::parse(alloc, b"# the user\nuser = app\n", Encoding::UTF_8)?;
/// if let Some(texts) = comment_in(alloc, &document, "user")? {
///     assert!(rt; texts.len() == 1);
/// }
/// ```
pub fn comment_in(
    alloc: Global,
    document: &Document,
    key: &str,
) -> Result<Option<Vec<String>>, PropertiesError>
    ensures { TellsCommentIn document.now (chars key.now) result }
{
    let bytes = document.to_bytes()?;
    comment_of(alloc, &bytes, document.options().encoding, key)
}

// What is known of a key after some groups.
#[derive(Drop)]
struct Passed {
    // The texts of the comment lines that came last, with no other group and no separator behind them.
    above: Vec<String>,
    last: LastRun,
    // The comment of the last pair with the key.
    comment: Option<Vec<String>>,
}

impl Passed {
    // Passes one more group, of which this is the logical line.
    fn pass(
        &mut self,
        alloc: Global,
        group: ViewedGroup,
        line: &str,
        key: &str,
    ) -> Result<(), PropertiesError>
        requires kind { IsKindOf group.kind (chars line.now) }
        ensures { PassesGroup (is_line_of_comment group) group.line_number (chars line.now) (chars key.now)
            (passed_texts self.old) result (passed_texts self.new) }
    {
        self.separate(group, line);
        if is_comment_line(group) {
            return Ok(self.add_line(alloc, line)?);
        }
        if has_key(alloc, group, line, key)? {
            self.keep(alloc);
        } else {
            self.above.clear();
        }
        Ok(())
    }

    // Leaves out the comment lines that came last if they end in a separator.
    fn separate(&mut self, group: ViewedGroup, line: &str)
        requires { is_line_of_comment group ≡ true → is_comment_line (chars line.now) ≡ true }
        ensures { LeavesOut (is_line_of_comment group) (chars line.now) (passed_texts self.old) (passed_texts self.new) }
    {
        if self.last.pass(group, line) {
            self.above.clear();
        }
    }

    // Adds the text of a comment line.
    fn add_line(&mut self, alloc: Global, line: &str) -> Result<(), AllocError>
        requires { is_comment_line (chars line.now) ≡ true }
        ensures { OnOk result (AddsPassedLine (chars line.now) (passed_texts self.old) (passed_texts self.new)) }
    {
        self.above
            .push(String::from_str(alloc, comment_text(line))?)?;
        Ok(())
    }

    // Makes the comment lines that came last the comment of the key.
    fn keep(&mut self, alloc: Global)
        ensures { passed_texts self.new ≡ after_other true (passed_texts self.old) }
    {
        let above = mem::replace(&mut self.above, Vec::new(alloc));
        self.comment = Some(above);
    }
}

// Returns whether a group, of which this is the logical line, is a pair with the key.
fn has_key(
    alloc: Global,
    group: ViewedGroup,
    line: &str,
    key: &str,
) -> Result<bool, PropertiesError>
    requires { IsKindOf group.kind (chars line.now) }
    ensures { TellsKey group.line_number (chars line.now) (chars key.now) result }
{
    let GroupKind::Pair = group.kind else {
        return Ok(false);
    };
    let Some(found) = find_item(alloc, group.line_number, line)? else {
        return Ok(false);
    };
    match pair_texts(&found, line) {
        Some((found_key, _)) => Ok(is_same(found_key, key)),
        None => Ok(false),
    }
}

fn is_same(found: &str, key: &str) -> bool
    ensures { result ≡ bytes_eq (chars found.now) (chars key.now) }
{
    found == key
}
