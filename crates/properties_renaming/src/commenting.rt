// Comments of keys are set: the comment lines directly above the last pairs with them.

ghost use Rattle.std.specs.Prelude.{◌≡◌, ◌<◌, ◌≤◌, List, flat_map, length, map, IfErr, IfOk, IfSome, OnOk, OnSome};
ghost use Rattle.std.specs.Str.{chars};
ghost use Rattle.properties_format.specs.Text.{is_line_ending};
ghost use Rattle.properties_format.specs.Body.{HeldLine, group_bytes};
ghost use Rattle.properties_format.specs.Computed.Lines.{ends_in_cr};
ghost use Rattle.properties_items.specs.Errors.{IsBareError};
ghost use Rattle.properties_items.specs.Texts.{characters};
ghost use Rattle.properties_items.specs.declared.error.ErrorKind.TheVariants as kind;
ghost use Rattle.properties_text.specs.Encoding.{encoding_of};
ghost use Rattle.properties_text.specs.Printing.{AppendsOnOk};
ghost use Rattle.properties_editing.specs.Editing.{asked_for};
ghost use Rattle.properties_renaming.specs.Commenting.{AreCommentLines, IsStyleAbove, IsStyleOfLine, SetsComment, SetsComments, ending_or, gap_before, new_text, other_sign, style_below, text_in, texts_in};
ghost use Rattle.properties_renaming.specs.Sections.{Section};
ghost use Rattle.properties_renaming.specs.Private.CommentTexts.{first_blank};
ghost use Rattle.properties_renaming.specs.Private.Commenting.{AreIndicesBelow, AreIndicesOf, FindsLines, GivesComment, HasLastLines, HoldsGroup, HoldsLine, IsFoundStyle, IsLastEndingOf, IsSectionAt, MakesComments, PutsComments, ReadsCharacter, SetsLines, TellsFirst, first_model, comment_line_bytes, index_at, line_feed_after, style_in};

use crate::comment_lines::{comment_text, is_comment_line};
use crate::comments::{Headed, guarded};
use crate::copied::Copied;
use crate::keyed::{give_value, value_at, value_of};
use crate::renames::RenamesError;
use crate::renaming::{RenameError, repertoire_for};
use crate::separators::LastRun;
use properties_editing::{SourceOptions, View, ViewedGroup, edit_with};
use properties_items::error::PropertiesError;
use properties_text::encoding::Encoding;
use properties_text::encoding::byte_order_mark::encoding_in_force;
use properties_text::parse::leading_blanks;
use properties_text::print::{LineBuffer, Place, Repertoire, print_text};
use std::alloc::{AllocError, Global};
use std::collections::BTreeMap;
use std::{mem, slice};

/// A key, and the text that its comment gets.
#[derive(Debug, Drop)]
pub struct NewComment {
    /// The key that a pair has.
    pub key: String,
    /// Each of its lines becomes a comment line. The empty text has none.
    pub text: String,
}

/// Returns the source with the comment of a key set: the comment lines directly above the last pair with the key, down
/// from the last separator of Spring's documents, a line `#---` or `!---`.
///
/// `text` is divided at line feeds, carriage returns and both together, and a last empty line doesn't count. So the
/// empty text removes the comment, and a line feed alone makes one line, `#`. If the comment has these lines already,
/// the result is a copy of the source. Otherwise new lines replace the old ones, and every other byte stays.
///
/// New lines look like the first old one that has a text: its indentation, its sign, the blank after it or none, and its
/// line ending. If there is none, they have the indentation of the pair, `# `, and the line ending of the pair. If the
/// pair has none, since the source ends there, they have the last line ending of the source, or a line feed if it has
/// none at all. Directly below a separator they have the sign that it doesn't have, so that it stays one. No blank is
/// before an empty text, and one always is before a text that begins with a blank, so that it is read as it is.
/// Characters that these options don't let stand are written as escapes, and no others: a backslash stays. If the source
/// has no byte order mark and the result would begin like one, a line feed is inserted before it.
///
/// The source is read three times.
///
/// Fails with [`NoKey`](RenameError::NoKey) if no pair has the key. Before that, a source is refused with the error of
/// [`edit_with`].
///
/// ```text
/// let options = SourceOptions::new(Encoding::UTF_8);
/// let commented = set_comment(alloc, b"port = 80\n", options, "port", "the front door")?;
/// // It is `# the front door` and `port = 80`, each with a line feed.
/// ```
pub fn set_comment(
    alloc: Global,
    source: &[u8],
    options: SourceOptions,
    key: &str,
    text: &str,
) -> Result<Vec<u8>, RenameError>
    ensures { SetsComment options source.now (chars key.now) (chars text.now) result }
{
    // What an edit would refuse is refused.
    edit_with(alloc, source, options, &[])?;
    let comment = new_comment(alloc, key, text)?;
    match with_comments(alloc, source, options, slice::from_ref(&comment))? {
        Commented::Bytes(bytes) => Ok(bytes),
        Commented::NoKey(_) => Err(RenameError::NoKey),
    }
}

/// Returns the source with the comments of keys set, each as [`set_comment`] would set it. The source is read three times,
/// however many comments there are.
///
/// Of several texts for one key, the last one counts.
///
/// Fails with [`NoKey`](RenamesError::NoKey) if no pair has the key of a comment, and tells the index of the first such
/// comment. Before that, a source is refused with the error of [`edit_with`].
///
/// ```text
/// let comments = [NewComment { key: host, text: its_name }, NewComment { key: port, text: the_front_door }];
/// let commented = set_comments(alloc, b"host = a\nport = 80\n", options, &comments)?;
/// // There is a comment line above each pair.
/// ```
pub fn set_comments(
    alloc: Global,
    source: &[u8],
    options: SourceOptions,
    comments: &[NewComment],
) -> Result<Vec<u8>, RenamesError>
    ensures { SetsComments options source.now (texts_in comments.now) result }
{
    // What an edit would refuse is refused.
    edit_with(alloc, source, options, &[])?;
    match with_comments(alloc, source, options, comments)? {
        Commented::Bytes(bytes) => Ok(bytes),
        Commented::NoKey(index) => Err(RenamesError::NoKey(index)),
    }
}

fn new_comment(alloc: Global, key: &str, text: &str) -> Result<NewComment, PropertiesError>
    ensures same { IfOk result (λ comment. text_in comment ≡ new_text (chars key.now) (chars text.now)) }
    ensures memory { IfErr result (IsBareError kind.Memory) }
{
    Ok(NewComment {
        key: String::from_str(alloc, key)?,
        text: String::from_str(alloc, text)?,
    })
}

// A source with comments set, or the index of the first comment whose key no pair has.
#[derive(Drop)]
enum Commented {
    Bytes(Vec<u8>),
    NoKey(usize),
}

// Returns the source with the comments of keys set.
fn with_comments(
    alloc: Global,
    source: &[u8],
    options: SourceOptions,
    comments: &[NewComment],
) -> Result<Commented, PropertiesError>
    ensures { MakesComments (asked_for options) source.now (texts_in comments.now) result }
{
    let indices = indices_of(alloc, comments)?;
    let lines = last_lines(alloc, source, options.encoding, &indices, comments.len())?;
    if let Some(index) = first_without(&indices, comments, &lines) {
        return Ok(Commented::NoKey(index));
    }
    let others = with_new_lines(alloc, source, options, comments, &indices, &lines)?;
    let bytes = guarded(source, others)?;
    Ok(Commented::Bytes(bytes))
}

// Returns the index of the last comment for each key.
fn indices_of(alloc: Global, comments: &[NewComment]) -> Result<BTreeMap<String, usize>, AllocError>
    ensures { IfOk result (λ indices. AreIndicesOf (texts_in comments.now) indices.entries) }
{
    let mut indices = BTreeMap::new(alloc);
    for (index, comment) in comments.iter().enumerate() {
        give_value(alloc, &mut indices, &comment.key, index)?;
    }
    Ok(indices)
}

// Returns, for each comment, the line in which the last pair with its key begins, or 0 if there is none. Of several
// comments for one key, only the last one gets it; the others get 0.
fn last_lines(
    alloc: Global,
    source: &[u8],
    encoding: Encoding,
    indices: &BTreeMap<String, usize>,
    count: usize,
) -> Result<Vec<usize>, PropertiesError>
    requires { AreIndicesBelow count indices.now.entries }
    ensures { FindsLines (encoding_of encoding) source.now indices.now.entries count result }
{
    let mut view = View::open(alloc, source, encoding)?;
    let mut lines = vec![in alloc; 0; count]?;
    while let Some(group) = view.next()? {
        if let Some(index) = value_of(alloc, indices, view.line())? {
            lines[index] = group.line_number;
        }
    }
    Ok(lines)
}

// Returns the index of the first comment whose key no pair has.
fn first_without(
    indices: &BTreeMap<String, usize>,
    comments: &[NewComment],
    lines: &[usize],
) -> Option<usize>
    requires indices { AreIndicesBelow (length comments.now) indices.now.entries }
    requires sizes { length lines.now ≡ length comments.now }
    ensures { TellsFirst indices.now.entries lines.now (texts_in comments.now) result }
{
    for (index, comment) in comments.iter().enumerate() {
        if index_at(lines, value_at(indices, &comment.key), 0).is_some() {
            return Some(index);
        }
    }
    None
}

// Returns the index of a comment if the last pair with its key begins in this line. Line 0 stands for no pair.
fn index_at(lines: &[usize], index: Option<usize>, line: usize) -> Option<usize>
    requires { IfSome index (λ i. i < length lines.now) }
    ensures { result ≡ index_at lines.now index line }
{
    let index = index?;
    if lines[index] == line {
        Some(index)
    } else {
        None
    }
}

// Returns the source with new comment lines above the last pairs with these keys, which begin in these lines.
fn with_new_lines(
    alloc: Global,
    source: &[u8],
    options: SourceOptions,
    comments: &[NewComment],
    indices: &BTreeMap<String, usize>,
    lines: &[usize],
) -> Result<Vec<u8>, PropertiesError>
    requires sizes { length lines.now ≡ length comments.now }
    requires indices { AreIndicesOf (texts_in comments.now) indices.now.entries }
    requires found { HasLastLines (asked_for options).encoding source.now indices.now.entries lines.now }
    ensures { PutsComments (asked_for options) source.now (texts_in comments.now) result }
{
    let mut view = View::open(alloc, source, options.encoding)?;
    let (encoding, start) = encoding_in_force(source, options.encoding);
    let look = Look {
        repertoire: repertoire_for(options, encoding),
        ending: last_ending(&source[start..]),
    };
    let mut copied = Copied::new(alloc, source)?;
    while let Some(comment) = next_comment(alloc, &mut view)? {
        let last = value_of(alloc, indices, view.line())?;
        let line = comment.headed.group.line_number;
        if let Some(index) = index_at(lines, last, line) {
            let text = &comments[index].text;
            set_lines(alloc, &mut copied, look, &comment, text)?;
        }
    }
    let bytes = copied.finish()?;
    Ok(bytes)
}

// How new comment lines are printed, and the line ending that they have if their pair has none.
#[derive(Clone, Copy)]
struct Look<'a> {
    repertoire: Repertoire,
    ending: &'a [u8],
}

// A group that isn't a comment line, with its comment.
#[derive(Drop)]
struct Comment {
    headed: Headed,
    // What follows the sign and one blank, of each comment line.
    texts: Vec<String>,
    // The first of these lines that has a text.
    model: Option<ViewedGroup>,
    // The sign of a separator directly above these lines, or 0 if there is none.
    separator: u8,
}

// Returns the next group that isn't a comment line, with its comment, or `None` if comment lines alone are to come.
fn next_comment(alloc: Global, view: &mut View<'_>) -> Result<Option<Comment>, AllocError>
    ensures gives { IfOk result (λ comment. GivesComment view.old comment view.new) }
    ensures nearer { IfOk result (λ comment. OnSome comment (length view.new.to_come < length view.old.to_come)) }
{
    let mut texts = Vec::new(alloc);
    let mut model: Option<ViewedGroup> = None;
    let mut above: Option<usize> = None;
    let mut last = LastRun::new();
    let mut separator = 0;
    while let Some(group) = view.next()? {
        let sign = last.sign;
        if last.pass(group, view.line()) {
            texts.clear();
            model = None;
            above = None;
            separator = sign;
        }
        let start = above.unwrap_or(group.start);
        if !is_comment_line(group) {
            return Ok(Some(Comment {
                headed: Headed { start, group },
                texts,
                model,
                separator,
            }));
        }
        let text = comment_text(view.line());
        model = first_model(model, group, text);
        texts.push(String::from_str(alloc, text)?)?;
        above = Some(start);
    }
    Ok(None)
}

// Returns the first comment line that has a text, given that before this one.
fn first_model(model: Option<ViewedGroup>, line: ViewedGroup, text: &str) -> Option<ViewedGroup>
    ensures { result ≡ first_model model line (chars text.now) }
{
    if text.is_empty() {
        return model;
    }
    Some(model.unwrap_or(line))
}

// Puts the lines of a text in place of the comment lines that the view gave last, unless they have these texts already.
fn set_lines(
    alloc: Global,
    copied: &mut Copied<'_>,
    look: Look<'_>,
    comment: &Comment,
    text: &str,
) -> Result<(), AllocError>
    requires at { (s : Section) × IsSectionAt copied.old.source.now comment.now s }
    requires done { copied.old.done ≤ comment.now.headed.start }
    ensures { OnOk result (SetsLines copied.old look.entry comment.now (chars text.now) copied.new) }
{
    let lines = lines_of(alloc, text)?;
    if comment.texts == lines {
        return Ok(());
    }
    let style = style_for(copied.source(), comment, look.ending).below(comment.separator);
    let mut new = LineBuffer::new(alloc);
    print_lines(&mut new, look.repertoire, style, &lines)?;
    let Headed { start, group } = comment.headed;
    copied.replace(start, group.start, new.as_slice())
}

// What a comment line has around its text.
#[derive(Clone, Copy)]
struct Style<'a> {
    indent: &'a [u8],
    sign: u8,
    blank: &'a [u8],
    ending: &'a [u8],
}

impl<'a> Style<'a> {
    // Returns the style with another sign if it has that of the separator directly above, which would become a comment.
    fn below(self, separator: u8) -> Style<'a>
        ensures { style_in result ≡ style_below separator (style_in self.entry) }
    {
        if self.sign != separator {
            return self;
        }
        Style {
            sign: other_sign(separator),
            ..self
        }
    }
}

// Returns the comment sign that this one isn't.
fn other_sign(sign: u8) -> u8
    ensures { result ≡ other_sign sign }
{
    if sign == b'#' { b'!' } else { b'#' }
}

// Returns what new comment lines have, given the line ending that they have if the pair has none.
fn style_for<'a>(source: &'a [u8], comment: &Comment, other: &'a [u8]) -> Style<'a>
    requires { (s : Section) × IsSectionAt source.now comment.now s }
    ensures { IsFoundStyle source.now comment.now other.now (style_in result) }
{
    match comment.model {
        Some(line) => style_of(source, line, other),
        None => style_above(source, comment.headed.group, other),
    }
}

// Returns what a comment line has.
fn style_of<'a>(source: &'a [u8], line: ViewedGroup, other: &'a [u8]) -> Style<'a>
    requires { (g : List HeldLine) × HoldsLine source.now g line }
    ensures { (g : List HeldLine) → HoldsLine source.now g line → IsStyleOfLine other.now g (style_in result) }
{
    let bytes = bytes_of(source, line);
    let sign = leading_blanks(bytes);
    Style {
        indent: &bytes[..sign],
        sign: bytes[sign],
        blank: first_blank(&bytes[sign + 1..]),
        ending: ending_or(source, line, other),
    }
}

// Returns what the first comment line above a pair has.
fn style_above<'a>(source: &'a [u8], pair: ViewedGroup, other: &'a [u8]) -> Style<'a>
    requires { (g : List HeldLine) × HoldsGroup source.now g pair }
    ensures { (g : List HeldLine) → HoldsGroup source.now g pair → IsStyleAbove other.now g (style_in result) }
{
    let bytes = bytes_of(source, pair);
    Style {
        indent: &bytes[..leading_blanks(bytes)],
        sign: b'#',
        blank: b" ",
        ending: ending_or(source, pair, other),
    }
}

// Returns the bytes of a group.
fn bytes_of(source: &[u8], group: ViewedGroup) -> &[u8]
    requires { (g : List HeldLine) × HoldsGroup source.now g group }
    ensures { (g : List HeldLine) → HoldsGroup source.now g group → result.now ≡ group_bytes g }
{
    &source[group.start..group.next]
}

// Returns the blank that a text begins with, or nothing.
fn first_blank(bytes: &[u8]) -> &[u8]
    ensures { result.now ≡ first_blank bytes.now }
{
    if leading_blanks(bytes) == 0 {
        return b"";
    }
    &bytes[..1]
}

// Returns the line ending of a group, or another if it has none.
fn ending_or<'a>(source: &'a [u8], group: ViewedGroup, other: &'a [u8]) -> &'a [u8]
    requires { (g : List HeldLine) × HoldsGroup source.now g group }
    ensures { (g : List HeldLine) → HoldsGroup source.now g group → result.now ≡ ending_or other.now g }
{
    let ending = &source[group.end..group.next];
    if ending.is_empty() { other } else { ending }
}

// Returns the last line ending of a body, or a line feed if it has none.
fn last_ending(body: &[u8]) -> &[u8]
    ensures { IsLastEndingOf body.now result.now }
{
    let mut end = body.len();
    while end > 0 {
        match body[end - 1] {
            b'\n' => return line_feed_after(&body[..end - 1]),
            b'\r' => return b"\r",
            _ => end -= 1,
        }
    }
    b"\n"
}

// Returns the line ending that an LF after these bytes is, or the end of.
fn line_feed_after(front: &[u8]) -> &[u8]
    ensures { result.now ≡ line_feed_after front.now }
{
    if ends_in_cr(front) { b"\r\n" } else { b"\n" }
}

// Returns whether these bytes end in a CR.
fn ends_in_cr(bytes: &[u8]) -> bool
    ensures { result ≡ ends_in_cr bytes.now }
{
    if bytes.is_empty() {
        return false;
    }
    bytes[bytes.len() - 1] == b'\r'
}

// Appends comment lines with these texts.
fn print_lines(
    line: &mut LineBuffer,
    repertoire: Repertoire,
    style: Style<'_>,
    lines: &[String],
) -> Result<(), AllocError>
    ensures { AppendsOnOk line.old (flat_map (comment_line_bytes repertoire style.entry) (map characters lines.now)) result line.new }
{
    for text in lines {
        print_line(line, repertoire, style, text)?;
    }
    Ok(())
}

// Appends a comment line with this text.
fn print_line(
    line: &mut LineBuffer,
    repertoire: Repertoire,
    style: Style<'_>,
    text: &str,
) -> Result<(), AllocError>
    ensures { AppendsOnOk line.old (comment_line_bytes repertoire style.entry (chars text.now)) result line.new }
{
    line.extend(style.indent)?;
    line.extend(&[style.sign])?;
    line.extend(gap_before(style.blank, text))?;
    print_text(line, repertoire, Place::Prefix, text)?;
    line.extend(style.ending)
}

// Returns what comes between the sign and a text, so that it is read as it is.
fn gap_before<'a>(blank: &'a [u8], text: &str) -> &'a [u8]
    ensures { result.now ≡ gap_before blank.now (chars text.now) }
{
    if text.is_empty() {
        return b"";
    }
    if leading_blanks(text.as_bytes()) == 0 {
        return blank;
    }
    if blank.is_empty() {
        return b" ";
    }
    blank
}

// Returns the lines of a text. The last one counts only if it isn't empty.
fn lines_of(alloc: Global, text: &str) -> Result<Vec<String>, AllocError>
    ensures { IfOk result (λ lines. AreCommentLines (chars text.now) (map characters lines.items)) }
{
    let mut lines = TextLines {
        ended: Vec::new(alloc),
        last: String::new(alloc),
        after_cr: false,
    };
    for character in text.chars() {
        lines.push(alloc, character)?;
    }
    let TextLines {
        mut ended,
        last,
        ..
    } = lines;
    if !last.as_str().is_empty() {
        ended.push(last)?;
    }
    Ok(ended)
}

// The lines of a text, as far as it was read.
#[derive(Drop)]
struct TextLines {
    ended: Vec<String>,
    last: String,
    // Whether the text ends in a CR, to which an LF after it belongs.
    after_cr: bool,
}

impl TextLines {
    // Reads one more character.
    fn push(&mut self, alloc: Global, character: char) -> Result<(), AllocError>
        ensures { OnOk result (ReadsCharacter self.old character self.new) }
    {
        let after_cr = mem::replace(&mut self.after_cr, character == '\r');
        if !is_ending(character) {
            self.last.push(character)?;
        } else if !(after_cr && character == '\n') {
            let line = mem::replace(&mut self.last, String::new(alloc));
            self.ended.push(line)?;
        }
        Ok(())
    }
}

// Returns whether a character ends a line.
fn is_ending(character: char) -> bool
    ensures { result ≡ is_line_ending character }
{
    character == '\n' || character == '\r'
}
