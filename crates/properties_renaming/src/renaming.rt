// Renames a key of a source, and keeps every other byte.

ghost use Rattle.std.specs.Prelude.{◌≡◌, ◌≤◌, length, drop, IfErr, IfOk, OnOk};
ghost use Rattle.std.specs.Str.{chars};
ghost use Rattle.properties_format.specs.Encoding.{in_encoding, latin_1_in, output_encoding};
ghost use Rattle.properties_format.specs.Text.{is_line_ending};
ghost use Rattle.properties_text.specs.Encoding.{encoding_of};
ghost use Rattle.properties_items.specs.Errors.{IsBareError};
ghost use Rattle.properties_items.specs.declared.error.ErrorKind.TheVariants as kind;
ghost use Rattle.properties_editing.specs.Editing.{asked_for};
ghost use Rattle.properties_editing.specs.Views.{IsGroup, viewed_line};
ghost use Rattle.properties_renaming.specs.Renaming.{RenamesKey};
ghost use Rattle.properties_renaming.specs.Renames.{name_in, new_name};
ghost use Rattle.properties_renaming.specs.Private.Renaming.{AppendsKey, IsAmong, IsAnyPair, IsSlice, PrintsKeys, RekeysIn, TellsSign, is_join, later, past_joins};

use crate::copied::Copied;
use crate::renames::{Rename, Run, rename_some};
use properties_editing::{SourceOptions, View, ViewedGroup, edit_with};
use properties_items::error::PropertiesError;
use properties_text::characters::is_blank;
use properties_text::encoding::{Encoding, LineEncoding};
use properties_text::parse::{ParsedSpans, are_blanks, parse_spans};
use properties_text::print::{LineBuffer, PairLayout, Repertoire, print_texts};
use std::alloc::{AllocError, Global};
use std::error::Error;
use std::{fmt, slice};

/// Why [`rename_key`] renamed nothing, or [`set_comment`](crate::set_comment) set nothing, in a source or a document.
#[derive(Debug, Drop)]
pub enum RenameError {
    /// The source can't be edited, or memory ran out.
    Source(PropertiesError),
    /// No pair has the key.
    NoKey,
    /// A pair has the new key of `rename_key` already: the first one begins in this line.
    KeyTaken(usize),
}

impl From<PropertiesError> for RenameError {
    ghost use Rattle.properties_renaming.specs.declared.renaming.RenameError.TheVariants.{Source};

    ghost from_gives = { λ error from. from ≡ Source error };

    fn from(error: PropertiesError) -> RenameError {
        RenameError::Source(error)
    }
}

impl fmt::Display for RenameError {
    fn fmt<W: fmt::Write>(&self, f: &mut fmt::Formatter<W>) -> fmt::Result {
        match self {
            RenameError::Source(error) => write!(f, "{error}"),
            RenameError::NoKey => f.write_str("no pair has the key"),
            RenameError::KeyTaken(number) => {
                write!(f, "the new key is there already (line_number = {number})")
            }
        }
    }
}

impl Error for RenameError {}

/// Returns the source with a key renamed where it stands.
///
/// Of each pair with the key `old`, the bytes of the key are replaced by `new`, printed as
/// [`edit_with`] prints a new key with these options. Every other byte stays: the indentation, what separates key and
/// value, the value with its continuations, and the line endings. Keys are compared as they are read, with escapes
/// resolved. A key that goes on over several lines becomes one text, and what joins lines before it stays. If `new` is
/// empty and blanks alone, or nothing, follow it, an equals sign is put in its place. At the front of the source, its
/// first character is printed as an escape if the source would begin like a byte order mark. If `new` is `old`, the
/// result is a copy of the source.
///
/// The source is read twice.
///
/// Fails with [`NoKey`](RenameError::NoKey) if no pair has the key `old`, and then with
/// [`KeyTaken`](RenameError::KeyTaken) if a pair has the key `new` already. Before that, a source is refused with the
/// error of [`edit_with`].
///
/// ```text
/// let options = SourceOptions::new(Encoding::UTF_8);
/// let renamed = rename_key(alloc, b"  login.user : me\n", options, "login.user", "user")?;
/// // It is `  user : me` and a line feed.
/// ```
pub fn rename_key(
    alloc: Global,
    source: &[u8],
    options: SourceOptions,
    old: &str,
    new: &str,
) -> Result<Vec<u8>, RenameError>
    ensures { RenamesKey options source.now (chars old.now) (chars new.now) result }
{
    // Refuses a source that an edit would refuse.
    edit_with(alloc, source, options, &[])?;
    let rename = rename_of(alloc, old, new)?;
    let Run { bytes, .. } = rename_some(alloc, source, options, slice::from_ref(&rename))?;
    Ok(bytes)
}

// Returns a rename with copies of both keys.
fn rename_of(alloc: Global, old: &str, new: &str) -> Result<Rename, PropertiesError>
    ensures same { IfOk result (λ rename. name_in rename ≡ new_name (chars old.now) (chars new.now)) }
    ensures memory { IfErr result (IsBareError kind.Memory) }
{
    let old = String::from_str(alloc, old)?;
    let new = String::from_str(alloc, new)?;
    Ok(Rename { old, new })
}

// A key that is put in: how it is printed, and whether it is in the first group.
#[derive(Clone, Copy)]
pub(crate) struct NewKey<'a> {
    pub(crate) repertoire: Repertoire,
    pub(crate) first: bool,
    pub(crate) text: &'a str,
}

// Puts a key in place of that of the pair that the view gave last.
pub(crate) fn put_key(
    alloc: Global,
    copied: &mut Copied<'_>,
    view: &View<'_>,
    group: ViewedGroup,
    key: NewKey<'_>,
) -> Result<(), AllocError>
    requires group { IsGroup view.now group }
    requires among { IsAmong view.now.encoding view.now.group }
    requires pair { IsAnyPair (viewed_line view.now) }
    requires slice { IsSlice view.now copied.old.source.now }
    requires done { copied.old.done ≤ group.start }
    ensures { OnOk result (RekeysIn view.now copied.old key.entry copied.new) }
{
    let start = group.start + joins_size(&copied.source()[group.start..group.next]);
    let end = later(start, view.places()?.key_end);
    let is_first = key.first && start == group.start;
    let mut text = LineBuffer::new(alloc);
    print_key(&mut text, key.repertoire, is_first, view.line(), key.text)?;
    copied.replace(start, end, text.as_slice())
}

// Returns how many bytes come before a key: blanks, and backslashes and line endings that join
// lines.
fn joins_size(bytes: &[u8]) -> usize
    ensures within { result ≤ length bytes.now }
    ensures rest { drop result bytes.now ≡ past_joins bytes.now }
{
    let mut at = 0;
    while is_join(&bytes[at..]) {
        at += 1;
    }
    at
}

// Returns whether the first byte is a blank, or a part of what joins two lines.
fn is_join(bytes: &[u8]) -> bool
    ensures { result ≡ is_join bytes.now }
{
    match bytes {
        [] => false,
        [b'\\', next, ..] => is_line_ending(*next),
        [first, ..] => is_blank(char::from(*first)) || is_line_ending(*first),
    }
}

fn is_line_ending(byte: u8) -> bool
    ensures { result ≡ is_line_ending byte }
{
    byte == b'\n' || byte == b'\r'
}

fn later(a: usize, b: usize) -> usize
    ensures { result ≡ later a b }
{
    if a <= b { b } else { a }
}

// Appends what is put in for the key of the pair that is this logical line.
fn print_key(
    text: &mut LineBuffer,
    repertoire: Repertoire,
    first: bool,
    line: &str,
    key: &str,
) -> Result<(), AllocError>
    ensures { AppendsKey repertoire first (chars line.now) (chars key.now) text.old result text.new }
{
    if key.is_empty() {
        if has_sign(line) {
            return Ok(());
        }
        return text.extend(b"=");
    }
    let layout = PairLayout {
        repertoire,
        first,
        separator: "",
        ending: "",
    };
    print_texts(text, layout, key, "")
}

// Returns whether a sign separates the key and the value of the pair that is this logical line.
fn has_sign(line: &str) -> bool
    ensures { TellsSign (chars line.now) result }
{
    match parse_spans(line) {
        Some(ParsedSpans::KVPair(key, value)) => !are_blanks(&line[key.end..value.start]),
        Some(ParsedSpans::Comment(_)) => false,
        None => false,
    }
}

// Returns the characters that are printed as they are by these options, in this encoding.
pub(crate) fn repertoire_for(options: SourceOptions, encoding: Encoding) -> Repertoire
    ensures { let output = output_encoding (encoding_of encoding) in
        PrintsKeys (in_encoding (asked_for options) output) result }
{
    if options.ascii_only {
        return Repertoire::Ascii;
    }
    if options.latin_1 {
        return latin_1_in(encoding);
    }
    let line_encoding = LineEncoding::from(encoding);
    Repertoire::from(line_encoding)
}

// Returns the characters of an encoding whose bytes ISO 8859-1 reads alike. Of UTF-8, these are
// those of ASCII.
fn latin_1_in(encoding: Encoding) -> Repertoire
    ensures { PrintsKeys (latin_1_in (output_encoding (encoding_of encoding))) result }
{
    match encoding {
        Encoding::WINDOWS_1252 => Repertoire::Latin1,
        _ => Repertoire::Ascii,
    }
}
