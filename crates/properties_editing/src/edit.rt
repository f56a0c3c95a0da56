//! Sets and removes keys of a file, and keeps every other byte.

ghost use Rattle.std.specs.Prelude.{◌≡◌, IfOk};
ghost use Rattle.std.specs.Str.{chars};
ghost use Rattle.properties_format.specs.Laws.{SplittingCommutes};
ghost use Rattle.properties_text.specs.Encoding.{encoding_of};
ghost use Rattle.properties_editing.specs.Editing.{EditsAll, EditsWith, RemovesKey, SetsKey, SetsValue, edit_in, edits_in};
ghost use Rattle.properties_editing.specs.Private.Sources.{borrowed_edit_in};

use crate::plan::{edit_once, edit_source};
use crate::source::SourceOptions;
use properties_items::error::PropertiesError;
use properties_text::encoding::Encoding;
use std::alloc::{AllocError, Global};

/// Returns the source with a key set to a value.
///
/// If a pair has the key, the last such pair is replaced by the printed pair, which keeps the line ending. Otherwise
/// the pair is appended, with a line feed. Before an appended pair comes a line ending if the last line has none, or
/// two if a backslash leaves that line open: CRs if the source ends in a CR, otherwise LFs. Every other byte stays as
/// it is, including a byte order mark.
///
/// Keys are compared with their escapes resolved. If a key at the front of a file begins like a byte order mark, its
/// first character is escaped.
///
/// UTF-16 is refused. A source with a malformed escape anywhere is refused with the error that reading the source would
/// return.
///
/// ```text
/// let source = b"# the front door\nport = 80\n";
/// let edited = set_key(alloc, source, Encoding::UTF_8, "port", "8080")?;
/// // It is `# the front door`, a line feed, `port=8080` and a line feed.
/// ```
pub fn set_key(
    alloc: Global,
    source: &[u8],
    encoding: Encoding,
    key: &str,
    value: &str,
) -> Result<Vec<u8>, PropertiesError>
    ensures sets { SetsKey (encoding_of encoding) source.now (chars key.now) (chars value.now) result }
    ensures splitting { SplittingCommutes (encoding_of encoding) source.now }
{
    edit_once(
        alloc,
        source,
        SourceOptions::new(encoding),
        BorrowedEdit::Put(key, value),
    )
}

/// Returns the source with the value of a key set, and the layout of its line kept.
///
/// If the last pair with the key has the value, no byte changes. If it has another value, the pair keeps its bytes up
/// to the end of its separator, or of its key if nothing separates key and value, and it keeps its last line ending:
/// the indentation, the key as it is spelt, and the separator with the blanks around it. The new value replaces
/// everything between the two, including continuations. If nothing separates key and value, an equals sign comes before
/// the value.
///
/// If no pair has the key, a pair is appended that looks like the last pair of the source: it has that pair's
/// separator, with each run of blanks cut to its first one. The separator is an equals sign if there is no pair, if the
/// last pair has no separator, or if that one is blanks alone and the new key is empty. The pair ends in the last line
/// ending of the source, or in a line feed if it has none. Before it comes one such line ending if the last line has
/// none, or two if a backslash leaves that line open. A key at the front of a file is escaped as [`set_key`] escapes
/// it.
///
/// In the value, backslashes, characters below the space, and those that the encoding doesn't have are escaped as a
/// writer escapes them. A first space becomes `\ `, since a reader would skip it. A last space becomes `\u0020`, which
/// survives editors that trim lines. A first `=` or `:` takes a backslash if blanks alone separate it from the key.
/// Everything else is written as it is. Every byte outside the pair stays, including a byte order mark.
///
/// UTF-16 is refused. A source with a malformed escape anywhere is refused with the error that reading the source would
/// return.
///
/// ```text
/// let source = b"url    = http://a\nport = 80\n";
/// let edited = set_value(alloc, source, Encoding::UTF_8, "url", "https://b:8443/a b")?;
/// // It is `url    = https://b:8443/a b`, a line feed, `port = 80` and a line feed.
/// ```
pub fn set_value(
    alloc: Global,
    source: &[u8],
    encoding: Encoding,
    key: &str,
    value: &str,
) -> Result<Vec<u8>, PropertiesError>
    ensures sets { SetsValue (encoding_of encoding) source.now (chars key.now) (chars value.now) result }
{
    edit_once(
        alloc,
        source,
        SourceOptions::new(encoding),
        BorrowedEdit::SetValue(key, value),
    )
}

/// Returns the source without the pairs that have a key.
///
/// Every pair with the key is left out together with its line endings, even if it spans several lines. Every other byte
/// stays as it is, with one exception: if the source has no byte order mark and the rest would begin like one, a line
/// feed is inserted before it.
///
/// UTF-16 is refused. A source with a malformed escape anywhere is refused with the error that reading the source would
/// return.
///
/// ```text
/// let source = b"# the front door\nport = 80\nhost = a\n";
/// let edited = remove_key(alloc, source, Encoding::UTF_8, "port")?;
/// // It is `# the front door`, a line feed, `host = a` and a line feed.
/// ```
pub fn remove_key(
    alloc: Global,
    source: &[u8],
    encoding: Encoding,
    key: &str,
) -> Result<Vec<u8>, PropertiesError>
    ensures removes { RemovesKey (encoding_of encoding) source.now (chars key.now) result }
    ensures splitting { SplittingCommutes (encoding_of encoding) source.now }
{
    edit_once(
        alloc,
        source,
        SourceOptions::new(encoding),
        BorrowedEdit::Remove(key),
    )
}

/// An edit of one key.
#[derive(Debug, Clone, PartialEq, Eq, Drop)]
pub enum Edit {
    /// Sets a key to a value, as [`set_key`] does.
    Put(String, String),
    /// Removes a key, as [`remove_key`] does.
    Remove(String),
    /// Sets the value of a key and keeps the layout of its line, as [`set_value`] does.
    SetValue(String, String),
}

/// An edit of one key, by texts that its caller keeps.
#[derive(Clone, Copy)]
pub enum BorrowedEdit<'a> {
    /// As [`Edit::Put`].
    Put(&'a str, &'a str),
    /// As [`Edit::Remove`].
    Remove(&'a str),
    /// As [`Edit::SetValue`].
    SetValue(&'a str, &'a str),
}

impl BorrowedEdit<'_> {
    /// Returns the edit, with copies of its texts.
    pub fn to_edit(self, alloc: Global) -> Result<Edit, AllocError>
        ensures { IfOk result (λ edit. edit_in edit ≡ borrowed_edit_in self.entry) }
    {
        Ok(match self {
            BorrowedEdit::Put(key, value) => Edit::Put(
                String::from_str(alloc, key)?,
                String::from_str(alloc, value)?,
            ),
            BorrowedEdit::Remove(key) => Edit::Remove(String::from_str(alloc, key)?),
            BorrowedEdit::SetValue(key, value) => Edit::SetValue(
                String::from_str(alloc, key)?,
                String::from_str(alloc, value)?,
            ),
        })
    }
}

/// Returns the source after these edits, in order: each edit applies to the result of the one before it.
///
/// Without edits, the result is a copy of the source. The source is read once, and the result is made once, after the
/// last edit. Each edit takes a few comparisons for each doubling of the number of keys in the list, and a removal also
/// a step for each pair with its key. No edit moves what it doesn't change. [`Edit::SetValue`] also reads the pair that
/// it changes or, if no pair has the key, the last pair that is left.
///
/// UTF-16 is refused. A source with a malformed escape anywhere is refused with the error that reading the source would
/// return.
///
/// ```text
/// let edits = vec![in alloc; Edit::Put(port, value), Edit::Remove(host)]?;
/// let edited = edit_all(alloc, source, Encoding::UTF_8, &edits)?;
/// ```
pub fn edit_all(
    alloc: Global,
    source: &[u8],
    encoding: Encoding,
    edits: &[Edit],
) -> Result<Vec<u8>, PropertiesError>
    ensures edits { EditsAll (encoding_of encoding) source.now (edits_in edits.now) result }
    ensures splitting { SplittingCommutes (encoding_of encoding) source.now }
{
    edit_source(alloc, source, SourceOptions::new(encoding), edits)
}

/// Returns the source after these edits, as [`edit_all`] does, with these options.
///
/// If `ascii_only` is set, the keys and values that edits put in are ASCII. If the source is ASCII, so is the result,
/// and it has the same items in windows-1252 and in UTF-8. If Java reads the file by `Properties.load`, from an
/// `InputStream`, characters past U+00FF need such escapes, and in UTF-8 all past U+007F.
///
/// If comments are passed over, only a malformed escape in a pair is an error. UTF-16 is refused.
///
/// ```text
/// let options = SourceOptions {
///     ascii_only: true,
///     comments: Comments::PassedOver,
///     ..SourceOptions::new(Encoding::UTF_8)
/// };
/// let edits = vec![in alloc; Edit::SetValue(price, value)]?;
/// let edited = edit_with(alloc, b"# C:\\users\nprice = 4\n", options, &edits)?;
/// // If the value is `5 €`: `# C:\users`, a line feed, `price = 5 \u20ac` and a line feed.
/// ```
pub fn edit_with(
    alloc: Global,
    source: &[u8],
    options: SourceOptions,
    edits: &[Edit],
) -> Result<Vec<u8>, PropertiesError>
    ensures edits { EditsWith options source.now (edits_in edits.now) result }
    ensures splitting { SplittingCommutes (encoding_of options.encoding) source.now }
{
    edit_source(alloc, source, options, edits)
}
