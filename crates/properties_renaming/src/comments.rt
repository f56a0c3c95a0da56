// The comments of keys: the comment lines directly above a pair.

ghost use Rattle.std.specs.Prelude.{◌≡◌, ◌∷◌, [], ◌<◌, ◌++◌, length, map, IfOk, OnSome};
ghost use Rattle.std.specs.Str.{chars};
ghost use Rattle.properties_format.specs.Edited.{guarding_lf};
ghost use Rattle.properties_items.specs.Texts.{characters};
ghost use Rattle.properties_text.specs.Encoding.{encoding_of};
ghost use Rattle.properties_renaming.specs.Commented.{RemovesWithComments};
ghost use Rattle.properties_renaming.specs.Private.Commented.{GivesHeaded, LeavesOthers, AreListed};

use crate::comment_lines::is_comment_line;
use crate::copied::Copied;
use crate::keyed::{give_value, value_of};
use crate::separators::LastRun;
use properties_editing::{SourceOptions, View, ViewedGroup, edit_with};
use properties_items::error::PropertiesError;
use properties_text::encoding::Encoding;
use properties_text::encoding::byte_order_mark::begins_like_byte_order_mark;
use std::alloc::{AllocError, Global};
use std::collections::BTreeMap;
use std::slice;

/// Returns the source without the pairs that have a key, and without the comment lines directly above each of them.
///
/// No blank line, no pair and no separator of Spring's documents is between a pair and its comment lines. Every pair
/// with the key is left out, with its line endings. Every other byte stays as it is, with one exception: if the source
/// has no byte order mark and the rest would begin like one, a line feed is inserted before it. If no pair has the key,
/// the result is a copy of the source.
///
/// The source is read twice. It is refused with the error of [`edit_with`].
///
/// ```text
/// let source = b"# the front door\nport = 80\n\n# another\nhost = a\n";
/// let options = SourceOptions::new(Encoding::UTF_8);
/// let edited = remove_with_comment(alloc, source, options, "port")?;
/// // It is an empty line, and the lines `# another` and `host = a`.
/// ```
pub fn remove_with_comment(
    alloc: Global,
    source: &[u8],
    options: SourceOptions,
    key: &str,
) -> Result<Vec<u8>, PropertiesError>
    ensures { RemovesWithComments options source.now (chars key.now ∷ []) result }
{
    // What an edit would refuse is refused.
    edit_with(alloc, source, options, &[])?;
    let key = String::from_str(alloc, key)?;
    let bytes = without_keys(alloc, source, options.encoding, slice::from_ref(&key))?;
    Ok(bytes)
}

/// Returns the source without the pairs that have one of these keys, and without the comment lines directly above each
/// of them, as [`remove_with_comment`] does for one key. The source is read twice, however many keys there are.
///
/// ```text
/// let source = b"# the front door\nport = 80\nhost = a\n";
/// let keys = vec![in alloc; port, host]?;
/// let edited = remove_with_comments(alloc, source, options, &keys)?;
/// // It is empty.
/// ```
pub fn remove_with_comments(
    alloc: Global,
    source: &[u8],
    options: SourceOptions,
    keys: &[String],
) -> Result<Vec<u8>, PropertiesError>
    ensures { RemovesWithComments options source.now (map characters keys.now) result }
{
    // What an edit would refuse is refused.
    edit_with(alloc, source, options, &[])?;
    let bytes = without_keys(alloc, source, options.encoding, keys)?;
    Ok(bytes)
}

// Returns the source without the pairs with these keys and the comment lines directly above them.
fn without_keys(
    alloc: Global,
    source: &[u8],
    encoding: Encoding,
    keys: &[String],
) -> Result<Vec<u8>, PropertiesError>
    ensures { LeavesOthers (encoding_of encoding) source.now (map characters keys.now) result }
{
    let listed = listed_keys(alloc, keys)?;
    let mut view = View::open(alloc, source, encoding)?;
    let mut copied = Copied::new(alloc, source)?;
    while let Some(headed) = next_headed(&mut view)? {
        if value_of(alloc, &listed, view.line())?.is_some() {
            copied.replace(headed.start, headed.group.next, b"")?;
        }
    }
    let others = copied.finish()?;
    let bytes = guarded(source, others)?;
    Ok(bytes)
}

// Returns the keys of a list.
fn listed_keys(alloc: Global, keys: &[String]) -> Result<BTreeMap<String, ()>, AllocError>
    ensures { IfOk result (λ listed. AreListed (map characters keys.now) listed.entries) }
{
    let mut listed = BTreeMap::new(alloc);
    for key in keys {
        give_value(alloc, &mut listed, key, ())?;
    }
    Ok(listed)
}

// A group that isn't a comment line, with its comment: the comment lines directly above it, back to the last separator.
#[derive(Clone, Copy)]
pub(crate) struct Headed {
    // Where the first of these lines begins, or the group if there is none.
    pub(crate) start: usize,
    pub(crate) group: ViewedGroup,
}

// Returns the next group that isn't a comment line, or `None` if comment lines alone are to come.
fn next_headed(view: &mut View<'_>) -> Result<Option<Headed>, AllocError>
    ensures gives { IfOk result (λ headed. GivesHeaded view.old headed view.new) }
    ensures nearer { IfOk result (λ headed. OnSome headed (length view.new.to_come < length view.old.to_come)) }
{
    let mut above: Option<usize> = None;
    let mut last = LastRun::new();
    while let Some(group) = view.next()? {
        if last.pass(group, view.line()) {
            above = None;
        }
        let start = above.unwrap_or(group.start);
        if !is_comment_line(group) {
            return Ok(Some(Headed { start, group }));
        }
        above = Some(start);
    }
    Ok(None)
}

// Returns these bytes, with a line feed before them if they begin like a byte order mark and the source doesn't.
pub(crate) fn guarded(source: &[u8], mut bytes: Vec<u8>) -> Result<Vec<u8>, AllocError>
    ensures { IfOk result (λ all. all.items ≡ guarding_lf source.now bytes.items ++ bytes.items) }
{
    if begins_like_byte_order_mark(&bytes) && !begins_like_byte_order_mark(source) {
        bytes.insert(0, b'\n')?;
    }
    Ok(bytes)
}
