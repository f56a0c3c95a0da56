// Edits of a source in parts.

ghost use Rattle.std.specs.Prelude.{◌≡◌, None, IfOk};
ghost use Rattle.std.specs.Option.{option_map};
ghost use Rattle.std.specs.Str.{chars};
ghost use Rattle.properties_format.specs.Computed.Valued.{separator_by};
ghost use Rattle.properties_format.specs.Edits.{AreEdited, IsEdited, put, remove, set_value};
ghost use Rattle.properties_text.specs.Encoding.{encoding_of};
ghost use Rattle.properties_lines.specs.LineSearch.{unit_size};
ghost use Rattle.properties_items.specs.Texts.{characters};
ghost use Rattle.properties_editing.specs.Editing.{asked_for, edit_in, edits_in};
ghost use Rattle.properties_editing.specs.Private.BodyParts.{AreUnplaced, is_named};
ghost use Rattle.properties_editing.specs.Private.ChangedParts.{key_place};
ghost use Rattle.properties_editing.specs.Private.EditedParts.{AreNamed, EditsParts, HaveParts, IsPairIn, RemovesFromParts, between_last, edit_key};
ghost use Rattle.properties_editing.specs.Private.Sound.{Returns};
ghost use Rattle.properties_editing.specs.Private.Sources.{IsBodyStartOf, borrowed_edit_in};

use crate::bytes::concatenated;
use crate::edit::{BorrowedEdit, Edit};
use crate::new_pair::{print_new, print_new_pair, separator_like};
use crate::new_value::new_value;
use crate::parts::NamedKeys;
use crate::parts::source_parts::SourceParts;
use crate::source::{BodyStart, SourceOptions};
use properties_items::error::PropertiesError;
use properties_items::line::LineEnding;
use properties_text::encoding::Encoding;
use properties_text::print::LineBuffer;
use std::alloc::{AllocError, Global};

/// Returns the source after these edits, in order: each edit applies to the result of the one before it.
///
/// The source is read once, and its bytes are joined once, after the last edit.
pub fn edit_source(
    alloc: Global,
    source: &[u8],
    options: SourceOptions,
    edits: &[Edit],
) -> Result<Vec<u8>, PropertiesError>
    ensures { Returns options.comments (encoding_of options.encoding) source.now (AreEdited (asked_for options) source.now (edits_in edits.now)) result }
{
    let opened = BodyStart::open(source, options)?;
    edit_opened(alloc, source, options, opened, edits)
}

/// Returns the source after this edit.
pub fn edit_once(
    alloc: Global,
    source: &[u8],
    options: SourceOptions,
    edit: BorrowedEdit<'_>,
) -> Result<Vec<u8>, PropertiesError>
    ensures { Returns options.comments (encoding_of options.encoding) source.now (IsEdited (asked_for options) source.now (borrowed_edit_in edit.entry)) result }
{
    // UTF-16 is refused before any memory is taken.
    let opened = BodyStart::open(source, options)?;
    let edit = edit.to_edit(alloc)?;
    edit_opened(alloc, source, options, opened, &[edit])
}

// Returns a source that was opened after these edits.
fn edit_opened(
    alloc: Global,
    source: &[u8],
    options: SourceOptions,
    opened: BodyStart,
    edits: &[Edit],
) -> Result<Vec<u8>, PropertiesError>
    requires { IsBodyStartOf source.now (asked_for options) opened }
    ensures { Returns options.comments (encoding_of options.encoding) source.now (AreEdited (asked_for options) source.now (edits_in edits.now)) result }
{
    let keys = keys_of(alloc, edits)?;
    let body = &source[opened.start..];
    let mut edited = SourceParts::read(alloc, opened, options.comments, body, keys)?;
    for edit in edits {
        make_edit(alloc, source, &mut edited, edit)?;
    }
    let bytes = edited.to_bytes(alloc, source)?;
    Ok(bytes)
}

// Returns the keys of these edits. None has places yet.
fn keys_of(alloc: Global, edits: &[Edit]) -> Result<NamedKeys, AllocError>
    ensures { IfOk result (λ keys. AreUnplaced keys × AreNamed (is_named keys) (edits_in edits.now)) }
{
    let mut keys = NamedKeys::new(alloc, false);
    for edit in edits {
        keys.name(alloc, key_of(edit))?;
    }
    Ok(keys)
}

// Returns the key of an edit.
fn key_of(edit: &Edit) -> &str
    ensures { chars result.now ≡ edit_key (edit_in edit.now) }
{
    match edit {
        Edit::Put(key, _) | Edit::Remove(key) | Edit::SetValue(key, _) => key.as_str(),
    }
}

// Makes an edit to the parts of this source.
fn make_edit(
    alloc: Global,
    source: &[u8],
    edited: &mut SourceParts,
    edit: &Edit,
) -> Result<(), AllocError>
    requires { HaveParts (edit_key (edit_in edit.now)) source.now edited.old }
    ensures { EditsParts (edit_in edit.now) source.now edited.old result edited.new }
{
    match edit {
        Edit::Put(key, value) => put(alloc, source, edited, key, value),
        Edit::SetValue(key, value) => set_value(alloc, source, edited, key, value),
        Edit::Remove(key) => {
            remove(source, edited, key);
            Ok(())
        }
    }
}

/// Removes the pairs with a key from the parts of this source, and returns whether there were any. Allocates nothing.
pub fn remove(source: &[u8], edited: &mut SourceParts, key: &str) -> bool
    requires { HaveParts (chars key.now) source.now edited.old }
    ensures parts { RemovesFromParts (chars key.now) source.now edited.old result edited.new }
    ensures all { edited.new.parts.keys.all ≡ edited.old.parts.keys.all }
{
    let start = edited.opened.start;
    edited.remove(&source[start..], key)
}

/// Sets a key to a value in the parts of this source. If memory runs out, they stand for the source as before.
pub fn put(
    alloc: Global,
    source: &[u8],
    edited: &mut SourceParts,
    key: &str,
    value: &str,
) -> Result<(), AllocError>
    requires { HaveParts (chars key.now) source.now edited.old }
    ensures parts { EditsParts (put (chars key.now) (chars value.now)) source.now edited.old result edited.new }
    ensures all { edited.new.parts.keys.all ≡ edited.old.parts.keys.all }
{
    let Some(place) = edited.parts.find(key) else {
        return add_key(alloc, source, edited, key, value);
    };
    let first = edited.is_first(place);
    let mut line = LineBuffer::new(alloc);
    print_new(&mut line, edited.opened, first, key, value)?;
    let bytes = line.as_slice().to_vec(alloc)?;
    let text = String::from_str(alloc, value)?;
    edited.parts.replace(place, key, bytes, text);
    Ok(())
}

// Sets a key that no pair has: adds a printed pair behind the parts.
fn add_key(
    alloc: Global,
    source: &[u8],
    edited: &mut SourceParts,
    key: &str,
    value: &str,
) -> Result<(), AllocError>
    requires parts { HaveParts (chars key.now) source.now edited.old }
    requires none { key_place edited.old.parts.keys (chars key.now) ≡ None }
    ensures parts { EditsParts (put (chars key.now) (chars value.now)) source.now edited.old result edited.new }
    ensures all { edited.new.parts.keys.all ≡ edited.old.parts.keys.all }
{
    let body = &source[edited.opened.start..];
    let by = edited.parts.safe_ending(body);
    let first = edited.is_first(edited.parts.parts.len());
    let mut line = LineBuffer::new(alloc);
    print_new(&mut line, edited.opened, first, key, value)?;
    let bytes = line.as_slice().to_vec(alloc)?;
    edited
        .parts
        .append(alloc, body, key, value, by, bytes, LineEnding::LF)
}

/// Sets the value of a key in the parts of this source, and keeps the layout of its line. If memory runs out, they
/// stand for the source as before.
pub fn set_value(
    alloc: Global,
    source: &[u8],
    edited: &mut SourceParts,
    key: &str,
    value: &str,
) -> Result<(), AllocError>
    requires { HaveParts (chars key.now) source.now edited.old }
    ensures parts { EditsParts (set_value (chars key.now) (chars value.now)) source.now edited.old result edited.new }
    ensures all { edited.new.parts.keys.all ≡ edited.old.parts.keys.all }
{
    let Some(place) = edited.parts.find(key) else {
        return add_value(alloc, source, edited, key, value);
    };
    let pair = edited.parts.text(&source[edited.opened.start..], place);
    let Some(new) = new_value(alloc, edited.opened, pair, value)? else {
        return Ok(());
    };
    let front = &pair[..new.front_size];
    let bytes = concatenated(alloc, front, new.bytes.as_slice(), b"")?;
    let text = String::from_str(alloc, value)?;
    edited.parts.replace(place, key, bytes, text);
    Ok(())
}

// Sets the value of a key that no pair has: adds a pair like the last one behind the parts.
fn add_value(
    alloc: Global,
    source: &[u8],
    edited: &mut SourceParts,
    key: &str,
    value: &str,
) -> Result<(), AllocError>
    requires parts { HaveParts (chars key.now) source.now edited.old }
    requires none { key_place edited.old.parts.keys (chars key.now) ≡ None }
    ensures parts { EditsParts (set_value (chars key.now) (chars value.now)) source.now edited.old result edited.new }
    ensures all { edited.new.parts.keys.all ≡ edited.old.parts.keys.all }
{
    let body = &source[edited.opened.start..];
    let last = edited.parts.last_pair(body, edited.pairs_end());
    let separator = separator_of(alloc, edited.opened.encoding, last, key)?;
    let first = edited.is_first(edited.parts.parts.len());
    let mut line = LineBuffer::new(alloc);
    print_new_pair(
        &mut line,
        edited.opened,
        first,
        separator.as_str(),
        key,
        value,
    )?;
    let bytes = line.as_slice().to_vec(alloc)?;
    let ending = edited.parts.last_ending(body, edited.empty_start());
    edited
        .parts
        .append(alloc, body, key, value, ending, bytes, ending)
}

// Returns the separator of a new pair with this key: that of the last pair, or an equals sign.
fn separator_of(
    alloc: Global,
    encoding: Encoding,
    last: Option<&[u8]>,
    key: &str,
) -> Result<String, AllocError>
    requires unit { unit_size (encoding_of encoding) ≡ 1 }
    requires last { IsPairIn (encoding_of encoding) (option_map (λ pair. pair.now) last) }
    ensures { IfOk result (λ text. characters text ≡ separator_by (chars key.now) (between_last (encoding_of encoding) (option_map (λ pair. pair.now) last.entry))) }
{
    let separator = match last {
        Some(pair) => separator_like(alloc, encoding, pair, key)?,
        None => None,
    };
    match separator {
        Some(separator) => Ok(separator),
        None => String::from_str(alloc, "="),
    }
}
