// Packed lists that come from C: edits, and lines to write.

ghost use Rattle.std.specs.Prelude.{◌≡◌, ◌++◌, ◌≤◌, length, take, drop};
ghost use Rattle.std.specs.Str.{chars};
ghost use Rattle.properties_items.specs.Texts.{characters};
ghost use Rattle.properties_renaming.specs.KeyEdits.{key_edit_in};
ghost use Rattle.properties_c.specs.Packed.{edits, lines, record_in};
ghost use Rattle.properties_c.specs.Private.Lists.{CopiesKey, GivesText, GivesTexts, MakesThing, ReadsEdits, ReadsFirst, line_content};
ghost use Rattle.properties_c.specs.declared.status.Status.TheVariants.{NoMemory};

use crate::encoding::text_of;
use crate::items::{COMMENT, PAIR};
use crate::records::{HEADER_SIZE, Record, split_record};
use crate::status::Status;
use java_properties::{Edit, KeyEdit, NewComment, Rename};
use std::alloc::{AllocError, AllocFailed, Global};

// The kind of an edit that sets a key. Edits and lines have different kinds, so that a list of the one isn't taken for
// a list of the other.
const PUT: usize = 2;

// The kind of an edit that removes a key.
const REMOVE: usize = 3;

// The kind of an edit that sets a value.
const SET_VALUE: usize = 4;

// The kind of an edit that renames a key.
const RENAME: usize = 7;

// The kind of an edit that sets the comment of a key.
const SET_COMMENT: usize = 8;

// The kind of an edit that removes a key with its comments.
const REMOVE_WITH_COMMENT: usize = 9;

/// A line to write, with its texts in the list.
#[derive(Clone, Copy)]
pub enum Line<'a> {
    /// A comment.
    Comment(&'a str),
    /// A key and its value.
    Pair(&'a str, &'a str),
}

impl From<AllocError> for Status {
    ghost from_gives = { λ _ status. status ≡ NoMemory };

    fn from(_: AllocError) -> Status {
        Status::NoMemory
    }
}

impl<T: Drop> From<AllocFailed<T>> for Status {
    ghost from_gives = { λ _ status. status ≡ NoMemory };

    fn from(_: AllocFailed<T>) -> Status {
        Status::NoMemory
    }
}

/// Returns the edits of a packed list, or why it is refused.
#[tactic(auto, using(crate::proofs::ListFronts::taking))]
pub fn edits_of(alloc: Global, list: &[u8]) -> Result<Vec<KeyEdit>, Status>
    ensures { ReadsEdits list.now result }
{
    let mut edits = Vec::new(alloc);
    let mut rest = list;
    while !rest.is_empty() {
        match first_edit(alloc, rest) {
            Ok((edit, after)) => {
                edits.push(edit)?;
                rest = after;
            }
            Err(status) => return Err(status),
        }
    }
    Ok(edits)
}

// Returns the first edit of a list and what comes after it.
#[tactic(auto, using(crate::proofs::ListFronts::taking))]
fn first_edit(alloc: Global, list: &[u8]) -> Result<(KeyEdit, &[u8]), Status>
    ensures { ReadsFirst edits list.now result key_edit_in }
{
    let Some((first, rest)) = split_record(list) else {
        return Err(Status::BadList);
    };
    match edit_of(alloc, first) {
        Ok(edit) => Ok((edit, rest)),
        Err(status) => Err(status),
    }
}

/// Returns the first line of a list and what comes after it.
#[inline(always)]
#[tactic(auto, using(crate::proofs::ListFronts::taking))]
pub fn first_line(list: &[u8]) -> Result<(Line<'_>, &[u8]), Status>
    ensures { ReadsFirst lines list.now result line_content }
{
    let Some((first, rest)) = split_record(list) else {
        return Err(Status::BadList);
    };
    let texts = &list[HEADER_SIZE..list.len() - rest.len()];
    match line_of(first, texts) {
        Ok(line) => Ok((line, rest)),
        Err(status) => Err(status),
    }
}

fn edit_of(alloc: Global, given: Record<'_>) -> Result<KeyEdit, Status>
    ensures { MakesThing edits (record_in given.entry) result key_edit_in }
{
    match given.kind {
        PUT => {
            let (key, value) = texts_of(alloc, given)?;
            Ok(KeyEdit::Edit(Edit::Put(key, value)))
        }
        REMOVE => Ok(KeyEdit::Edit(Edit::Remove(key_of(alloc, given)?))),
        SET_VALUE => {
            let (key, value) = texts_of(alloc, given)?;
            Ok(KeyEdit::Edit(Edit::SetValue(key, value)))
        }
        RENAME => {
            let (old, new) = texts_of(alloc, given)?;
            Ok(KeyEdit::Rename(Rename { old, new }))
        }
        SET_COMMENT => {
            let (key, text) = texts_of(alloc, given)?;
            Ok(KeyEdit::SetComment(NewComment { key, text }))
        }
        REMOVE_WITH_COMMENT => Ok(KeyEdit::RemoveWithComment(key_of(alloc, given)?)),
        _ => Err(Status::BadList),
    }
}

// Returns copies of both texts of a record.
fn texts_of(alloc: Global, given: Record<'_>) -> Result<(String, String), Status>
    ensures { let r = record_in given.entry in GivesTexts r.key r.value result characters }
{
    let key = copy_of(alloc, given.key)?;
    let value = copy_of(alloc, given.value)?;
    Ok((key, value))
}

// Returns a copy of the key of a record that may have no value.
fn key_of(alloc: Global, given: Record<'_>) -> Result<String, Status>
    ensures { CopiesKey (record_in given.entry) result }
{
    if !given.value.is_empty() {
        return Err(Status::BadList);
    }
    copy_of(alloc, given.key)
}

// Returns the line of a record, whose texts are one after the other in `texts` too.
#[inline(always)]
fn line_of<'a>(given: Record<'a>, texts: &'a [u8]) -> Result<Line<'a>, Status>
    requires { let r = record_in given in texts.now ≡ r.key ++ r.value }
    ensures { MakesThing lines (record_in given.entry) result line_content }
{
    match given.kind {
        COMMENT => {
            if !given.key.is_empty() {
                return Err(Status::BadList);
            }
            Ok(Line::Comment(sound_text(given.value)?))
        }
        PAIR => {
            let (key, value) = sound_texts(texts, given.key.len())?;
            Ok(Line::Pair(key, value))
        }
        _ => Err(Status::BadList),
    }
}

// Returns the text with these bytes.
#[inline(always)]
fn sound_text(bytes: &[u8]) -> Result<&str, Status>
    ensures { GivesText bytes.now result (λ text. chars text.now) }
{
    match text_of(bytes) {
        Some(text) => Ok(text),
        None => Err(Status::NotUtf8),
    }
}

// Returns the two texts that these bytes are, of which the second one begins at this place. That takes one look at short
// texts, where one at each would take two.
#[inline(always)]
fn sound_texts(bytes: &[u8], at: usize) -> Result<(&str, &str), Status>
    requires { at ≤ length bytes.now }
    ensures { GivesTexts (take at bytes.now) (drop at bytes.now) result (λ text. chars text.now) }
{
    let Some(texts) = text_of(bytes) else {
        return Err(Status::NotUtf8);
    };
    match texts.split_at_checked(at) {
        Some(parts) => Ok(parts),
        None => Err(Status::NotUtf8),
    }
}

// Returns a copy of a text.
fn copy_of(alloc: Global, bytes: &[u8]) -> Result<String, Status>
    ensures { GivesText bytes.now result characters }
{
    let Some(text) = text_of(bytes) else {
        return Err(Status::NotUtf8);
    };
    Ok(String::from_str(alloc, text)?)
}
