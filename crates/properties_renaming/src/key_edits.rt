// Edits of any kind in a list.

ghost use Rattle.std.specs.Prelude.{◌≡◌, ◌+◌, ◌<◌, ◌^◌, ℕ, map, IfErr, IfOk};
ghost use Rattle.properties_editing.specs.Editing.{EditsWith, edits_in};
ghost use Rattle.properties_items.specs.Errors.{IsBareError};
ghost use Rattle.properties_items.specs.declared.error.ErrorKind.TheVariants as kind;
ghost use Rattle.properties_items.specs.Texts.{characters};
ghost use Rattle.properties_renaming.specs.Commented.{RemovesWithComments};
ghost use Rattle.properties_renaming.specs.Commenting.{texts_in};
ghost use Rattle.properties_renaming.specs.KeyEdits.{MakesKeyEdits, comments_among, edits_among, error_after, key_edit_in, key_edits_in, removals_among, renames_among, same_kind};
ghost use Rattle.properties_renaming.specs.Private.KeyEdits.{GivesOrFails, HasRunSize, IsIndexBelow, RunsOrFails};
ghost use Rattle.properties_renaming.specs.Renames.{names_in};

use crate::commenting::{NewComment, set_comments};
use crate::comments::remove_with_comments;
use crate::renames::{Rename, RenamesError, rename_keys};
use properties_editing::{Edit, SourceOptions, edit_with};
use properties_items::error::PropertiesError;
use std::alloc::Global;

/// An edit of any kind.
#[derive(Debug, Drop)]
pub enum KeyEdit {
    /// Sets or removes a key, as [`edit_with`] does.
    Edit(Edit),
    /// Renames a key, as [`rename_keys`] does.
    Rename(Rename),
    /// Sets the comment of a key, as [`set_comments`] does.
    SetComment(NewComment),
    /// Removes a key with its comments, as [`remove_with_comments`] does.
    RemoveWithComment(String),
}

/// Returns the source after edits of any kind, in order.
///
/// Consecutive edits of one kind form a run. One call makes each run: the one that [`KeyEdit`] names for the kind. It
/// reads what the runs before it left. So a list of one kind takes little more time than that call, and a long list in
/// which kinds alternate takes long: put edits of one kind together. Without edits, the result is a copy of the source.
///
/// Fails as these calls do, and then nothing is edited. The error for a refused edit has its index in the list, and a
/// line in what the edits before it left.
///
/// ```text
/// let rename = Rename { old: host, new: server };
/// let edits = vec![in alloc; KeyEdit::Rename(rename), KeyEdit::Edit(Edit::SetValue(key, value))]?;
/// let edited = edit_keys(alloc, b"host = a\n", options, &edits)?;
/// // If `host` becomes `server`, which gets the value `b`: `server = b` and a line feed.
/// ```
pub fn edit_keys(
    alloc: Global,
    source: &[u8],
    options: SourceOptions,
    edits: &[KeyEdit],
) -> Result<Vec<u8>, RenamesError>
    ensures { MakesKeyEdits options source.now (key_edits_in edits.now) result }
{
    let mut done = run_size(edits);
    let mut bytes = make_run(alloc, source, options, &edits[..done])?;
    while done < edits.len() {
        let rest = &edits[done..];
        let size = run_size(rest);
        bytes = match make_run(alloc, &bytes, options, &rest[..size]) {
            Ok(left) => left,
            Err(error) => return Err(error_after(done, error)),
        };
        done += size;
    }
    Ok(bytes)
}

// Returns an error with its index counted from so many edits before its run.
fn error_after(count: usize, error: RenamesError) -> RenamesError
    requires { (size : ℕ) × IsIndexBelow size error × (count + size < 2 ^ 64) }
    ensures { result ≡ error_after count error }
{
    match error {
        RenamesError::Source(error) => RenamesError::Source(error),
        RenamesError::NoKey(index) => RenamesError::NoKey(count + index),
        RenamesError::KeyTaken(index, number) => RenamesError::KeyTaken(count + index, number),
    }
}

// Returns how many edits the first run of a list has.
fn run_size(edits: &[KeyEdit]) -> usize
    ensures { HasRunSize (key_edits_in edits.now) result }
{
    let [first, others @ ..] = edits else {
        return 0;
    };
    for (index, edit) in others.iter().enumerate() {
        if !is_same_kind(first, edit) {
            return index + 1;
        }
    }
    edits.len()
}

fn is_same_kind(edit: &KeyEdit, other: &KeyEdit) -> bool
    ensures { result ≡ same_kind (key_edit_in edit.now) (key_edit_in other.now) }
{
    match edit {
        KeyEdit::Edit(_) => matches!(other, KeyEdit::Edit(_)),
        KeyEdit::Rename(_) => matches!(other, KeyEdit::Rename(_)),
        KeyEdit::SetComment(_) => matches!(other, KeyEdit::SetComment(_)),
        KeyEdit::RemoveWithComment(_) => matches!(other, KeyEdit::RemoveWithComment(_)),
    }
}

// Returns the source after the edits of a run.
fn make_run(
    alloc: Global,
    source: &[u8],
    options: SourceOptions,
    run: &[KeyEdit],
) -> Result<Vec<u8>, RenamesError>
    ensures { RunsOrFails options source.now (key_edits_in run.now) result }
{
    let Some(first) = run.first() else {
        return make_edits(alloc, source, options, run);
    };
    match first {
        KeyEdit::Edit(_) => make_edits(alloc, source, options, run),
        KeyEdit::Rename(_) => {
            let renames = renames_of(alloc, run)?;
            rename_keys(alloc, source, options, &renames)
        }
        KeyEdit::SetComment(_) => {
            let comments = comments_of(alloc, run)?;
            set_comments(alloc, source, options, &comments)
        }
        KeyEdit::RemoveWithComment(_) => make_removals(alloc, source, options, run),
    }
}

fn make_edits(
    alloc: Global,
    source: &[u8],
    options: SourceOptions,
    run: &[KeyEdit],
) -> Result<Vec<u8>, RenamesError>
    ensures { GivesOrFails (EditsWith options source.now (edits_among (key_edits_in run.now))) result }
{
    let edits = edits_of(alloc, run)?;
    Ok(edit_with(alloc, source, options, &edits)?)
}

fn make_removals(
    alloc: Global,
    source: &[u8],
    options: SourceOptions,
    run: &[KeyEdit],
) -> Result<Vec<u8>, RenamesError>
    ensures { let keys = removals_among (key_edits_in run.now) in
        GivesOrFails (RemovesWithComments options source.now keys) result }
{
    let keys = keys_of(alloc, run)?;
    Ok(remove_with_comments(alloc, source, options, &keys)?)
}

// Returns copies of the edits that set or remove a key.
fn edits_of(alloc: Global, run: &[KeyEdit]) -> Result<Vec<Edit>, PropertiesError>
    ensures same { IfOk result (λ edits. edits_in edits.items ≡ edits_among (key_edits_in run.now)) }
    ensures memory { IfErr result (IsBareError kind.Memory) }
{
    let mut edits = Vec::new(alloc);
    for edit in run {
        if let KeyEdit::Edit(edit) = edit {
            edits.push(edit.clone()?)?;
        }
    }
    Ok(edits)
}

// Returns copies of the renames.
fn renames_of(alloc: Global, run: &[KeyEdit]) -> Result<Vec<Rename>, PropertiesError>
    ensures same { IfOk result (λ renames.
        names_in renames.items ≡ renames_among (key_edits_in run.now)) }
    ensures memory { IfErr result (IsBareError kind.Memory) }
{
    let mut renames = Vec::new(alloc);
    for edit in run {
        if let KeyEdit::Rename(rename) = edit {
            renames.push(Rename {
                old: rename.old.clone()?,
                new: rename.new.clone()?,
            })?;
        }
    }
    Ok(renames)
}

// Returns copies of the comments.
fn comments_of(alloc: Global, run: &[KeyEdit]) -> Result<Vec<NewComment>, PropertiesError>
    ensures same { IfOk result (λ comments.
        texts_in comments.items ≡ comments_among (key_edits_in run.now)) }
    ensures memory { IfErr result (IsBareError kind.Memory) }
{
    let mut comments = Vec::new(alloc);
    for edit in run {
        if let KeyEdit::SetComment(comment) = edit {
            comments.push(NewComment {
                key: comment.key.clone()?,
                text: comment.text.clone()?,
            })?;
        }
    }
    Ok(comments)
}

// Returns copies of the keys that are removed with their comments.
fn keys_of(alloc: Global, run: &[KeyEdit]) -> Result<Vec<String>, PropertiesError>
    ensures same { IfOk result (λ keys.
        map characters keys.items ≡ removals_among (key_edits_in run.now)) }
    ensures memory { IfErr result (IsBareError kind.Memory) }
{
    let mut keys = Vec::new(alloc);
    for edit in run {
        if let KeyEdit::RemoveWithComment(key) = edit {
            keys.push(key.clone()?)?;
        }
    }
    Ok(keys)
}
