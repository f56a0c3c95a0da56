// The edits that arguments ask for.

ghost use Rattle.std.specs.Prelude.{◌∷◌, ◌≡◌, ◌≢◌, true, false, codes, map, string_bytes, IfOk, MatchBool};
ghost use Rattle.std.specs.List.{list_any};
ghost use Rattle.properties_format.specs.Text.{is_blank};
ghost use Rattle.propedit_arguments.specs.Private.Edits.{asked_edit, borrowed_edit, meant_edit, IsAssignment};
ghost use Rattle.propedit_arguments.specs.Private.Edits.{ends_key, is_odd, AreAfterDashes, GivesEdits, RefusesOddName, RefusesSlips, TakesEdit};

use crate::mistake::Mistake;
use java_properties::Edit;
use std::alloc::{AllocError, Global};

/// An edit that arguments ask for.
#[derive(Drop)]
pub enum AskedEdit {
    /// A key is set or removed.
    Edit(Edit),
    /// A key gets another name.
    Rename(String, String),
    /// A key gets this comment.
    SetComment(String, String),
}

/// Returns the edits that a command and the arguments after its options ask for, in order. If they are no edits, the
/// mistake names the wrong argument.
pub fn edits_in<'a>(
    alloc: Global,
    command: &'a str,
    words: &'a [String],
) -> Result<Vec<AskedEdit>, Mistake<'a>>
    ensures { GivesEdits (command.now ∷ map string_bytes words.now) result }
{
    let mut edits = Vec::new(alloc);
    let (first, mut rest) = edit_of(command, words)?;
    edits.push(first.into_edit()?)?;
    while !rest.is_empty() {
        let (edit, others) = next_edit(rest)?;
        edits.push(edit.into_edit()?)?;
        rest = others;
    }
    Ok(edits)
}

// An edit whose texts are borrowed.
#[derive(Clone, Copy)]
enum BorrowedEdit<'a> {
    Set(&'a String, &'a String),
    Remove(&'a String),
    Rename(&'a String, &'a String),
    SetComment(&'a String, &'a String),
}

impl BorrowedEdit<'_> {
    fn into_edit(self) -> Result<AskedEdit, AllocError>
        ensures { IfOk result (λ edit. asked_edit edit ≡ meant_edit (borrowed_edit self.entry)) }
    {
        match self {
            BorrowedEdit::Set(key, value) => {
                Ok(AskedEdit::Edit(Edit::SetValue(key.clone()?, value.clone()?)))
            }
            BorrowedEdit::Remove(key) => Ok(AskedEdit::Edit(Edit::Remove(key.clone()?))),
            BorrowedEdit::Rename(old, new) => Ok(AskedEdit::Rename(old.clone()?, new.clone()?)),
            BorrowedEdit::SetComment(key, text) => {
                Ok(AskedEdit::SetComment(key.clone()?, text.clone()?))
            }
        }
    }
}

// Returns the edit that the arguments begin with, and the arguments after it.
fn next_edit<'a>(words: &'a [String]) -> Result<(BorrowedEdit<'a>, &'a [String]), Mistake<'a>>
    ensures { TakesEdit (map string_bytes words.now) result }
{
    match words {
        [word, others @ ..] => edit_of(word.as_str(), others),
        [] => Err(Mistake::NoCommand),
    }
}

// Returns the edit of a command whose texts the arguments begin with, and the arguments after it.
fn edit_of<'a>(
    command: &'a str,
    words: &'a [String],
) -> Result<(BorrowedEdit<'a>, &'a [String]), Mistake<'a>>
    ensures { TakesEdit (command.now ∷ map string_bytes words.now) result }
{
    match command {
        "set" => next_set(words),
        "remove" => next_removal(words),
        "rename" => next_renaming(words),
        "set-comment" => next_comment(words),
        other => Err(Mistake::NoEdit(other, None)),
    }
}

// Returns the setting of a key, whose arguments are the first of these, and the arguments after it.
fn next_set<'a>(words: &'a [String]) -> Result<(BorrowedEdit<'a>, &'a [String]), Mistake<'a>>
    ensures { TakesEdit (codes "set" ∷ map string_bytes words.now) result }
{
    refuse_slips(words)?;
    match after_dashes(words) {
        [key, value, others @ ..] => Ok((BorrowedEdit::Set(key, value), others)),
        [key] => Err(Mistake::NoValue(key.as_str(), None)),
        [] => Err(Mistake::NoKey("set")),
    }
}

// Returns the removal of a key, which is the first of these arguments, and the arguments after it.
fn next_removal<'a>(words: &'a [String]) -> Result<(BorrowedEdit<'a>, &'a [String]), Mistake<'a>>
    ensures { TakesEdit (codes "remove" ∷ map string_bytes words.now) result }
{
    match after_dashes(words) {
        [key, others @ ..] => Ok((BorrowedEdit::Remove(key), others)),
        [] => Err(Mistake::NoKey("remove")),
    }
}

// Returns the renaming of a key, whose arguments are the first of these, and the arguments after it.
fn next_renaming<'a>(words: &'a [String]) -> Result<(BorrowedEdit<'a>, &'a [String]), Mistake<'a>>
    ensures { TakesEdit (codes "rename" ∷ map string_bytes words.now) result }
{
    refuse_odd_name(words)?;
    match after_dashes(words) {
        [old, new, others @ ..] => Ok((BorrowedEdit::Rename(old, new), others)),
        [old] => Err(Mistake::NoNewKey(old.as_str(), None)),
        [] => Err(Mistake::NoKey("rename")),
    }
}

// Returns the comment of a key, whose arguments are the first of these, and the arguments after it.
fn next_comment<'a>(words: &'a [String]) -> Result<(BorrowedEdit<'a>, &'a [String]), Mistake<'a>>
    ensures { TakesEdit (codes "set-comment" ∷ map string_bytes words.now) result }
{
    match after_dashes(words) {
        [key, text, others @ ..] => Ok((BorrowedEdit::SetComment(key, text), others)),
        [key] => Err(Mistake::NoText(key.as_str())),
        [] => Err(Mistake::NoKey("set-comment")),
    }
}

// Returns the arguments without a `--` that comes first: what is after it is taken as it is.
fn after_dashes(words: &[String]) -> &[String]
    ensures { AreAfterDashes (map string_bytes words.now) (map string_bytes result.now) }
{
    match words {
        [first, others @ ..] if first.as_str() == "--" => others,
        _ => words,
    }
}

/// Fails if the arguments begin with a key and a value that both look like NAME=TEXT, or with an odd key.
pub(crate) fn refuse_slips<'a>(words: &'a [String]) -> Result<(), Mistake<'a>>
    ensures { RefusesSlips (map string_bytes words.now) result }
{
    match words {
        [key, value, ..] if is_assignment(key.as_str()) && is_assignment(value.as_str()) => {
            Err(Mistake::TwoAssignments(key.as_str(), value.as_str(), None))
        }
        [key, value, ..] if is_odd(key.as_str()) => {
            Err(Mistake::OddKey(key.as_str(), value.as_str(), None))
        }
        _ => Ok(()),
    }
}

/// Fails if the arguments begin with a key and its new name, which is odd.
pub(crate) fn refuse_odd_name<'a>(words: &'a [String]) -> Result<(), Mistake<'a>>
    ensures { RefusesOddName (map string_bytes words.now) result }
{
    match words {
        [old, new, ..] if is_odd_name(old.as_str(), new.as_str()) => {
            Err(Mistake::OddName(old.as_str(), new.as_str(), None))
        }
        _ => Ok(()),
    }
}

// Returns whether the new name of a key is odd, if that key isn't `--`.
fn is_odd_name(old: &str, new: &str) -> bool
    ensures { MatchBool result ((old.now ≢ codes "--") × (is_odd new.now ≡ true)) (old.now ≢ codes "--" → is_odd new.now ≡ false) }
{
    old != "--" && is_odd(new)
}

/// Returns whether a key is hardly meant: it is empty, or ends in what ends a key in a file.
pub(crate) fn is_odd(key: &str) -> bool
    ensures { result ≡ is_odd key.now }
{
    match key.as_bytes().last() {
        Some(byte) => ends_key(*byte),
        None => true,
    }
}

fn ends_key(byte: u8) -> bool
    ensures { result ≡ ends_key byte }
{
    is_blank(byte) || byte == b'=' || byte == b':'
}

/// Returns whether a text looks like NAME=TEXT.
pub(crate) fn is_assignment(text: &str) -> bool
    ensures { MatchBool result (IsAssignment text.now) (IsAssignment text.now → ⊥) }
{
    match text.split_once('=') {
        Some((name, _)) => !name.is_empty() && !has_blank(name.as_bytes()),
        None => false,
    }
}

fn has_blank(bytes: &[u8]) -> bool
    ensures { result ≡ list_any is_blank bytes.now }
{
    bytes.iter().any(|byte| is_blank(*byte))
}

fn is_blank(byte: u8) -> bool
    ensures { result ≡ is_blank byte }
{
    byte == b' ' || (byte == b'\t' || byte == b'\x0c')
}
