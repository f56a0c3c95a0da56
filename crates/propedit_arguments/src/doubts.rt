// Arguments that are taken as they are, and may mean something else.

use crate::command_line::CommandRow;
use crate::edits::AskedEdit;
use crate::meant::Shown;
use crate::options::INPUT;
use crate::typed::is_option_of;
use java_properties::Edit;
use properties_tools::messages::Escaped;
use properties_tools::propedit::request::{Doubt, Note};
use std::alloc::{AllocError, Global};

/// Returns the note on the first KEY of `get` that looks like an option.
pub(crate) fn note_on_option(
    alloc: Global,
    row: &'static CommandRow,
    keys: &[String],
) -> Result<Option<Note>, AllocError> {
    let Some(key) = keys.iter().find(|key| is_option_of(key.as_str(), row)) else {
        return Ok(None);
    };
    let shown = Escaped(key.as_str());
    let said = "options come before the first KEY";
    let line = format!(in alloc; "propedit: no pair has the key '{shown}'; {said}\n")?;
    let doubt = Doubt::Key(key.clone()?, Vec::new(alloc));
    Ok(Some(Note { doubt, line }))
}

/// Returns the note on a PREFIX that looks like a pattern.
pub(crate) fn note_on_prefix(alloc: Global, prefix: &String) -> Result<Option<Note>, AllocError> {
    let text = prefix.as_str();
    let Some(front) = text.strip_suffix('*').or(text.strip_prefix('^')) else {
        return Ok(None);
    };
    let meant = if front.is_empty() {
        String::from_str(alloc, "list")?
    } else {
        format!(in alloc; "{}", Shown("list", front, None))?
    };
    let shown = Escaped(text);
    let said = "a PREFIX is not a pattern: did you mean";
    let line = format!(in alloc; "propedit: no key begins with '{shown}'; {said} '{meant}'?\n")?;
    let doubt = Doubt::Prefix(prefix.clone()?, String::from_str(alloc, front)?);
    Ok(Some(Note { doubt, line }))
}

/// Returns the note on the first of some edits of a source of this name that may mean something else.
pub(crate) fn note_on_edits(
    alloc: Global,
    name: &str,
    edits: &[AskedEdit],
) -> Result<Option<Note>, AllocError> {
    for edit in edits {
        let doubted = match edit {
            AskedEdit::Edit(Edit::SetValue(key, value)) => {
                doubt_of_value(alloc, name, key, value.as_str())?
            }
            AskedEdit::Edit(Edit::Remove(key)) if key.contains(',') => {
                Some(doubt_of_keys(alloc, key)?)
            }
            _ => None,
        };
        if let Some((doubt, said)) = doubted {
            let line = format!(in alloc; "propedit: {}: {said}\n", Escaped(name))?;
            return Ok(Some(Note { doubt, line }));
        }
    }
    Ok(None)
}

// Returns the keys that may be meant by one with commas, and what is said of it.
fn doubt_of_keys(alloc: Global, key: &String) -> Result<(Doubt, String), AllocError> {
    let shown = Escaped(key.as_str());
    let mut said = format!(in alloc; "no pair has the key '{shown}'; did you mean '")?;
    let mut keys = Vec::new(alloc);
    for part in key.split(',') {
        let blank = if keys.is_empty() { "" } else { " " };
        let removal = format!(in alloc; "{blank}{}", Shown("remove", part, None))?;
        said.push_str(removal.as_str())?;
        keys.push(String::from_str(alloc, part)?)?;
    }
    said.push_str("'?")?;
    Ok((Doubt::Key(key.clone()?, keys), said))
}

// Returns what may be meant by the value or the key of a setting in a source of this name, and what is said of it.
fn doubt_of_value(
    alloc: Global,
    name: &str,
    key: &String,
    value: &str,
) -> Result<Option<(Doubt, String)>, AllocError> {
    let shown = Escaped(key.as_str());
    match (value, value.strip_prefix('@')) {
        ("-", _) => {
            let file = if name == INPUT { "-i FILE " } else { "" };
            let said = format!(in alloc;
                "the value of '{shown}' is '-'; use 'merge -z {file}-' to read values from standard input"
            )?;
            Ok(Some((Doubt::Value(None), said)))
        }
        (_, Some(name)) => {
            let name = String::from_str(alloc, name)?;
            let said = format!(in alloc;
                "the value of '{shown}' is '{}'; the file of this name is not read",
                Escaped(value)
            )?;
            Ok(Some((Doubt::Value(Some(name)), said)))
        }
        _ if key.contains('*') => {
            let said = format!(in alloc; "the key '{shown}' is new; a KEY is not a pattern")?;
            Ok(Some((Doubt::Key(key.clone()?, Vec::new(alloc)), said)))
        }
        _ => Ok(None),
    }
}
