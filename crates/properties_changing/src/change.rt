// A source after a change.

ghost use Rattle.std.specs.Prelude.{◌≡◌, length, map, IfOk};
ghost use Rattle.std.specs.Option.{option_map};
ghost use Rattle.java_properties.specs.Editing.{edit_in, edits_in};
ghost use Rattle.java_properties.specs.Maps.{characters};
ghost use Rattle.properties_text.specs.Encoding.{encoding_of};
ghost use Rattle.properties_changing.specs.Private.Collected.{first_without, with_values, FindsKnown, MakesList, RefusesIfAbsent, FindsAbsent};
ghost use Rattle.properties_tables.specs.Values.{value_texts};
ghost use Rattle.properties_changing.specs.Change.{Replaces, edited_key, edited_keys, in_order, Changes, ChangesByEdits, ChangesByStep, ChangesInTurn, Converts, borrowed_characters};
ghost use Rattle.properties_tables.specs.Sources.{HasSoundBytes};

use crate::remove::remove;
use crate::rename::rename;
use crate::request::{AbsentKeys, Change, Conversion, Edits, Step, Steps};
use crate::set_comments::set_comments;
use java_properties::{Comments, Edit, Encoding, SourceOptions, convert, edit_with};
use properties_tables::error::Failure;
use properties_tables::sound::{refuse_bytes, refuse_unsound};
use properties_tables::values::values_of;
use std::alloc::{AllocError, Global};

/// Returns the bytes of a source after a change.
///
/// It refuses a source for its bytes: the byte order mark of UTF-32, lines that are ill-formed in the encoding in
/// force, or U+0000 if UTF-8 is in force without a byte order mark. Edits refuse a malformed escape in a pair too, then
/// UTF-16, and then, if that is asked for, the first key to set or remove that no pair of the source has. If such keys
/// are to be left out, only the edits of other keys are made. A conversion keeps what is malformed.
///
/// Of steps, each is made to what the one before it left, and the first that is refused refuses the change. A step that
/// makes edits reads the source once; one that removes keys with their comments, or renames keys, twice; one that sets
/// comments, three times. `rename_keys` says when it reads it more often.
///
/// ```text
/// let edits = Change::Edits(Edits {
///     list: vec![in alloc; Edit::SetValue(port, value)]?,
///     ascii_only: false,
///     latin_1: false,
///     absent: AbsentKeys::Added,
/// });
/// let bytes = change(alloc, b"# the front door\nport = 80\n", Encoding::UTF_8, &edits)?;
/// // If the value is `8080`: `# the front door`, a line feed, `port = 8080` and a line feed.
///
/// let to_ascii = Change::Conversion(Conversion {
///     target: Repertoire::Ascii,
///     spelling: Spelling::Kept,
/// });
/// let bytes = change(alloc, b"# caf\xe9\n", Encoding::WINDOWS_1252, &to_ascii)?;
/// // `# caf\u00e9` and a line feed.
/// ```
pub fn change(
    alloc: Global,
    source: &[u8],
    encoding: Encoding,
    change: &Change,
) -> Result<Vec<u8>, Failure>
    ensures { Changes (encoding_of encoding) source.now change.now result }
{
    match change {
        Change::Edits(edits) => edited(alloc, source, encoding, edits),
        Change::Steps(steps) => changed_in_turn(alloc, source, encoding, steps),
        Change::Conversion(conversion) => converted(alloc, source, encoding, *conversion),
    }
}

/// Returns the bytes of a source after a change, or `None` if they are its own bytes.
///
/// For a file that is changed in place: if nothing changes, nothing has to be written.
///
/// ```text
/// let edits = Change::Edits(Edits {
///     list: vec![in alloc; Edit::Remove(port)]?,
///     ascii_only: false,
///     latin_1: false,
///     absent: AbsentKeys::Added,
/// });
/// replacement(alloc, b"host = a\n", Encoding::UTF_8, &edits)?; // None
/// ```
pub fn replacement(
    alloc: Global,
    source: &[u8],
    encoding: Encoding,
    asked: &Change,
) -> Result<Option<Vec<u8>>, Failure>
    ensures { Replaces (encoding_of encoding) source.now asked.now result }
{
    let bytes = change(alloc, source, encoding, asked)?;
    if bytes.as_slice() == source {
        return Ok(None);
    }
    Ok(Some(bytes))
}

// Returns the bytes of a source after steps, each made to what the one before it left.
fn changed_in_turn(
    alloc: Global,
    source: &[u8],
    encoding: Encoding,
    steps: &Steps,
) -> Result<Vec<u8>, Failure>
    ensures { ChangesInTurn (encoding_of encoding) source.now (in_order steps.now) result }
{
    let mut bytes = changed_by(alloc, source, encoding, &steps.first)?;
    for step in &steps.others {
        bytes = changed_by(alloc, &bytes, encoding, step)?;
    }
    Ok(bytes)
}

// Returns the bytes of a source after a step.
fn changed_by(
    alloc: Global,
    source: &[u8],
    encoding: Encoding,
    step: &Step,
) -> Result<Vec<u8>, Failure>
    ensures { ChangesByStep (encoding_of encoding) source.now step.now result }
{
    match step {
        Step::Edits(edits) => edited(alloc, source, encoding, edits),
        Step::Removal(removal) => remove(alloc, source, encoding, removal),
        Step::Renaming(renaming) => rename(alloc, source, encoding, renaming),
        Step::NewComments(comments) => set_comments(alloc, source, encoding, comments),
    }
}

// Returns the bytes of a source after edits.
fn edited(
    alloc: Global,
    source: &[u8],
    encoding: Encoding,
    edits: &Edits,
) -> Result<Vec<u8>, Failure>
    ensures { ChangesByEdits (encoding_of encoding) source.now edits.now result }
{
    refuse_bytes(source, encoding)?;
    match edits.absent {
        AbsentKeys::Added => made(alloc, source, encoding, edits, &edits.list),
        AbsentKeys::Refused => {
            let bytes = made(alloc, source, encoding, edits, &edits.list)?;
            let keys = keys_of(alloc, &edits.list)?;
            refuse_absent(alloc, source, encoding, &keys)?;
            Ok(bytes)
        }
        AbsentKeys::LeftOut => {
            let known = known_edits(alloc, source, encoding, &edits.list)?;
            made(alloc, source, encoding, edits, &known)
        }
    }
}

// Returns the bytes of a source with sound bytes after some of its edits.
fn made(
    alloc: Global,
    source: &[u8],
    encoding: Encoding,
    edits: &Edits,
    list: &[Edit],
) -> Result<Vec<u8>, Failure>
    requires { HasSoundBytes (encoding_of encoding) source.now }
    ensures { MakesList (encoding_of encoding) source.now edits.now (edits_in list.now) result }
{
    let options = SourceOptions {
        encoding,
        ascii_only: edits.ascii_only,
        latin_1: edits.latin_1,
        comments: Comments::PassedOver,
    };
    match edit_with(alloc, source, options, list) {
        Ok(bytes) => Ok(bytes),
        // A malformed escape comes before the encoding.
        Err(error) => {
            refuse_unsound(alloc, source, encoding)?;
            Err(Failure::from(error))
        }
    }
}

// Returns those edits of which a pair of a source with sound bytes has the key.
fn known_edits(
    alloc: Global,
    source: &[u8],
    encoding: Encoding,
    edits: &[Edit],
) -> Result<Vec<Edit>, Failure>
    requires { HasSoundBytes (encoding_of encoding) source.now }
    ensures { FindsKnown (encoding_of encoding) source.now (edits_in edits.now) result }
{
    let keys = keys_of(alloc, edits)?;
    let values = values_of(alloc, source, encoding, &keys)?;
    Ok(with_values(alloc, edits, &values)?)
}

// Returns those edits that have a value in their place.
fn with_values(
    alloc: Global,
    edits: &[Edit],
    values: &[Option<String>],
) -> Result<Vec<Edit>, AllocError>
    requires { length values.now ≡ length edits.now }
    ensures { IfOk result (λ some. edits_in some.items ≡ with_values (edits_in edits.now) (value_texts values.now)) }
{
    let mut some = Vec::new(alloc);
    for (place, value) in values.iter().enumerate() {
        if value.is_some() {
            some.push(edits[place].clone()?)?;
        }
    }
    Ok(some)
}

/// Refuses keys that no pair of a sound source has. The failure has the first of them.
pub(crate) fn refuse_absent(
    alloc: Global,
    source: &[u8],
    encoding: Encoding,
    keys: &[String],
) -> Result<(), Failure>
    ensures { RefusesIfAbsent (encoding_of encoding) source.now (map characters keys.now) result }
{
    match first_absent(alloc, source, encoding, keys)? {
        Some(key) => Err(Failure::Absent(String::from_str(alloc, key)?)),
        None => Ok(()),
    }
}

/// Returns the first of these keys that no pair of a sound source has.
pub fn first_absent<'a>(
    alloc: Global,
    source: &[u8],
    encoding: Encoding,
    keys: &'a [String],
) -> Result<Option<&'a str>, Failure>
    ensures { FindsAbsent (encoding_of encoding) source.now (map characters keys.now) result }
{
    if keys.is_empty() {
        return Ok(None);
    }
    let values = values_of(alloc, source, encoding, keys)?;
    Ok(first_without_value(keys, &values))
}

// Returns the keys of edits, in order.
fn keys_of(alloc: Global, edits: &[Edit]) -> Result<Vec<String>, AllocError>
    ensures { IfOk result (λ keys. map characters keys.items ≡ edited_keys (edits_in edits.now)) }
{
    let mut keys = Vec::new(alloc);
    for edit in edits {
        keys.push(String::from_str(alloc, key_of(edit))?)?;
    }
    Ok(keys)
}

// Returns the key that an edit sets or removes.
fn key_of(edit: &Edit) -> &str
    ensures { borrowed_characters result ≡ edited_key (edit_in edit.now) }
{
    match edit {
        Edit::Put(key, _) | Edit::SetValue(key, _) | Edit::Remove(key) => key.as_str(),
    }
}

// Returns the first of these keys that has no value.
fn first_without_value<'a>(keys: &'a [String], values: &[Option<String>]) -> Option<&'a str>
    requires { length values.now ≡ length keys.now }
    ensures { option_map borrowed_characters result ≡ first_without (map characters keys.now) (value_texts values.now) }
{
    for (place, value) in values.iter().enumerate() {
        if value.is_none() {
            return Some(keys[place].as_str());
        }
    }
    None
}

// Returns the bytes of a source after a conversion.
fn converted(
    alloc: Global,
    source: &[u8],
    from: Encoding,
    conversion: Conversion,
) -> Result<Vec<u8>, Failure>
    ensures { Converts (encoding_of from) source.now conversion result }
{
    refuse_bytes(source, from)?;
    Ok(convert(alloc, source, from, conversion.target, conversion.spelling)?)
}
