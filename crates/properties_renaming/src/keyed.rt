// Values that are kept by key, and the one of a logical line's key.

ghost use Rattle.std.specs.Prelude.{◌≡◌, IfOk, OnOk};
ghost use Rattle.std.specs.Str.{chars};
ghost use Rattle.properties_format.specs.Computed.Items.{outcome_of};
ghost use Rattle.properties_renaming.specs.Private.Keyed.{GivesValue, KeepsValue, TellsFound, TellsKey, value_at, value_of};

use properties_items::error::ErrorKind;
use properties_items::found::{Found, find_item, pair_texts};
use std::alloc::{AllocError, Global};
use std::collections::BTreeMap;

// Gives a key a value, in place of the one that it has.
pub(crate) fn give_value<V: Drop>(
    alloc: Global,
    values: &mut BTreeMap<String, V>,
    key: &str,
    value: V,
) -> Result<(), AllocError>
    ensures { OnOk result (GivesValue values.old.entries (chars key.now) value values.new.entries) }
{
    values.insert(String::from_str(alloc, key)?, value)?;
    Ok(())
}

// Gives the key of a logical line a value, if the line is a pair and its key has none yet.
pub(crate) fn keep_value<V: Copy>(
    alloc: Global,
    values: &mut BTreeMap<String, V>,
    line: &str,
    value: V,
) -> Result<(), AllocError>
    ensures { OnOk result (KeepsValue values.old.entries (outcome_of (chars line.now)) value values.new.entries) }
{
    let found = found_in(alloc, line)?;
    if let Some(key) = key_in(&found, line) {
        if value_at(values, key).is_none() {
            give_value(alloc, values, key, value)?;
        }
    }
    Ok(())
}

// Returns the value of a logical line's key, if the line is a pair and its key has one.
pub(crate) fn value_of<V: Copy>(
    alloc: Global,
    values: &BTreeMap<String, V>,
    line: &str,
) -> Result<Option<V>, AllocError>
    ensures { IfOk result (λ value. value ≡ value_of values.now.entries (outcome_of (chars line.now))) }
{
    let found = found_in(alloc, line)?;
    match key_in(&found, line) {
        Some(key) => Ok(value_at(values, key)),
        None => Ok(None),
    }
}

// Returns the item of a logical line, if it has one and no escape is malformed.
#[inline(always)]
pub(crate) fn found_in(alloc: Global, line: &str) -> Result<Option<Found>, AllocError>
    ensures { IfOk result (TellsFound line.now) }
{
    match find_item(alloc, 1, line) {
        Ok(found) => Ok(found),
        Err(error) => match error.kind() {
            ErrorKind::Memory => Err(AllocError),
            _ => Ok(None),
        },
    }
}

// Returns the key of the item that was found in a logical line, if it is a pair.
#[inline(always)]
pub(crate) fn key_in<'a>(found: &'a Option<Found>, line: &'a str) -> Option<&'a str>
    requires { TellsFound line.now found.now }
    ensures { TellsKey (outcome_of (chars line.now)) result }
{
    let Some(found) = found else {
        return None;
    };
    match pair_texts(found, line) {
        Some((key, _)) => Some(key),
        None => None,
    }
}

// Returns the value of a key, if it has one.
pub(crate) fn value_at<V: Copy>(values: &BTreeMap<String, V>, key: &str) -> Option<V>
    ensures { result ≡ value_at values.now.entries (chars key.now) }
{
    values.get(key).copied()
}
