// The last value of a key, proved to be the one that the map of the input has.

ghost use Rattle.std.specs.Prelude.{◌≡◌, ◌⊎◌, IfErr, IfOk};
ghost use Rattle.std.specs.Option.{option_map};
ghost use Rattle.std.specs.Str.{chars};
ghost use Rattle.counted_io.specs.Streams.{IsSameReader};
ghost use Rattle.properties_format.specs.Encoding.{windows_1252};
ghost use Rattle.properties_text.specs.Encoding.{encoding_of};
ghost use Rattle.java_properties.specs.Errors.{IsBareError};
ghost use Rattle.java_properties.specs.Maps.{ReadsValue, characters, value_at};
ghost use Rattle.java_properties.specs.ReadLines.{StopsReading};
ghost use Rattle.properties_items.specs.declared.error.ErrorKind.TheVariants.{Memory};
ghost use Rattle.calling.specs.Results.{borrowed_characters};

use counted_io::CountedRead;
use java_properties::{Encoding, PropertiesError, read, read_sorted};
use std::alloc::Global;
use std::collections::{BTreeMap, HashMap};

/// Returns the last value of a key in an input in windows-1252, or `None` if no pair has it.
#[tactic(auto, using(java_properties::proofs::TextMaps::Reading::reads_value))]
pub fn lookup<R: CountedRead>(
    alloc: Global,
    input: &mut R,
    key: &str,
) -> Result<Option<String>, PropertiesError>
    ensures finds { IfOk result (λ found. let value = option_map characters found in
        ReadsValue R.CountedRead windows_1252 input.old (chars key.now) value input.new) }
    ensures stops { IfErr result (λ error. StopsReading R.CountedRead windows_1252 input.old error input.new ⊎ IsBareError Memory error) }
    ensures same_reader { IsSameReader R.CountedRead input.old input.new }
{
    let map = read(alloc, input)?;
    match value_of(&map, key) {
        Some(value) => Ok(Some(String::from_str(alloc, value.as_str())?)),
        None => Ok(None),
    }
}

// What a map has at a key: the lemma says that `get`, which looks for bytes, finds what the map has at their characters.
#[tactic(auto, using(properties_items::proofs::TextMaps::Values::value_at_text))]
fn value_of<'a>(map: &'a HashMap<String, String>, key: &str) -> Option<&'a String>
    ensures { option_map borrowed_characters result ≡ value_at map.now.entries (chars key.now) }
{
    map.get(key)
}

/// Returns the last value of a key in an input in this encoding, or `None` if no pair has it.
#[tactic(auto, using(java_properties::proofs::TextMaps::Reading::reads_value))]
pub fn lookup_sorted<R: CountedRead>(
    alloc: Global,
    input: &mut R,
    encoding: Encoding,
    key: &str,
) -> Result<Option<String>, PropertiesError>
    ensures finds { IfOk result (λ found. let value = option_map characters found in
        ReadsValue R.CountedRead (encoding_of encoding) input.old (chars key.now) value input.new) }
    ensures stops { let e = encoding_of encoding in
        IfErr result (λ error. StopsReading R.CountedRead e input.old error input.new ⊎ IsBareError Memory error) }
    ensures same_reader { IsSameReader R.CountedRead input.old input.new }
{
    let map = read_sorted(alloc, input, encoding)?;
    let Some(value) = value_of_sorted(&map, key) else {
        return Ok(None);
    };
    Ok(Some(String::from_str(alloc, value.as_str())?))
}

// As `value_of`, in a sorted map: the lemma is another one.
#[tactic(auto, using(properties_items::proofs::TextMaps::Values::value_at_text_sorted))]
fn value_of_sorted<'a>(map: &'a BTreeMap<String, String>, key: &str) -> Option<&'a String>
    ensures { option_map borrowed_characters result ≡ value_at map.now.entries (chars key.now) }
{
    map.get(key)
}

#[cfg(test)]
mod tests {
    use super::*;
    use crate::same::same;
    use std::test::Fail;

    #[test]
    fn looks_up_the_last_value(rt: HostRuntime) -> Result<(), Fail> {
        for (key, value) in [("caf\u{e9}", Some("3")), ("c", None)] {
            let mut input: &[u8] = b"caf\\u00e9 = 1\nb = 2\ncaf\xe9 = 3\n";
            let found = lookup(rt.alloc(), &mut input, key)?;
            same(&rt, found.as_deref(), value);
        }
        let mut input: &[u8] = "café = 1\nb = 2\ncaf\\u00e9 = 3 €\n".as_bytes();
        let found = lookup_sorted(rt.alloc(), &mut input, Encoding::UTF_8, "café")?;
        same(&rt, found.as_deref(), Some("3 €"));
        Ok(())
    }
}
