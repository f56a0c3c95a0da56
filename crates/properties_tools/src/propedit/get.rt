// The values of keys.

ghost use Rattle.std.specs.Prelude.{◌≡◌, map, IfOk};
ghost use Rattle.std.specs.Option.{option_map};
ghost use Rattle.java_properties.specs.Maps.{characters};
ghost use Rattle.properties_text.specs.Encoding.{encoding_of};
ghost use Rattle.properties_tables.specs.Values.{value_texts};
ghost use Rattle.properties_tools.specs.Propedit.Get.{value_or, Gets, PrintsTexts};
ghost use Rattle.properties_changing.specs.Change.{borrowed_characters};

use crate::propedit::answer::{Answer, push_ended};
use crate::propedit::request::Terminator;
use java_properties::Encoding;
use properties_tables::error::Failure;
use properties_tables::sound::refuse_bytes;
use properties_tables::values::values_of;
use std::alloc::{AllocError, Global};

/// How values are printed.
#[derive(Clone, Copy)]
pub struct Shown<'a> {
    /// What is printed for a key that no pair has.
    pub default: Option<&'a str>,
    /// What ends each text.
    pub end: Terminator,
}

/// Returns the last value of each key, or the default if no pair has the key, and the byte that ends it. For a key with
/// neither there is no text, and the status is 1.
///
/// It refuses a source for its bytes: the byte order mark of UTF-32, lines that are ill-formed in the encoding in
/// force, or U+0000 if UTF-8 is in force without a byte order mark. It refuses a malformed escape in a pair too.
///
/// ```text
/// // If `keys` are `b` and `a`:
/// let shown = Shown { default: None, end: Terminator::LineFeed };
/// let answer = get(alloc, b"b = 1\na = 2\nb = 3", Encoding::UTF_8, &keys, shown)?;
/// // The text is `3` and `2`, each ended by a line feed, and the status is 0.
/// ```
pub fn get(
    alloc: Global,
    source: &[u8],
    encoding: Encoding,
    keys: &[String],
    shown: Shown<'_>,
) -> Result<Answer, Failure>
    ensures { let default = option_map borrowed_characters shown.entry.default in
        Gets (encoding_of encoding) source.now (map characters keys.now) default shown.entry.end result }
{
    refuse_bytes(source, encoding)?;
    let values = values_of(alloc, source, encoding, keys)?;
    Ok(answer_of(alloc, &values, shown)?)
}

// Returns each value with the byte that ends it, or else the default. The status is 1 if there is neither for one.
fn answer_of(
    alloc: Global,
    values: &[Option<String>],
    shown: Shown<'_>,
) -> Result<Answer, AllocError>
    ensures { let default = option_map borrowed_characters shown.entry.default in
        IfOk result (PrintsTexts shown.entry.end (map (value_or default) (value_texts values.now))) }
{
    let mut text = Vec::new(alloc);
    let mut status = 0;
    for value in values {
        match value_or(value, shown.default) {
            Some(word) => push_ended(&mut text, word, shown.end)?,
            None => status = 1,
        }
    }
    Ok(Answer { text, status })
}

// Returns a value, or else the default.
fn value_or<'a>(value: &'a Option<String>, default: Option<&'a str>) -> Option<&'a str>
    ensures { option_map borrowed_characters result ≡ value_or (option_map borrowed_characters default.entry) (option_map characters value.now) }
{
    match value {
        Some(text) => Some(text.as_str()),
        None => default,
    }
}
