// The values of some keys of a source.

ghost use Rattle.std.specs.Prelude.{◌≡◌, ◌<◌, length, map, IfOk, OnOk};
ghost use Rattle.std.specs.Option.{option_map};
ghost use Rattle.std.specs.Str.{chars};
ghost use Rattle.java_properties.specs.Maps.{characters};
ghost use Rattle.properties_text.specs.Encoding.{encoding_of};
ghost use Rattle.properties_tables.specs.Values.{value_texts, FindsValues};
ghost use Rattle.properties_tables.specs.Private.Sought.{found_value, is_marked, mark_for, IsSeeking, Seeks, SeeksMore, TookSought};

use crate::error::Failure;
use crate::fold::{Taker, take_all};
use crate::sound_pairs::first_of;
use java_properties::{Encoding, MalformedEscape};
use std::alloc::{AllocError, Global};
use std::collections::BTreeMap;

/// Returns the value of each key: that of the last pair with the key, or `None` if no pair has it. It refuses a
/// malformed escape in a pair. It reads the source once. A key may come twice.
pub fn values_of(
    alloc: Global,
    source: &[u8],
    encoding: Encoding,
    keys: &[String],
) -> Result<Vec<Option<String>>, Failure>
    ensures { FindsValues (encoding_of encoding) source.now keys.now result }
{
    let sought = seek(alloc, keys)?;
    let found = take_all(alloc, source, encoding, sought)?;
    if let Some(escape) = found.malformed {
        return Err(Failure::Malformed(escape));
    }
    Ok(found.values_of(alloc, keys)?)
}

// Returns what seeks these keys.
fn seek(alloc: Global, keys: &[String]) -> Result<Sought, AllocError>
    ensures { IfOk result (Seeks (map characters keys.now)) }
{
    let marks = keys.len().saturating_mul(16).saturating_add(64);
    let mut sought = Sought {
        values: BTreeMap::new(alloc),
        marks: vec![in alloc; false; marks]?,
        malformed: None,
    };
    for key in keys {
        sought.add(alloc, key.as_str())?;
    }
    Ok(sought)
}

// The keys that are sought, each with its last value, and the first malformed escape of a pair.
#[derive(Drop)]
pub(crate) struct Sought {
    pub values: BTreeMap<String, Option<String>>,
    // Whether a key with this mark is sought. Most other keys have marks that none has.
    pub marks: Vec<bool>,
    pub malformed: Option<MalformedEscape>,
}

impl Sought {
    // Seeks one more key.
    fn add(&mut self, alloc: Global, key: &str) -> Result<(), AllocError>
        requires { IsSeeking self.old }
        ensures { OnOk result (SeeksMore (chars key.now) self.old self.new) }
    {
        self.values.insert(String::from_str(alloc, key)?, None)?;
        let mark = mark_of(key.as_bytes(), self.marks.len());
        self.marks[mark] = true;
        Ok(())
    }

    // Returns whether a key may be sought. If it isn't marked, it isn't.
    #[inline(always)]
    fn is_marked(&self, key: &str) -> bool
        requires { 0 < length self.now.marks.items }
        ensures { result ≡ is_marked self.now key.now }
    {
        self.marks[mark_of(key.as_bytes(), self.marks.len())]
    }

    // Returns the values of these keys.
    fn values_of(&self, alloc: Global, keys: &[String]) -> Result<Vec<Option<String>>, AllocError>
        ensures { IfOk result (λ values. value_texts values.items ≡ map (found_value self.now) (map characters keys.now)) }
    {
        let mut values = Vec::new(alloc);
        for key in keys {
            let value = self.value_of(alloc, key.as_str())?;
            values.push(value)?;
        }
        Ok(values)
    }

    // Returns the value of a key, if it is sought and has one.
    fn value_of(&self, alloc: Global, key: &str) -> Result<Option<String>, AllocError>
        ensures { IfOk result (λ value. option_map characters value ≡ found_value self.now (chars key.now)) }
    {
        let Some(held) = self.values.get(key) else {
            return Ok(None);
        };
        match held {
            Some(value) => Ok(Some(String::from_str(alloc, value.as_str())?)),
            None => Ok(None),
        }
    }
}

impl Taker for Sought {
    ghost took = { TookSought };

    #[inline(always)]
    fn pair(
        &mut self,
        alloc: Global,
        _line_number: usize,
        key: &str,
        value: &str,
    ) -> Result<(), AllocError> {
        if !self.is_marked(key) {
            return Ok(());
        }
        let Some(held) = self.values.get_mut(key) else {
            return Ok(());
        };
        *held = Some(String::from_str(alloc, value)?);
        Ok(())
    }

    fn malformed(
        &mut self,
        _alloc: Global,
        escape: MalformedEscape,
        _line: &str,
    ) -> Result<(), AllocError> {
        self.malformed = first_of(self.malformed, escape);
        Ok(())
    }
}

// Returns the mark of a key: by its length, a byte in its middle and its last one.
#[inline(always)]
fn mark_of(key: &[u8], marks: usize) -> usize
    requires { 0 < marks }
    ensures is { result ≡ mark_for marks key.now }
    ensures within { result < marks }
{
    let size = key.len();
    if size == 0 {
        return 0;
    }
    let middle = usize::from(key[size / 2]);
    let last = usize::from(key[size - 1]);
    (size % 32 + 32 * middle + 1024 * last) % marks
}
