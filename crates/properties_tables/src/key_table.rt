// The keys of a source, each once.

ghost use Rattle.std.specs.Prelude.{◌≡◌, ◌<◌, bytes_eq, length, IfOk, OnOk, get_or, []};
ghost use Rattle.std.specs.BTreeMap.{IsOrdered};
ghost use Rattle.std.specs.Str.{chars};
ghost use Rattle.std.specs.String.{string_cmp};
ghost use Rattle.java_properties.specs.Findings.{KeyPlace};
ghost use Rattle.properties_text.specs.Encoding.{encoding_of};
ghost use Rattle.properties_tables.specs.Private.Table.{hash_after, place_keys, places_in, table_places, slot_for, FindsKey, HoldKeys, IsKeyTable, KeepsRow, PutsKey, ReadsKeys, TellsSoundKey, TookKeys};

use crate::error::Failure;
use crate::fold::Taker;
use crate::sound_pairs::take_sound;
use crate::texts::{Place, append, text_at};
use java_properties::{Encoding, MalformedEscape};
use properties_text::escape::{UnescapeError, unescape};
use properties_text::parse::{ParsedSpans, parse_spans};
use std::alloc::{AllocError, Global};
use std::borrow::CowStr;
use std::collections::BTreeMap;

// The factor of the hash.
const FACTOR: u64 = 6_364_136_223_846_793_005;

// A slot holds a row below this one.
const ROWS_IN_SLOTS: usize = 4_294_967_295;

/// A key, and its first pair.
#[derive(Clone, Copy)]
pub struct KeyRow {
    /// Where the key is.
    pub place: Place,
    /// The line in which its first pair begins.
    pub first_line: usize,
}

/// Keys, each once, in the order of their first pairs, with the lines of these.
#[derive(Drop)]
pub struct Keys {
    /// The keys, one after another.
    pub text: Vec<u8>,
    /// Where each is, and its first line.
    pub rows: Vec<KeyRow>,
}

/// The keys that came, and what finds them.
///
/// Each key has one of the slots, by its hash. A slot has the row of one key. The others with this slot are in a sorted
/// map, so that no choice of keys makes it slow.
#[derive(Drop)]
pub struct KeyTable {
    /// The keys.
    pub keys: Keys,
    /// One more than a row, or 0.
    pub slots: Vec<u32>,
    /// The rows of keys whose slot has another key.
    pub others: BTreeMap<String, usize>,
}

/// Returns the keys of a source. It is refused for its bytes, or for a malformed escape in a pair.
pub fn keys_of_source(alloc: Global, source: &[u8], encoding: Encoding) -> Result<Keys, Failure>
    ensures { ReadsKeys (encoding_of encoding) source.now result }
{
    let none = KeyTable::for_source(alloc, source.len())?;
    let table = take_sound(alloc, source, encoding, none)?;
    Ok(table.into_keys())
}

impl Keys {
    /// Returns the number of keys.
    pub fn len(&self) -> usize
        ensures { result ≡ length (places_in self.now) }
    {
        self.rows.len()
    }

    /// Returns the key of a row.
    #[inline(always)]
    pub fn key(&self, row: usize) -> &str
        requires table { HoldKeys self.now }
        requires within { row < length (places_in self.now) }
        ensures { (d : KeyPlace) → chars result.now ≡ (get_or (places_in self.now) row d).key }
    {
        text_at(&self.text, self.rows[row].place)
    }

    /// Returns the line in which the first pair with the key of a row begins.
    #[inline(always)]
    pub fn first_line(&self, row: usize) -> usize
        requires { row < length (places_in self.now) }
        ensures { (d : KeyPlace) → result ≡ (get_or (places_in self.now) row d).number }
    {
        self.rows[row].first_line
    }
}

impl KeyTable {
    /// Returns an empty table, with room for the keys that a source of this length often has.
    pub fn for_source(alloc: Global, length: usize) -> Result<KeyTable, AllocError>
        ensures table { IfOk result IsKeyTable }
        ensures empty { IfOk result (λ table. table_places table ≡ []) }
    {
        let slots = length / 8 + 1;
        let keys = Keys {
            text: Vec::with_capacity(alloc, length)?,
            rows: Vec::with_capacity(alloc, length / 32)?,
        };
        Ok(KeyTable {
            keys,
            slots: vec![in alloc; 0; slots]?,
            others: BTreeMap::new(alloc),
        })
    }

    /// Returns the number of keys.
    pub fn len(&self) -> usize
        ensures { result ≡ length (table_places self.now) }
    {
        self.keys.len()
    }

    /// Returns the key of a row.
    #[inline(always)]
    pub fn key(&self, row: usize) -> &str
        requires table { IsKeyTable self.now }
        requires within { row < length (table_places self.now) }
        ensures { (d : KeyPlace) → chars result.now ≡ (get_or (table_places self.now) row d).key }
    {
        self.keys.key(row)
    }

    /// Returns the line in which the first pair with the key of a row begins.
    #[inline(always)]
    pub fn first_line(&self, row: usize) -> usize
        requires { row < length (table_places self.now) }
        ensures { (d : KeyPlace) → result ≡ (get_or (table_places self.now) row d).number }
    {
        self.keys.first_line(row)
    }

    /// Returns the row of a key, if a pair has it.
    pub fn find(&self, key: &str) -> Option<usize>
        requires { IsKeyTable self.now }
        ensures { FindsKey (chars key.now) (place_keys (table_places self.now)) result }
    {
        self.row_in(slot_of(key, self.slots.len()), key)
    }

    /// Returns its keys. What finds them is freed.
    pub fn into_keys(self) -> Keys
        ensures { result ≡ self.keys }
    {
        let KeyTable {
            keys,
            slots: _slots,
            others: _others,
        } = self;
        keys
    }

    /// Adds the key of a pair that begins in this line, if none before it has the key. Returns its row.
    #[inline(always)]
    pub fn put(&mut self, alloc: Global, line_number: usize, key: &str) -> Result<usize, AllocError>
        requires { IsKeyTable self.old }
        ensures puts { IfOk result (λ row. PutsKey line_number (chars key.now) (table_places self.old) row (table_places self.new)) }
        ensures table { IfOk result (λ _. IsKeyTable self.new) }
    {
        let slot = slot_of(key, self.slots.len());
        if let Some(row) = self.row_in(slot, key) {
            return Ok(row);
        }
        let row = self.keys.rows.len();
        let place = append(&mut self.keys.text, key)?;
        self.keys.rows.push(KeyRow {
            place,
            first_line: line_number,
        })?;
        self.keep(alloc, slot, key, row)?;
        Ok(row)
    }

    // Returns the row of a key with this slot.
    #[inline(always)]
    fn row_in(&self, slot: usize, key: &str) -> Option<usize>
        requires table { IsKeyTable self.now }
        requires slot { slot ≡ slot_for (length self.now.slots.items) key.now }
        ensures { FindsKey (chars key.now) (place_keys (table_places self.now)) result }
    {
        let held = self.slots[slot] as usize;
        if held == 0 {
            return None;
        }
        let row = held - 1;
        if is_same(self.key(row), key) {
            return Some(row);
        }
        match self.others.get(key) {
            Some(row) => Some(*row),
            None => None,
        }
    }

    // Keeps the row of a key, which has this slot: in the slot if nothing is there, and otherwise among the others. So
    // is a row that doesn't fit a slot, which then has the first row.
    #[inline(always)]
    fn keep(&mut self, alloc: Global, slot: usize, key: &str, row: usize) -> Result<(), AllocError>
        requires some { slot < length self.old.slots.items }
        requires slot { slot ≡ slot_for (length self.old.slots.items) key.now }
        requires row { row < length self.old.keys.rows.items }
        requires ordered { IsOrdered string_cmp self.old.others }
        ensures { OnOk result (KeepsRow key.now row self.old self.new) }
    {
        if self.slots[slot] == 0 {
            if row < ROWS_IN_SLOTS {
                self.slots[slot] = row as u32 + 1;
                return Ok(());
            }
            self.slots[slot] = 1;
        }
        self.others.insert(String::from_str(alloc, key)?, row)?;
        Ok(())
    }
}

impl Taker for KeyTable {
    ghost took = { TookKeys };

    #[inline(always)]
    fn pair(
        &mut self,
        alloc: Global,
        line_number: usize,
        key: &str,
        _value: &str,
    ) -> Result<(), AllocError> {
        self.put(alloc, line_number, key)?;
        Ok(())
    }

    // A key counts even if its value is malformed.
    fn malformed(
        &mut self,
        alloc: Global,
        escape: MalformedEscape,
        line: &str,
    ) -> Result<(), AllocError> {
        if escape.in_comment {
            return Ok(());
        }
        let Some(key) = sound_key(alloc, line)? else {
            return Ok(());
        };
        self.put(alloc, escape.line_number, key.as_str())?;
        Ok(())
    }
}

// Returns the key of a logical line, if the line is a pair and no escape of its key is malformed.
fn sound_key(alloc: Global, line: &str) -> Result<Option<CowStr<'_>>, AllocError>
    ensures { IfOk result (TellsSoundKey (chars line.now)) }
{
    match parse_spans(line) {
        Some(ParsedSpans::KVPair(key, _)) => match unescape(alloc, key.cut(line)) {
            Ok(key) => Ok(Some(key)),
            Err(UnescapeError::Malformed(_)) => Ok(None),
            Err(UnescapeError::Memory) => Err(AllocError),
        },
        Some(ParsedSpans::Comment(_)) => Ok(None),
        None => Ok(None),
    }
}

// Returns whether two texts are the same.
#[inline(always)]
fn is_same(text: &str, other: &str) -> bool
    ensures { result ≡ bytes_eq text.now other.now }
{
    text.as_bytes() == other.as_bytes()
}

// Returns the slot of a key.
#[inline(always)]
fn slot_of(key: &str, slots: usize) -> usize
    requires { 0 < slots }
    ensures is { result ≡ slot_for slots key.now }
    ensures within { result < slots }
{
    let mut hash = 0;
    for byte in key.as_bytes() {
        hash = hash_after(hash, *byte);
    }
    (hash / 4_294_967_296) as usize % slots
}

// Returns a hash after one more byte.
#[inline(always)]
fn hash_after(hash: u64, byte: u8) -> u64
    ensures { result ≡ hash_after hash byte }
{
    hash.wrapping_add(u64::from(byte)).wrapping_mul(FACTOR)
}
