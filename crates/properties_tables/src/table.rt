// The keys of a source, each once and with its last value.

ghost use Rattle.std.specs.Prelude.{◌≡◌, ◌<◌, length, IfOk, get_or, []};
ghost use Rattle.std.specs.Str.{chars};
ghost use Rattle.properties_text.specs.Encoding.{encoding_of};
ghost use Rattle.properties_tables.specs.Private.Table.{rows_of, FindsKey, IsTable, PutsRow, ReadsTable, TookRows};
ghost use Rattle.properties_tables.specs.Table.{row_keys, Row};

use crate::error::Failure;
use crate::fold::Taker;
use crate::key_table::KeyTable;
use crate::sound_pairs::take_sound;
use crate::texts::{Place, append, text_at};
use java_properties::{Encoding, MalformedEscape};
use std::alloc::{AllocError, Global};

/// The last pair with a key.
#[derive(Clone, Copy)]
pub struct LastPair {
    /// Where its value is.
    pub value: Place,
    /// The line in which it begins.
    pub line: usize,
}

/// The keys that came, each once, in the order of their first pairs, with the lines of the first and the last pair and
/// with the value of the last.
///
/// Each value is appended, and stays if another takes its place: all of them are no longer than the text of the source.
#[derive(Drop)]
pub struct Table {
    /// The keys, each with its first line.
    pub keys: KeyTable,
    /// The last pair of each key.
    pub lasts: Vec<LastPair>,
    /// Their values.
    pub values: Vec<u8>,
}

/// Returns the table of a source. It is refused for its bytes, or for a malformed escape in a pair.
pub fn table_of(alloc: Global, source: &[u8], encoding: Encoding) -> Result<Table, Failure>
    ensures { ReadsTable (encoding_of encoding) source.now result }
{
    let none = Table::for_source(alloc, source.len())?;
    take_sound(alloc, source, encoding, none)
}

impl Table {
    /// Returns an empty table, with room for the keys and the values that a source of this length often has.
    pub fn for_source(alloc: Global, length: usize) -> Result<Table, AllocError>
        ensures table { IfOk result IsTable }
        ensures empty { IfOk result (λ table. rows_of table ≡ []) }
    {
        Ok(Table {
            keys: KeyTable::for_source(alloc, length)?,
            lasts: Vec::with_capacity(alloc, length / 32)?,
            values: Vec::with_capacity(alloc, length)?,
        })
    }

    /// Returns the number of keys.
    pub fn len(&self) -> usize
        requires { IsTable self.now }
        ensures { result ≡ length (rows_of self.now) }
    {
        self.lasts.len()
    }

    /// Returns the key of a row.
    #[inline(always)]
    pub fn key(&self, row: usize) -> &str
        requires table { IsTable self.now }
        requires within { row < length (rows_of self.now) }
        ensures { (d : Row) → chars result.now ≡ (get_or (rows_of self.now) row d).key }
    {
        self.keys.key(row)
    }

    /// Returns the line in which the last pair with the key of a row begins.
    #[inline(always)]
    pub fn last_line(&self, row: usize) -> usize
        requires table { IsTable self.now }
        requires within { row < length (rows_of self.now) }
        ensures { (d : Row) → result ≡ (get_or (rows_of self.now) row d).last }
    {
        self.lasts[row].line
    }

    /// Returns the value of that pair.
    #[inline(always)]
    pub fn value(&self, row: usize) -> &str
        requires table { IsTable self.now }
        requires within { row < length (rows_of self.now) }
        ensures { (d : Row) → chars result.now ≡ (get_or (rows_of self.now) row d).value }
    {
        text_at(&self.values, self.lasts[row].value)
    }

    /// Returns the row of a key, if a pair has it.
    pub fn find(&self, key: &str) -> Option<usize>
        requires { IsTable self.now }
        ensures { FindsKey (chars key.now) (row_keys (rows_of self.now)) result }
    {
        self.keys.find(key)
    }

    /// Adds a pair that begins in this line. Returns the row of its key.
    #[inline(always)]
    pub fn put(
        &mut self,
        alloc: Global,
        line_number: usize,
        key: &str,
        value: &str,
    ) -> Result<usize, AllocError>
        requires { IsTable self.old }
        ensures puts { IfOk result (λ row. PutsRow line_number (chars key.now) (chars value.now) (rows_of self.old) row (rows_of self.new)) }
        ensures table { IfOk result (λ _. IsTable self.new) }
    {
        let rows = self.lasts.len();
        let row = self.keys.put(alloc, line_number, key)?;
        let value = append(&mut self.values, value)?;
        let last = LastPair {
            value,
            line: line_number,
        };
        if row < rows {
            self.lasts[row] = last;
            return Ok(row);
        }
        self.lasts.push(last)?;
        Ok(row)
    }
}

impl Taker for Table {
    ghost took = { TookRows };

    #[inline(always)]
    fn pair(
        &mut self,
        alloc: Global,
        line_number: usize,
        key: &str,
        value: &str,
    ) -> Result<(), AllocError> {
        self.put(alloc, line_number, key, value)?;
        Ok(())
    }

    fn malformed(
        &mut self,
        _alloc: Global,
        _escape: MalformedEscape,
        _line: &str,
    ) -> Result<(), AllocError> {
        Ok(())
    }
}
