// How many pairs a change of a source changed, added and removed.

ghost use Rattle.std.specs.Prelude.{◌≡◌, Some, count_by, length};
ghost use Rattle.std.specs.Str.{chars};
ghost use Rattle.properties_text.specs.Encoding.{encoding_of};
ghost use Rattle.properties_tables.specs.Private.Fold.{found_pairs};
ghost use Rattle.properties_tables.specs.Private.Table.{rows_of, table_places, FindsKey, IsTable};
ghost use Rattle.properties_tables.specs.Table.{row_keys};
ghost use Rattle.properties_changing.specs.Counts.{pair_words, CountsChanges};
ghost use Rattle.properties_changing.specs.Private.Counting.{has_changed, is_gone, state_of, HasCompared};

use java_properties::{Encoding, MalformedEscape};
use properties_tables::error::Failure;
use properties_tables::fold::Taker;
use properties_tables::key_table::KeyTable;
use properties_tables::sound_pairs::take_sound;
use properties_tables::table::{Table, table_of};
use std::alloc::{AllocError, Global};
use std::fmt;

/// How many pairs a change of a source changed, added and removed.
///
/// What counts are the pairs that `list -v` prints: each key once, with the value of its last pair. It prints them in
/// words, as in `2 pairs changed, 1 added, 0 removed`.
#[derive(Clone, Copy, Debug, PartialEq, Eq)]
pub struct Counts {
    /// Those whose key has another value.
    pub changed: usize,
    /// Those whose key only the new source has.
    pub added: usize,
    /// Those whose key only the old one has.
    pub removed: usize,
}

/// Returns how many pairs of a source another one has changed, added and removed. Of both, comments are passed over.
///
/// It holds the table of the old one, and of the other only the keys that it adds. It refuses each as `list` does.
///
/// ```text
/// let counts = count_changes(alloc, b"a = 1\nb = 2\n", b"a = 2\nc = 2\n", Encoding::UTF_8)?;
/// // One pair is changed, one is added, and one is removed.
/// ```
pub fn count_changes(
    alloc: Global,
    source: &[u8],
    bytes: &[u8],
    encoding: Encoding,
) -> Result<Counts, Failure>
    ensures { CountsChanges (encoding_of encoding) source.now bytes.now result }
{
    let old = table_of(alloc, source, encoding)?;
    let none = Comparison {
        states: vec![in alloc; State::Gone; old.len()]?,
        old,
        next: 0,
        added: KeyTable::for_source(alloc, bytes.len())?,
    };
    let compared = take_sound(alloc, bytes, encoding, none)?;
    Ok(compared.counts())
}

// What became of a pair of the old source.
#[derive(Clone, Copy)]
pub(crate) enum State {
    Gone,
    Same,
    Changed,
}

// The pairs of an old source, compared with those of a new one that came so far.
#[derive(Drop)]
pub(crate) struct Comparison {
    pub old: Table,
    // One for each row of that table.
    pub states: Vec<State>,
    // The row that comes next if the lines stay in their order.
    pub next: usize,
    // The keys that the old source doesn't have.
    pub added: KeyTable,
}

impl Comparison {
    fn counts(&self) -> Counts
        ensures changed { result.changed ≡ count_by has_changed self.now.states.items }
        ensures added { result.added ≡ length (table_places self.now.added) }
        ensures removed { result.removed ≡ count_by is_gone self.now.states.items }
    {
        let mut changed = 0;
        let mut removed = 0;
        for state in &self.states {
            match state {
                State::Same => {}
                State::Changed => changed += 1,
                State::Gone => removed += 1,
            }
        }
        Counts {
            changed,
            added: self.added.len(),
            removed,
        }
    }
}

impl Taker for Comparison {
    ghost took = { λ first findings new. HasCompared first (found_pairs findings) new };

    #[inline(always)]
    fn pair(
        &mut self,
        alloc: Global,
        line_number: usize,
        key: &str,
        value: &str,
    ) -> Result<(), AllocError> {
        let Some(row) = find_near(&self.old, self.next, key) else {
            self.added.put(alloc, line_number, key)?;
            return Ok(());
        };
        self.states[row] = state_of(self.old.value(row), value);
        self.next = row.saturating_add(1);
        Ok(())
    }

    fn malformed(
        &mut self,
        _alloc: Global,
        _escape: MalformedEscape,
        _line: &str,
    ) -> Result<(), AllocError> {
        Ok(())
    }
}

// Returns what became of a pair whose key now has this value.
#[inline(always)]
fn state_of(old: &str, new: &str) -> State
    ensures { result ≡ state_of (chars old.now) (Some (chars new.now)) }
{
    if old == new {
        State::Same
    } else {
        State::Changed
    }
}

// Returns the row of a key. It looks at this row first, since most lines stay in their order.
#[inline(always)]
fn find_near(table: &Table, row: usize, key: &str) -> Option<usize>
    requires { IsTable table.now }
    ensures { FindsKey (chars key.now) (row_keys (rows_of table.now)) result }
{
    if row < table.len() && table.key(row) == key {
        return Some(row);
    }
    table.find(key)
}

impl fmt::Display for Counts {
    ghost use Rattle.std.specs.Prelude.{Some};
    ghost use Rattle.properties_changing.specs.Counts.{count_words};

    ghost output = { λ counts. Some (count_words counts) };

    fn fmt<W: fmt::Write>(&self, f: &mut fmt::Formatter<W>) -> fmt::Result {
        let pairs = pair_words(self.changed);
        write!(
            f,
            "{} {pairs} changed, {} added, {} removed",
            self.changed, self.added, self.removed
        )
    }
}

fn pair_words(number: usize) -> &'static str
    ensures { result.now ≡ pair_words number }
{
    if number == 1 { "pair" } else { "pairs" }
}
