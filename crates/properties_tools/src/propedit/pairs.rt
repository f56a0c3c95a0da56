// The keys of a source with their values.

ghost use Rattle.std.specs.Prelude.{◌≡◌, IfOk, map};
ghost use Rattle.std.specs.Str.{chars};
ghost use Rattle.properties_text.specs.Encoding.{encoding_of};
ghost use Rattle.properties_tools.specs.Propedit.Listing.{ended_pair, listed_pairs, separator_byte, ListsValues, PrintsAll};
ghost use Rattle.properties_tables.specs.Private.Table.{row_pair, rows_of, IsTable};

use crate::propedit::answer::{Answer, push_ended, push_followed};
use crate::propedit::list::{is_listed, status_of_none};
use crate::propedit::request::Terminator;
use java_properties::Encoding;
use properties_tables::error::Failure;
use properties_tables::table::{Table, table_of};
use properties_tables::texts::text_at;
use std::alloc::{AllocError, Global};

/// Returns the keys that begin with a prefix, each once and with its last value, in the order of their first pairs. If
/// there is none, and the prefix isn't empty, the status is 1.
///
/// A pair is printed as `KEY=VALUE` and a line feed, or as its key and its value, each with a zero byte. It refuses a
/// source as `list` does. The pairs are read once.
///
/// ```text
/// let answer = list_values(alloc, b"b = 1\na = 2\nb = 3", Encoding::UTF_8, "", Terminator::LineFeed)?;
/// // The text is `b=3` and `a=2`, each ended by a line feed, and the status is 0.
/// ```
pub fn list_values(
    alloc: Global,
    source: &[u8],
    encoding: Encoding,
    prefix: &str,
    end: Terminator,
) -> Result<Answer, Failure>
    ensures { ListsValues (encoding_of encoding) source.now (chars prefix.now) end result }
{
    let table = table_of(alloc, source, encoding)?;
    Ok(listed(alloc, table, prefix, end)?)
}

// Returns the pairs that are listed, and the status.
fn listed(alloc: Global, table: Table, prefix: &str, end: Terminator) -> Result<Answer, AllocError>
    requires { IsTable table }
    ensures { IfOk result (PrintsAll (chars prefix.now) (ended_pair end) (listed_pairs (chars prefix.now) (map row_pair (rows_of table)))) }
{
    let separator = separator_of(end);
    let rows = table.len();
    let Table {
        keys,
        lasts,
        values,
    } = table;
    // What finds keys is freed before the text takes memory.
    let keys = keys.into_keys();
    let mut text = Vec::new(alloc);
    for row in 0..rows {
        let key = keys.key(row);
        if is_listed(key, prefix) {
            push_followed(&mut text, key, separator)?;
            push_ended(&mut text, text_at(&values, lasts[row].value), end)?;
        }
    }
    let status = if text.is_empty() {
        status_of_none(prefix)
    } else {
        0
    };
    Ok(Answer { text, status })
}

// Returns the byte between a key and its value.
fn separator_of(end: Terminator) -> u8
    ensures { result ≡ separator_byte end }
{
    match end {
        Terminator::LineFeed => b'=',
        Terminator::Nul => 0,
    }
}
