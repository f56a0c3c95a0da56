// The keys of a source with their values, as JSON.

ghost use Rattle.std.specs.Prelude.{IfOk, map};
ghost use Rattle.std.specs.Str.{chars};
ghost use Rattle.properties_text.specs.Encoding.{encoding_of};
ghost use Rattle.properties_tools.specs.Propedit.Json.{ListsJson, PrintsObject};
ghost use Rattle.properties_tools.specs.Propedit.Listing.{listed_pairs};
ghost use Rattle.properties_tables.specs.Private.Table.{row_pair, rows_of, IsTable};

use crate::propedit::answer::{Answer, json_line};
use crate::propedit::list::{is_listed, status_of_none};
use java_properties::Encoding;
use json::Writer;
use properties_tables::error::Failure;
use properties_tables::table::{Table, table_of};
use std::alloc::{AllocError, Global};

/// Returns the keys that begin with a prefix, each with its last value, as the members of one JSON object on one line, in
/// the order of their first pairs. If there is none, the object is empty, and if the prefix isn't, the status is 1.
///
/// It refuses a source as `list` does. The pairs are read once.
///
/// ```text
/// let answer = list_json(alloc, b"b = 1\na = 2\nb = 3", Encoding::UTF_8, "")?;
/// // The text is `{"b":"3","a":"2"}` and a line feed, and the status is 0.
/// ```
pub fn list_json(
    alloc: Global,
    source: &[u8],
    encoding: Encoding,
    prefix: &str,
) -> Result<Answer, Failure>
    ensures { ListsJson (encoding_of encoding) source.now (chars prefix.now) result }
{
    let table = table_of(alloc, source, encoding)?;
    Ok(listed(alloc, &table, prefix)?)
}

// Returns the object of the pairs that are listed, and the status.
fn listed(alloc: Global, table: &Table, prefix: &str) -> Result<Answer, AllocError>
    requires { IsTable table.now }
    ensures { IfOk result (PrintsObject (chars prefix.now) (listed_pairs (chars prefix.now) (map row_pair (rows_of table.now)))) }
{
    let mut writer = Writer::new(Vec::new(alloc));
    let mut status = status_of_none(prefix);
    writer.begin_object()?;
    for row in 0..table.len() {
        let key = table.key(row);
        if is_listed(key, prefix) {
            writer.key(key)?;
            writer.string(table.value(row))?;
            status = 0;
        }
    }
    writer.end_object()?;
    let text = json_line(writer)?;
    Ok(Answer { text, status })
}
