// What is wrong in a source, as JSON.

ghost use Rattle.std.specs.Prelude.{◌≡◌, OnOk};
ghost use Rattle.properties_checking.specs.Check.{said_value, words_of};
ghost use Rattle.properties_checking.specs.Private.Checking.{said_of};
ghost use Rattle.properties_checking.specs.Private.Objects.{AddsJsonLine};
ghost use Rattle.properties_tables.specs.Private.Table.{table_places, IsKeyTable};

use crate::check::{Finding, FindingKind, key_at, kind_of, push_words};
use crate::objects::{Member, push_object};
use properties_tables::key_table::KeyTable;
use std::alloc::{AllocError, Global};

// Appends the object of a finding.
pub(crate) fn push_value<'a>(
    alloc: Global,
    text: &mut String,
    name: &'a str,
    keys: &'a KeyTable,
    finding: &Finding,
) -> Result<(), AllocError>
    requires { IsKeyTable keys.now }
    ensures { OnOk result (AddsJsonLine (said_value name.now (said_of (table_places keys.now) finding.now)) text.old text.new) }
{
    let mut words = String::new(alloc);
    push_words(&mut words, keys, finding.kind)?;
    let line = finding.line_number;
    let kind = kind_of(finding.kind).name();
    match finding.kind {
        FindingKind::Escape(escape) => {
            let members = [
                Member::Text("file", name),
                Member::Number("line", line),
                Member::Text("kind", kind),
                Member::Truth("in_comment", escape.in_comment),
                Member::Text("message", words.as_str()),
            ];
            push_object(alloc, text, &members)
        }
        FindingKind::Repeats(row) => {
            let (key, first) = key_at(keys, row);
            let members = [
                Member::Text("file", name),
                Member::Number("line", line),
                Member::Text("kind", kind),
                Member::Text("key", key),
                Member::Number("first", first),
                Member::Text("message", words.as_str()),
            ];
            push_object(alloc, text, &members)
        }
        _ => {
            let members = [
                Member::Text("file", name),
                Member::Number("line", line),
                Member::Text("kind", kind),
                Member::Text("message", words.as_str()),
            ];
            push_object(alloc, text, &members)
        }
    }
}
