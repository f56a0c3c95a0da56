// What differs between two sources, as JSON.

ghost use Rattle.std.specs.Prelude.{◌≡◌, ◌∷◌, ◌++◌, [], codes, IfOk, OnOk};
ghost use Rattle.json.specs.Print.{print};
ghost use Rattle.json.specs.Token.{begin_object, end_object, key, string};
ghost use Rattle.properties_format.specs.Text.{line_feed};
ghost use Rattle.properties_text.specs.Encoding.{encoding_of};
ghost use Rattle.properties_tools.specs.Propedit.Diff.{DiffsJson};
ghost use Rattle.properties_tools.specs.Private.Differing.{row_at, IsSide};
ghost use Rattle.properties_tools.specs.Private.Json.{difference_line, side_tokens};
ghost use Rattle.properties_checking.specs.Private.Objects.{WritesAll};

use crate::propedit::answer::{Answer, json_line};
use crate::propedit::diff::{DiffFailure, DiffForm, Side, diff_in};
use java_properties::Encoding;
use json::Writer;
use std::alloc::{AllocError, Global};
use std::mem;

/// Returns what differs between two sources, as [`diff`] finds it: of each key a JSON object on a line, with the line and
/// the value of its last pair in each of the two. The status is 1 if anything differs.
///
/// ```text
/// let answer = diff_json(alloc, b"a = 1\nb = 2", b"c = 3\na: 1", Encoding::UTF_8)?;
/// // {"key":"b","old":{"line":2,"value":"2"}}
/// // {"key":"c","new":{"line":1,"value":"3"}}
/// ```
pub fn diff_json(
    alloc: Global,
    old: &[u8],
    new: &[u8],
    encoding: Encoding,
) -> Result<Answer, DiffFailure>
    ensures { DiffsJson (encoding_of encoding) old.now new.now result }
{
    diff_in(alloc, &Objects, old, new, encoding)
}

// Objects, each on a line.
#[derive(Clone, Copy)]
struct Objects;

impl DiffForm for Objects {
    ghost printed = { λ _. difference_line };

    fn gone(&self, alloc: Global, text: &mut Vec<u8>, old: Side<'_>) -> Result<(), AllocError> {
        let mut writer = begun(alloc, text, old.key())?;
        write_side(&mut writer, "old", old)?;
        end(writer, text)
    }

    fn came(&self, alloc: Global, text: &mut Vec<u8>, new: Side<'_>) -> Result<(), AllocError> {
        let mut writer = begun(alloc, text, new.key())?;
        write_side(&mut writer, "new", new)?;
        end(writer, text)
    }

    fn changed(
        &self,
        alloc: Global,
        text: &mut Vec<u8>,
        old: Side<'_>,
        new: Side<'_>,
    ) -> Result<(), AllocError> {
        let mut writer = begun(alloc, text, old.key())?;
        write_side(&mut writer, "old", old)?;
        write_side(&mut writer, "new", new)?;
        end(writer, text)
    }
}

// Takes a text, and begins the object of a key after it.
fn begun(alloc: Global, text: &mut Vec<u8>, name: &str) -> Result<Writer, AllocError>
    ensures before { IfOk result (λ writer. writer.before ≡ text.old.items) }
    ensures tokens { IfOk result (λ writer. writer.tokens ≡ begin_object ∷ key (codes "key") ∷ string name.now ∷ []) }
{
    let mut writer = Writer::new(mem::replace(text, Vec::new(alloc)));
    writer.begin_object()?;
    writer.key("key")?;
    writer.string(name)?;
    Ok(writer)
}

// Writes the member of this name for a row: the line and the value of its last pair.
fn write_side(writer: &mut Writer, name: &str, side: Side<'_>) -> Result<(), AllocError>
    requires { IsSide side }
    ensures { OnOk result (WritesAll writer.old (side_tokens name.now (row_at side.entry)) writer.new) }
{
    writer.key(name)?;
    writer.begin_object()?;
    writer.key("line")?;
    writer.u64(side.line() as u64)?;
    writer.key("value")?;
    writer.string(side.value())?;
    writer.end_object()?;
    Ok(())
}

// Ends the object, and puts back the text with its line.
fn end(mut writer: Writer, text: &mut Vec<u8>) -> Result<(), AllocError>
    ensures { OnOk result (text.new.items ≡ (writer.before ++ print (writer.tokens ++ end_object ∷ [])) ++ line_feed ∷ []) }
{
    writer.end_object()?;
    *text = json_line(writer)?;
    Ok(())
}
