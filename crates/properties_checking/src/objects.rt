// JSON objects, each on a line.

ghost use Rattle.std.specs.Prelude.{◌∷◌, [], OnOk};
ghost use Rattle.std.specs.Fmt.{decimal};
ghost use Rattle.json.specs.Print.{IsNumber};
ghost use Rattle.json.specs.Token.{key, number};
ghost use Rattle.properties_checking.specs.Private.Objects.{member_tokens, members_value, AddsJsonLine, HasNumber, WritesAll};

use json::Writer;
use std::alloc::{AllocError, Global};

/// A member of an object: its name, and a text, a number or a truth value.
#[derive(Clone, Copy)]
pub enum Member<'a> {
    Text(&'a str, &'a str),
    Number(&'a str, usize),
    Truth(&'a str, bool),
}

/// Appends the object that has these members, and a line feed.
pub fn push_object(
    alloc: Global,
    text: &mut String,
    members: &[Member<'_>],
) -> Result<(), AllocError>
    ensures { OnOk result (AddsJsonLine (members_value members.now) text.old text.new) }
{
    let mut writer = Writer::new(Vec::new(alloc));
    writer.begin_object()?;
    for member in members {
        write_member(&mut writer, *member)?;
    }
    writer.end_object()?;
    let object = writer.into_inner();
    match str::from_utf8(&object) {
        Ok(object) => text.push_str(object)?,
        Err(_) => unreachable!(),
    }
    text.push_str("\n")?;
    Ok(())
}

fn write_member(writer: &mut Writer, member: Member<'_>) -> Result<(), AllocError>
    ensures writes { OnOk result (WritesAll writer.old (member_tokens member.entry) writer.new) }
    ensures number { OnOk result (HasNumber member.entry) }
{
    match member {
        Member::Text(name, text) => {
            writer.key(name)?;
            writer.string(text)
        }
        Member::Number(name, number) => write_number(writer, name, number),
        Member::Truth(name, truth) => {
            writer.key(name)?;
            writer.boolean(truth)
        }
    }
}

fn write_number(writer: &mut Writer, name: &str, count: usize) -> Result<(), AllocError>
    ensures writes { OnOk result (WritesAll writer.old (key name.now ∷ number (decimal count) ∷ []) writer.new) }
    ensures number { IsNumber (decimal count) }
{
    writer.key(name)?;
    writer.u64(count as u64)
}
