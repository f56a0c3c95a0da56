// The groups of a source, packed, with the places of their parts.

ghost use Rattle.std.specs.Prelude.{◌≡◌, IfOk, OnOk};
ghost use Rattle.std.specs.Str.{chars};
ghost use Rattle.properties_text.specs.Encoding.{encoding_of};
ghost use Rattle.properties_format.specs.Split.{Logical, IsSplit};
ghost use Rattle.properties_editing.specs.Views.{IsGroup, viewed_line};
ghost use Rattle.properties_c.specs.Items.{AreNumbersOf, flaw_numbers, flaw_status as status_in, key_in, kind_number, standing};
ghost use Rattle.properties_c.specs.Private.Results.{PacksGroups, PushesGroup, Resolves, is_read};

use crate::asked::{Asked, are_read};
use crate::items::item_record;
use crate::records::{Record, push_spanned};
use java_properties::{
    Encoding, ErrorKind, Flaw, GroupKind, LineRef, PropertiesError, View, ViewedGroup,
};
use properties_items::found::{cut_item, find_item};
use properties_text::escape::has_backslash;
use std::alloc::{AllocError, Global};

/// Returns the groups of a source, packed, with the places of their parts.
pub fn spanned_items(
    alloc: Global,
    source: &[u8],
    encoding: Encoding,
    asked: Asked,
) -> Result<Vec<u8>, PropertiesError>
    ensures { PacksGroups asked (encoding_of encoding) source.now result }
{
    let mut view = View::open(alloc, source, encoding)?;
    let mut bytes = Vec::new(alloc);
    while let Some(group) = view.next()? {
        push_group(alloc, &mut bytes, asked, &view, group)?;
    }
    Ok(bytes)
}

// Appends the group that was given last.
fn push_group(
    alloc: Global,
    bytes: &mut Vec<u8>,
    asked: Asked,
    view: &View<'_>,
    group: ViewedGroup,
) -> Result<(), AllocError>
    requires { IsGroup view.now group }
    ensures { OnOk result (PushesGroup asked view.now bytes.old.items bytes.new.items) }
{
    let numbers = span_numbers(view, group)?;
    let kind = spanned_kind(group.kind);
    let line = view.line();
    if is_group_read(asked, group.kind) && has_backslash(line.as_bytes()) {
        if let Some(item) = resolved_item(alloc, group.line_number, line)? {
            push_spanned(
                bytes,
                item_record(kind, group.line_number, item.content()),
                &numbers,
            )?;
            return Ok(());
        }
    }
    let given = Record {
        kind,
        line: group.line_number,
        key: standing_key(view, group).as_bytes(),
        value: view.raw_value().as_bytes(),
    };
    push_spanned(bytes, given, &numbers)?;
    Ok(())
}

// Returns the key of the group that was given last, as it stands. A comment has none.
fn standing_key<'a>(view: &'a View<'_>, group: ViewedGroup) -> &'a str
    requires { IsGroup view.now group }
    ensures { (what : Logical) → IsSplit (viewed_line view.now) what → chars result.now ≡ key_in (standing what) }
{
    match group.kind {
        GroupKind::Comment => "",
        _ => view.raw_key(),
    }
}

// Returns the item of a logical line, or `None` if it has none: it is blank, or one of its escapes is malformed.
fn resolved_item<'a>(
    alloc: Global,
    number: usize,
    line: &'a str,
) -> Result<Option<LineRef<'a>>, AllocError>
    ensures { IfOk result (λ item. Resolves (chars line.now) item) }
{
    match find_item(alloc, number, line) {
        Ok(Some(found)) => Ok(Some(cut_item(found, line))),
        Ok(None) => Ok(None),
        Err(error) => match error.kind() {
            ErrorKind::Memory => Err(AllocError),
            _ => Ok(None),
        },
    }
}

// Returns the kind of the record of a group.
fn spanned_kind(kind: GroupKind) -> usize
    ensures { result ≡ kind_number kind }
{
    match kind {
        GroupKind::Blank => 21,
        GroupKind::Comment => 16,
        GroupKind::Pair => 17,
    }
}

// Returns whether the escapes of a group are resolved.
fn is_group_read(asked: Asked, kind: GroupKind) -> bool
    ensures { result ≡ is_read asked kind }
{
    match kind {
        GroupKind::Blank => false,
        GroupKind::Comment => are_read(asked.comments),
        GroupKind::Pair => are_read(asked.pairs),
    }
}

// Returns the places of the group that was given last, and what is wrong in it.
fn span_numbers(view: &View<'_>, group: ViewedGroup) -> Result<[usize; 12], AllocError>
    ensures { IfOk result (λ numbers. AreNumbersOf view.now group numbers) }
{
    let places = view.places()?;
    let flaw = flaw_parts(view.flaw()?);
    let ill_formed = match view.ill_formed_line()? {
        Some(number) => number,
        None => 0,
    };
    Ok([
        group.start,
        places.key_start,
        places.key_end,
        places.value_start,
        places.value_end,
        group.end,
        group.next,
        flaw[0],
        flaw[1],
        flaw[2],
        flaw[3],
        ill_formed,
    ])
}

// Returns the status of a malformed escape, its place, its line and its column.
fn flaw_parts(flaw: Option<Flaw>) -> [usize; 4]
    ensures { result ≡ flaw_numbers flaw }
{
    match flaw {
        Some(flaw) => [
            flaw_status(flaw.kind),
            flaw.place,
            flaw.line_number,
            flaw.column,
        ],
        None => [0, 0, 0, 0],
    }
}

// Returns the number of the status of a malformed escape.
fn flaw_status(kind: ErrorKind) -> usize
    ensures { result ≡ status_in kind }
{
    match kind {
        ErrorKind::NotEnoughDigits => 7,
        ErrorKind::NotHex => 8,
        _ => 9,
    }
}
