// A source, and what a view shows of its groups.

use java_properties::{GroupKind, View, ViewedGroup};
use std::alloc::{AllocError, Global};
use vector_notation::items::error_text;
use vector_notation::notation::{Halt, Row, quoted};
use vector_notation::outcome::Outcome;

/// The groups of the source, as `pair 1-2 "a" "b" 0 0 1 2 7 7 8`: the kind and the lines, the texts as they stand, and
/// the places start, key_start, key_end, value_start, value_end, end and next. Then come a malformed escape, as
/// `NotHex at 4 in 1:5`, and a line that isn't text, as `ill-formed 2`.
pub fn check_view(row: Row<'_>, outcome: &mut Outcome) -> Result<(), Halt> {
    let (source, []) = row.source()? else {
        return Err(Halt::Unreadable);
    };
    let came = match View::open(row.alloc, source.bytes, row.encoding) {
        Ok(view) => shown(row.alloc, view, source.bytes.len())?,
        Err(error) => error_text(row.alloc, &error)?,
    };
    outcome.compare("in a view", &came)?;
    Ok(())
}

// All groups, of which each has a byte at least.
fn shown(alloc: Global, opened: View<'_>, size: usize) -> Result<String, AllocError> {
    let mut view = opened;
    let mut all = String::new(alloc);
    for _ in 0..=size {
        let Some(group) = view.next()? else {
            break;
        };
        if !all.is_empty() {
            all.push_str("; ")?;
        }
        all.push_str(group_text(alloc, &view, group)?.as_str())?;
    }
    if all.is_empty() {
        all.push_str("nothing")?;
    }
    Ok(all)
}

fn group_text(alloc: Global, view: &View<'_>, group: ViewedGroup) -> Result<String, AllocError> {
    let kind = match group.kind {
        GroupKind::Blank => "blank",
        GroupKind::Comment => "comment",
        GroupKind::Pair => "pair",
    };
    let mut text = format!(in alloc; "{kind} {}", group.line_number)?;
    if group.line_count > 1 {
        let last = group.line_number.saturating_add(group.line_count - 1);
        text.push_str(format!(in alloc; "-{last}")?.as_str())?;
    }
    for part in [view.raw_key(), view.raw_value()] {
        text.push(' ')?;
        text.push_str(quoted(alloc, part.as_bytes())?.as_str())?;
    }
    let places = view.places()?;
    for place in [
        group.start,
        places.key_start,
        places.key_end,
        places.value_start,
        places.value_end,
        group.end,
        group.next,
    ] {
        text.push_str(format!(in alloc; " {place}")?.as_str())?;
    }
    if let Some(flaw) = view.flaw()? {
        let told = format!(in alloc;
            " {:?} at {} in {}:{}",
            flaw.kind, flaw.place, flaw.line_number, flaw.column
        )?;
        text.push_str(told.as_str())?;
    }
    if let Some(number) = view.ill_formed_line()? {
        text.push_str(format!(in alloc; " ill-formed {number}")?.as_str())?;
    }
    Ok(text)
}
