// A source, what is changed of it, and what is asked of the document.

mod documents;
pub mod pairs;

use documents::check_document;
use java_properties::{
    Comments, Edit, PropertiesError, SourceOptions, edit_all, edit_with, remove_key, set_key,
    set_value,
};
use std::alloc::{AllocError, Global};
use std::slice;
use vector_notation::items::error_text;
use vector_notation::notation::{Clause, Halt, Row, Source, owned, quoted};
use vector_notation::outcome::Outcome;

// Changes in a row that are all written in ASCII only, or none of them.
#[derive(Drop)]
struct Run {
    ascii_only: bool,
    edits: Vec<Edit>,
}

/// The changes are made by a document, by a list of edits, and by a single call where they are one. A source that is
/// refused is refused whatever is to be changed.
pub fn check_edit(row: Row<'_>, outcome: &mut Outcome) -> Result<(), Halt> {
    let (source, steps) = row.source()?;
    let runs = runs(row.alloc, steps)?;
    let seen = check_document(source, steps, outcome)?;
    check_calls(source, runs.as_slice(), seen.as_str(), outcome)?;
    if edit_all(row.alloc, source.bytes, row.encoding, &[]).is_err() {
        check_refused(source, outcome)?;
    }
    Ok(())
}

// The changes as edits. What is asked is none.
fn runs(alloc: Global, steps: &[Clause]) -> Result<Vec<Run>, Halt> {
    let mut runs = Vec::new(alloc);
    let mut ascii_only = false;
    let mut edits = Vec::new(alloc);
    for step in steps {
        match step.parts() {
            ("put", [key, value]) => {
                edits.push(Edit::Put(owned(alloc, key)?, owned(alloc, value)?))?;
            }
            ("remove", [key]) => edits.push(Edit::Remove(owned(alloc, key)?))?,
            ("value", [key, value]) => {
                edits.push(Edit::SetValue(owned(alloc, key)?, owned(alloc, value)?))?;
            }
            (word @ ("ascii-only" | "all-characters"), []) => {
                runs.push(Run { ascii_only, edits })?;
                ascii_only = word == "ascii-only";
                edits = Vec::new(alloc);
            }
            ("get", [_]) => {}
            (_, []) if step.reading().is_some() => {}
            _ => return Err(Halt::Unreadable),
        }
    }
    runs.push(Run { ascii_only, edits })?;
    Ok(runs)
}

// The changes are made by lists of edits, and by a single call where they are one. A value that is set again in what
// came of it changes nothing.
fn check_calls(
    source: Source<'_>,
    runs: &[Run],
    seen: &str,
    outcome: &mut Outcome,
) -> Result<(), AllocError> {
    if let [run] = runs {
        if let (false, [edit]) = (run.ascii_only, run.edits.as_slice()) {
            let once = changed(source, edit);
            let came = shown(source.alloc, &once, seen)?;
            outcome.compare("by a single call", &came)?;
            if let (Ok(bytes), Edit::SetValue(_, _)) = (&once, edit) {
                let twice = changed(Source { bytes, ..source }, edit);
                let came = shown(source.alloc, &twice, seen)?;
                outcome.compare("by a second call", &came)?;
            }
        }
    }
    let came = shown(source.alloc, &edited(source, runs, Comments::Read), seen)?;
    outcome.compare("by lists of edits", &came)
}

fn edited(
    source: Source<'_>,
    runs: &[Run],
    comments: Comments,
) -> Result<Vec<u8>, PropertiesError> {
    let (alloc, encoding) = (source.alloc, source.encoding);
    let mut bytes = source.bytes.to_vec(alloc)?;
    for run in runs {
        bytes = if let (Comments::Read, false) = (comments, run.ascii_only) {
            edit_all(alloc, &bytes, encoding, &run.edits)?
        } else {
            let options = SourceOptions {
                encoding,
                ascii_only: run.ascii_only,
                latin_1: false,
                comments,
            };
            edit_with(alloc, &bytes, options, &run.edits)?
        };
    }
    Ok(bytes)
}

fn changed(source: Source<'_>, edit: &Edit) -> Result<Vec<u8>, PropertiesError> {
    let (alloc, encoding) = (source.alloc, source.encoding);
    match edit {
        Edit::Put(key, value) => set_key(alloc, source.bytes, encoding, key, value),
        Edit::Remove(key) => remove_key(alloc, source.bytes, encoding, key),
        Edit::SetValue(key, value) => set_value(alloc, source.bytes, encoding, key, value),
    }
}

// The bytes and what is seen of the document, or the error.
fn shown(
    alloc: Global,
    answer: &Result<Vec<u8>, PropertiesError>,
    seen: &str,
) -> Result<String, AllocError> {
    match answer {
        Ok(bytes) => format!(in alloc; "{}{seen}", quoted(alloc, bytes)?),
        Err(error) => error_text(alloc, error),
    }
}

// Keys that a source may have or not have, each alone and before another edit.
fn check_refused(source: Source<'_>, outcome: &mut Outcome) -> Result<(), AllocError> {
    let alloc = source.alloc;
    let put = Edit::Put(String::from_str(alloc, "a")?, String::from_str(alloc, "b")?);
    let remove = Edit::Remove(String::from_str(alloc, "a")?);
    let remove_none = Edit::Remove(String::from_str(alloc, "none")?);
    let value = Edit::SetValue(String::from_str(alloc, "a")?, String::from_str(alloc, "b")?);
    let next = Edit::Put(String::from_str(alloc, "c")?, String::from_str(alloc, "d")?);
    for edit in [put, remove, remove_none, value] {
        let mut run = Run {
            ascii_only: false,
            edits: Vec::new(alloc),
        };
        for edit in [&edit, &next] {
            run.edits.push(edit.clone()?)?;
            for ascii_only in [false, true] {
                run.ascii_only = ascii_only;
                check_calls(source, slice::from_ref(&run), "", outcome)?;
            }
        }
    }
    Ok(())
}
