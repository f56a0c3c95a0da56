// Edits that pass over comments, and values that are looked up among the pairs of a source.

use crate::editing::{Run, edited, runs};
use java_properties::{
    Comments, Document, Edit, Encoding, PropertiesError, SourceOptions, edit_all, edit_with,
    map_of, value_of, value_with,
};
use std::alloc::{AllocError, Global};
use std::slice;
use vector_notation::items::error_text;
use vector_notation::notation::{Clause, Halt, Row, Source, quoted, text};
use vector_notation::outcome::Outcome;

/// The edits are made as lists, one at a time and by a document, and what is got is looked up in what came. Where
/// comments can be read, edits that read them give the same.
pub fn check_edit_pairs(row: Row<'_>, outcome: &mut Outcome) -> Result<(), Halt> {
    let (source, steps) = row.source()?;
    let runs = runs(row.alloc, steps)?;
    let runs = runs.as_slice();
    let by_lists = edited(source, runs, Comments::PassedOver);
    let came = shown(source, by_lists, steps)?;
    outcome.compare("by lists of edits", &came)?;
    let came = shown(source, one_at_a_time(source, runs), steps)?;
    outcome.compare("one edit at a time", &came)?;
    check_document(source, runs, steps, outcome)?;
    if edit_all(row.alloc, source.bytes, row.encoding, &[]).is_ok() {
        let came = shown(source, edited(source, runs, Comments::Read), steps)?;
        outcome.compare("where comments are read", &came)?;
    }
    Ok(())
}

/// Each key has its value, and so it has in a map; or all of them have the same error. Where comments can be read, a key
/// has the same value.
pub fn check_get_pairs(row: Row<'_>, outcome: &mut Outcome) -> Result<(), Halt> {
    let alloc = row.alloc;
    let (source, steps) = row.source()?;
    let mut came = String::new(alloc);
    for step in steps {
        let key = text(key_of(step).ok_or(Halt::Unreadable)?)?;
        let options = passing_over(row.encoding);
        match value_with(alloc, source.bytes, options, key) {
            Ok(value) => {
                let map = map_of(alloc, source.bytes, options);
                let is_same = map.is_ok_and(|map| map.get(key).map(|found| found.as_str())
                    == value.as_deref());
                if !is_same {
                    outcome.fail(format!(in alloc; "a map has another value of {key:?}")?);
                }
                if !came.is_empty() {
                    came.push_str("; ")?;
                }
                came.push_str(value_text(alloc, value.as_deref())?.as_str())?;
                if let Ok(read) = value_of(alloc, source.bytes, row.encoding, key) {
                    if read != value {
                        outcome.fail(format!(in alloc; "another value of {key:?} is read")?);
                    }
                }
            }
            Err(error) => {
                outcome.compare("looked up", error_text(alloc, &error)?.as_str())?;
                match map_of(alloc, source.bytes, options) {
                    Ok(_) => outcome.fail(format!(in alloc; "a map has no error")?),
                    Err(error) => outcome.compare("in a map", error_text(alloc, &error)?.as_str())?,
                }
            }
        }
    }
    if !came.is_empty() {
        outcome.compare("looked up", &came)?;
    }
    Ok(())
}

fn passing_over(encoding: Encoding) -> SourceOptions {
    SourceOptions {
        comments: Comments::PassedOver,
        ..SourceOptions::new(encoding)
    }
}

// The key that a clause has looked up, if it is such a clause.
fn key_of(step: &Clause) -> Option<&Vec<u8>> {
    match step.parts() {
        ("get", [key]) => Some(key),
        _ => None,
    }
}

// An empty list comes first, which refuses what no edit can be made to.
fn one_at_a_time(source: Source<'_>, runs: &[Run]) -> Result<Vec<u8>, PropertiesError> {
    let (alloc, encoding) = (source.alloc, source.encoding);
    let options = passing_over(encoding);
    let mut bytes = edit_with(alloc, source.bytes, options, &[])?;
    for run in runs {
        for edit in &run.edits {
            let options = SourceOptions {
                ascii_only: run.ascii_only,
                ..options
            };
            bytes = edit_with(alloc, &bytes, options, slice::from_ref(edit))?;
        }
    }
    Ok(bytes)
}

// A document has the bytes, and the values that are got of them.
fn check_document(
    source: Source<'_>,
    runs: &[Run],
    steps: &[Clause],
    outcome: &mut Outcome,
) -> Result<(), Halt> {
    let (alloc, encoding) = (source.alloc, source.encoding);
    match document_of(source, runs) {
        Err(error) => outcome.compare("by a document", error_text(alloc, &error)?.as_str())?,
        Ok(document) => {
            let bytes = document.to_bytes()?;
            for step in steps {
                if let Some(key) = key_of(step) {
                    let key = text(key)?;
                    let value = value_with(alloc, &bytes, passing_over(encoding), key);
                    let is_same = value.is_ok_and(|value| value.as_deref() == document.get(key));
                    if !is_same {
                        outcome.fail(format!(in alloc; "a document has another value of {key:?}")?);
                    }
                }
            }
            let came = shown(source, Ok(bytes), steps)?;
            outcome.compare("by a document", &came)?;
        }
    }
    Ok(())
}

fn document_of(source: Source<'_>, runs: &[Run]) -> Result<Document, PropertiesError> {
    let options = passing_over(source.encoding);
    let mut document = Document::parse_with(source.alloc, source.bytes, options)?;
    for run in runs {
        document.set_ascii_only(run.ascii_only);
        for edit in &run.edits {
            match edit {
                Edit::Put(key, value) => document.put(key, value)?,
                Edit::SetValue(key, value) => document.set_value(key, value)?,
                Edit::Remove(key) => {
                    let _ = document.remove(key);
                }
            }
        }
    }
    Ok(document)
}

// The bytes and the values that are got of them, or the error.
fn shown(
    source: Source<'_>,
    answer: Result<Vec<u8>, PropertiesError>,
    steps: &[Clause],
) -> Result<String, Halt> {
    let (alloc, encoding) = (source.alloc, source.encoding);
    let bytes = match answer {
        Ok(bytes) => bytes,
        Err(error) => return Ok(error_text(alloc, &error)?),
    };
    let mut shown = quoted(alloc, bytes.as_slice())?;
    for step in steps {
        if let Some(key) = key_of(step) {
            shown.push_str("; ")?;
            match value_with(alloc, bytes.as_slice(), passing_over(encoding), text(key)?) {
                Ok(value) => shown.push_str(value_text(alloc, value.as_deref())?.as_str())?,
                Err(error) => shown.push_str(error_text(alloc, &error)?.as_str())?,
            }
        }
    }
    Ok(shown)
}

fn value_text(alloc: Global, value: Option<&str>) -> Result<String, AllocError> {
    match value {
        Some(value) => format!(in alloc; "{value:?}"),
        None => String::from_str(alloc, "none"),
    }
}
