// Documents that stay open while they are changed.

use java_properties::{Document, Encoding, LineContent, read_lines, read_sorted};
use std::alloc::{AllocError, Global};
use vector_notation::items::{error_text, items_after};
use vector_notation::notation::{Clause, Halt, Source, quoted, text};
use vector_notation::outcome::Outcome;

/// The document is its source, and then what its changes make of it. Returns what is seen of it besides its bytes: the
/// values that are asked for, and what is read of the bytes.
pub fn check_document(
    source: Source<'_>,
    steps: &[Clause],
    outcome: &mut Outcome,
) -> Result<String, Halt> {
    let (alloc, encoding) = (source.alloc, source.encoding);
    let mut seen = String::new(alloc);
    match Document::parse(alloc, source.bytes, encoding) {
        Err(error) => {
            let came = error_text(alloc, &error)?;
            outcome.compare("by a document", &came)?;
        }
        Ok(mut document) => {
            if document.to_bytes()?.as_slice() != source.bytes {
                outcome.fail(String::from_str(alloc, "a document isn't its source")?);
            }
            check_values(alloc, encoding, &document, outcome)?;
            for step in steps {
                take_step(alloc, &mut document, step, &mut seen, outcome)?;
                check_values(alloc, encoding, &document, outcome)?;
            }
            let bytes = document.to_bytes()?;
            seen.push_str(items_after(alloc, steps, bytes.as_slice())?.as_str())?;
            let came = format!(in alloc; "{}{seen}", quoted(alloc, bytes.as_slice())?)?;
            outcome.compare("by a document", &came)?;
        }
    }
    Ok(seen)
}

// Changes the document, or adds the value that is asked for.
fn take_step(
    alloc: Global,
    document: &mut Document,
    step: &Clause,
    seen: &mut String,
    outcome: &mut Outcome,
) -> Result<(), Halt> {
    match step.parts() {
        ("put", [key, value]) => document.put(text(key)?, text(value)?)?,
        ("value", [key, value]) => document.set_value(text(key)?, text(value)?)?,
        ("ascii-only", []) => document.set_ascii_only(true),
        ("all-characters", []) => document.set_ascii_only(false),
        ("remove", [key]) => {
            let key = text(key)?;
            let was_there = document.get(key).is_some();
            if document.remove(key) != was_there {
                outcome.fail(format!(in alloc; "a document reports another removal of {key:?}")?);
            }
        }
        ("get", [key]) => match document.get(text(key)?) {
            Some(value) => seen.push_str(format!(in alloc; "; {value:?}")?.as_str())?,
            None => seen.push_str("; none")?,
        },
        _ => {}
    }
    Ok(())
}

// Its keys are those that a reader of its bytes finds, in the same order, and have the same values.
fn check_values(
    alloc: Global,
    encoding: Encoding,
    document: &Document,
    outcome: &mut Outcome,
) -> Result<(), AllocError> {
    let bytes = document.to_bytes()?;
    let mut input = bytes.as_slice();
    match read_sorted(alloc, &mut input, encoding) {
        Ok(map) => {
            for (key, value) in &map {
                if document.get(key.as_str()) != Some(value.as_str()) {
                    outcome.fail(format!(in alloc; "a document has another value of {key:?}")?);
                }
            }
            let wanted = keys_of(alloc, encoding, bytes.as_slice())?;
            let keys = document.keys()?;
            let mut both = keys.iter().zip(&wanted);
            if keys.len() != wanted.len() || both.any(|(key, wanted)| *key != wanted.as_str()) {
                outcome.fail(String::from_str(alloc, "a document has other keys")?);
            }
        }
        Err(_) => outcome.fail(String::from_str(alloc, "a document isn't read")?),
    }
    Ok(())
}

// The keys of these bytes, each where it comes first.
fn keys_of(alloc: Global, encoding: Encoding, bytes: &[u8]) -> Result<Vec<String>, AllocError> {
    let mut keys: Vec<String> = Vec::new(alloc);
    let mut input = bytes;
    if let Ok(lines) = read_lines(alloc, &mut input, encoding) {
        for line in &lines {
            if let LineContent::KVPair(key, _) = line.content() {
                if !keys.contains(key) {
                    keys.push(key.clone()?)?;
                }
            }
        }
    }
    Ok(keys)
}
