// The calls of a writer, each a clause.

mod faults;
mod lists;
pub mod maps;

use counted_io::{CountedWrite, ScriptedSink};
use faults::check_faults;
use java_properties::{Encoding, PropertiesWriter};
use lists::check_lists;
use std::alloc::{AllocError, Global};
use vector_notation::calls::{call, writer_to};
use vector_notation::items::{error_text, items_after};
use vector_notation::notation::{Halt, Row, quoted};
use vector_notation::outcome::Outcome;
use vector_notation::sinks::{ROOMY, Sink, front_sink};

/// What calls came to: what each was answered, where it failed, where its bytes end, and the sink after them.
#[derive(Drop)]
pub struct Written {
    pub answers: Vec<Option<String>>,
    pub ends: Vec<usize>,
    pub sink: ScriptedSink,
}

/// How errors are shown.
#[derive(Clone, Copy)]
pub enum Words {
    /// By all that they say.
    Parts,
    /// As they print themselves.
    Printed,
}

/// The calls are made one by one. Where errors are shown by their parts, they are made as a list too and, if the row
/// names no sink, to sinks that take little and fail, at each write.
pub fn check_writing(row: Row<'_>, words: Words, outcome: &mut Outcome) -> Result<(), Halt> {
    let (named, row) = front_sink(row)?;
    let sink = named.unwrap_or(ROOMY);
    let mut clauses = row.clauses.iter();
    let (calls, readings) = row.split(clauses.position(|clause| clause.reading().is_some()));
    let written = write(calls, sink, words)?;
    let mut came = shown(row.alloc, written.answers.as_slice(), &written.sink)?;
    came.push_str(&items_after(row.alloc, readings, written.sink.bytes())?)?;
    outcome.compare("call by call", &came)?;
    if let Words::Parts = words {
        check_lists(calls, sink, &written, outcome)?;
        if named.is_none() {
            check_finish(calls, &written, outcome)?;
            check_faults(calls, &written, outcome)?;
        }
    }
    Ok(())
}

// After the same calls `finish` succeeds, and adds no byte.
fn check_finish(calls: Row<'_>, written: &Written, outcome: &mut Outcome) -> Result<(), Halt> {
    let alloc = calls.alloc;
    let mut writer = new_writer_to(alloc, calls.encoding, ROOMY.open(alloc))?;
    for clause in calls.clauses {
        let _ = call(alloc, &mut writer, clause)?;
    }
    let is_finished = writer.finish().is_ok();
    if !is_finished || writer.get_ref().bytes() != written.sink.bytes() {
        outcome.fail(String::from_str(alloc, "a finish failed, or added bytes")?);
    }
    Ok(())
}

// A writer in this encoding, which is asked for unless it is the one that a new writer has.
fn new_writer_to<W: CountedWrite>(
    alloc: Global,
    encoding: Encoding,
    sink: W,
) -> Result<PropertiesWriter<W>, Halt> {
    match encoding {
        Encoding::WINDOWS_1252 => PropertiesWriter::new(alloc, sink).or(Err(Halt::Memory)),
        _ => writer_to(alloc, encoding, sink),
    }
}

/// Makes the calls one by one.
pub fn write(calls: Row<'_>, sink: Sink, words: Words) -> Result<Written, Halt> {
    let alloc = calls.alloc;
    let mut answers = Vec::new(alloc);
    let mut ends = Vec::new(alloc);
    let mut writer = writer_to(alloc, calls.encoding, sink.open(alloc))?;
    for clause in calls.clauses {
        answers.push(match call(alloc, &mut writer, clause)? {
            Ok(()) => None,
            Err(error) => Some(match words {
                Words::Parts => error_text(alloc, &error)?,
                Words::Printed => format!(in alloc; "{error}")?,
            }),
        })?;
        ends.push(writer.get_ref().bytes().len())?;
    }
    Ok(Written {
        answers,
        ends,
        sink: writer.into_inner(),
    })
}

/// The numbers of the calls that failed and why, the bytes, and how many faults were counted, where any was.
pub fn shown(
    alloc: Global,
    answers: &[Option<String>],
    sink: &ScriptedSink,
) -> Result<String, AllocError> {
    shown_with(alloc, answers, sink.bytes(), sink.faults())
}

/// The same of these bytes and so many faults.
pub fn shown_with(
    alloc: Global,
    answers: &[Option<String>],
    bytes: &[u8],
    faults: usize,
) -> Result<String, AllocError> {
    let mut came = String::new(alloc);
    for (number, answer) in (1usize..).zip(answers) {
        if let Some(text) = answer {
            came.push_str(format!(in alloc; "{number}: {text}; ")?.as_str())?;
        }
    }
    came.push_str(quoted(alloc, bytes)?.as_str())?;
    if faults > 0 {
        came.push_str(format!(in alloc; "; faults {faults}")?.as_str())?;
    }
    Ok(came)
}
