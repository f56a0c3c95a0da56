// Pairs that are copied, by `copy_pairs` and by the calls that it replaces.

use crate::script::{SIZES, Script};
use counted_io::{CountedRead, CountedWrite, Tail};
use java_properties::{ContentRef, CopyError, Encoding, PropertiesIter, PropertiesWriter};
use std::alloc::{AllocError, Global};
use vector_notation::calls::{call, writer_to};
use vector_notation::items::error_text;
use vector_notation::notation::{Clause, Halt, Row, quoted};
use vector_notation::outcome::Outcome;
use vector_notation::sinks::{FAULTS, ROOMY, Sink, front_sink};

// What pairs are copied from and to: a reader in one encoding, and a writer in another, to this sink, after these
// calls.
#[derive(Clone, Copy)]
struct Task<'a> {
    alloc: Global,
    from: Encoding,
    to: Encoding,
    sink: Sink,
    calls: &'a [Clause],
}

// How pairs are copied: all up to an error by one call, or one after another.
#[derive(Clone, Copy)]
enum CopyWay {
    CopyPairs,
    AdvanceAndWrite,
}

// The bytes and the errors that came, and how many reads, writes and I/O errors were counted.
#[derive(Drop)]
struct Copied {
    text: String,
    reads: usize,
    writes: usize,
    faults: [usize; 2],
}

/// A text is copied in pieces of each size. Where the row names no sink, it is copied to sinks that fail too.
pub fn check_copying(row: Row<'_>, outcome: &mut Outcome) -> Result<(), Halt> {
    let (named, row) = front_sink(row)?;
    let (source, [into, calls @ ..]) = row.source()? else {
        return Err(Halt::Unreadable);
    };
    let mut task = Task {
        alloc: row.alloc,
        from: row.encoding,
        to: output_of(into.word.as_str()).ok_or(Halt::Unreadable)?,
        sink: named.unwrap_or(ROOMY),
        calls,
    };
    let mut writes = 0;
    for size in SIZES {
        let script = Script::of_bytes(row.alloc, source.bytes, size, Tail::End)?;
        let came = copy_in_both_ways(task, &script, outcome)?;
        outcome.compare("copied", came.text.as_str())?;
        writes = came.writes;
    }
    if named.is_none() {
        let script = Script::of_bytes(row.alloc, source.bytes, source.bytes.len(), Tail::End)?;
        for before in 0..writes {
            for how in FAULTS {
                task.sink = Sink::failing(usize::MAX, before.saturating_add(1), how);
                copy_in_both_ways(task, &script, outcome)?;
            }
        }
    }
    Ok(())
}

/// Checks that copying gives what reading and writing give, in both output encodings.
pub fn check_into_both_encodings(
    alloc: Global,
    from: Encoding,
    script: &Script,
    outcome: &mut Outcome,
) -> Result<(), Halt> {
    for to in [Encoding::WINDOWS_1252, Encoding::UTF_8] {
        let task = Task {
            alloc,
            from,
            to,
            sink: ROOMY,
            calls: &[],
        };
        copy_in_both_ways(task, script, outcome)?;
    }
    Ok(())
}

// The writer's encoding that a clause names, such as `into utf-8`.
fn output_of(word: &str) -> Option<Encoding> {
    Encoding::from_name(word.strip_prefix("into ")?)
}

// Copies everything in both ways, compares the two, and returns the first.
fn copy_in_both_ways(
    task: Task<'_>,
    script: &Script,
    outcome: &mut Outcome,
) -> Result<Copied, Halt> {
    let by_copying = copied_by(task, script, CopyWay::CopyPairs)?;
    let by_writing = copied_by(task, script, CopyWay::AdvanceAndWrite)?;
    let came = shown(task.alloc, &by_copying)?;
    let wanted = shown(task.alloc, &by_writing)?;
    if came != wanted {
        outcome.fail(format!(in task.alloc; "copied: {came}; written: {wanted}")?);
    }
    Ok(by_copying)
}

fn shown(alloc: Global, came: &Copied) -> Result<String, AllocError> {
    let Copied {
        text,
        reads,
        writes,
        faults: [input, sink],
    } = came;
    format!(in alloc; "{text} by {reads} reads and {writes} writes, {input} and {sink} faults")
}

fn copied_by(task: Task<'_>, script: &Script, way: CopyWay) -> Result<Copied, Halt> {
    let alloc = task.alloc;
    let Ok(mut items) = PropertiesIter::new_with_encoding(alloc, script.reader()?, task.from) else {
        return Err(Halt::Memory);
    };
    let mut writer = writer_to(alloc, task.to, task.sink.open(alloc))?;
    for clause in task.calls {
        let _ = call(alloc, &mut writer, clause)?;
    }
    let errors = copy_all(alloc, &mut items, &mut writer, way)?;
    let input = items.into_inner();
    let sink = writer.into_inner();
    let mut text = quoted(alloc, sink.bytes())?;
    text.push_str(errors.as_str())?;
    Ok(Copied {
        text,
        reads: input.reads(),
        writes: sink.calls(),
        faults: [input.faults(), sink.faults()],
    })
}

// Copies up to the end, also after an error of the writing, and returns the errors.
fn copy_all<R: CountedRead, W: CountedWrite>(
    alloc: Global,
    items: &mut PropertiesIter<R>,
    writer: &mut PropertiesWriter<W>,
    way: CopyWay,
) -> Result<String, AllocError> {
    let mut errors = String::new(alloc);
    for _ in 0..u64::MAX {
        let came = match way {
            CopyWay::CopyPairs => copy_pairs(&mut *items, &mut *writer),
            CopyWay::AdvanceAndWrite => write_next(&mut *items, &mut *writer),
        };
        match came {
            Some(Ok(())) => {}
            Some(Err(error)) => errors.push_str(error_shown(alloc, &error)?.as_str())?,
            None => break,
        }
    }
    Ok(errors)
}

fn error_shown(alloc: Global, error: &CopyError) -> Result<String, AllocError> {
    let (call, error) = match error {
        CopyError::Read(error) => ("read", error),
        CopyError::Write(error) => ("write", error),
    };
    format!(in alloc; "; {call} {}", error_text(alloc, error)?)
}

fn copy_pairs<R: CountedRead, W: CountedWrite>(
    items: &mut PropertiesIter<R>,
    writer: &mut PropertiesWriter<W>,
) -> Option<Result<(), CopyError>> {
    match writer.copy_pairs(items) {
        Ok(()) => None,
        Err(error) => Some(Err(error)),
    }
}

fn write_next<R: CountedRead, W: CountedWrite>(
    items: &mut PropertiesIter<R>,
    writer: &mut PropertiesWriter<W>,
) -> Option<Result<(), CopyError>> {
    match items.advance()? {
        Ok(found) => match items.get(found).content() {
            ContentRef::Comment(_) => Some(Ok(())),
            ContentRef::KVPair(key, value) => match writer.write(key.as_str(), value.as_str()) {
                Ok(()) => Some(Ok(())),
                Err(error) => Some(Err(CopyError::Write(error))),
            },
        },
        Err(error) => Some(Err(CopyError::Read(error))),
    }
}
