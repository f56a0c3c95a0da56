// Sinks that take little at a write, or fail.

use crate::notation::{Halt, Row};
use crate::outcome::Outcome;
use counted_io::{ScriptedSink, SinkFault};
use std::alloc::{AllocError, Global};
use std::io;

/// Each way in which a write may fail.
pub const FAULTS: [SinkFault; 3] = [
    SinkFault::Fault(io::ErrorKind::Other),
    SinkFault::Fault(io::ErrorKind::Interrupted),
    SinkFault::Nothing,
];

/// How much a sink takes at a write, which write fails and how, and how each flush fails.
#[derive(Clone, Copy)]
pub struct Sink {
    most: usize,
    fault: Option<(usize, SinkFault)>,
    flush_fault: Option<io::ErrorKind>,
}

/// A sink that takes everything.
pub const ROOMY: Sink = Sink {
    most: usize::MAX,
    fault: None,
    flush_fault: None,
};

impl Sink {
    /// Returns a sink whose write of this number fails.
    pub fn failing(most: usize, fail_at: usize, how: SinkFault) -> Sink {
        Sink {
            most,
            fault: Some((fail_at, how)),
            flush_fault: None,
        }
    }

    /// Opens a sink of this kind.
    pub fn open(self, alloc: Global) -> ScriptedSink {
        let (fail_at, how) = match self.fault {
            Some((fail_at, how)) => (Some(fail_at), how),
            None => (None, SinkFault::Nothing),
        };
        let mut sink = ScriptedSink::new(alloc, self.most, fail_at, how);
        sink.set_flush_fault(self.flush_fault);
        sink
    }
}

/// Returns the sink that a row begins with, if it begins with one, and the row without it. A sink is written as
/// `sink 3 fault 2 Other`, `sink 1 fault 1 nothing` or `sink 2 flush Other`.
pub fn front_sink(row: Row<'_>) -> Result<(Option<Sink>, Row<'_>), Halt> {
    let [first, rest @ ..] = row.clauses else {
        return Err(Halt::Unreadable);
    };
    let mut words = Vec::new(row.alloc);
    for word in first.word.as_str().split_whitespace() {
        words.push(word)?;
    }
    let ["sink", most, how @ ..] = words.as_slice() else {
        return Ok((None, row));
    };
    let most = number(most)?;
    let sink = match how {
        [] => Sink { most, ..ROOMY },
        ["fault", fail_at, "nothing"] => Sink::failing(most, number(fail_at)?, SinkFault::Nothing),
        ["fault", fail_at, kind] => {
            Sink::failing(most, number(fail_at)?, SinkFault::Fault(kind_of(kind)?))
        }
        ["flush", kind] => Sink {
            most,
            flush_fault: Some(kind_of(kind)?),
            ..ROOMY
        },
        _ => return Err(Halt::Unreadable),
    };
    let row = Row {
        clauses: rest,
        ..row
    };
    Ok((Some(sink), row))
}

fn number(word: &str) -> Result<usize, Halt> {
    word.parse::<usize>().or(Err(Halt::Unreadable))
}

fn kind_of(word: &str) -> Result<io::ErrorKind, Halt> {
    match word {
        "Other" => Ok(io::ErrorKind::Other),
        "Interrupted" => Ok(io::ErrorKind::Interrupted),
        "StorageFull" => Ok(io::ErrorKind::StorageFull),
        "BrokenPipe" => Ok(io::ErrorKind::BrokenPipe),
        _ => Err(Halt::Unreadable),
    }
}

/// A write that fails: which one and how, in the send of this place, which is of the line of this number, after so many
/// bytes.
#[derive(Clone, Copy)]
pub struct Failing {
    pub sink: Sink,
    pub fail_at: usize,
    how: SinkFault,
    pub place: usize,
    line: usize,
    taken: usize,
}

/// Returns each way in which a write fails, of sends that end here and go out in pieces of one to three bytes at most.
pub fn failing_writes(alloc: Global, ends: &[usize]) -> Result<Vec<Failing>, AllocError> {
    let mut all = Vec::new(alloc);
    let size = ends.last().copied().unwrap_or(0);
    for most in 1..=3 {
        for fail_at in 1..=size {
            for how in FAULTS {
                if let Some(failing) = failing_write(ends, most, fail_at, how) {
                    all.push(failing)?;
                }
            }
        }
    }
    Ok(all)
}

fn failing_write(ends: &[usize], most: usize, fail_at: usize, how: SinkFault) -> Option<Failing> {
    let mut before = fail_at.saturating_sub(1);
    let mut taken = 0;
    let mut line = 1usize;
    for (place, end) in ends.iter().enumerate() {
        let pieces = end.saturating_sub(taken).div_ceil(most.max(1));
        if before < pieces {
            let taken = before.saturating_mul(most).saturating_add(taken);
            return Some(Failing {
                sink: Sink::failing(most, fail_at, how),
                fail_at,
                how,
                place,
                line,
                taken,
            });
        }
        before -= pieces;
        taken = *end;
        line = line.saturating_add(usize::from(pieces > 0));
    }
    None
}

impl Failing {
    /// Returns what is reported for the write.
    pub fn text(self, alloc: Global) -> Result<String, AllocError> {
        let line = self.line;
        match self.how {
            SinkFault::Fault(kind) => format!(in alloc; "Io in line {line} by {kind:?}"),
            SinkFault::Nothing => format!(in alloc; "Io in line {line}"),
        }
    }

    /// Returns those of the bytes of all sends that are taken before the write.
    pub fn taken_of(self, bytes: &[u8]) -> &[u8] {
        bytes.get(..self.taken).unwrap_or(bytes)
    }

    /// Checks that a sink came to what is wanted, and that no write came after the one that failed.
    pub fn check(
        self,
        way: &str,
        (came, sink): (&str, &ScriptedSink),
        wanted: &str,
        outcome: &mut Outcome,
    ) -> Result<(), AllocError> {
        if came != wanted || sink.calls() != self.fail_at {
            let (fail_at, writes) = (self.fail_at, sink.calls());
            outcome.fail(format!(in outcome.alloc;
                "{way}, where write {fail_at} fails, in place of {wanted}: {came}, by {writes} writes"
            )?);
        }
        Ok(())
    }
}
