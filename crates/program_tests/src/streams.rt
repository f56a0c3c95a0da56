// Streams that follow a plan, and arguments as owned texts.

use counted_io::{ScriptedReader, ScriptedSink, SinkFault, Tail};
use properties_tools::propedit::streams::Sinks;
use std::alloc::{AllocError, Global};
use std::io;

/// A write that fails by an error.
pub const OTHER: SinkFault = SinkFault::Fault(io::ErrorKind::Other);

/// How a sink takes bytes.
#[derive(Clone, Copy)]
pub struct Plan {
    /// The number of bytes that a write takes at most.
    pub most: usize,
    /// The write that fails, counted from 1.
    pub fail_at: Option<usize>,
    /// How that write fails.
    pub how: SinkFault,
    /// How each flush fails.
    pub flush_fault: Option<io::ErrorKind>,
}

/// A sink that takes everything.
pub const AMPLE: Plan = Plan {
    most: 1024,
    fail_at: None,
    how: SinkFault::Nothing,
    flush_fault: None,
};

/// A sink that takes two bytes, one at a time, and then none.
pub const FULL: Plan = Plan {
    most: 1,
    fail_at: Some(3),
    ..AMPLE
};

pub fn sink(alloc: Global, plan: Plan) -> ScriptedSink {
    let mut sink = ScriptedSink::new(alloc, plan.most, plan.fail_at, plan.how);
    sink.set_flush_fault(plan.flush_fault);
    sink
}

/// What a run prints on, as planned.
pub type Planned = Sinks<ScriptedSink, ScriptedSink>;

pub fn sinks(alloc: Global, output: Plan, errors: Plan) -> Planned {
    Sinks {
        output: sink(alloc, output),
        errors: sink(alloc, errors),
    }
}

/// A reader of these bytes, so many at a read, and then of this tail.
pub fn reader(
    alloc: Global,
    bytes: &[u8],
    most: usize,
    tail: Tail,
) -> Result<ScriptedReader, AllocError> {
    let mut pieces = Vec::new(alloc);
    for piece in bytes.chunks(most.max(1)) {
        pieces.push(piece.to_vec(alloc)?)?;
    }
    Ok(ScriptedReader::new(pieces, tail))
}

/// The arguments in a line, as a shell divides it: what stands between blanks, or between single quotes.
pub fn words_of(alloc: Global, line: &str) -> Result<Vec<String>, AllocError> {
    let mut words = Vec::new(alloc);
    let mut is_quoted = false;
    for part in line.split('\'') {
        if is_quoted {
            words.push(String::from_str(alloc, part)?)?;
        } else {
            for word in part.split_ascii_whitespace() {
                words.push(String::from_str(alloc, word)?)?;
            }
        }
        is_quoted = !is_quoted;
    }
    Ok(words)
}
