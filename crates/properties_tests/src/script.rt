// Readers that a script says all about.

use counted_io::{ScriptedReader, Tail};
use std::alloc::{AllocError, Global};
use std::io;

pub const TIMES_OUT: Tail = Tail::Fault(io::ErrorKind::TimedOut);

// A reader of these bytes, in pieces of this size, and then of this tail.
pub fn script(
    alloc: Global,
    bytes: &[u8],
    size: usize,
    tail: Tail,
) -> Result<ScriptedReader, AllocError> {
    let mut pieces = Vec::new(alloc);
    for piece in bytes.chunks(size.max(1)) {
        pieces.push(Vec::from_slice(alloc, piece)?)?;
    }
    Ok(ScriptedReader::new(pieces, tail))
}
