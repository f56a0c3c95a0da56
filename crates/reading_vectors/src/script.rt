// What a row is read from: pieces, and then the end or a fault.

use counted_io::{ScriptedReader, Tail};
use std::alloc::{AllocError, Global};
use std::io;
use vector_notation::notation::{Halt, Row};

/// The sizes of the pieces that each input comes in.
pub const SIZES: [usize; 4] = [1, 2, 3, 1000];

/// Pieces of an input, and what comes after them.
#[derive(Drop)]
pub struct Script {
    pub pieces: Vec<Vec<u8>>,
    pub tail: Tail,
}

impl Script {
    /// Reads a script. Each clause is a text, which a number before it repeats. The last one may be `fault` with its
    /// kind.
    pub fn new(row: Row<'_>) -> Result<Script, Halt> {
        let mut pieces = Vec::new(row.alloc);
        let mut tail = Tail::End;
        for clause in row.clauses {
            match (tail, clause.parts()) {
                (Tail::End, (times, [text])) => {
                    for _ in 0..times_of(times)? {
                        pieces.push(text.clone()?)?;
                    }
                }
                (Tail::End, (fault, [])) => tail = Tail::Fault(fault_kind(fault)?),
                _ => return Err(Halt::Unreadable),
            }
        }
        Ok(Script { pieces, tail })
    }

    /// Returns the script of these bytes in pieces of this size.
    pub fn of_bytes(
        alloc: Global,
        bytes: &[u8],
        size: usize,
        tail: Tail,
    ) -> Result<Script, AllocError> {
        let mut pieces = Vec::new(alloc);
        for piece in bytes.chunks(size.max(1)) {
            pieces.push(Vec::from_slice(alloc, piece)?)?;
        }
        Ok(Script { pieces, tail })
    }

    /// Returns a reader that does what the script says.
    pub fn reader(&self) -> Result<ScriptedReader, AllocError> {
        Ok(ScriptedReader::new(self.pieces.clone()?, self.tail))
    }
}

fn times_of(word: &str) -> Result<u32, Halt> {
    if word.is_empty() {
        Ok(1)
    } else {
        word.parse::<u32>().or(Err(Halt::Unreadable))
    }
}

fn fault_kind(word: &str) -> Result<io::ErrorKind, Halt> {
    match word {
        "fault TimedOut" => Ok(io::ErrorKind::TimedOut),
        "fault Interrupted" => Ok(io::ErrorKind::Interrupted),
        _ => Err(Halt::Unreadable),
    }
}
