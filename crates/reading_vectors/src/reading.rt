// What is read, in each way to read it.

mod before_fault;
mod compared;
mod printed;
mod ways;

use crate::copying::check_into_both_encodings;
use crate::script::{SIZES, Script};
use before_fault::items_before_fault;
pub use compared::check_compared;
use counted_io::Tail;
use java_properties::Encoding;
pub use printed::check_printed;
use std::alloc::Global;
use std::{io, slice};
use vector_notation::items::{Kind, Reading, joined, whole_items};
use vector_notation::notation::{Halt, Pace, Row};
use vector_notation::outcome::Outcome;
use ways::{Way, read_by};

// The fault that comes after each byte of an input.
const FAULT: io::ErrorKind = io::ErrorKind::TimedOut;

// What is read, and from which encoding.
#[derive(Clone, Copy)]
struct Task {
    alloc: Global,
    encoding: Encoding,
    reading: Reading,
    pace: Pace,
}

impl Task {
    fn sizes(self) -> &'static [usize] {
        match self.pace {
            Pace::Quick => &SIZES[..1],
            Pace::Thorough => &SIZES,
        }
    }

    fn ways(self) -> &'static [Way] {
        match (self.reading, self.encoding) {
            (Reading::Items, _) => &[
                Way::ReadLines,
                Way::Next,
                Way::NextRef,
                Way::NextAndNextRef,
                Way::AdvanceAndGet,
            ],
            (Reading::Pairs, _) => &[Way::ReadInto],
            (Reading::Map, Encoding::WINDOWS_1252) => &[Way::ReadSorted, Way::Read],
            (Reading::Map, _) => &[Way::ReadSorted],
        }
    }
}

/// A text alone is read whole and in pieces, and at a thorough pace up to a fault after each of its bytes. A text with
/// a fault after it is read whole and byte by byte. Other texts are read piece by piece as they are.
pub fn check_reading(row: Row<'_>, reading: Reading, outcome: &mut Outcome) -> Result<(), Halt> {
    let task = Task {
        alloc: row.alloc,
        encoding: row.encoding,
        reading,
        pace: row.pace,
    };
    let script = Script::new(row)?;
    match (script.pieces.as_slice(), script.tail) {
        ([bytes], Tail::End) => check_bytes(task, bytes.as_slice(), outcome),
        ([bytes], fault) => check_front(task, bytes.as_slice(), fault, outcome),
        _ => check_script(task, &script, outcome),
    }
}

fn check_bytes(task: Task, bytes: &[u8], outcome: &mut Outcome) -> Result<(), Halt> {
    let alloc = task.alloc;
    for way in task.ways() {
        let (came, _) = read_by(alloc, task.encoding, bytes, *way)?;
        let came = joined(alloc, task.reading, came.as_slice())?;
        let way = format!(in alloc; "whole, by {way:?}")?;
        outcome.compare(&way, &came)?;
    }
    for size in task.sizes() {
        let script = Script::of_bytes(alloc, bytes, *size, Tail::End)?;
        check_script(task, &script, outcome)?;
    }
    match task.pace {
        Pace::Quick => Ok(()),
        Pace::Thorough => check_fronts(task, bytes, outcome),
    }
}

// The bytes are read up to a fault after each of them.
fn check_fronts(task: Task, bytes: &[u8], outcome: &mut Outcome) -> Result<(), Halt> {
    let alloc = task.alloc;
    let mut input = bytes;
    let whole = whole_items(alloc, task.encoding, &mut input)?;
    for count in 0..=bytes.len() {
        let front = bytes.get(..count).unwrap_or(bytes);
        let wanted = items_before_fault(alloc, task.encoding, front, whole.as_slice())?;
        let wanted = match (task.reading, wanted.as_slice()) {
            // An error is no map.
            (Reading::Map, [.., last]) => joined(alloc, task.reading, slice::from_ref(last))?,
            (_, items) => joined(alloc, task.reading, items)?,
        };
        let mut inner = Outcome::new(alloc, wanted.as_str())?;
        check_front(task, front, Tail::Fault(FAULT), &mut inner)?;
        if let Some(came) = inner.failure() {
            outcome.fail(format!(in alloc;
                "with a fault after byte {count}, in place of {wanted}, {came}"
            )?);
        }
    }
    Ok(())
}

fn check_front(task: Task, bytes: &[u8], tail: Tail, outcome: &mut Outcome) -> Result<(), Halt> {
    for size in [1, 1000] {
        let script = Script::of_bytes(task.alloc, bytes, size, tail)?;
        check_script(task, &script, outcome)?;
    }
    Ok(())
}

// The script is read in as many reads each way. A reader that has failed or ended is not asked again, and none is asked
// after the error of an item.
fn check_script(task: Task, script: &Script, outcome: &mut Outcome) -> Result<(), Halt> {
    let alloc = task.alloc;
    if let Reading::Items = task.reading {
        check_into_both_encodings(alloc, task.encoding, script, outcome)?;
    }
    let longest = script.pieces.first().map_or(0, |piece| piece.len());
    let mut reads = None;
    for way in task.ways() {
        let (items, input) = read_by(alloc, task.encoding, script.reader()?, *way)?;
        let came = joined(alloc, task.reading, items.as_slice())?;
        let way = format!(in alloc; "in pieces of {longest}, by {way:?}")?;
        outcome.compare(&way, &came)?;
        let faults = usize::from(items.last().is_some_and(|item| item.kind == Kind::Fault));
        if input.reads() != *reads.get_or_insert(input.reads()) || input.faults() != faults {
            let (reads, faults) = (input.reads(), input.faults());
            outcome.fail(format!(in alloc; "{way}: {reads} reads, {faults} faults")?);
        }
    }
    Ok(())
}
