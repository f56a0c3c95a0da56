// Maps that are written whole, each pair a clause.

use super::{shown, shown_with};
use counted_io::ScriptedSink;
use java_properties::{
    Encoding, PropertiesError, PropertiesWriter, read_sorted, write, write_sorted,
};
use std::alloc::{AllocError, Global};
use std::collections::{BTreeMap, HashMap};
use vector_notation::calls::{call, writer_to};
use vector_notation::items::{error_text, read_and_sort};
use vector_notation::notation::{Clause, Halt, Row, owned};
use vector_notation::outcome::Outcome;
use vector_notation::sinks::{ROOMY, Sink, failing_writes, front_sink};

// How a map is written.
#[derive(Clone, Copy, Debug, PartialEq, Eq)]
enum Way {
    Write,
    WriteSorted,
    WriteMap,
}

/// The map is written by a writer after the calls before it, and without such calls also sorted, and in windows-1252 as
/// a hash map. Where the row names no sink, it is read back, and written again to sinks that take little and fail, at
/// each write.
pub fn check_maps(row: Row<'_>, outcome: &mut Outcome) -> Result<(), Halt> {
    let (named, row) = front_sink(row)?;
    let mut clauses = row.clauses.iter();
    let is_of_map = |clause: &Clause| matches!(clause.word.as_str(), "pair" | "nothing");
    let (calls, pairs) = row.split(clauses.position(is_of_map));
    let map = map_of(row.alloc, pairs)?;
    check_map(calls, &map, named, Way::WriteMap, outcome)?;
    if calls.clauses.is_empty() {
        check_map(calls, &map, named, Way::WriteSorted, outcome)?;
        if row.encoding == Encoding::WINDOWS_1252 {
            check_map(calls, &map, named, Way::Write, outcome)?;
        }
    }
    Ok(())
}

// The map of these pairs, or the empty one of `nothing`.
fn map_of(alloc: Global, clauses: &[Clause]) -> Result<BTreeMap<String, String>, Halt> {
    let mut map = BTreeMap::new(alloc);
    for clause in clauses {
        match clause.parts() {
            ("pair", [key, value]) => map.insert(owned(alloc, key)?, owned(alloc, value)?)?,
            ("nothing", []) => None,
            _ => return Err(Halt::Unreadable),
        };
    }
    Ok(map)
}

fn check_map(
    calls: Row<'_>,
    map: &BTreeMap<String, String>,
    named: Option<Sink>,
    way: Way,
    outcome: &mut Outcome,
) -> Result<(), Halt> {
    let alloc = calls.alloc;
    let (came, whole) = written(calls, map, named.unwrap_or(ROOMY), way)?;
    let name = format!(in alloc; "by {way:?}")?;
    outcome.compare(&name, &came)?;
    if named.is_some() {
        return Ok(());
    }
    if !is_read_back(calls, map, whole.bytes(), way) {
        outcome.fail(format!(in alloc; "{name}: another map is read back")?);
    }
    let ends = line_endings(alloc, whole.bytes())?;
    for failing in &failing_writes(alloc, ends.as_slice())? {
        let (came, sink) = written(calls, map, failing.sink, way)?;
        let answer = Some(failing.text(alloc)?);
        let wanted = shown_with(alloc, &[answer], failing.taken_of(whole.bytes()), 1)?;
        failing.check(&name, (came.as_str(), &sink), &wanted, outcome)?;
    }
    Ok(())
}

// What came of the map in a sink of this kind, and the sink.
fn written(
    calls: Row<'_>,
    map: &BTreeMap<String, String>,
    sink: Sink,
    way: Way,
) -> Result<(String, ScriptedSink), Halt> {
    let alloc = calls.alloc;
    let mut sink = sink.open(alloc);
    let done = match way {
        Way::Write => write(alloc, &mut sink, &hashed(alloc, map)?),
        Way::WriteSorted => write_sorted(alloc, &mut sink, map, calls.encoding),
        Way::WriteMap => {
            let mut writer = writer_to(alloc, calls.encoding, sink)?;
            for clause in calls.clauses {
                call(alloc, &mut writer, clause)?.or(Err(Halt::Unreadable))?;
            }
            let done = write_and_flush(&mut writer, map);
            sink = writer.into_inner();
            done
        }
    };
    let answer = match done {
        Ok(()) => None,
        Err(error) => Some(error_text(alloc, &error)?),
    };
    let came = shown(alloc, &[answer], &sink)?;
    Ok((came, sink))
}

fn hashed(
    alloc: Global,
    map: &BTreeMap<String, String>,
) -> Result<HashMap<String, String>, AllocError> {
    let mut hashed = HashMap::new(alloc);
    for (key, value) in map {
        hashed.insert(key.clone()?, value.clone()?)?;
    }
    Ok(hashed)
}

fn write_and_flush(
    writer: &mut PropertiesWriter<ScriptedSink>,
    map: &BTreeMap<String, String>,
) -> Result<(), PropertiesError> {
    for (key, value) in map {
        writer.write(key.as_str(), value.as_str())?;
    }
    writer.flush()
}

// Where each line ends.
fn line_endings(alloc: Global, bytes: &[u8]) -> Result<Vec<usize>, AllocError> {
    let mut ends = Vec::new(alloc);
    for (place, byte) in (1usize..).zip(bytes) {
        if *byte == b'\n' {
            ends.push(place)?;
        }
    }
    Ok(ends)
}

// Whether the map is read of its bytes. What is written for UTF-16 is UTF-8.
fn is_read_back(calls: Row<'_>, map: &BTreeMap<String, String>, bytes: &[u8], way: Way) -> bool {
    let mut input = bytes;
    let written = match calls.encoding {
        Encoding::WINDOWS_1252 => Encoding::WINDOWS_1252,
        _ => Encoding::UTF_8,
    };
    let answer = match way {
        Way::Write => read_and_sort(calls.alloc, &mut input),
        Way::WriteSorted | Way::WriteMap => read_sorted(calls.alloc, &mut input, written),
    };
    match answer {
        Ok(found) => found == *map,
        Err(_) => false,
    }
}
