// The calls of a writer that clauses are.

use crate::notation::{Clause, Halt, owned};
use counted_io::CountedWrite;
use java_properties::{Call, Encoding, LineEnding, PropertiesError, PropertiesWriter};
use std::alloc::Global;

/// Returns the call of this clause, as lists have it.
pub fn call_of(alloc: Global, clause: &Clause) -> Result<Call, Halt> {
    Ok(match clause.parts() {
        ("pair", [key, value]) => Call::Pair(owned(alloc, key)?, owned(alloc, value)?),
        ("comment", [line]) => Call::Comment(owned(alloc, line)?),
        ("prefix", [prefix]) => Call::Prefix(owned(alloc, prefix)?),
        ("separator", [separator]) => Call::Separator(owned(alloc, separator)?),
        ("ending", [ending]) => Call::Ending(line_ending(ending)?),
        ("ascii-only", []) => Call::AsciiOnly(true),
        ("all-characters", []) => Call::AsciiOnly(false),
        ("readable", []) => Call::Readable(true),
        ("escaped", []) => Call::Readable(false),
        ("flush" | "finish", []) => Call::Flush,
        _ => return Err(Halt::Unreadable),
    })
}

fn line_ending(ending: &[u8]) -> Result<LineEnding, Halt> {
    match ending {
        b"\r" => Ok(LineEnding::CR),
        b"\n" => Ok(LineEnding::LF),
        b"\r\n" => Ok(LineEnding::CRLF),
        _ => Err(Halt::Unreadable),
    }
}

/// Makes the call of this clause.
pub fn call<W: CountedWrite>(
    alloc: Global,
    writer: &mut PropertiesWriter<W>,
    clause: &Clause,
) -> Result<Result<(), PropertiesError>, Halt> {
    let mut done = Ok(());
    match call_of(alloc, clause)? {
        Call::Pair(key, value) => done = writer.write(key.as_str(), value.as_str()),
        Call::Comment(line) => done = writer.write_comment(line.as_str()),
        Call::Prefix(prefix) => done = writer.set_comment_prefix(prefix.as_str()),
        Call::Separator(separator) => done = writer.set_kv_separator(separator.as_str()),
        Call::Ending(ending) => writer.set_line_ending(ending),
        Call::AsciiOnly(ascii_only) => writer.set_ascii_only(ascii_only),
        Call::Readable(readable) => writer.set_readable(readable),
        Call::Flush if clause.word.as_str() == "finish" => done = writer.finish(),
        Call::Flush => done = writer.flush(),
    }
    Ok(done)
}

/// A writer in this encoding, which is asked for.
pub fn writer_to<W: CountedWrite>(
    alloc: Global,
    encoding: Encoding,
    sink: W,
) -> Result<PropertiesWriter<W>, Halt> {
    PropertiesWriter::new_with_encoding(alloc, sink, encoding).or(Err(Halt::Memory))
}
