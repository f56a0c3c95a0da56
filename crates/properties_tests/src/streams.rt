// Sources that are read from a reader and written to a sink.

use crate::failure::{Failure, failure_of};
use crate::same::same;
use crate::script::{TIMES_OUT, script};
use counted_io::{ScriptedSink, SinkFault, Tail};
use java_properties::{Encoding, ErrorKind, PropertiesError, read_source, write_source};
use std::alloc::Global;
use std::io;
use std::process::Abort;
use std::test::Fail;

#[test]
fn a_source_is_read_whole_or_fails_as_its_items_do(rt: HostRuntime) -> Result<(), Fail> {
    let timed_out = Some(io::ErrorKind::TimedOut);
    let rows: [(&[u8], Option<Failure>); 5] = [
        (b"a=1\n\\u12", None),
        (b"", Some((ErrorKind::Io, Some(1), timed_out))),
        (b"a=1\nb=2", Some((ErrorKind::Io, Some(2), timed_out))),
        (
            b"a=1\nb=\\u12\nc=",
            Some((ErrorKind::NotEnoughDigits, Some(2), None)),
        ),
        (b"a=1\nb=\\u12", Some((ErrorKind::Io, Some(2), timed_out))),
    ];
    for (bytes, wanted) in rows {
        check_read(&rt, rt.alloc(), bytes, wanted)?;
    }
    Ok(())
}

// These bytes are read, and then the end comes or, if one is wanted, a failure.
fn check_read(
    rt: &impl Abort,
    alloc: Global,
    bytes: &[u8],
    wanted: Option<Failure>,
) -> Result<(), Fail> {
    let tail = match wanted {
        None => Tail::End,
        Some(_) => TIMES_OUT,
    };
    let mut input = script(alloc, bytes, bytes.len(), tail)?;
    match read_source(alloc, &mut input, Encoding::WINDOWS_1252) {
        Ok(source) => {
            same(rt, source.as_slice(), bytes);
            same(rt, None, wanted);
        }
        Err(error) => same(rt, Some(failure_of(&error)), wanted),
    }
    Ok(())
}

#[test]
fn a_source_is_written_and_flushed(rt: HostRuntime) {
    let broken = Some(io::ErrorKind::BrokenPipe);
    let rows: [(Option<usize>, Option<io::ErrorKind>, &[u8], Option<Failure>); 3] = [
        (None, None, b"a=1\n", None),
        (Some(3), None, b"a=", Some((ErrorKind::Io, None, None))),
        (None, broken, b"a=1\n", Some((ErrorKind::Io, None, broken))),
    ];
    for (fail_at, flush_fault, taken, wanted) in rows {
        let mut output = ScriptedSink::new(rt.alloc(), 1, fail_at, SinkFault::Nothing);
        output.set_flush_fault(flush_fault);
        same(&rt, failure_in(write_source(&mut output, b"a=1\n")), wanted);
        same(&rt, output.bytes(), taken);
    }
}

fn failure_in(done: Result<(), PropertiesError>) -> Option<Failure> {
    match done {
        Ok(()) => None,
        Err(error) => Some(failure_of(&error)),
    }
}
