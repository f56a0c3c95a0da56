// What `filter` and `filter_ascii` write, and where they stop.

use crate::same::{Bytes, same};
use crate::streams::{AMPLE, OTHER, Plan, reader, sink};
use counted_io::{ScriptedSink, SinkFault, Tail};
use java_properties::{Cause, Encoding, ErrorKind, PropertiesError};
use properties_tools::filter::{filter, filter_ascii};
use std::alloc::{AllocError, Global};
use std::io;
use std::process::Abort;
use std::test::Fail;

// The kind of the error, its line, and the error of the stream that caused it. None is no error.
type Ending = Option<(ErrorKind, Option<usize>, Option<io::ErrorKind>)>;

fn ending_of(answer: &Result<(), PropertiesError>) -> Ending {
    let Err(error) = answer else {
        return None;
    };
    let cause = match error.cause() {
        Cause::Io(cause) => Some(cause.kind()),
        _ => None,
    };
    Some((error.kind(), error.line_number(), cause))
}

const WINDOWS_1252: Encoding = Encoding::WINDOWS_1252;

// An encoding, whether ASCII-only output is asked for, an input, and what is written.
const FILTERED: &[(Encoding, bool, &[u8], &[u8])] = &[
    (WINDOWS_1252, false, b"", b""),
    // Comments are dropped, and lines joined.
    (
        WINDOWS_1252,
        false,
        b"a=1\n# c\r\nb\\u0020c\r\n\\u65e5 = x\\\r\n  \xe9",
        b"a=1\nb\\ c=\n\\u65e5=x\xe9\n",
    ),
    (
        Encoding::UTF_8,
        false,
        b"a=1\n# c\r\nb\\u0020c\r\n\\u65e5 = x\\\r\n  \xe9",
        b"a=1\nb\\ c=\n\xe6\x97\xa5=x\xef\xbf\xbd\n",
    ),
    // What is written is filtered to itself.
    (WINDOWS_1252, false, b" a : b c \n", b"a=b\\ c\\ \n"),
    (WINDOWS_1252, false, b"a=b\\ c\\ \n", b"a=b\\ c\\ \n"),
    // UTF-16 is written as UTF-8.
    (
        Encoding::UTF_16LE,
        false,
        b"\xff\xfea\0=\0\xe9\0",
        b"a=\xc3\xa9\n",
    ),
    (Encoding::UTF_8, false, b"a=\xc3\xa9\n", b"a=\xc3\xa9\n"),
    // A first key that begins like a byte order mark.
    (Encoding::UTF_8, false, b" \xef\xbb\xbf=x", b"\\ufeff=x\n"),
    (
        Encoding::UTF_16LE,
        true,
        b"\xff\xfea\0=\0\xe9\0",
        b"a=\\u00e9\n",
    ),
];

// Filters what comes in pieces of this size at most, and goes in such pieces.
fn check_filtered<R: Abort + AllocGlobal>(rt: &R, most: usize) -> Result<(), AllocError> {
    let alloc = rt.alloc();
    for (number, row) in (1usize..).zip(FILTERED) {
        let (encoding, ascii_only, input, wanted) = *row;
        let mut input = reader(alloc, input, most, Tail::End)?;
        let mut output = sink(alloc, Plan { most, ..AMPLE });
        let answer = if ascii_only {
            filter_ascii(alloc, &mut input, &mut output, encoding)
        } else {
            filter(alloc, &mut input, &mut output, encoding)
        };
        let found = (ending_of(&answer), Bytes(output.bytes()));
        same(rt, number, found, (None, Bytes(wanted)));
    }
    Ok(())
}

#[test]
fn pairs_are_written_one_a_line(rt: HostRuntime) -> Result<(), Fail> {
    check_filtered(&rt, 1024)?;
    check_filtered(&rt, 1)?;
    Ok(())
}

// How many bytes a sink takes at a write, the write that fails, and how each flush fails.
type Sink = (usize, Option<usize>, Option<io::ErrorKind>);

// An input in windows-1252, what comes after it, the sink, how the call ends, what was written, and
// how many I/O errors the sink counted.
const STOPPED: &[(&[u8], Tail, Sink, Ending, &[u8], usize)] = &[
    (
        b"a=1\nb=2\n",
        Tail::End,
        (2, Some(3), None),
        Some((ErrorKind::Io, Some(2), Some(io::ErrorKind::Other))),
        b"a=1\n",
        1,
    ),
    (
        b"a=1\nb=2\n",
        Tail::End,
        (2, Some(4), None),
        Some((ErrorKind::Io, Some(2), Some(io::ErrorKind::Other))),
        b"a=1\nb=",
        1,
    ),
    // The last flush fails.
    (
        b"a=1\n",
        Tail::End,
        (1024, None, Some(io::ErrorKind::Other)),
        Some((ErrorKind::Io, None, Some(io::ErrorKind::Other))),
        b"a=1\n",
        1,
    ),
    (
        b"a=1\n",
        Tail::End,
        (1024, None, Some(io::ErrorKind::Interrupted)),
        Some((ErrorKind::Io, None, Some(io::ErrorKind::Interrupted))),
        b"a=1\n",
        1,
    ),
    // The reader's error is the one that is returned.
    (
        b"a=1\n",
        Tail::Fault(io::ErrorKind::TimedOut),
        (1024, None, Some(io::ErrorKind::Other)),
        Some((ErrorKind::Io, Some(2), Some(io::ErrorKind::TimedOut))),
        b"a=1\n",
        1,
    ),
    // The pairs before a malformed escape are written.
    (
        b"a=1\nk=\\u12\nb=2",
        Tail::End,
        (1, None, None),
        Some((ErrorKind::NotEnoughDigits, Some(2), None)),
        b"a=1\n",
        0,
    ),
    // Nothing is written of nothing.
    (b"", Tail::End, (1024, Some(1), None), None, b"", 0),
];

#[test]
fn errors_come_with_their_line(rt: HostRuntime) -> Result<(), Fail> {
    let alloc = rt.alloc();
    for (number, row) in (1usize..).zip(STOPPED) {
        let (input, tail, (most, fail_at, flush_fault), ending, wanted, faults) = *row;
        let mut input = reader(alloc, input, 1024, tail)?;
        let mut output = ScriptedSink::new(alloc, most, fail_at, OTHER);
        output.set_flush_fault(flush_fault);
        let answer = filter(alloc, &mut input, &mut output, WINDOWS_1252);
        let found = (ending_of(&answer), Bytes(output.bytes()), output.faults());
        same(&rt, number, found, (ending, Bytes(wanted), faults));
    }
    Ok(())
}

// An input that is cut off by an error of the reader, the line of that error, and what was written.
const CUT_OFF: &[(&[u8], usize, &[u8])] = &[
    (b"", 1, b""),
    (b"a=1", 1, b""),
    (b"a=1\n", 2, b"a=1\n"),
    (b"a=1\nb\\", 2, b"a=1\n"),
    (b"a=1\nb\\\n=2", 3, b"a=1\n"),
    (b"a=1\nb\\\n=2\n", 4, b"a=1\nb=2\n"),
];

fn check_cut_off<R: Abort + AllocGlobal>(rt: &R, encoding: Encoding) -> Result<(), AllocError> {
    let alloc = rt.alloc();
    for (number, row) in (1usize..).zip(CUT_OFF) {
        let (input, line_number, wanted) = *row;
        let fault = io::ErrorKind::TimedOut;
        let mut input = reader(alloc, input, 1, Tail::Fault(fault))?;
        let mut output = sink(alloc, AMPLE);
        let answer = filter(alloc, &mut input, &mut output, encoding);
        let ending = Some((ErrorKind::Io, Some(line_number), Some(fault)));
        let found = (ending_of(&answer), Bytes(output.bytes()), input.faults());
        same(rt, number, found, (ending, Bytes(wanted), 1));
    }
    Ok(())
}

#[test]
fn each_read_may_fail(rt: HostRuntime) -> Result<(), Fail> {
    check_cut_off(&rt, WINDOWS_1252)?;
    check_cut_off(&rt, Encoding::UTF_8)?;
    Ok(())
}

const LINES: [&[u8]; 3] = [b"a=1\n", b"b\\ c=\n", b"\\u65e5=x\n"];

// What a sink that fails at this write holds of the lines, and the number of the line that it fails
// in. It takes so many bytes at a write.
fn taken_before(
    alloc: Global,
    most: usize,
    fail_at: usize,
) -> Result<(Vec<u8>, Option<usize>), AllocError> {
    let mut taken = Vec::new(alloc);
    let mut writes = 0usize;
    for (number, line) in (1usize..).zip(LINES.as_slice()) {
        for piece in line.chunks(most.max(1)) {
            writes = writes.saturating_add(1);
            if writes == fail_at {
                return Ok((taken, Some(number)));
            }
            taken.extend_from_slice(piece)?;
        }
    }
    Ok((taken, None))
}

// The write of this number fails, and no later one is tried.
fn check_failing_write<R: Abort + AllocGlobal>(
    rt: &R,
    most: usize,
    fail_at: usize,
    how: SinkFault,
) -> Result<(), AllocError> {
    let alloc = rt.alloc();
    let mut input = b"a=1\n# c\r\nb\\u0020c\n\\u65e5 = x".as_slice();
    let mut output = ScriptedSink::new(alloc, most, Some(fail_at), how);
    let answer = filter(alloc, &mut input, &mut output, WINDOWS_1252);
    let (taken, failing) = taken_before(alloc, most, fail_at)?;
    let cause = match how {
        SinkFault::Fault(kind) => Some(kind),
        SinkFault::Nothing => None,
    };
    let found = (ending_of(&answer), Bytes(output.bytes()), output.faults());
    let taken = Bytes(taken.as_slice());
    let wanted = match failing {
        Some(line_number) => (Some((ErrorKind::Io, Some(line_number), cause)), taken, 1),
        None => (None, taken, 0),
    };
    same(rt, fail_at, found, wanted);
    if failing.is_some() {
        same(rt, fail_at, output.calls(), fail_at);
    }
    Ok(())
}

#[test]
fn each_write_may_fail(rt: HostRuntime) -> Result<(), Fail> {
    let interrupted = SinkFault::Fault(io::ErrorKind::Interrupted);
    for how in [OTHER, interrupted, SinkFault::Nothing] {
        for most in 1..=3 {
            for fail_at in 1..=22 {
                check_failing_write(&rt, most, fail_at, how)?;
            }
        }
    }
    Ok(())
}
