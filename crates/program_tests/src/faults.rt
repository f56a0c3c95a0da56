// Streams of `propedit` that fail, and what comes before a run.

use crate::runs::{Program, SOUND, Streams, check_run};
use crate::same::{Bytes, same};
use crate::streams::{AMPLE, FULL, OTHER, Plan, sink};
use crate::two_sources;
use crate::two_sources::CUT_OFF;
use counted_io::{SinkFault, Tail};
use java_properties::PropertiesError;
use properties_tools::propedit::error::Failure;
use properties_tools::propedit::{exit_status, print_out_of_memory};
use std::io::{self, ErrorKind};
use std::test::Fail;

const CUT_OFF_INPUT: Streams = Streams {
    tail: CUT_OFF,
    ..SOUND
};

#[test]
fn an_input_that_fails_is_named(rt: HostRuntime) -> Result<(), Fail> {
    let input = b"a=1\nb=2".as_slice();
    let errors = "propedit: standard input:2: entity not found\n";
    for (number, words) in (1usize..).zip(["get a", "list", "check", "check -q", "set a 2"]) {
        let row = (words, input, 2, b"".as_slice(), errors);
        check_run(&rt, number, Program::Propedit, CUT_OFF_INPUT, row)?;
    }
    Ok(())
}

const BROKEN: Plan = Plan {
    how: SinkFault::Fault(ErrorKind::NotFound),
    ..FULL
};

const NOT_FLUSHED: Plan = Plan {
    flush_fault: Some(ErrorKind::NotFound),
    ..AMPLE
};

// The output, the arguments, the input, what is written, and why no more.
const OUTPUTS: &[(Plan, &str, &[u8], &[u8], &str)] = &[
    (BROKEN, "get a", b"a=123", b"12", "entity not found"),
    (FULL, "get a", b"a=123", b"12", "I/O error"),
    (NOT_FLUSHED, "get a", b"a=123", b"123\n", "entity not found"),
    (BROKEN, "--version", b"", b"pr", "entity not found"),
];

#[test]
fn an_output_that_fails_is_named(rt: HostRuntime) -> Result<(), Fail> {
    for (number, row) in (1usize..).zip(OUTPUTS) {
        let (output, words, input, written, wrong) = *row;
        let streams = Streams { output, ..SOUND };
        let errors = format!(in rt.alloc(); "propedit: standard output: {wrong}\n")?;
        let row = (words, input, 2, written, errors.as_str());
        check_run(&rt, number, Program::Propedit, streams, row)?;
    }
    Ok(())
}

// What takes the errors, and what is printed. What can't be printed is dropped, and the status stays.
const ERRORS: &[(Plan, &str)] = &[
    (Plan { how: OTHER, ..FULL }, "pr"),
    (FULL, "pr"),
    (
        NOT_FLUSHED,
        "propedit: standard input:1: Malformed \\uxxxx encoding: not enough digits.\n",
    ),
];

#[test]
fn errors_that_cannot_be_printed_are_dropped(rt: HostRuntime) -> Result<(), Fail> {
    for (number, (errors, printed)) in (1usize..).zip(ERRORS) {
        let streams = Streams {
            errors: *errors,
            ..SOUND
        };
        let row = ("get a", b"a=\\u12".as_slice(), 2, b"".as_slice(), *printed);
        check_run(&rt, number, Program::Propedit, streams, row)?;
    }
    Ok(())
}

// What `main` prints if it has no arguments, no memory for them, or no file.
const BEFORE_A_RUN: &[u8] = b"propedit: Out of memory.\n\
    propedit: app.properties: entity not found\n";

#[test]
fn failures_before_a_run_are_printed(rt: HostRuntime) {
    let alloc = rt.alloc();
    let mut errors = sink(alloc, AMPLE);
    let absent = PropertiesError::from(io::Error::from(ErrorKind::NotFound));
    let failed = Err(Failure::from(absent));
    let statuses = (
        print_out_of_memory(&mut errors),
        exit_status(alloc, &mut errors, "app.properties", failed),
        exit_status(alloc, &mut errors, "app.properties", Ok(1)),
    );
    let found = (statuses, Bytes(errors.bytes()));
    same(&rt, 1, found, ((2, 2, 1), Bytes(BEFORE_A_RUN)));
}

// The streams, the arguments, both sources, what is written, and what is printed on standard error.
type Fault = (
    two_sources::Streams,
    &'static str,
    [&'static [u8]; 3],
    &'static str,
);

const OF_TWO_SOURCES: &[Fault] = &[
    (
        (CUT_OFF, Tail::End, AMPLE),
        "check --base m d",
        [b"a\na\n", b"", b""],
        "propedit: m:3: entity not found\n",
    ),
    (
        (Tail::End, Tail::End, FULL),
        "check --base m d",
        [b"a\na\n", b"", b"m:"],
        "propedit: standard output: I/O error\n",
    ),
    (
        (CUT_OFF, CUT_OFF, AMPLE),
        "diff old -",
        [b"a=1\n", b"b=1", b""],
        "propedit: old:2: entity not found\n",
    ),
    // Both are read before one is refused.
    (
        (Tail::End, CUT_OFF, AMPLE),
        "diff old -",
        [b"a=\\u12", b"b=1", b""],
        "propedit: standard input: entity not found\n",
    ),
    (
        (Tail::End, Tail::End, FULL),
        "diff old -",
        [b"a=1", b"b=1", b"ol"],
        "propedit: standard output: I/O error\n",
    ),
    (
        (CUT_OFF, Tail::End, AMPLE),
        "-f y merge x",
        [b"a=1\n", b"a=2", b""],
        "propedit: x:2: entity not found\n",
    ),
];

#[test]
fn a_stream_of_two_sources_that_fails_is_named(rt: HostRuntime) -> Result<(), Fail> {
    for (number, row) in (1usize..).zip(OF_TWO_SOURCES) {
        let (streams, words, [first, second, written], errors) = *row;
        let row = (words, first, second, 2, written, errors);
        two_sources::check_run(&rt, number, streams, row)?;
    }
    Ok(())
}
