// Runs of both programs over streams.

use crate::same::{Bytes, same};
use crate::streams::{AMPLE, Plan, Planned, reader, sinks, words_of};
use counted_io::{ScriptedReader, Tail};
use propedit_arguments::{asked_for, explain};
use properties_tools::propedit::request::Request;
use properties_tools::{propedit, propfilter};
use std::alloc::{AllocError, Global};
use std::process::Abort;
use std::test::Fail;

#[derive(Clone, Copy)]
pub enum Program {
    Propfilter,
    Propedit,
}

/// How the streams of a run behave.
#[derive(Clone, Copy)]
pub struct Streams {
    /// What comes after the input.
    pub tail: Tail,
    pub output: Plan,
    pub errors: Plan,
}

/// Streams that don't fail.
pub const SOUND: Streams = Streams {
    tail: Tail::End,
    output: AMPLE,
    errors: AMPLE,
};

// What stands for the status of a run that reads or changes files.
const FILES: u8 = 3;

fn edit(alloc: Global, words: &[String], input: &mut ScriptedReader, sinks: &mut Planned) -> u8 {
    match asked_for(alloc, words) {
        Ok(Request::Job(job)) => propedit::run(alloc, &job, &[], input, sinks),
        Ok(_) => FILES,
        Err(error) => explain(alloc, error, &mut sinks.output, &mut sinks.errors),
    }
}

/// Runs a program over streams. Returns the status, and what it printed on.
pub fn run(
    alloc: Global,
    program: Program,
    streams: Streams,
    words: &str,
    input: &[u8],
) -> Result<(u8, Planned), AllocError> {
    let words = words_of(alloc, words)?;
    let words = words.as_slice();
    let mut input = reader(alloc, input, 1024, streams.tail)?;
    let mut sinks = sinks(alloc, streams.output, streams.errors);
    let status = match program {
        Program::Propfilter => {
            let (output, errors) = (&mut sinks.output, &mut sinks.errors);
            propfilter::run(alloc, words, &mut input, output, errors)
        }
        Program::Propedit => edit(alloc, words, &mut input, &mut sinks),
    };
    Ok((status, sinks))
}

/// Compares the status of a run and what it printed with the row of this number: the status, the output, and what is
/// printed on standard error.
pub fn check_ended(
    rt: &impl Abort,
    number: usize,
    words: &str,
    (status, sinks): &(u8, Planned),
    wanted: (u8, &[u8], &str),
) {
    let (output, errors) = (sinks.output.bytes(), sinks.errors.bytes());
    let found = (words, *status, Bytes(output), Bytes(errors));
    let (status, output, errors) = wanted;
    let wanted = (words, status, Bytes(output), Bytes(errors.as_bytes()));
    same(rt, number, found, wanted);
}

/// The arguments, as `words_of` divides them, the input, the status, the output, and what is printed on standard error.
pub type Run<'a> = (&'a str, &'a [u8], u8, &'a [u8], &'a str);

/// Compares a run of a program with the row of this number.
pub fn check_run<R: Abort + AllocGlobal>(
    rt: &R,
    number: usize,
    program: Program,
    streams: Streams,
    row: Run<'_>,
) -> Result<(), Fail> {
    let (words, input, status, output, errors) = row;
    let ended = run(rt.alloc(), program, streams, words, input)?;
    check_ended(rt, number, words, &ended, (status, output, errors));
    Ok(())
}

/// The arguments, the input, the status, and the output of a run that prints nothing on standard error.
pub type Row = (&'static str, &'static [u8], u8, &'static [u8]);

/// Compares the runs of a program over sound streams with the rows.
pub fn check_runs<R: Abort + AllocGlobal>(
    rt: &R,
    program: Program,
    rows: &[Row],
) -> Result<(), Fail> {
    for (number, row) in (1usize..).zip(rows) {
        let (words, input, status, output) = *row;
        let row = (words, input, status, output, "");
        check_run(rt, number, program, SOUND, row)?;
    }
    Ok(())
}
