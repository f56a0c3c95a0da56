// Runs of `propedit` that read two sources: those of `diff`, a base and the files that are checked against it, or a file
// of pairs and the one that it is merged into.

use crate::runs::check_ended;
use crate::streams::{AMPLE, Plan, Planned, reader, sinks, words_of};
use counted_io::{ScriptedReader, Tail};
use propedit_arguments::{asked_for, explain};
use properties_tools::propedit;
use properties_tools::propedit::base_run::run_base;
use properties_tools::propedit::diff::run_diff;
use properties_tools::propedit::merge::{Merged, read_merge};
use properties_tools::propedit::request::{
    CheckedBase, CheckedFiles, Command, Job, Merge, Request, Source,
};
use std::alloc::{AllocError, Global};
use std::io::ErrorKind;
use std::process::Abort;
use std::test::Fail;

// What stands for the status of arguments that ask for anything else.
const OTHER: u8 = 9;

/// How the streams of a run behave: what comes after the first source and after the second, and how the output takes
/// bytes.
pub type Streams = (Tail, Tail, Plan);

/// A source that fails.
pub const CUT_OFF: Tail = Tail::Fault(ErrorKind::NotFound);

// The bytes of a source, and what comes after them.
type Input<'a> = (&'a [u8], Tail);

fn open(alloc: Global, (bytes, tail): Input<'_>) -> Result<ScriptedReader, AllocError> {
    reader(alloc, bytes, 5, tail)
}

// Runs `propedit` as its `main` does, but over these sources. Returns the status, and what it printed on.
fn run(
    alloc: Global,
    words: &str,
    first: Input<'_>,
    second: Input<'_>,
    output: Plan,
) -> Result<(u8, Planned), AllocError> {
    let words = words_of(alloc, words)?;
    let mut sinks = sinks(alloc, output, AMPLE);
    let status = match asked_for(alloc, words.as_slice()) {
        Ok(Request::Diff(sources)) => {
            let (mut old, mut new) = (open(alloc, first)?, open(alloc, second)?);
            run_diff(alloc, &sources, &mut old, &mut new, &mut sinks)
        }
        Ok(Request::CheckFiles(files)) => check_files(alloc, files, first, second, &mut sinks)?,
        Ok(Request::Merge(asked)) => merge(alloc, asked, first, second, &mut sinks)?,
        Ok(_other) => OTHER,
        Err(error) => explain(alloc, error, &mut sinks.output, &mut sinks.errors),
    };
    Ok((status, sinks))
}

// Each of the files has these bytes.
fn check_files(
    alloc: Global,
    files: CheckedFiles,
    base: Input<'_>,
    file: Input<'_>,
    sinks: &mut Planned,
) -> Result<u8, AllocError> {
    let CheckedFiles {
        encoding,
        check,
        base: source,
        paths,
    } = files;
    let Some(source) = source else {
        return Ok(OTHER);
    };
    let asked = CheckedBase {
        source,
        encoding,
        check,
    };
    let mut input = open(alloc, base)?;
    let (mut status, known) = match run_base(alloc, &asked, &mut input, sinks) {
        Ok(checked) => checked,
        Err(status) => return Ok(status),
    };
    let mut job = Job {
        encoding,
        latin_1: false,
        source: Source::Dash,
        command: Command::CheckAgainst(check, known),
        note: None,
    };
    for path in paths {
        job.source = Source::File(path);
        let mut input = open(alloc, file)?;
        status = status.max(propedit::run(alloc, &job, &[], &mut input, sinks));
    }
    Ok(status)
}

fn merge(
    alloc: Global,
    asked: Merge,
    pairs: Input<'_>,
    source: Input<'_>,
    sinks: &mut Planned,
) -> Result<u8, AllocError> {
    match read_merge(alloc, asked, &mut open(alloc, pairs)?, &mut sinks.errors) {
        Ok(Merged::Printed(job)) => {
            let mut input = open(alloc, source)?;
            Ok(propedit::run(alloc, &job, &[], &mut input, sinks))
        }
        Ok(Merged::InPlace(_file)) => Ok(OTHER),
        Err(status) => Ok(status),
    }
}

/// The arguments, the bytes of both sources, the status, the output, and what is printed on standard error.
pub type Run<'a> = (&'a str, &'a [u8], &'a [u8], u8, &'a [u8], &'a str);

/// Compares a run with the row of this number.
pub fn check_run<R: Abort + AllocGlobal>(
    rt: &R,
    number: usize,
    (first_tail, second_tail, output): Streams,
    row: Run<'_>,
) -> Result<(), Fail> {
    let (words, first, second, status, printed, said) = row;
    let (first, second) = ((first, first_tail), (second, second_tail));
    let ended = run(rt.alloc(), words, first, second, output)?;
    check_ended(rt, number, words, &ended, (status, printed, said));
    Ok(())
}
