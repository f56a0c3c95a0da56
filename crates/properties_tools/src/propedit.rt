// The program `propedit`, over any streams.

pub mod against;
pub mod answer;
pub mod answers;
pub mod base_run;
pub mod comment;
pub mod diff;
pub mod diff_json;
pub mod get;
pub mod hint;
pub mod list;
pub mod list_json;
pub mod merge;
pub mod named;
pub mod pairs;
pub mod request;
pub mod streams;

/// A source after a change.
pub mod change {
    pub use properties_changing::change::change;
}

/// What is wrong in a source, as lines.
pub mod check {
    pub use properties_checking::check::report;
}

/// How the pairs of a source change.
pub mod counts {
    pub use properties_changing::counts::{Counts, count_changes};
}

/// Why `propedit` fails, and what it prints then.
pub mod error {
    pub use properties_tables::error::{Failure, STANDARD_OUTPUT, TextFlaw, print_failure};
}

/// The lines of a source whose bytes are not those of a text.
pub mod ill_formed {
    pub use properties_tables::ill_formed::{Flaw, ill_formed_lines};
}

/// Files that are edited in place, whole or not at all.
pub mod in_place {
    pub use properties_changing::in_place::{ReplaceError, Target, edit_file};
}

/// The kinds of what a check finds, and those that it leaves out.
pub mod kinds {
    pub use properties_checking::kinds::{Ignored, Kind};
}

/// Names of the same file.
pub mod same_file {
    pub use properties_changing::same_file::{INPUT, refuse_output};
}

/// Refuses a source for its bytes, or for a malformed escape in a pair.
pub mod sound {
    pub use properties_tables::sound::{refuse_bytes, refuse_unsound};
}

ghost use Rattle.std.specs.Prelude.{◌≡◌, map};
ghost use Rattle.counted_io.specs.Streams.{IsSameReader, IsSameSink};
ghost use Rattle.java_properties.specs.Maps.{characters};
ghost use Rattle.properties_tables.specs.Messages.{printed_line, HasPrintedLine};
ghost use Rattle.properties_tools.specs.Propedit.{EndsRun, PrintsResult, Runs, PrintsText};
ghost use Rattle.properties_tables.specs.Failures.{memory_words};

use crate::propedit::answers::{answer_to, name};
use crate::propedit::hint::{hint, note_misread, print_hint};
use crate::propedit::request::Job;
use crate::propedit::streams::Sinks;
use counted_io::{CountedRead, CountedWrite};
use java_properties::{read_source, write_source};
pub use properties_changing::change::replacement;
use properties_tables::error::{FAILED, Failure, NO_MEMORY, STANDARD_OUTPUT, print_failure};
use properties_tables::messages::print_line;
use std::alloc::Global;

/// Reads the source to its end, prints what the command gives for it, and returns the exit status.
///
/// The status is that of the answer, or of a failure; a line on `errors` then says why. If the source can't be
/// read, or the command refuses it, nothing is printed on `output`. Nothing is written to the source.
///
/// `files` are the names among `possible_files` that are there. If nothing is found that was asked for, a line on
/// `errors` may say that a PREFIX looks like an option or a file, or that one of these files was taken for a KEY.
///
/// ```text
/// let mut input: &[u8] = b"# the front door\nport = 80\n";
/// let mut sinks = Sinks {
///     output: Counted::new(Vec::new(alloc)),
///     errors: Counted::new(Vec::new(alloc)),
/// };
/// // For the arguments `get port` the status is 0, and the output holds `80` and a line feed.
/// propedit::run(alloc, &job, &[], &mut input, &mut sinks);
/// ```
pub fn run<R: CountedRead, W: CountedWrite, E: CountedWrite>(
    alloc: Global,
    job: &Job,
    files: &[String],
    input: &mut R,
    sinks: &mut Sinks<W, E>,
) -> u8
    ensures runs { Runs R.CountedRead W.CountedWrite E.CountedWrite job.now (map characters files.now)
        input.old sinks.old.output sinks.old.errors result input.new sinks.new.output sinks.new.errors }
    ensures same_reader { IsSameReader R.CountedRead input.old input.new }
    ensures same_sink { IsSameSink W.CountedWrite sinks.old.output sinks.new.output }
    ensures same_error_sink { IsSameSink E.CountedWrite sinks.old.errors sinks.new.errors }
{
    let (output, errors) = (&mut sinks.output, &mut sinks.errors);
    let name = name(&job.source);
    let source = match read_source(alloc, input, job.encoding) {
        Ok(source) => source,
        Err(error) => return exit_status(alloc, errors, name, Err(Failure::Input(error))),
    };
    note_misread(alloc, errors, job.latin_1, name, &source);
    match print_answer(alloc, job, files, &source, output) {
        Ok((status, hint)) => {
            print_hint(errors, &hint);
            status
        }
        Err(failure) => exit_status(alloc, errors, name, Err(failure)),
    }
}

// Prints what the command gives for the source, and returns the status of the answer, and the hint on it, if any.
fn print_answer<W: CountedWrite>(
    alloc: Global,
    job: &Job,
    files: &[String],
    source: &[u8],
    output: &mut W,
) -> Result<(u8, Option<String>), Failure>
    ensures prints { PrintsResult W.CountedWrite job.now (map characters files.now) source.now output.old result output.new }
    ensures same_sink { IsSameSink W.CountedWrite output.old output.new }
{
    let answer = answer_to(alloc, job, source)?;
    let hint = hint(alloc, job, files, source, answer.status)?;
    match write_source(output, &answer.text) {
        Ok(()) => Ok((answer.status, hint)),
        Err(error) => Err(Failure::Output(error)),
    }
}

/// Returns the exit status of a result: its own, or that of a failure, which is printed on `errors` as a line under the
/// name of the source. It is 1 if no pair has a key that is edited, or one has a new key, and else 2. What can't be
/// printed is dropped.
///
/// If standard output is a pipe that nobody reads any more, as with `| head -1`, nothing is printed, and the status is
/// 2.
///
/// ```text
/// exit_status(alloc, &mut errors, "app.properties", Err(Failure::NotUtf8(7))); // 2, and one line is printed
/// ```
pub fn exit_status<E: CountedWrite>(
    alloc: Global,
    errors: &mut E,
    name: &str,
    outcome: Result<u8, Failure>,
) -> u8
    ensures ends { EndsRun E.CountedWrite name.now errors.old outcome result errors.new }
    ensures same_sink { IsSameSink E.CountedWrite errors.old errors.new }
{
    match outcome {
        Ok(status) => status,
        Err(failure) => {
            if !failure.is_closed_pipe() {
                print_failure(alloc, errors, name, &failure);
            }
            failure.status()
        }
    }
}

/// Prints a text, such as the help or the version, and returns the exit status: 0, or 2 if it can't be printed, and
/// then a line on `errors` says why, as [`exit_status`] prints it.
///
/// ```text
/// let mut output = Counted::new(Vec::new(alloc));
/// propedit::print_text(alloc, "propedit 1.28.0\n", &mut output, &mut errors); // 0, and the output holds the text
/// ```
pub fn print_text<W: CountedWrite, E: CountedWrite>(
    alloc: Global,
    text: &str,
    output: &mut W,
    errors: &mut E,
) -> u8
    ensures prints { PrintsText W.CountedWrite E.CountedWrite text.now
        output.old errors.old result output.new errors.new }
    ensures same_sink { IsSameSink W.CountedWrite output.old output.new }
    ensures same_error_sink { IsSameSink E.CountedWrite errors.old errors.new }
{
    let printed = match write_source(output, text.as_bytes()) {
        Ok(()) => Ok(0),
        Err(error) => Err(Failure::Output(error)),
    };
    exit_status(alloc, errors, STANDARD_OUTPUT, printed)
}

/// Prints on `errors` what is wrong with the arguments, and returns the exit status of wrong arguments, 2. What can't
/// be printed is dropped.
///
/// ```text
/// let mut errors = Counted::new(Vec::new(alloc));
/// propedit::print_usage_error(&mut errors, "propedit: unknown command 'gett'\n"); // 2, and this is printed
/// ```
pub fn print_usage_error<E: CountedWrite>(errors: &mut E, text: &str) -> u8
    ensures status { result ≡ 2 }
    ensures prints { HasPrintedLine E.CountedWrite errors.old text.now errors.new }
    ensures same_sink { IsSameSink E.CountedWrite errors.old errors.new }
{
    print_line(errors, text);
    FAILED
}

/// Prints on `errors` that memory ran out, and returns the exit status of failures, 2.
///
/// For a `main` that has no memory for its arguments. It needs none itself. What can't be printed is dropped.
///
/// ```text
/// let mut errors = Counted::new(Vec::new(alloc));
/// propedit::print_out_of_memory(&mut errors); // 2, and one line is printed
/// ```
pub fn print_out_of_memory<E: CountedWrite>(errors: &mut E) -> u8
    ensures status { result ≡ 2 }
    ensures prints { HasPrintedLine E.CountedWrite errors.old (printed_line memory_words) errors.new }
    ensures same_sink { IsSameSink E.CountedWrite errors.old errors.new }
{
    print_line(errors, NO_MEMORY);
    FAILED
}
