// A base over streams.

ghost use Rattle.counted_io.specs.Streams.{IsSameReader, IsSameSink};
ghost use Rattle.properties_tools.specs.Propedit.BaseRun.{PrintsBase, RunsBase};

use crate::propedit::against::{Base, base_of};
use crate::propedit::answers::name;
use crate::propedit::exit_status;
use crate::propedit::named::NamedSource;
use crate::propedit::request::CheckedBase;
use crate::propedit::streams::Sinks;
use counted_io::{CountedRead, CountedWrite};
use java_properties::{read_source, write_source};
use properties_tables::error::Failure;
use std::alloc::Global;

/// Reads a base to its end, prints what is wrong in it, and returns the exit status of that and the base. If the base
/// can't be read or what is wrong can't be printed, a line on `errors` says why, and the error is the exit status.
///
/// ```text
/// let mut input: &[u8] = b"a=1\na=2\n";
/// let mut sinks = Sinks {
///     output: Counted::new(Vec::new(alloc)),
///     errors: Counted::new(Vec::new(alloc)),
/// };
/// let (status, base) = run_base(alloc, &asked, &mut input, &mut sinks)?;
/// // The status is 1, and the output holds one line, which says that the key `a` is repeated.
/// ```
pub fn run_base<R: CountedRead, W: CountedWrite, E: CountedWrite>(
    alloc: Global,
    asked: &CheckedBase,
    input: &mut R,
    sinks: &mut Sinks<W, E>,
) -> Result<(u8, Base), u8>
    ensures runs { RunsBase R.CountedRead W.CountedWrite E.CountedWrite asked.now
        input.old sinks.old.output sinks.old.errors result input.new sinks.new.output sinks.new.errors }
    ensures same_reader { IsSameReader R.CountedRead input.old input.new }
    ensures same_sink { IsSameSink W.CountedWrite sinks.old.output sinks.new.output }
    ensures same_error_sink { IsSameSink E.CountedWrite sinks.old.errors sinks.new.errors }
{
    let (output, errors) = (&mut sinks.output, &mut sinks.errors);
    match print_base(alloc, asked, input, output) {
        Ok(checked) => Ok(checked),
        Err(failure) => Err(exit_status(alloc, errors, name(&asked.source), Err(failure))),
    }
}

// Reads a base, prints what is wrong in it, and returns the status of that and the base.
fn print_base<R: CountedRead, W: CountedWrite>(
    alloc: Global,
    asked: &CheckedBase,
    input: &mut R,
    output: &mut W,
) -> Result<(u8, Base), Failure>
    ensures prints { PrintsBase R.CountedRead W.CountedWrite asked.now
        input.old output.old result input.new output.new }
    ensures same_reader { IsSameReader R.CountedRead input.old input.new }
    ensures same_sink { IsSameSink W.CountedWrite output.old output.new }
{
    let source = read_source(alloc, input, asked.encoding)?;
    let name = name(&asked.source);
    let named = NamedSource {
        name,
        bytes: &source,
    };
    let (answer, base) = base_of(alloc, named, asked.encoding, asked.check)?;
    match write_source(output, &answer.text) {
        Ok(()) => Ok((answer.status, base)),
        Err(error) => Err(Failure::Output(error)),
    }
}
