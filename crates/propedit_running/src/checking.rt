// Files that are checked, alone or against a base.

use crate::do_job;
use crate::input::{StandardInput, is_directory, opened_or_explain};
use counted_io::CountedWrite;
use propedit_arguments::{explain_directory, explain_name, name_of_marked};
use properties_tools::propedit::against::Base;
use properties_tools::propedit::answers::name;
use properties_tools::propedit::base_run::run_base;
use properties_tools::propedit::request::{CheckedBase, CheckedFiles, Command, Job, Source};
use properties_tools::propedit::streams::Sinks;

/// Checks the base, if there is one, and then each file, also after one that can't be read, and returns the highest
/// status. Without its base no file is checked.
pub(crate) fn check_files<W: CountedWrite, E: CountedWrite>(
    rt: &HostRuntime,
    standard: StandardInput<'_>,
    files: CheckedFiles,
    sinks: &mut Sinks<W, E>,
) -> u8 {
    let CheckedFiles {
        encoding,
        check,
        base,
        paths,
    } = files;
    let mut highest = 0;
    let mut command = Command::Check(check);
    if let Some(source) = base {
        let base = CheckedBase {
            source,
            encoding,
            check,
        };
        match check_base(rt, standard, &base, sinks) {
            Ok((status, base)) => {
                highest = status;
                command = Command::CheckAgainst(check, base);
            }
            Err(status) => return status,
        }
    }
    let mut job = Job {
        encoding,
        latin_1: false,
        source: Source::Dash,
        command,
        note: None,
    };
    for path in paths {
        job.source = source_named(path);
        highest = highest.max(check_file(rt, standard, &mut job, sinks));
    }
    highest
}

// Opens a base, and checks it, unless its name is not UTF-8.
fn check_base<W: CountedWrite, E: CountedWrite>(
    rt: &HostRuntime,
    standard: StandardInput<'_>,
    base: &CheckedBase,
    sinks: &mut Sinks<W, E>,
) -> Result<(u8, Base), u8> {
    let alloc = rt.alloc();
    if let Some(marked) = marked_name(&base.source) {
        return Err(explain_name(alloc, marked, &mut sinks.errors));
    }
    let mut input = opened_or_explain(rt, standard, &base.source, &mut sinks.errors)?;
    run_base(alloc, base, &mut input, sinks)
}

// The name `-` is that of standard input.
fn source_named(path: String) -> Source {
    if path.as_str() == "-" {
        Source::Dash
    } else {
        Source::File(path)
    }
}

// Checks a file, unless its name is not UTF-8, or is that of a directory: no such file can be read.
fn check_file<W: CountedWrite, E: CountedWrite>(
    rt: &HostRuntime,
    standard: StandardInput<'_>,
    job: &mut Job,
    sinks: &mut Sinks<W, E>,
) -> u8 {
    let alloc = rt.alloc();
    if let Some(name) = marked_name(&job.source) {
        return explain_name(alloc, name, &mut sinks.errors);
    }
    if is_directory(rt, &job.source) {
        return explain_directory(alloc, name(&job.source), &mut sinks.errors);
    }
    do_job(rt, standard, job, sinks)
}

// Returns the name of a file, if it is not UTF-8.
fn marked_name(source: &Source) -> Option<&str> {
    match source {
        Source::File(path) => name_of_marked(path.as_str()),
        Source::StandardInput | Source::Dash => None,
    }
}
