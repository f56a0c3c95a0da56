//! Does what the arguments of `propedit` ask for, with the files that they name.
#![tactic(auto)]

mod checking;
mod input;
mod notes;

use crate::checking::check_files;
use crate::input::{Input, files_among, is_file, opened_or_explain, read_or_explain};
use crate::notes::{edit, lacks_file};
use counted_io::{Counted, CountedWrite};
pub use input::StandardInput;
use propedit_arguments::mistake::{Mistake, NoRequest};
use propedit_arguments::other_format::{other_format, path};
use propedit_arguments::parse::explain_mistake;
use propedit_arguments::{asked_for, explain, explain_not_utf_8, marked_words};
use properties_tools::propedit::answers::name;
use properties_tools::propedit::diff::run_diff;
use properties_tools::propedit::hint::{
    possible_files, print_misread, print_reading, refused_files,
};
use properties_tools::propedit::merge::{Merged, read_merge};
use properties_tools::propedit::request::{
    Comparison, FileEdit, Form, Job, Merge, Request, Source,
};
use properties_tools::propedit::streams::Sinks;
use properties_tools::propedit::{print_out_of_memory, run};
use std::alloc::AllocError;

/// Does what these arguments ask for, and returns the exit status.
pub fn run_words<W: CountedWrite, E: CountedWrite>(
    rt: &HostRuntime,
    standard: StandardInput<'_>,
    words: &[String],
    sinks: &mut Sinks<W, E>,
) -> u8 {
    let alloc = rt.alloc();
    match asked_for(alloc, words) {
        Ok(Request::Job(mut job)) => do_job(rt, standard, &mut job, sinks),
        Ok(Request::CheckFiles(files)) => check_files(rt, standard, files, sinks),
        Ok(Request::EditFile(asked)) => edit(rt, &asked, &mut sinks.errors),
        Ok(Request::Merge(asked)) => merge(rt, standard, asked, sinks),
        Ok(Request::Diff(sources)) => compare(rt, standard, &sources, sinks),
        Err(error) => {
            let error = with_file(rt, error);
            explain(alloc, error, &mut sinks.output, &mut sinks.errors)
        }
    }
}

/// Does what the arguments of the process ask for, of which one is not UTF-8, and returns the exit status. Files may
/// have such names where they are checked, and nowhere else.
pub fn run_not_utf_8<W: CountedWrite, E: CountedWrite>(
    rt: &HostRuntime,
    sinks: &mut Sinks<W, E>,
) -> Result<u8, AllocError> {
    let alloc = rt.alloc();
    let words = marked_words(rt, alloc)?;
    match asked_for(alloc, words.as_slice()) {
        Ok(Request::CheckFiles(files)) => {
            Ok(check_files(rt, StandardInput::Process, files, sinks))
        }
        _ => Ok(explain_not_utf_8(rt, alloc, &mut sinks.errors)),
    }
}

// Returns why arguments ask for nothing, with the first of them that is a file by mistake.
fn with_file<'a>(rt: &HostRuntime, error: NoRequest<'a>) -> NoRequest<'a> {
    for (name, error) in error.if_files().iter().flatten() {
        if is_file(rt, name) {
            return *error;
        }
    }
    error
}

// Reads the pairs of a file, and then sets them in a source.
fn merge<W: CountedWrite, E: CountedWrite>(
    rt: &HostRuntime,
    standard: StandardInput<'_>,
    asked: Merge,
    sinks: &mut Sinks<W, E>,
) -> u8 {
    let alloc = rt.alloc();
    let file = match file_to_merge(rt, standard, &asked, &mut sinks.errors) {
        Ok(file) => file,
        Err(status) => return status,
    };
    let latin_1 = asked.edits.latin_1;
    match read_merge(alloc, asked, &mut file.as_slice(), &mut sinks.errors) {
        Ok(Merged::Printed(mut job)) => do_job(rt, standard, &mut job, sinks),
        Ok(Merged::InPlace(file)) => {
            let asked = FileEdit {
                file,
                latin_1,
                note: None,
            };
            edit(rt, &asked, &mut sinks.errors)
        }
        Err(status) => status,
    }
}

// Reads the file whose pairs are set, unless it is in another format.
fn file_to_merge<E: CountedWrite>(
    rt: &HostRuntime,
    standard: StandardInput<'_>,
    asked: &Merge,
    errors: &mut E,
) -> Result<Vec<u8>, u8> {
    let source = &asked.pairs;
    let mut input = opened_or_explain(rt, standard, source, errors)?;
    let file = read_or_explain(rt, source, asked.encoding, &mut input, errors)?;
    if asked.is_judged {
        match other_format(rt.alloc(), source, &file) {
            Ok(None) => {}
            Ok(Some(format)) => {
                let mistake = Mistake::OtherFormat(path(source), format);
                return Err(explain_mistake(rt.alloc(), mistake, errors));
            }
            Err(_error) => return Err(print_out_of_memory(errors)),
        }
    }
    if asked.edits.latin_1 && asked.form == Form::Properties {
        print_misread(rt.alloc(), errors, name(source), &file);
    }
    Ok(file)
}

// Opens the source, and runs the command on it, unless its bytes would go where they come from.
pub(crate) fn do_job<W: CountedWrite, E: CountedWrite>(
    rt: &HostRuntime,
    standard: StandardInput<'_>,
    job: &mut Job,
    sinks: &mut Sinks<W, E>,
) -> u8 {
    let alloc = rt.alloc();
    let mut input = match opened_or_explain(rt, standard, &job.source, &mut sinks.errors) {
        Ok(input) => input,
        Err(status) => return status,
    };
    if let Some(file) = refused_files(job)
        .iter()
        .find(|file| is_file(rt, file.as_str()))
    {
        let mistake = Mistake::FileAsKey(file.as_str());
        return explain_mistake(alloc, mistake, &mut sinks.errors);
    }
    let Ok(files) = files_among(rt, possible_files(job)) else {
        return print_out_of_memory(&mut sinks.errors);
    };
    if standard.is_typed(rt, &job.source) {
        print_reading(&mut sinks.errors);
    }
    // If an option names a file, the hint on another file comes before a note.
    let is_second = matches!(job.source, Source::File(_)) && !files.is_empty();
    if is_second || lacks_file(rt, &job.note) {
        job.note = None;
    }
    run(alloc, job, &files, &mut input, sinks)
}

// Opens two sources, and prints what differs between them.
fn compare<W: CountedWrite, E: CountedWrite>(
    rt: &HostRuntime,
    standard: StandardInput<'_>,
    sources: &Comparison,
    sinks: &mut Sinks<W, E>,
) -> u8 {
    match opened_both(rt, standard, sources, &mut sinks.errors) {
        Ok((mut old, mut new)) => run_diff(rt.alloc(), sources, &mut old, &mut new, sinks),
        Err(status) => status,
    }
}

fn opened_both<'a, E: CountedWrite>(
    rt: &HostRuntime,
    standard: StandardInput<'a>,
    sources: &Comparison,
    errors: &mut E,
) -> Result<(Counted<Input<'a>>, Counted<Input<'a>>), u8> {
    let old = opened_or_explain(rt, standard, &sources.old, errors)?;
    let new = opened_or_explain(rt, standard, &sources.new, errors)?;
    Ok((old, new))
}
