// What a command gives for a source.

ghost use Rattle.std.specs.Prelude.{◌≡◌};
ghost use Rattle.properties_text.specs.Encoding.{encoding_of};
ghost use Rattle.properties_tools.specs.Propedit.{Answers, AnswersCheck, ChangesTo, source_name};

use crate::propedit::against::check_against;
use crate::propedit::answer::{Answer, reported};
use crate::propedit::comment::comment;
use crate::propedit::get::{Shown, get};
use crate::propedit::list::list;
use crate::propedit::list_json::list_json;
use crate::propedit::named::NamedSource;
use crate::propedit::pairs::list_values;
use crate::propedit::request::{Command, Job, Source};
use java_properties::Encoding;
use properties_changing::change::change;
use properties_changing::request::Change;
use properties_checking::check::report;
use properties_checking::request::Check;
use properties_tables::error::Failure;
use std::alloc::Global;

/// Returns the name of a source in messages: its path, or `standard input`.
///
/// ```text
/// assert_eq!(rt; name(&Source::StandardInput), "standard input");
/// ```
pub fn name(source: &Source) -> &str
    ensures { result.now ≡ source_name source.now }
{
    match source {
        Source::StandardInput | Source::Dash => "standard input",
        Source::File(path) => path.as_str(),
    }
}

/// Returns what a command gives for a source. The status is 1 if no pair has the key and there is no default, if no key
/// begins with a prefix that isn't empty, or if the check finds something.
///
/// ```text
/// // If the job is to get the key `port`:
/// let answer = answer_to(alloc, &job, b"port = 80\n")?;
/// // The text is `80` and a line feed, and the status is 0.
/// ```
pub fn answer_to(alloc: Global, job: &Job, source: &[u8]) -> Result<Answer, Failure>
    ensures { Answers job.now source.now result }
{
    match &job.command {
        Command::Get(keys, default, end) => {
            let default = match default {
                Some(text) => Some(text.as_str()),
                None => None,
            };
            let shown = Shown { default, end: *end };
            get(alloc, source, job.encoding, keys, shown)
        }
        Command::List(prefix, end) => list(alloc, source, job.encoding, prefix.as_str(), *end),
        Command::ListValues(prefix, end) => {
            list_values(alloc, source, job.encoding, prefix.as_str(), *end)
        }
        Command::ListJson(prefix) => list_json(alloc, source, job.encoding, prefix.as_str()),
        Command::Comment(key) => comment(alloc, source, job.encoding, key.as_str()),
        Command::Check(asked) => check(alloc, name(&job.source), source, job.encoding, *asked),
        Command::CheckAgainst(asked, base) => {
            let source = NamedSource {
                name: name(&job.source),
                bytes: source,
            };
            check_against(alloc, source, job.encoding, *asked, base)
        }
        Command::Change(change) => changed(alloc, source, job.encoding, change),
    }
}

// Returns what is wrong in a source, unless the check is quiet. The status is 1 if anything is.
fn check(
    alloc: Global,
    name: &str,
    source: &[u8],
    encoding: Encoding,
    asked: Check,
) -> Result<Answer, Failure>
    ensures { AnswersCheck name.now (encoding_of encoding) asked source.now result }
{
    let report = report(alloc, name, source, encoding, asked)?;
    Ok(reported(alloc, report, asked.quiet))
}

// Returns a source after a change.
fn changed(
    alloc: Global,
    source: &[u8],
    encoding: Encoding,
    asked: &Change,
) -> Result<Answer, Failure>
    ensures { ChangesTo (encoding_of encoding) source.now asked.now result }
{
    let text = change(alloc, source, encoding, asked)?;
    Ok(Answer { text, status: 0 })
}
