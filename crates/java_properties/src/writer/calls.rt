// A writer's calls as values.

ghost use Rattle.counted_io.specs.Streams.{IsSameSink};
ghost use Rattle.java_properties.specs.Calls.{calls_in, call_in, IsAcceptedResult, MakesCall, RunsCalls, LeavesFailed};
ghost use Rattle.java_properties.specs.ReadBack.{ReadsBack, WritesOnlyThese, WritesAscii};

use crate::laws;
use crate::writer::PropertiesWriter;
use counted_io::CountedWrite;
use properties_items::error::{ErrorKind, PropertiesError};
use properties_items::line::LineEnding;
use std::alloc::Global;

/// A call of a writer: a line, a setting or a flush.
#[derive(Debug, Clone, PartialEq, Eq, Drop)]
pub enum Call {
    /// Writes a comment.
    Comment(String),
    /// Writes a key and its value.
    Pair(String, String),
    /// Sets the comment prefix.
    Prefix(String),
    /// Sets the separator between keys and values.
    Separator(String),
    /// Sets the line ending.
    Ending(LineEnding),
    /// Flushes the sink.
    Flush,
    /// Sets whether every character past U+007F is escaped.
    AsciiOnly(bool),
    /// Sets whether values are written as people write them.
    Readable(bool),
}

/// Makes the calls in order, and returns for each whether it was accepted.
///
/// A bad prefix, a bad separator, and an empty key under a separator of blanks are not accepted: they change nothing,
/// and the calls after them are made. Any other error ends the run and is returned; the calls before it have been made.
///
/// If all calls are pairs and all are accepted, no other list of pairs writes the same bytes with the same settings,
/// and reading these pairs and writing them again changes no byte.
///
/// If the first call is `AsciiOnly(true)` and none is `AsciiOnly(false)`, every byte that is written is ASCII, and what
/// is written reads back the same in windows-1252 and in UTF-8.
///
/// ```text
/// let calls = vec![in alloc; Call::Ending(LineEnding::CRLF), Call::Pair(key, value), Call::Flush]?;
/// let accepted = run_calls(alloc, calls.as_slice(), &mut writer)?;
/// ```
pub fn run_calls<W: CountedWrite>(
    alloc: Global,
    calls: &[Call],
    writer: &mut PropertiesWriter<W>,
) -> Result<Vec<bool>, PropertiesError>
    ensures runs { RunsCalls W.CountedWrite writer.old (calls_in calls.now) result writer.new }
    ensures untouched { LeavesFailed writer.old writer.new }
    ensures reads_back { ReadsBack W.CountedWrite writer.old (calls_in calls.now) result writer.new }
    ensures only { WritesOnlyThese W.CountedWrite writer.old (calls_in calls.now) result writer.new }
    ensures ascii { WritesAscii W.CountedWrite writer.old (calls_in calls.now) result writer.new }
    ensures same_sink { IsSameSink W.CountedWrite writer.old.sink writer.new.sink }
{
    laws::settings_are_good(writer);
    let mut answers = Vec::with_capacity(alloc, calls.len())?;
    for call in calls {
        let accepted = run_call(call, writer)?;
        // There is reserved space for an answer to each call.
        answers.push(accepted).unwrap();
    }
    Ok(answers)
}

#[tactic(auto, using(crate::proofs::Calls::Made::setting))]
fn run_call<W: CountedWrite>(
    call: &Call,
    writer: &mut PropertiesWriter<W>,
) -> Result<bool, PropertiesError>
    ensures makes { MakesCall W.CountedWrite writer.old (call_in call.now) result writer.new }
    ensures untouched { LeavesFailed writer.old writer.new }
    ensures same_sink { IsSameSink W.CountedWrite writer.old.sink writer.new.sink }
{
    match call {
        Call::Comment(text) => was_accepted(writer.write_comment(text.as_str())),
        Call::Pair(key, value) => was_accepted(writer.write(key.as_str(), value.as_str())),
        Call::Prefix(prefix) => was_accepted(writer.set_comment_prefix(prefix.as_str())),
        Call::Separator(separator) => was_accepted(writer.set_kv_separator(separator.as_str())),
        Call::Ending(ending) => {
            writer.set_line_ending(*ending);
            Ok(true)
        }
        Call::Flush => was_accepted(writer.flush()),
        Call::AsciiOnly(on) => {
            writer.set_ascii_only(*on);
            Ok(true)
        }
        Call::Readable(on) => {
            writer.set_readable(*on);
            Ok(true)
        }
    }
}

// Returns whether the call was accepted, or the error that ends the run.
fn was_accepted(done: Result<(), PropertiesError>) -> Result<bool, PropertiesError>
    ensures { IsAcceptedResult done result }
{
    match done {
        Ok(()) => Ok(true),
        Err(error) => match error.kind() {
            ErrorKind::BadCommentPrefix | ErrorKind::BadKvSeparator | ErrorKind::EmptyKey => {
                Ok(false)
            }
            _ => Err(error),
        },
    }
}
