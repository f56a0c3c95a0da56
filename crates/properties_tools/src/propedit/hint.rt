// Hints on arguments that may mean something else.

ghost use Rattle.std.specs.Prelude.{◌≡◌, map, IfOk, string_bytes};
ghost use Rattle.std.specs.Str.{chars};
ghost use Rattle.counted_io.specs.Streams.{IsSameSink};
ghost use Rattle.java_properties.specs.Maps.{characters};
ghost use Rattle.properties_text.specs.Encoding.{encoding_of};
ghost use Rattle.properties_tables.specs.Messages.{HasPrintedLine};
ghost use Rattle.properties_tools.specs.Private.Hinting.{is_input, FindsFileHint, FindsHint, FindsNote, FindsPrefix, TellsDoubt};
ghost use Rattle.properties_tools.specs.Propedit.Hints.{hint_bytes, key_line, misread_line, possible_files, prefix_hint, prefix_line, prefix_of, reading_line, refused_files, without_first, NotesMisread, PrintsHint, PrintsMisread, TellsNote};

use crate::propedit::list::list;
use crate::propedit::request::{Command, Doubt, Job, Note, Source, Terminator};
use counted_io::CountedWrite;
use java_properties::Encoding;
use properties_changing::change::first_absent;
use properties_tables::error::Failure;
use properties_tables::ill_formed::{Flaw, first_flawed_line};
use properties_tables::messages::{Escaped, print_line};
use std::alloc::{AllocError, Global};
use std::slice;

const IS_A_FILE: &str = "a file is named by -f";

const IS_MISREAD: &str =
    "has a byte that Java reads as a control character; 'propedit check -e iso-8859-1 FILE' lists all";

const READING: &str = "propedit: reading standard input; '-f FILE' reads a file\n";

/// Returns the arguments of a job that may be files by mistake, unless standard input is named: the KEYs of `get`, the
/// KEY of `comment`, and a PREFIX, if a file is named.
///
/// ```text
/// // For the arguments `get port app.properties` it returns both.
/// let words = possible_files(&job);
/// ```
pub fn possible_files(job: &Job) -> &[String]
    ensures { result.now ≡ possible_files job.now.source job.now.command }
{
    match (&job.source, &job.command) {
        (Source::Dash, _) => &[],
        (_, Command::Get(keys, _, _)) => keys.as_slice(),
        (_, Command::Comment(key)) => slice::from_ref(key),
        (Source::File(_), command) => prefix_of(command),
        _ => &[],
    }
}

fn prefix_of(command: &Command) -> &[String]
    ensures { result.now ≡ prefix_of command.now }
{
    match command {
        Command::List(prefix, _) | Command::ListValues(prefix, _) | Command::ListJson(prefix) => {
            slice::from_ref(prefix)
        }
        _ => &[],
    }
}

/// Returns the arguments of a job that are refused if they are files: of `get` with a default, if no file is named, each
/// KEY after the first.
///
/// ```text
/// // For the arguments `-d 80 get port app.properties` it returns the second.
/// let words = refused_files(&job);
/// ```
pub fn refused_files(job: &Job) -> &[String]
    ensures { result.now ≡ refused_files job.now.source job.now.command }
{
    match (&job.source, &job.command) {
        (Source::StandardInput, Command::Get(keys, Some(_), _)) => without_first(keys.as_slice()),
        _ => &[],
    }
}

fn without_first(keys: &[String]) -> &[String]
    ensures { result.now ≡ without_first keys.now }
{
    match keys {
        [_, others @ ..] => others,
        [] => &[],
    }
}

/// Prints on `errors` that standard input is read, which nothing else shows in a terminal. What can't be printed is
/// dropped.
///
/// ```text
/// let mut errors = Counted::new(Vec::new(alloc));
/// print_reading(&mut errors); // They hold `propedit: reading standard input; ..`, and a line feed.
/// ```
pub fn print_reading<E: CountedWrite>(errors: &mut E)
    ensures prints { HasPrintedLine E.CountedWrite errors.old reading_line errors.new }
    ensures same_sink { IsSameSink E.CountedWrite errors.old errors.new }
{
    print_line(errors, READING);
}

/// Prints on `errors` the first line with a byte that ISO 8859-1 reads as a control character, and windows-1252 as
/// another character. Prints nothing if there is none, or if memory runs out. What can't be printed is dropped.
///
/// ```text
/// print_misread(alloc, &mut errors, "a.properties", b"a=5 \x80"); // They name line 1.
/// ```
pub fn print_misread<E: CountedWrite>(alloc: Global, errors: &mut E, name: &str, source: &[u8])
    ensures prints { PrintsMisread E.CountedWrite name.now source.now errors.old errors.new }
    ensures same_sink { IsSameSink E.CountedWrite errors.old errors.new }
{
    if let Some(number) = first_flawed_line(source, Encoding::WINDOWS_1252, Flaw::Misread)
        && let Ok(line) = misread_line(alloc, name, number)
    {
        print_line(errors, line.as_str());
    }
}

/// Does this if Java reads the source as ISO 8859-1.
pub(crate) fn note_misread<E: CountedWrite>(
    alloc: Global,
    errors: &mut E,
    latin_1: bool,
    name: &str,
    source: &[u8],
)
    ensures prints { NotesMisread E.CountedWrite latin_1 name.now source.now errors.old errors.new }
    ensures same_sink { IsSameSink E.CountedWrite errors.old errors.new }
{
    if latin_1 {
        print_misread(alloc, errors, name, source);
    }
}

fn misread_line(alloc: Global, name: &str, number: usize) -> Result<String, AllocError>
    ensures { IfOk result (λ line. string_bytes line ≡ misread_line name.now number) }
{
    let name = Escaped(name);
    format!(in alloc; "propedit: {name}:{number}: {IS_MISREAD}\n")
}

/// Returns the line with an answer of this status: that of the job's note, if the source bears it out. Or it says
/// which argument may have been meant as a file: a PREFIX that no key begins with, if no file is named or it is one of
/// the `files`, or a KEY that no pair has, if it is one.
pub(crate) fn hint(
    alloc: Global,
    job: &Job,
    files: &[String],
    source: &[u8],
    status: u8,
) -> Result<Option<String>, Failure>
    ensures { FindsHint job.now (map characters files.now) source.now status result }
{
    if let Some(line) = note_line(alloc, source, job.encoding, &job.note)? {
        return Ok(Some(line));
    }
    match &job.command {
        Command::Get(_, _, _) | Command::Comment(_) => file_hint(
            alloc,
            source,
            job.encoding,
            files,
        ),
        command => match prefix_of(command) {
            [prefix] if status != 0 => {
                Ok(prefix_hint(alloc, &job.source, files, prefix.as_str())?)
            }
            _ => Ok(None),
        },
    }
}

// Returns the line of a note that the source bears out. A source that is refused bears out none.
fn note_line(
    alloc: Global,
    source: &[u8],
    encoding: Encoding,
    note: &Option<Note>,
) -> Result<Option<String>, Failure>
    ensures { FindsNote (encoding_of encoding) source.now note.now result }
{
    let failure = match told(alloc, source, encoding, note) {
        Ok(line) => return Ok(line),
        Err(failure) => failure,
    };
    if is_memory(&failure) {
        Err(failure)
    } else {
        Ok(None)
    }
}

// Returns whether memory ran out, if nothing was read.
fn is_memory(failure: &Failure) -> bool
    ensures { result ≡ is_input failure.now }
{
    matches!(failure, Failure::Input(_))
}

/// Prints a hint, if there is one.
pub(crate) fn print_hint<E: CountedWrite>(errors: &mut E, hint: &Option<String>)
    ensures prints { PrintsHint E.CountedWrite errors.old (hint_bytes hint.now) errors.new }
    ensures same_sink { IsSameSink E.CountedWrite errors.old errors.new }
{
    match hint {
        Some(line) => print_line(errors, line.as_str()),
        None => {}
    }
}

// Returns the line for the first of these files that no pair has as its key.
fn file_hint(
    alloc: Global,
    source: &[u8],
    encoding: Encoding,
    files: &[String],
) -> Result<Option<String>, Failure>
    ensures { FindsFileHint (encoding_of encoding) source.now (map characters files.now) result }
{
    match first_absent(alloc, source, encoding, files)? {
        Some(key) => Ok(Some(key_line(alloc, key)?)),
        None => Ok(None),
    }
}

fn key_line(alloc: Global, key: &str) -> Result<String, AllocError>
    ensures { IfOk result (λ line. string_bytes line ≡ key_line key.now) }
{
    let key = Escaped(key);
    format!(in alloc; "propedit: no pair has the key '{key}'; {IS_A_FILE}\n")
}

// Returns the hint on a PREFIX: how a file is named, if none is named, or if it is one.
fn prefix_hint(
    alloc: Global,
    source: &Source,
    files: &[String],
    prefix: &str,
) -> Result<Option<String>, AllocError>
    ensures { IfOk result (λ hint. hint_bytes hint ≡ prefix_hint source.now (map characters files.now) prefix.now) }
{
    match (source, files, prefix.as_bytes()) {
        (Source::StandardInput, _, [_, ..]) | (_, [_, ..], _) => {
            Ok(Some(prefix_line(alloc, prefix)?))
        }
        _ => Ok(None),
    }
}

fn prefix_line(alloc: Global, prefix: &str) -> Result<String, AllocError>
    ensures { IfOk result (λ line. string_bytes line ≡ prefix_line prefix.now) }
{
    let prefix = Escaped(prefix);
    format!(in alloc; "propedit: no key begins with '{prefix}'; {IS_A_FILE}\n")
}

/// Returns the line of a note, if the source bears it out. Fails if the source is refused, or memory runs out.
///
/// ```text
/// // If the note is on the PREFIX `server.*`, which may mean `server.`:
/// let line = told(alloc, b"server.port = 80\n", Encoding::UTF_8, &note)?; // its line
/// ```
pub fn told(
    alloc: Global,
    source: &[u8],
    encoding: Encoding,
    note: &Option<Note>,
) -> Result<Option<String>, Failure>
    ensures { TellsNote (encoding_of encoding) source.now note.now result }
{
    let Some(note) = note else {
        return Ok(None);
    };
    if bears_out(alloc, source, encoding, &note.doubt)? {
        Ok(Some(note.line.clone()?))
    } else {
        Ok(None)
    }
}

// Returns whether a source bears out that an argument may mean something else: no pair has the KEY, and pairs have all
// keys that may be meant; or no key begins with the PREFIX, and one does with what it may mean. A VALUE tells by itself.
fn bears_out(
    alloc: Global,
    source: &[u8],
    encoding: Encoding,
    doubt: &Doubt,
) -> Result<bool, Failure>
    ensures { TellsDoubt (encoding_of encoding) source.now doubt.now result }
{
    match doubt {
        Doubt::Key(key, meant) => {
            let key = slice::from_ref(key);
            Ok(
                first_absent(alloc, source, encoding, key)?.is_some()
                    && first_absent(alloc, source, encoding, meant)?.is_none(),
            )
        }
        Doubt::Prefix(prefix, front) => {
            Ok(
                !has_prefix(alloc, source, encoding, prefix.as_str())?
                    && has_prefix(alloc, source, encoding, front.as_str())?,
            )
        }
        Doubt::Value(_) => Ok(true),
    }
}

// Returns whether a key of a source begins with a prefix.
fn has_prefix(
    alloc: Global,
    source: &[u8],
    encoding: Encoding,
    prefix: &str,
) -> Result<bool, Failure>
    ensures { FindsPrefix (encoding_of encoding) source.now (chars prefix.now) result }
{
    let answer = list(alloc, source, encoding, prefix, Terminator::LineFeed)?;
    Ok(!answer.text.is_empty())
}
