// Why `propedit` fails, and what it prints then.

ghost use Rattle.std.specs.Prelude.{◌≡◌, IfOk, string_bytes};
ghost use Rattle.counted_io.specs.Streams.{IsSameSink};
ghost use Rattle.java_properties.specs.DisplayTexts.{description};
ghost use Rattle.properties_tables.specs.Failures.{absent_words, failure_status, flaw_words, is_broken, is_closed_pipe, failure_line, failure_place, taken_words, IsInputReason, IsIoFailure, IsMessageLine, IsReasonOf, IsMemoryFailure, PrintsFailure};

use crate::messages::{Escaped, print_line};
use counted_io::CountedWrite;
use java_properties::{Cause, ErrorKind, MalformedEscape, PropertiesError, Reason};
use std::alloc::{AllocError, Global};
use std::fmt::{self, Write};
use std::io;

/// The exit status of wrong arguments and of failures.
pub const FAILED: u8 = 2;

/// What messages name if the result can't be written.
pub const STANDARD_OUTPUT: &str = "standard output";

/// What is printed if there is no memory for a message.
pub const NO_MEMORY: &str = "propedit: Out of memory.\n";

/// The message for U+0000 in a source without a byte order mark.
pub const HOLDS_ZERO: &str = "U+0000; if this is UTF-16, -e utf-16le or -e utf-16be reads it";

/// The message for a line that is not UTF-8, in a source without a byte order mark.
pub const NOT_UTF_8: &str =
    "not UTF-8; if it is in windows-1252 or Latin-1, -e windows-1252 reads it";

/// The message for it in a source with the byte order mark of UTF-8.
pub const NOT_UTF_8_BY_MARK: &str = "not UTF-8, though a byte order mark says so";

/// The message for a line that is not UTF-16.
pub const NOT_UTF_16: &str = "not UTF-16";

/// The message for the byte order mark of UTF-32.
pub const UTF_32_MARK: &str =
    "begins with the byte order mark of UTF-32, which is not read as UTF-32";

const NOT_ENDED: &str =
    "the last text has no zero byte after it; with -z, merge reads what list -v -z prints";

const NO_VALUE: &str = "the last key has no value; with -z, keys and values come by turns";

const TEXT_NOT_UTF_8: &str = "not UTF-8; the texts that merge -z reads are in UTF-8";

const UTF_16: &str = "this command does not support UTF-16; propedit convert utf-8 converts it";

/// Why a command fails.
#[derive(Debug, Drop)]
pub enum Failure {
    /// The source begins with the byte order mark of UTF-32.
    Utf32Mark,
    /// The line of this number has U+0000, though UTF-8 is in force without a byte order mark.
    HoldsZero(usize),
    /// The line of this number is not UTF-8, which is in force without a byte order mark.
    NotUtf8(usize),
    /// The line of this number is not UTF-8, of which the source has the byte order mark.
    NotUtf8ByMark(usize),
    /// The line of this number is not UTF-16, which is in force.
    NotUtf16(usize),
    /// A pair of the source has this malformed escape.
    Malformed(MalformedEscape),
    /// No pair of the source has this key, which was to be renamed, or to be set or removed only if one has it.
    Absent(String),
    /// The pair that begins in the line of this number has this key, which another one was to get.
    KeyTaken(usize, String),
    /// Its bytes aren't texts with zero bytes after them, keys and values by turns.
    Texts(TextFlaw),
    /// The source can't be read or edited, or memory ran out.
    Input(PropertiesError),
    /// The result can't be written.
    Output(PropertiesError),
}

/// What is wrong with bytes that were to be texts, keys and values by turns.
#[derive(Clone, Copy, Debug, PartialEq, Eq)]
pub enum TextFlaw {
    /// They are not UTF-8.
    NotUtf8,
    /// After the last text comes no zero byte.
    NotEnded,
    /// The last key has no value.
    NoValue,
}

impl From<TextFlaw> for Failure {
    ghost use Rattle.properties_tables.specs.declared.error.Failure.TheVariants.{Texts};

    ghost from_gives = { λ flaw failure. failure ≡ Texts flaw };

    fn from(flaw: TextFlaw) -> Failure {
        Failure::Texts(flaw)
    }
}

impl From<PropertiesError> for Failure {
    ghost use Rattle.properties_tables.specs.declared.error.Failure.TheVariants.{Input};

    ghost from_gives = { λ error failure. failure ≡ Input error };

    fn from(error: PropertiesError) -> Failure {
        Failure::Input(error)
    }
}

impl From<io::Error> for Failure {
    ghost from_gives = { IsIoFailure };

    fn from(error: io::Error) -> Failure {
        if error.kind() == io::ErrorKind::OutOfMemory {
            return Failure::from(AllocError);
        }
        Failure::Input(PropertiesError::from(error))
    }
}

impl From<AllocError> for Failure {
    ghost from_gives = { λ _ failure. IsMemoryFailure failure };

    fn from(error: AllocError) -> Failure {
        Failure::Input(PropertiesError::from(error))
    }
}

impl Failure {
    // Returns what a message names: the source of this name, or standard output.
    fn place<'a>(&self, name: &'a str) -> &'a str
        ensures { result.now ≡ failure_place name.now self.now }
    {
        match self {
            Failure::Output(_) => STANDARD_OUTPUT,
            _ => name,
        }
    }

    // Returns the number of its line, if it has one.
    fn line_number(&self) -> Option<usize>
        ensures { result ≡ failure_line self.now }
    {
        match self {
            Failure::Utf32Mark => Some(1),
            Failure::HoldsZero(number)
            | Failure::NotUtf8(number)
            | Failure::NotUtf8ByMark(number)
            | Failure::NotUtf16(number)
            | Failure::KeyTaken(number, _) => Some(*number),
            Failure::Malformed(escape) => Some(escape.line_number),
            Failure::Absent(_) | Failure::Texts(_) => None,
            Failure::Input(error) | Failure::Output(error) => error.at("").line_number(),
        }
    }

    /// Returns the exit status: 1 if no pair has a key, or one has a new key, and otherwise that of failures.
    pub fn status(&self) -> u8
        ensures { result ≡ failure_status self.now }
    {
        match self {
            Failure::Absent(_) | Failure::KeyTaken(_, _) => 1,
            _ => FAILED,
        }
    }

    /// Returns whether the output is a pipe that nobody reads any more.
    pub fn is_closed_pipe(&self) -> bool
        ensures { result ≡ is_closed_pipe self.now }
    {
        match self {
            Failure::Output(error) => is_broken(error.cause()),
            _ => false,
        }
    }

    fn reason(&self, alloc: Global) -> Result<String, AllocError>
        ensures { IfOk result (λ text. IsReasonOf self.now (string_bytes text)) }
    {
        match self {
            Failure::Utf32Mark => String::from_str(alloc, UTF_32_MARK),
            Failure::HoldsZero(_) => String::from_str(alloc, HOLDS_ZERO),
            Failure::NotUtf8(_) => String::from_str(alloc, NOT_UTF_8),
            Failure::NotUtf8ByMark(_) => String::from_str(alloc, NOT_UTF_8_BY_MARK),
            Failure::NotUtf16(_) => String::from_str(alloc, NOT_UTF_16),
            Failure::Malformed(escape) => reason_of_escape(alloc, escape),
            Failure::Absent(key) => reason_of_absence(alloc, key.as_str()),
            Failure::KeyTaken(_, key) => reason_of_taken(alloc, key.as_str()),
            Failure::Texts(flaw) => String::from_str(alloc, reason_of_flaw(*flaw)),
            Failure::Input(error) | Failure::Output(error) => reason_of_error(alloc, error),
        }
    }
}

// Returns whether a stream failed for want of a reader.
fn is_broken(cause: &Cause) -> bool
    ensures { result ≡ is_broken cause.now }
{
    match cause {
        Cause::Io(error) => matches!(error.kind(), io::ErrorKind::BrokenPipe),
        Cause::None | Cause::NotHex => false,
    }
}

/// Prints a failure on `errors` as the line `propedit: NAME:LINE: REASON`, or `propedit: NAME: REASON` if it has no
/// line, and flushes it. If memory runs out for that text, the line says so instead. What can't be printed is dropped.
///
/// The name is that of the source, or `standard output` if the result can't be written. The reason is in words, or the
/// stream's own error.
///
/// ```text
/// let mut errors = Counted::new(Vec::new(alloc));
/// print_failure(alloc, &mut errors, "app.properties", &Failure::NotUtf8(7));
/// // They hold this line:
/// // propedit: app.properties:7: not UTF-8; if it is in windows-1252 or Latin-1, -e windows-1252 reads it
/// ```
pub fn print_failure<E: CountedWrite>(alloc: Global, errors: &mut E, name: &str, failure: &Failure)
    ensures prints { PrintsFailure E.CountedWrite errors.old name.now failure.now errors.new }
    ensures same_sink { IsSameSink E.CountedWrite errors.old errors.new }
{
    match message(alloc, name, failure) {
        Ok(line) => print_line(errors, line.as_str()),
        Err(_) => print_line(errors, NO_MEMORY),
    }
}

// Returns the line to print.
fn message(alloc: Global, name: &str, failure: &Failure) -> Result<String, AllocError>
    ensures { IfOk result (λ line. IsMessageLine name.now failure.now (string_bytes line)) }
{
    let place = failure.place(name);
    let shown = Escaped(place);
    let reason = failure.reason(alloc)?;
    match failure.line_number() {
        Some(number) => format!(in alloc; "propedit: {shown}:{number}: {reason}\n"),
        None => format!(in alloc; "propedit: {shown}: {reason}\n"),
    }
}

fn reason_of_escape(alloc: Global, escape: &MalformedEscape) -> Result<String, AllocError>
    ensures { IfOk result (λ text. string_bytes text ≡ description escape.now.kind) }
{
    let kind = escape.kind;
    format!(in alloc; "{kind}")
}

fn reason_of_absence(alloc: Global, key: &str) -> Result<String, AllocError>
    ensures { IfOk result (λ text. string_bytes text ≡ absent_words key.now) }
{
    let key = Escaped(key);
    format!(in alloc; "no pair has the key '{key}'")
}

fn reason_of_taken(alloc: Global, key: &str) -> Result<String, AllocError>
    ensures { IfOk result (λ text. string_bytes text ≡ taken_words key.now) }
{
    let key = Escaped(key);
    format!(in alloc; "the key '{key}' is there already")
}

fn reason_of_flaw(flaw: TextFlaw) -> &'static str
    ensures { result.now ≡ flaw_words flaw }
{
    match flaw {
        TextFlaw::NotUtf8 => TEXT_NOT_UTF_8,
        TextFlaw::NotEnded => NOT_ENDED,
        TextFlaw::NoValue => NO_VALUE,
    }
}

fn reason_of_error(alloc: Global, error: &PropertiesError) -> Result<String, AllocError>
    ensures { IfOk result (λ text. IsInputReason error.now (string_bytes text)) }
{
    if error.kind() == ErrorKind::Unsupported {
        return String::from_str(alloc, UTF_16);
    }
    match error.reason() {
        Reason::Io(error) => format!(in alloc; "{}", SystemError(error)),
        reason => format!(in alloc; "{reason}"),
    }
}

/// An error of the system. It prints in words, without its number; if memory ran out, as everywhere else.
///
/// ```text
/// let error = io::Error::from_raw_os_error(2);
/// format!(in alloc; "{}", SystemError(&error))?; // `No such file or directory`
/// ```
#[derive(Clone, Copy)]
pub struct SystemError<'a>(pub &'a io::Error);

impl fmt::Display for SystemError<'_> {
    fn fmt<W: fmt::Write>(&self, f: &mut fmt::Formatter<W>) -> fmt::Result {
        if self.0.kind() == io::ErrorKind::OutOfMemory {
            return f.write_str("Out of memory.");
        }
        let mut words = Words {
            f,
            has_some: false,
            are_all: false,
        };
        words.write(self.0)
    }
}

// Prints the words of an error without the number that comes after them.
#[derive(Drop)]
struct Words<'a, W> {
    f: &'a mut fmt::Formatter<W>,
    has_some: bool,
    are_all: bool,
}

impl<W: fmt::Write> fmt::Write for Words<'_, W> {
    fn write_str(&mut self, text: &str) -> fmt::Result {
        self.are_all = self.are_all || self.has_some && text.starts_with(" (os error ");
        if self.are_all {
            return Ok(());
        }
        self.has_some = self.has_some || !text.is_empty();
        self.f.write_str(text)
    }
}
