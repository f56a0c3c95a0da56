// The errors of reading, writing and editing.

ghost use Rattle.std.specs.Prelude.{◌≡◌, Some, None};
ghost use Rattle.std.specs.Str.{chars};
ghost use Rattle.std.specs.String.{string_bytes};
ghost use Rattle.properties_items.specs.Errors.{kind_of, line_of_error, cause_of, IsError, IsBareError, IsLineError, IsStreamError, RefusesText, IsReason, message_line, IsAt};
ghost use Rattle.properties_items.specs.DisplayTexts.{at_display, description, cause_display, error_display, reason_display};
ghost use Rattle.properties_items.specs.declared.error.ErrorKind.TheVariants.{Memory};

pub mod make;

use properties_lines::error::LineError;
use std::alloc::{AllocError, AllocFailed};
use std::error::Error;
use std::{fmt, io};

/// The kind of an error.
///
/// It prints as a description in words, without a line number.
///
/// ```text
/// for escape in &malformed_escapes(alloc, source, Encoding::UTF_8)? {
///     println!(rt; "{}: {}", escape.line_number, escape.kind)?;
/// }
/// ```
#[derive(Clone, Copy, Debug, PartialEq, Eq, PartialOrd, Ord, Hash)]
pub enum ErrorKind {
    /// A read, a write or a flush failed.
    Io,
    /// Fewer than four characters follow a `\u`.
    NotEnoughDigits,
    /// One of the four characters after a `\u` isn't a hexadecimal digit.
    NotHex,
    /// An escape encodes a surrogate that has no partner.
    InvalidCharacter,
    /// The text isn't a valid comment prefix.
    BadCommentPrefix,
    /// The text isn't a valid separator of keys and values.
    BadKvSeparator,
    /// The key is empty and the separator consists only of blanks, so the value would be read as the key.
    EmptyKey,
    /// A line has no number, because `usize::MAX` lines come before it.
    TooManyLines,
    /// An earlier write failed, so the sink may end in a partial line.
    Failed,
    /// Memory ran out.
    Memory,
    /// Sources in this encoding can't be edited.
    Unsupported,
}

/// The cause of an error.
///
/// If a stream failed, it prints as the stream's own error, such as `entity not found`. Use [`PropertiesError::reason`]
/// for messages.
///
/// ```text
/// if let Cause::Io(fault) = error.cause() {
///     assert_eq!(rt; fault.kind(), io::ErrorKind::NotFound);
/// }
/// ```
#[derive(Debug, Drop)]
pub enum Cause {
    /// There is no further cause: the kind says everything.
    None,
    /// The error of the stream that failed.
    Io(io::Error),
    /// A character isn't a hexadecimal digit.
    NotHex,
}

/// Why a call failed, without a line number: the part of a message that follows the file name and the line number.
///
/// If a stream failed with an error, it prints as the stream's own error. Otherwise it prints as the kind in words,
/// followed by the refused text if there is one.
#[derive(Clone, Copy, Debug)]
pub enum Reason<'a> {
    /// The error of the stream that failed.
    Io(&'a io::Error),
    /// The kind of the error, and the text that was refused.
    Refused(ErrorKind, &'a str),
    /// The kind says everything.
    Kind(ErrorKind),
}

/// A message about a file or a stream: its name, the line if one is known, and the reason of an error.
///
/// [`PropertiesError::at`] makes it. It prints as `NAME:LINE: REASON`, or as `NAME: REASON` without a line.
#[derive(Clone, Copy, Debug)]
pub struct At<'a> {
    name: &'a str,
    line: Option<usize>,
    reason: Reason<'a>,
}

impl At<'_> {
    /// Returns the number of the line that the message names, if it names one.
    pub fn line_number(&self) -> Option<usize>
        ensures { result ≡ self.now.line }
    {
        self.line
    }
}

/// Why a call failed, and in which line.
///
/// It prints as the kind in words, the refused text if there is one, and the line number, as in
/// `I/O error (line_number = 3)`. A missing line number prints as `unknown`.
#[derive(Debug, Drop)]
pub struct PropertiesError {
    kind: ErrorKind,
    line_number: Option<usize>,
    cause: Cause,
    refused: Option<String>,
}

impl PropertiesError {
    /// Returns the number of the line that the error belongs to, if there is one. Lines are numbered from 1.
    pub fn line_number(&self) -> Option<usize>
        ensures { result ≡ line_of_error self.now }
    {
        self.line_number
    }

    /// Returns the kind of the error.
    pub fn kind(&self) -> ErrorKind
        ensures { result ≡ kind_of self.now }
    {
        self.kind
    }

    /// Returns the cause of the error.
    pub fn cause(&self) -> &Cause
        ensures { result.now ≡ cause_of self.now }
    {
        &self.cause
    }

    /// Converts the error into its cause, for example to pass on a stream's own error.
    pub fn into_cause(self) -> Cause
        ensures { result ≡ cause_of self }
    {
        self.cause
    }

    /// Returns why the call failed, without a line number, for messages that name the line themselves.
    /// [`at`](PropertiesError::at) names it.
    ///
    /// ```text
    /// println!(rt; "line {}: {}", number, error.reason())?;
    /// // As `line 3: Malformed \uxxxx encoding: not hex.`, or `line 3: entity not found`.
    /// ```
    pub fn reason(&self) -> Reason<'_>
        ensures { IsReason self.now result }
    {
        match &self.cause {
            Cause::Io(error) => Reason::Io(error),
            Cause::None | Cause::NotHex => match &self.refused {
                Some(text) => Reason::Refused(self.kind, text.as_str()),
                None => Reason::Kind(self.kind),
            },
        }
    }

    /// Returns a value that prints as a message about the file or the stream with this name: `NAME:LINE: REASON`, or
    /// `NAME: REASON` if no line is known.
    ///
    /// A stream that fails in its first line counts as having no line: it may be a folder, or not open at all.
    ///
    /// ```text
    /// if let Err(error) = read_sorted(alloc, &mut input, Encoding::UTF_8) {
    ///     println!(rt; "{}", error.at("my.properties"))?;
    ///     // As `my.properties:3: Malformed \uxxxx encoding: not hex.`, or `my.properties: Is a directory`.
    /// }
    /// ```
    pub fn at<'a>(&'a self, name: &'a str) -> At<'a>
        ensures { IsAt self.now name.now result }
    {
        At {
            name,
            line: self.line_in_message(),
            reason: self.reason(),
        }
    }

    fn line_in_message(&self) -> Option<usize>
        ensures { result ≡ message_line self.now }
    {
        match self.line_number {
            Some(1) if self.kind == ErrorKind::Io => None,
            line_number => line_number,
        }
    }

    fn caused(kind: ErrorKind, line_number: Option<usize>, cause: Cause) -> PropertiesError
        ensures { IsError kind line_number cause result }
    {
        PropertiesError {
            line_number,
            cause,
            ..PropertiesError::bare(kind)
        }
    }

    fn refused(kind: ErrorKind, text: String) -> PropertiesError
        ensures { RefusesText kind (chars (string_bytes text)) result }
    {
        PropertiesError {
            refused: Some(text),
            ..PropertiesError::bare(kind)
        }
    }

    fn bare(kind: ErrorKind) -> PropertiesError
        ensures { IsBareError kind result }
    {
        PropertiesError {
            kind,
            line_number: None,
            cause: Cause::None,
            refused: None,
        }
    }
}

impl From<io::Error> for PropertiesError {
    ghost from_gives = { λ error e. IsStreamError None error e };

    fn from(error: io::Error) -> PropertiesError {
        PropertiesError::caused(ErrorKind::Io, None, Cause::Io(error))
    }
}

impl From<LineError> for PropertiesError {
    ghost from_gives = { IsLineError };

    fn from(error: LineError) -> PropertiesError {
        match error {
            LineError::Io(line_number, error) => {
                PropertiesError::caused(ErrorKind::Io, Some(line_number), Cause::Io(error))
            }
            LineError::TooManyLines => PropertiesError::bare(ErrorKind::TooManyLines),
            LineError::Memory => PropertiesError::bare(ErrorKind::Memory),
        }
    }
}

impl From<AllocError> for PropertiesError {
    ghost from_gives = { λ _ e. IsBareError Memory e };

    fn from(_: AllocError) -> PropertiesError {
        PropertiesError::bare(ErrorKind::Memory)
    }
}

impl<T: Drop> From<AllocFailed<T>> for PropertiesError {
    ghost from_gives = { λ _ e. IsBareError Memory e };

    fn from(_: AllocFailed<T>) -> PropertiesError {
        PropertiesError::bare(ErrorKind::Memory)
    }
}

impl fmt::Display for PropertiesError {
    ghost output = { error_display };

    fn fmt<W: fmt::Write>(&self, f: &mut fmt::Formatter<W>) -> fmt::Result {
        write!(f, "{}", self.kind.description())?;
        if let Some(text) = &self.refused {
            write!(f, ": {text:?}")?;
        }
        match self.line_number {
            Some(number) => write!(f, " (line_number = {number})"),
            None => write!(f, " (line_number = unknown)"),
        }
    }
}

impl Error for PropertiesError {}

impl fmt::Display for ErrorKind {
    ghost output = { λ kind. Some (description kind) };

    fn fmt<W: fmt::Write>(&self, f: &mut fmt::Formatter<W>) -> fmt::Result {
        write!(f, "{}", self.description())
    }
}

impl fmt::Display for Cause {
    ghost output = { cause_display };

    fn fmt<W: fmt::Write>(&self, f: &mut fmt::Formatter<W>) -> fmt::Result {
        match self {
            Cause::None => write!(f, "no other error"),
            Cause::Io(error) => write!(f, "{error}"),
            Cause::NotHex => write!(f, "not a hexadecimal digit"),
        }
    }
}

impl fmt::Display for Reason<'_> {
    ghost output = { reason_display };

    fn fmt<W: fmt::Write>(&self, f: &mut fmt::Formatter<W>) -> fmt::Result {
        match self {
            Reason::Io(error) => write!(f, "{error}"),
            Reason::Refused(kind, text) => write!(f, "{kind}: {text:?}"),
            Reason::Kind(kind) => write!(f, "{kind}"),
        }
    }
}

impl fmt::Display for At<'_> {
    ghost output = { at_display };

    fn fmt<W: fmt::Write>(&self, f: &mut fmt::Formatter<W>) -> fmt::Result {
        match self.line {
            Some(number) => write!(f, "{}:{number}: {}", self.name, self.reason),
            None => write!(f, "{}: {}", self.name, self.reason),
        }
    }
}

impl ErrorKind {
    fn description(self) -> &'static str
        ensures { result.now ≡ description self }
    {
        match self {
            ErrorKind::Io => "I/O error",
            ErrorKind::NotEnoughDigits => "Malformed \\uxxxx encoding: not enough digits.",
            ErrorKind::NotHex => "Malformed \\uxxxx encoding: not hex.",
            ErrorKind::InvalidCharacter => "Malformed \\uxxxx encoding: invalid character.",
            ErrorKind::BadCommentPrefix => "Bad comment prefix",
            ErrorKind::BadKvSeparator => "Bad key/value separator",
            ErrorKind::EmptyKey => "Empty key with a blank key/value separator.",
            ErrorKind::TooManyLines => "Too many lines.",
            ErrorKind::Failed => "The writer has failed.",
            ErrorKind::Memory => "Out of memory.",
            ErrorKind::Unsupported => "Encoding can't be edited.",
        }
    }
}
