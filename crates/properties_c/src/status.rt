// What a call returns to C.

ghost use Rattle.std.specs.Prelude.{◌≡◌};
ghost use Rattle.properties_c.specs.Statuses.{status_number, status_of_kind};

use java_properties::ErrorKind;

/// The status of a call, which crosses as its number.
#[derive(Clone, Copy)]
pub enum Status {
    /// The call succeeded.
    Done,
    /// The result needs more room.
    NoRoom,
    /// No pair has the key.
    NoKey,
    /// Memory ran out.
    NoMemory,
    /// No encoding or target has the number.
    UnknownEncoding,
    /// A key, a value, a prefix, a separator or a text of a list isn't UTF-8.
    NotUtf8,
    /// A packed list isn't well formed.
    BadList,
    /// Fewer than four characters follow a `\u`.
    NotEnoughDigits,
    /// One of the four characters after a `\u` isn't a hexadecimal digit.
    NotHex,
    /// An escape encodes a surrogate that has no partner.
    InvalidCharacter,
    /// A line has no number.
    TooManyLines,
    /// Sources in this encoding can't be edited, and give no spans and no comments of keys.
    Unsupported,
    /// Comments can't begin so.
    BadPrefix,
    /// Keys and values can't be separated so.
    BadSeparator,
    /// A pair has an empty key, and its value would be read as the key.
    EmptyKey,
    /// The call doesn't take one of the flags, or not all of them at once.
    UnknownFlags,
    /// The source isn't text in its encoding.
    NotText,
    /// A pair has the new key already.
    KeyTaken,
}

/// Returns the number of a status.
pub fn number_of(status: Status) -> i32
    ensures { result ≡ status_number status }
{
    match status {
        Status::Done => 0,
        Status::NoRoom => 1,
        Status::NoKey => 2,
        Status::NoMemory => 3,
        Status::UnknownEncoding => 4,
        Status::NotUtf8 => 5,
        Status::BadList => 6,
        Status::NotEnoughDigits => 7,
        Status::NotHex => 8,
        Status::InvalidCharacter => 9,
        Status::TooManyLines => 10,
        Status::Unsupported => 11,
        Status::BadPrefix => 12,
        Status::BadSeparator => 13,
        Status::EmptyKey => 14,
        Status::UnknownFlags => 15,
        Status::NotText => 16,
        Status::KeyTaken => 17,
    }
}

/// Returns the status of an error. Sources and sinks are in memory, so a stream fails only if memory runs out.
pub fn status_of(kind: ErrorKind) -> Status
    ensures { result ≡ status_of_kind kind }
{
    match kind {
        ErrorKind::NotEnoughDigits => Status::NotEnoughDigits,
        ErrorKind::NotHex => Status::NotHex,
        ErrorKind::InvalidCharacter => Status::InvalidCharacter,
        ErrorKind::TooManyLines => Status::TooManyLines,
        ErrorKind::Unsupported => Status::Unsupported,
        ErrorKind::BadCommentPrefix => Status::BadPrefix,
        ErrorKind::BadKvSeparator => Status::BadSeparator,
        ErrorKind::EmptyKey => Status::EmptyKey,
        _ => Status::NoMemory,
    }
}
