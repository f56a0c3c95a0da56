// The export that says a status in words.

ghost use Rattle.std.specs.Prelude.{◌≡◌};
ghost use Rattle.properties_c.specs.Crossing.{crossing, GivesTextAt};
ghost use Rattle.properties_c.specs.Statuses.{status_text, IsStatusAt};

use crate::out::write_bytes;
use crate::status::Status;

/// Gives the text of the status with this number.
#[unsafe(no_mangle)]
pub extern "C" fn todrenval_status_text(
    status: i32,
    out: &mut [u8],
    length: &mut usize,
    line: &mut usize,
) -> i32
    ensures { let x = crossing out.old result length.new line.new out.new in
        GivesTextAt status x }
{
    let text = match status_numbered(status) {
        Some(status) => text_of(status),
        None => "Unknown status.",
    };
    write_bytes(text.as_bytes(), out, length, line)
}

fn status_numbered(number: i32) -> Option<Status>
    ensures { IsStatusAt number result }
{
    match number {
        0 => Some(Status::Done),
        1 => Some(Status::NoRoom),
        2 => Some(Status::NoKey),
        3 => Some(Status::NoMemory),
        4 => Some(Status::UnknownEncoding),
        5 => Some(Status::NotUtf8),
        6 => Some(Status::BadList),
        7 => Some(Status::NotEnoughDigits),
        8 => Some(Status::NotHex),
        9 => Some(Status::InvalidCharacter),
        10 => Some(Status::TooManyLines),
        11 => Some(Status::Unsupported),
        12 => Some(Status::BadPrefix),
        13 => Some(Status::BadSeparator),
        14 => Some(Status::EmptyKey),
        15 => Some(Status::UnknownFlags),
        16 => Some(Status::NotText),
        17 => Some(Status::KeyTaken),
        _ => None,
    }
}

fn text_of(status: Status) -> &'static str
    ensures { result.now ≡ status_text status }
{
    match status {
        Status::Done => "No error.",
        Status::NoRoom => "The room is too small.",
        Status::NoKey => "No pair has the key.",
        Status::NoMemory => "Out of memory.",
        Status::UnknownEncoding => "Unknown encoding.",
        Status::NotUtf8 => "A text isn't UTF-8.",
        Status::BadList => "A packed list isn't well formed.",
        Status::NotEnoughDigits => "Malformed \\uxxxx encoding: not enough digits.",
        Status::NotHex => "Malformed \\uxxxx encoding: not hex.",
        Status::InvalidCharacter => "Malformed \\uxxxx encoding: invalid character.",
        Status::TooManyLines => "Too many lines.",
        Status::Unsupported => "The call doesn't take this encoding.",
        Status::BadPrefix => "Bad comment prefix.",
        Status::BadSeparator => "Bad key/value separator.",
        Status::EmptyKey => "Empty key with a blank key/value separator.",
        Status::UnknownFlags => "Unknown flags.",
        Status::NotText => "The source isn't text in its encoding.",
        Status::KeyTaken => "A pair has the new key already.",
    }
}
