// Encodings, targets, flags and texts that come from C.

ghost use Rattle.std.specs.Prelude.{◌≡◌, MatchOption};
ghost use Rattle.std.specs.Option.{option_map};
ghost use Rattle.std.specs.Str.{IsUtf8};
ghost use Rattle.properties_text.specs.Encoding.{encoding_of};
ghost use Rattle.properties_c.specs.Inputs.{encoding_at, encoding_number, target_at, flags_at, options_for, are_flags as all_known, are_among as all_taken};

use java_properties::{Comments, Encoding, Repertoire, SourceOptions};

/// Returns the encoding with this number, if there is one.
pub fn encoding_numbered(number: u32) -> Option<Encoding>
    ensures { option_map encoding_of result ≡ encoding_at number }
{
    match number {
        0 => Some(Encoding::WINDOWS_1252),
        1 => Some(Encoding::UTF_8),
        2 => Some(Encoding::UTF_16LE),
        3 => Some(Encoding::UTF_16BE),
        _ => None,
    }
}

/// Returns the target of a conversion with this number, if there is one.
pub fn target_numbered(number: u32) -> Option<Repertoire>
    ensures { result ≡ target_at number }
{
    match number {
        16 => Some(Repertoire::Windows1252),
        17 => Some(Repertoire::Utf8),
        18 => Some(Repertoire::Ascii),
        19 => Some(Repertoire::Latin1),
        _ => None,
    }
}

/// Returns the number of an encoding.
pub fn number_of(encoding: Encoding) -> u32
    ensures { result ≡ encoding_number (encoding_of encoding) }
{
    match encoding {
        Encoding::WINDOWS_1252 => 0,
        Encoding::UTF_8 => 1,
        Encoding::UTF_16LE => 2,
        Encoding::UTF_16BE => 3,
    }
}

/// What a call is asked for, or what it takes.
#[derive(Clone, Copy)]
pub struct Flags {
    /// Every character past U+007F is written as an escape.
    pub ascii_only: bool,
    /// Values are written as people write them.
    pub readable: bool,
    /// Comments are read, and not passed over.
    pub read_comments: bool,
    /// Lines end in CR LF.
    pub crlf: bool,
    /// Lines end in CR.
    pub cr: bool,
    /// A source that isn't text is refused.
    pub strict: bool,
    /// Lines were written before.
    pub goes_on: bool,
    /// Each character that ISO 8859-1 reads otherwise is written as an escape.
    pub latin_1: bool,
}

// What a call takes that takes no flags.
const NONE: Flags = Flags {
    ascii_only: false,
    readable: false,
    read_comments: false,
    crlf: false,
    cr: false,
    strict: false,
    goes_on: false,
    latin_1: false,
};

/// What an edit takes.
pub const FOR_EDITS: Flags = Flags {
    ascii_only: true,
    read_comments: true,
    strict: true,
    latin_1: true,
    ..NONE
};

/// What a look-up takes, and a call that removes a key.
pub const FOR_KEYS: Flags = Flags {
    read_comments: true,
    strict: true,
    ..NONE
};

/// What a call takes that tells a comment.
pub const FOR_COMMENTS: Flags = Flags {
    strict: true,
    ..NONE
};

/// What a conversion takes.
pub const FOR_CONVERSIONS: Flags = Flags {
    readable: true,
    strict: true,
    ..NONE
};

/// What the call takes that writes lines.
pub const FOR_LINES: Flags = Flags {
    ascii_only: true,
    readable: true,
    crlf: true,
    cr: true,
    goes_on: true,
    ..NONE
};

/// Returns what the flags with this number ask for, if the call takes each of them.
pub fn flags_numbered(number: u32, taken: Flags) -> Option<Flags>
    ensures { result ≡ flags_at taken number }
{
    let flags = Flags {
        ascii_only: number % 2 == 1,
        readable: number / 2 % 2 == 1,
        read_comments: number / 4 % 2 == 1,
        crlf: number / 8 % 2 == 1,
        cr: number / 16 % 2 == 1,
        strict: number / 32 % 2 == 1,
        goes_on: number / 4096 % 2 == 1,
        latin_1: number / 8192 == 1,
    };
    if are_flags(number) && are_among(flags, taken) {
        Some(flags)
    } else {
        None
    }
}

// Returns whether the number has no other flags, and one line ending at most.
fn are_flags(number: u32) -> bool
    ensures { result ≡ all_known number }
{
    number < 16384 && number / 64 % 64 == 0 && number % 32 < 24
}

fn are_among(flags: Flags, taken: Flags) -> bool
    ensures { result ≡ all_taken flags taken }
{
    (taken.ascii_only || !flags.ascii_only)
        && (taken.readable || !flags.readable)
        && (taken.read_comments || !flags.read_comments)
        && (taken.crlf || !flags.crlf)
        && (taken.cr || !flags.cr)
        && (taken.strict || !flags.strict)
        && (taken.goes_on || !flags.goes_on)
        && (taken.latin_1 || !flags.latin_1)
}

/// Returns what the library is asked for by these flags.
pub fn options_for(encoding: Encoding, flags: Flags) -> SourceOptions
    ensures { result ≡ options_for encoding flags }
{
    let comments = if flags.read_comments {
        Comments::Read
    } else {
        Comments::PassedOver
    };
    SourceOptions {
        encoding,
        ascii_only: flags.ascii_only,
        latin_1: flags.latin_1,
        comments,
    }
}

/// Returns the text with these bytes, if they are UTF-8.
pub fn text_of(bytes: &[u8]) -> Option<&str>
    ensures { MatchOption result (¬ IsUtf8 bytes.now) (λ text. (text.now ≡ bytes.now) × IsUtf8 bytes.now) }
{
    match std::str::from_utf8(bytes) {
        Ok(text) => Some(text),
        Err(_) => None,
    }
}
