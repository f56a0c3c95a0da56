//! Makes errors, for the reader, the writer and the editor.
//!
//! `java_properties` doesn't re-export this module, so its callers don't see these functions.

ghost use Rattle.std.specs.Prelude.{◌≡◌, Some, None};
ghost use Rattle.std.specs.Str.{chars};
ghost use Rattle.std.specs.String.{string_bytes};
ghost use Rattle.properties_text.specs.Escaping.{malformed_in};
ghost use Rattle.properties_items.specs.Errors.{cause_of, cause_by, cause_of_write, IsError, IsBareError, IsMalformed, IsUnresolvedError, RefusesText, malformed_kind};
ghost use Rattle.properties_items.specs.declared.error.ErrorKind.TheVariants.{Io, BadCommentPrefix, BadKvSeparator};

use crate::error::{Cause, ErrorKind, PropertiesError};
use properties_text::escape::{Malformed, UnescapeError};
use std::io;

/// A write failed, in the line with this number if one is given. `error` is the sink's error, or `None` if the sink
/// accepted no byte.
pub fn write_fault(line_number: Option<usize>, error: Option<io::Error>) -> PropertiesError
    ensures { IsError Io line_number (cause_of_write error) result }
{
    let cause = match error {
        Some(error) => Cause::Io(error),
        None => Cause::None,
    };
    PropertiesError::caused(ErrorKind::Io, line_number, cause)
}

/// Replaces the cause by this stream's error if the cause is a stream's error. Otherwise returns the error
/// unchanged.
pub fn caused_by(failure: PropertiesError, error: io::Error) -> PropertiesError
    ensures { result ≡ record failure { cause = cause_by error (cause_of failure) } }
{
    match failure.cause {
        Cause::Io(_) => PropertiesError {
            cause: Cause::Io(error),
            ..failure
        },
        _ => failure,
    }
}

/// Resolving the escapes in the line with this number failed: an escape is malformed, or memory ran out.
pub fn unresolved(line_number: usize, error: UnescapeError) -> PropertiesError
    ensures { IsUnresolvedError error line_number result }
{
    match error {
        UnescapeError::Malformed(malformed) => { malformed_escape(line_number, malformed) }
        UnescapeError::Memory => PropertiesError::bare(ErrorKind::Memory),
    }
}

// An escape in the line with this number is malformed in this way.
fn malformed_escape(line_number: usize, malformed: Malformed) -> PropertiesError
    ensures { IsMalformed (malformed_in malformed) line_number result }
{
    let cause = match malformed {
        Malformed::NotHex => Cause::NotHex,
        Malformed::NotEnoughDigits | Malformed::InvalidCharacter => Cause::None,
    };
    PropertiesError::caused(malformed_kind(malformed), Some(line_number), cause)
}

/// An error of this kind, without a line, a cause or a text.
// Kept out of line so that pairs that are copied take no longer.
#[inline(never)]
pub fn bare(kind: ErrorKind) -> PropertiesError
    ensures { IsBareError kind result }
{
    PropertiesError::bare(kind)
}

/// The text isn't a valid comment prefix.
pub fn bad_comment_prefix(prefix: String) -> PropertiesError
    ensures { RefusesText BadCommentPrefix (chars (string_bytes prefix)) result }
{
    PropertiesError::refused(ErrorKind::BadCommentPrefix, prefix)
}

/// The text isn't a valid separator of keys and values.
pub fn bad_kv_separator(separator: String) -> PropertiesError
    ensures { RefusesText BadKvSeparator (chars (string_bytes separator)) result }
{
    PropertiesError::refused(ErrorKind::BadKvSeparator, separator)
}

/// Returns the kind of an escape that is malformed in this way.
pub fn malformed_kind(malformed: Malformed) -> ErrorKind
    ensures { result ≡ malformed_kind (malformed_in malformed) }
{
    match malformed {
        Malformed::NotEnoughDigits => ErrorKind::NotEnoughDigits,
        Malformed::NotHex => ErrorKind::NotHex,
        Malformed::InvalidCharacter => ErrorKind::InvalidCharacter,
    }
}
