// Converts sources to another encoding.

ghost use Rattle.std.specs.Prelude.{IfErr, IfOk};
ghost use Rattle.properties_format.specs.Converting.{IsConverted};
ghost use Rattle.properties_text.specs.Converted.{is_readable};
ghost use Rattle.properties_text.specs.Encoding.{encoding_of};
ghost use Rattle.properties_text.specs.Printing.{in_format};
ghost use Rattle.properties_items.specs.Errors.{IsBareError};
ghost use Rattle.properties_items.specs.declared.error.ErrorKind.TheVariants.{Memory};

use properties_items::error::PropertiesError;
use properties_text::convert::{self, Spelling};
use properties_text::encoding::Encoding;
use properties_text::print::Repertoire;
use std::alloc::Global;

/// Converts a source to another encoding, or makes its escapes readable. Everything else stays: comments, blank lines,
/// layout, line endings, and the meaning of each key, value and comment.
///
/// A character that the target doesn't have becomes a `\u` escape, unless it is one already. Characters that the target has
/// keep their spelling, or become themselves with [`Spelling::Readable`]. Escapes of ASCII characters always stay: an
/// equals sign in place of `\u003d` might end a key.
///
/// A byte order mark overrides the encoding, and the result has none. If the result would begin like one, its first
/// character is escaped. Bytes that can't be decoded become U+FFFD. Malformed escapes are no error: the result has them
/// in the same lines. An error means that memory ran out.
///
/// ```text
/// let source = b"# caf\xe9\nprice=3 \\u20ac\n";
/// let kept = convert(alloc, source, Encoding::WINDOWS_1252, Repertoire::Ascii, Spelling::Kept)?;
/// // It is `# caf\u00e9`, a line feed, `price=3 \u20ac` and a line feed.
/// let readable = convert(alloc, source, Encoding::WINDOWS_1252, Repertoire::Utf8, Spelling::Readable)?;
/// // It is `# café`, a line feed, `price=3 €` and a line feed.
/// ```
pub fn convert(
    alloc: Global,
    source: &[u8],
    encoding: Encoding,
    target: Repertoire,
    spelling: Spelling,
) -> Result<Vec<u8>, PropertiesError>
    ensures converted { IfOk result (λ bytes.
        IsConverted (encoding_of encoding) (in_format target) (is_readable spelling) source.now
        bytes.items) }
    ensures refused { IfErr result (λ error. IsBareError Memory error) }
{
    let bytes = convert::convert(alloc, source, encoding, target, spelling)?;
    Ok(bytes)
}
