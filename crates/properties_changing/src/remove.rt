// A source without keys and their comments.

ghost use Rattle.std.specs.Prelude.{map};
ghost use Rattle.java_properties.specs.Maps.{characters};
ghost use Rattle.properties_text.specs.Encoding.{encoding_of};
ghost use Rattle.properties_changing.specs.Removing.{Leaves, Removes};
ghost use Rattle.properties_tables.specs.Sources.{HasSoundBytes};

use crate::change::refuse_absent;
use crate::request::{AbsentKeys, Removal};
use java_properties::{Comments, Encoding, SourceOptions, remove_with_comments};
use properties_tables::error::Failure;
use properties_tables::sound::{refuse_bytes, refuse_unsound};
use std::alloc::Global;

/// Returns the bytes of a source without the pairs that have one of the keys, and without the comment lines directly
/// above each of them.
///
/// Edits of the source would be refused first for its bytes, a malformed escape in a pair or UTF-16, and so is this.
/// Then, if that is asked for, it is refused for the first key that no pair has. Otherwise such a key changes nothing.
///
/// ```text
/// let keys = vec![in alloc; port]?;
/// let removal = Removal { keys, absent: AbsentKeys::Added };
/// let bytes = remove(alloc, b"# the door\nport : 1\nhost : a\n", Encoding::UTF_8, &removal)?;
/// // `host : a` and a line feed.
/// ```
pub(crate) fn remove(
    alloc: Global,
    source: &[u8],
    encoding: Encoding,
    removal: &Removal,
) -> Result<Vec<u8>, Failure>
    ensures { Removes (encoding_of encoding) source.now removal.now result }
{
    refuse_bytes(source, encoding)?;
    let bytes = without_pairs(alloc, source, encoding, &removal.keys)?;
    if let AbsentKeys::Refused = removal.absent {
        refuse_absent(alloc, source, encoding, &removal.keys)?;
    }
    Ok(bytes)
}

// Returns the bytes of a source with sound bytes without the pairs that have these keys, and without their comment lines.
fn without_pairs(
    alloc: Global,
    source: &[u8],
    encoding: Encoding,
    keys: &[String],
) -> Result<Vec<u8>, Failure>
    requires { HasSoundBytes (encoding_of encoding) source.now }
    ensures { Leaves (encoding_of encoding) source.now (map characters keys.now) result }
{
    let options = SourceOptions {
        encoding,
        ascii_only: false,
        latin_1: false,
        comments: Comments::PassedOver,
    };
    match remove_with_comments(alloc, source, options, keys) {
        Ok(bytes) => Ok(bytes),
        // A malformed escape comes before the encoding.
        Err(error) => {
            refuse_unsound(alloc, source, encoding)?;
            Err(Failure::from(error))
        }
    }
}
