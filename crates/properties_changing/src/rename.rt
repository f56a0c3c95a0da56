// A source with keys renamed.

ghost use Rattle.properties_text.specs.Encoding.{encoding_of};
ghost use Rattle.properties_changing.specs.Renaming.{Renames};

use crate::request::Renaming;
use java_properties::{Comments, Encoding, RenamesError, SourceOptions, rename_keys};
use properties_tables::error::Failure;
use properties_tables::sound::{refuse_bytes, refuse_unsound};
use std::alloc::Global;

/// Returns the bytes of a source with keys renamed where they stand, each in what the renames before it left.
///
/// Edits of the source would be refused first for its bytes, a malformed escape in a pair or UTF-16, and so is this.
/// Then it is refused for the first rename whose old key no pair has, or whose new one a pair has, which is looked at
/// after the other. A new key that is the old one changes nothing.
///
/// ```text
/// let list = vec![in alloc; Rename { old: host, new: server }]?;
/// let renaming = Renaming { list, ascii_only: false, latin_1: false };
/// let bytes = rename(alloc, b"# the door\nhost : a\n", Encoding::UTF_8, &renaming)?;
/// // `# the door`, a line feed, `server : a` and a line feed.
/// ```
pub(crate) fn rename(
    alloc: Global,
    source: &[u8],
    encoding: Encoding,
    renaming: &Renaming,
) -> Result<Vec<u8>, Failure>
    ensures { Renames (encoding_of encoding) source.now renaming.now result }
{
    refuse_bytes(source, encoding)?;
    let options = SourceOptions {
        encoding,
        ascii_only: renaming.ascii_only,
        latin_1: renaming.latin_1,
        comments: Comments::PassedOver,
    };
    match rename_keys(alloc, source, options, &renaming.list) {
        Ok(bytes) => Ok(bytes),
        Err(RenamesError::NoKey(index)) => {
            let old = renaming.list[index].old.as_str();
            Err(Failure::Absent(String::from_str(alloc, old)?))
        }
        Err(RenamesError::KeyTaken(index, number)) => {
            let new = renaming.list[index].new.as_str();
            Err(Failure::KeyTaken(number, String::from_str(alloc, new)?))
        }
        // A malformed escape comes before the encoding.
        Err(RenamesError::Source(error)) => {
            refuse_unsound(alloc, source, encoding)?;
            Err(Failure::from(error))
        }
    }
}
