// A source with comments of keys set.

ghost use Rattle.properties_text.specs.Encoding.{encoding_of};
ghost use Rattle.properties_changing.specs.Commenting.{SetsComments};

use crate::request::NewComments;
use java_properties::{Comments, Encoding, RenamesError, SourceOptions};
use properties_tables::error::Failure;
use properties_tables::sound::{refuse_bytes, refuse_unsound};
use std::alloc::Global;

/// Returns the bytes of a source with comments of keys set: the comment lines directly above the last pair with each key.
///
/// Edits of the source would be refused first for its bytes, a malformed escape in a pair or UTF-16, and so is this.
/// Then it is refused for the first comment whose key no pair has. A comment that has these lines already stays as it is.
///
/// ```text
/// let list = vec![in alloc; NewComment { key: port, text: front_door }]?;
/// let comments = NewComments { list, ascii_only: false, latin_1: false };
/// let bytes = set_comments(alloc, b"port : 1\n", Encoding::UTF_8, &comments)?;
/// // `# the front door`, a line feed, `port : 1` and a line feed.
/// ```
pub(crate) fn set_comments(
    alloc: Global,
    source: &[u8],
    encoding: Encoding,
    comments: &NewComments,
) -> Result<Vec<u8>, Failure>
    ensures { SetsComments (encoding_of encoding) source.now comments.now result }
{
    refuse_bytes(source, encoding)?;
    let options = SourceOptions {
        encoding,
        ascii_only: comments.ascii_only,
        latin_1: comments.latin_1,
        comments: Comments::PassedOver,
    };
    match java_properties::set_comments(alloc, source, options, &comments.list) {
        Ok(bytes) => Ok(bytes),
        Err(RenamesError::NoKey(index)) => {
            let key = comments.list[index].key.as_str();
            Err(Failure::Absent(String::from_str(alloc, key)?))
        }
        Err(RenamesError::KeyTaken(_, _)) => unreachable!(),
        // A malformed escape comes before the encoding.
        Err(RenamesError::Source(error)) => {
            refuse_unsound(alloc, source, encoding)?;
            Err(Failure::from(error))
        }
    }
}
