// Keys of a document: renamed, removed with their comments, and their comments set.

ghost use Rattle.std.specs.Prelude.{◌≡◌, [], ◌∷◌, IfErr, IfOk};
ghost use Rattle.std.specs.Str.{chars};
ghost use Rattle.properties_items.specs.Errors.{IsBareError};
ghost use Rattle.properties_items.specs.declared.error.ErrorKind.TheVariants as kind;
ghost use Rattle.properties_renaming.specs.Commented.{RemovesWithComments};
ghost use Rattle.properties_renaming.specs.Commenting.{SetsComment};
ghost use Rattle.properties_renaming.specs.Documents.{ChangesDocument};
ghost use Rattle.properties_renaming.specs.Renaming.{RenamesKey};
ghost use Rattle.properties_renaming.specs.declared.renaming.RenameError.TheVariants.{Source};

use crate::commenting::set_comment;
use crate::comments::remove_with_comment;
use crate::renaming::{RenameError, rename_key};
use properties_editing::Document;
use properties_items::error::PropertiesError;
use std::alloc::Global;

/// Renames a key of a document where it stands, as [`rename_key`] does with the document's options.
///
/// The document is opened again on the new bytes. A call copies its bytes, and reads them three times. To rename many
/// keys, call [`rename_keys`](crate::rename_keys) on the bytes.
///
/// Fails as `rename_key` does, and then the document is unchanged.
///
/// ```text
/// let mut document = Document::parse(alloc, b"login.user : me\n", Encoding::UTF_8)?;
/// rename_in(alloc, &mut document, "login.user", "user")?;
/// assert_eq!(rt; document.get("user"), Some("me"));
/// ```
pub fn rename_in(
    alloc: Global,
    document: &mut Document,
    old: &str,
    new: &str,
) -> Result<(), RenameError>
    ensures { ChangesDocument Source (λ options source. RenamesKey options source (chars old.now) (chars new.now))
        document.old result document.new }
{
    let options = document.options();
    let bytes = bytes_of(document)?;
    let renamed = rename_key(alloc, &bytes, options, old, new)?;
    *document = Document::parse_with(alloc, &renamed, options)?;
    Ok(())
}

/// Sets the comment of a key of a document, as [`set_comment`] does with the document's options.
///
/// The document is opened again on the new bytes. A call copies its bytes, and reads them four times.
///
/// Fails as `set_comment` does, and then the document is unchanged. If the document reads comments, a malformed escape in
/// the text is refused too.
///
/// ```text
/// let mut document = Document::parse(alloc, b"port = 80\n", Encoding::UTF_8)?;
/// set_comment_in(alloc, &mut document, "port", "the front door")?;
/// // Its bytes are `# the front door` and `port = 80`, each with a line feed.
/// ```
pub fn set_comment_in(
    alloc: Global,
    document: &mut Document,
    key: &str,
    text: &str,
) -> Result<(), RenameError>
    ensures { ChangesDocument Source (λ options source. SetsComment options source (chars key.now) (chars text.now))
        document.old result document.new }
{
    let options = document.options();
    let bytes = bytes_of(document)?;
    let commented = set_comment(alloc, &bytes, options, key, text)?;
    *document = Document::parse_with(alloc, &commented, options)?;
    Ok(())
}

/// Removes a key of a document with the comment lines directly above each of its pairs, as [`remove_with_comment`] does.
///
/// The document is opened again on the new bytes. A call copies its bytes, and reads them three times. If memory runs
/// out, the document is unchanged.
///
/// ```text
/// let mut document = Document::parse(alloc, b"# the front door\nport = 80\n", Encoding::UTF_8)?;
/// remove_with_comment_in(alloc, &mut document, "port")?;
/// // It is empty.
/// ```
pub fn remove_with_comment_in(
    alloc: Global,
    document: &mut Document,
    key: &str,
) -> Result<(), PropertiesError>
    ensures { ChangesDocument (λ error. error) (λ options source. RemovesWithComments options source (chars key.now ∷ []))
        document.old result document.new }
{
    let options = document.options();
    let bytes = bytes_of(document)?;
    let rest = remove_with_comment(alloc, &bytes, options, key)?;
    *document = Document::parse_with(alloc, &rest, options)?;
    Ok(())
}

fn bytes_of(document: &Document) -> Result<Vec<u8>, PropertiesError>
    ensures same { IfOk result (λ bytes. bytes.items ≡ document.now.bytes) }
    ensures memory { IfErr result (IsBareError kind.Memory) }
{
    let bytes = document.to_bytes()?;
    Ok(bytes)
}
