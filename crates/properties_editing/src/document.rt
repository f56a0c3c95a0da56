// A source that is kept open for edits.

ghost use Rattle.std.specs.Prelude.{◌≡◌, IfOk};
ghost use Rattle.std.specs.Option.{option_map};
ghost use Rattle.std.specs.Str.{chars};
ghost use Rattle.properties_text.specs.Encoding.{encoding_of};
ghost use Rattle.properties_editing.specs.Documents.{HasKeysInOrder, HasValueAt, OpensDocument, OpensDocumentWith, PutsInto, RemovesFrom, SetsValueIn, TellsOptions, TurnsAsciiOnly};

use crate::parts::NamedKeys;
use crate::parts::source_parts::SourceParts;
use crate::plan;
use crate::source::{BodyStart, Comments, SourceOptions};
use properties_items::error::PropertiesError;
use properties_text::encoding::Encoding;
use std::alloc::{AllocError, Global};
use std::fmt;
use std::marker::Model;

/// A source that is kept open for edits.
///
/// Use it in a program that changes keys one at a time and looks at values in between, such as an editor with a window:
/// only `parse` reads the whole source. It keeps a copy of the source, and the place and the value of each pair. A call
/// that changes a value copies only the pair that it changes. `set_value` reads that pair again or, if no pair has the
/// key, the last pair. A pair that is removed leaves a few words behind, or nothing if it is the last one, as a key
/// that is added and removed again. The bytes are joined by `to_bytes`, so call it when they are needed, and not after
/// each edit.
///
/// ```text
/// let mut document = Document::parse(alloc, b"# the front door\nport = 80\n", Encoding::UTF_8)?;
/// assert_eq!(rt; document.get("port"), Some("80"));
/// document.put("port", "8080")?;
/// assert!(rt; !document.remove("host"));
/// let bytes = document.to_bytes()?;
/// // They are `# the front door`, a line feed, `port=8080` and a line feed.
/// ```
#[derive(Drop)]
pub struct Document {
    alloc: Global,
    // The requested encoding.
    encoding: Encoding,
    // Whether comments were read, or passed over.
    comments: Comments,
    // The bytes that were read.
    source: Vec<u8>,
    // Where they are, and what edits put in.
    edited: SourceParts,
}

impl Model for Document {
    ghost use Rattle.properties_editing.specs.Documents.{OpenDocument};

    ghost Value = { OpenDocument };

    ghost use Rattle.properties_editing.specs.Private.BodyDocuments.{open_document, IsDocument};

    ghost view = { open_document };

    ghost invariant = { IsDocument };
}

impl Document {
    /// Opens a copy of a source.
    ///
    /// UTF-16 is refused. A source with a malformed escape anywhere is refused with the error that reading the source
    /// would return.
    pub fn parse(
        alloc: Global,
        source: &[u8],
        encoding: Encoding,
    ) -> Result<Document, PropertiesError>
        ensures opens { OpensDocument (encoding_of encoding) source.now result }
    {
        Document::parse_with(alloc, source, SourceOptions::new(encoding))
    }

    /// Opens a copy of a source, with these options.
    ///
    /// If comments are passed over, only a malformed escape in a pair is an error, and so it is after edits. The calls
    /// for edits write as `ascii_only` says, until [`set_ascii_only`](Document::set_ascii_only) says otherwise. UTF-16
    /// is refused.
    ///
    /// ```text
    /// let options = SourceOptions {
    ///     comments: Comments::PassedOver,
    ///     ..SourceOptions::new(Encoding::UTF_8)
    /// };
    /// let mut document = Document::parse_with(alloc, b"# C:\\users\nprice = 4\n", options)?;
    /// document.set_value("price", "5")?;
    /// let bytes = document.to_bytes()?;
    /// // They are `# C:\users`, a line feed, `price = 5` and a line feed.
    /// ```
    pub fn parse_with(
        alloc: Global,
        source: &[u8],
        options: SourceOptions,
    ) -> Result<Document, PropertiesError>
        ensures opens { OpensDocumentWith options source.now result }
    {
        let opened = BodyStart::open(source, options)?;
        let keys = NamedKeys::new(alloc, true);
        let body = &source[opened.start..];
        let edited = SourceParts::read(alloc, opened, options.comments, body, keys)?;
        Ok(Document {
            alloc,
            encoding: options.encoding,
            comments: options.comments,
            source: source.to_vec(alloc)?,
            edited,
        })
    }

    /// Returns the options for which [`edit_with`](crate::edit_with) reads and writes as this document does.
    pub fn options(&self) -> SourceOptions
        ensures { TellsOptions self.now result }
    {
        SourceOptions {
            encoding: self.encoding,
            ascii_only: self.edited.opened.ascii_only,
            latin_1: self.edited.opened.latin_1,
            comments: self.comments,
        }
    }

    /// Returns the value of a key: that of the last pair with the key, or `None` if no pair has it.
    pub fn get(&self, key: &str) -> Option<&str>
        ensures { HasValueAt self.now (chars key.now) (option_map (λ value. chars value.now) result) }
    {
        Some(self.edited.parts.keys.places.get(key)?.value.as_str())
    }

    /// Returns the keys in the order of the file, each once. A key that several pairs have is in the position of the
    /// first of them.
    ///
    /// ```text
    /// let document = Document::parse(alloc, b"b = 1\na = 2\nb = 3\n", Encoding::UTF_8)?;
    /// let keys = document.keys()?;
    /// assert!(rt; keys.as_slice() == ["b", "a"].as_slice());
    /// ```
    ///
    /// Fails only if memory runs out.
    pub fn keys(&self) -> Result<Vec<&str>, AllocError>
        ensures { IfOk result (λ keys. HasKeysInOrder self.now keys.items) }
    {
        self.edited.parts.keys_in_order(self.alloc)
    }

    /// Sets whether the calls after this one write ASCII only, as [`edit_with`](crate::edit_with) does if it is asked
    /// to. At the start they do if the options say so. No byte changes.
    ///
    /// ```text
    /// let mut document = Document::parse(alloc, b"price = 4\n", Encoding::UTF_8)?;
    /// document.set_ascii_only(true);
    /// document.set_value("price", "5 \u{20ac}")?;
    /// let bytes = document.to_bytes()?;
    /// // They are `price = 5 \u20ac` and a line feed.
    /// ```
    pub fn set_ascii_only(&mut self, ascii_only: bool)
        ensures { TurnsAsciiOnly ascii_only self.old self.new }
    {
        self.edited.opened.ascii_only = ascii_only;
        self.edited.opened.latin_1 = false;
    }

    /// Sets a key to a value, as [`set_key`](crate::set_key) does. If memory runs out, nothing changes.
    pub fn put(&mut self, key: &str, value: &str) -> Result<(), AllocError>
        ensures { PutsInto (chars key.now) (chars value.now) self.old result self.new }
    {
        plan::put(self.alloc, &self.source, &mut self.edited, key, value)
    }

    /// Sets the value of a key and keeps the layout of its line, as [`set_value`](crate::set_value) does. If memory
    /// runs out, nothing changes.
    ///
    /// ```text
    /// let mut document = Document::parse(alloc, b"port  = 80\n", Encoding::UTF_8)?;
    /// document.set_value("port", "8080")?;
    /// let bytes = document.to_bytes()?;
    /// // They are `port  = 8080` and a line feed.
    /// ```
    pub fn set_value(&mut self, key: &str, value: &str) -> Result<(), AllocError>
        ensures { SetsValueIn (chars key.now) (chars value.now) self.old result self.new }
    {
        plan::set_value(self.alloc, &self.source, &mut self.edited, key, value)
    }

    /// Removes a key, as [`remove_key`](crate::remove_key) does, and returns whether a pair had it. Allocates nothing.
    pub fn remove(&mut self, key: &str) -> bool
        ensures { RemovesFrom (chars key.now) self.old result self.new }
    {
        plan::remove(&self.source, &mut self.edited, key)
    }

    /// Returns the file after the edits, which takes a copy of all of it. What wasn't edited is unchanged. Fails only
    /// if memory runs out.
    pub fn to_bytes(&self) -> Result<Vec<u8>, AllocError>
        ensures { IfOk result (λ bytes. bytes.items ≡ self.now.bytes) }
    {
        self.edited.to_bytes(self.alloc, &self.source)
    }
}

impl fmt::Debug for Document {
    // The bytes are text in an encoding of many, and the parts are private: their sizes tell documents apart.
    fn fmt<W: fmt::Write>(&self, f: &mut fmt::Formatter<W>) -> fmt::Result {
        f.debug_struct("Document")
            .field("encoding", &self.edited.opened.encoding)
            .field("bytes_read", &self.source.len())
            .field("keys", &self.edited.parts.keys.places.len())
            .finish_non_exhaustive()
    }
}
