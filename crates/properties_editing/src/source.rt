// The part of a source that is edited: the body after the byte order mark, in the encoding in force.

ghost use Rattle.std.specs.Prelude.{◌≡◌, false};
ghost use Rattle.std.specs.Str.{chars};
ghost use Rattle.properties_editing.specs.Comments.{passes_over};
ghost use Rattle.properties_editing.specs.Private.Sources.{OpensSource};
ghost use Rattle.properties_editing.specs.Editing.{asked_for};
ghost use Rattle.properties_editing.specs.declared.source.SourceOptions.{SourceOptions};
ghost use Rattle.properties_editing.specs.declared.source.Comments.TheVariants.{Read};

use properties_items::error::{ErrorKind, PropertiesError, make};
use properties_lines::continuation::is_comment;
use properties_text::encoding::Encoding;
use properties_text::encoding::byte_order_mark::encoding_in_force;

/// What becomes of the comments of a source.
#[derive(Debug, Clone, Copy, PartialEq, Eq)]
pub enum Comments {
    /// They are read: a malformed escape in one refuses the source.
    Read,
    /// They are passed over, as in Java: no escape in one is read. They stay as they are.
    PassedOver,
}

impl Comments {
    /// Returns whether this logical line is a comment that is passed over.
    ///
    /// ```text
    /// assert!(rt; Comments::PassedOver.are_passed_over("# C:\\users"));
    /// assert!(rt; !Comments::Read.are_passed_over("# C:\\users"));
    /// ```
    #[inline(always)]
    pub fn are_passed_over(self, line: &str) -> bool
        ensures { result ≡ passes_over self (chars line.now) }
    {
        match self {
            Comments::Read => false,
            Comments::PassedOver => is_comment(line.as_bytes()),
        }
    }
}

/// How a source is read, and how edits write new texts.
///
/// ```text
/// let options = SourceOptions {
///     ascii_only: true,
///     comments: Comments::PassedOver,
///     ..SourceOptions::new(Encoding::UTF_8)
/// };
/// ```
#[derive(Debug, Clone, Copy, PartialEq, Eq)]
pub struct SourceOptions {
    /// The encoding of the source, unless a byte order mark selects another one.
    pub encoding: Encoding,
    /// Whether the keys and values that edits put in are written in ASCII only: every other character as a `\u` escape,
    /// or two above U+FFFF. What stands in the source and isn't replaced stays as it is.
    pub ascii_only: bool,
    /// Whether those keys and values have only characters whose bytes ISO 8859-1 reads alike, and every other character
    /// is written as an escape: of windows-1252, the characters up to U+007F and from U+00A0 to U+00FF stay; of UTF-8,
    /// those of ASCII. So `Properties.load(InputStream)` of Java reads them as they are meant.
    pub latin_1: bool,
    /// Whether comments are read or passed over.
    pub comments: Comments,
}

impl SourceOptions {
    /// Returns the options for this encoding: edits write every character that it has, and comments are read.
    pub fn new(encoding: Encoding) -> SourceOptions
        ensures { let all : SourceOptions = record { encoding = encoding; ascii_only = false; latin_1 = false; comments = Read } in result ≡ all }
    {
        SourceOptions {
            encoding,
            ascii_only: false,
            latin_1: false,
            comments: Comments::Read,
        }
    }
}

/// What is known about a source before it is edited, and how new texts are written.
#[derive(Clone, Copy)]
pub struct BodyStart {
    /// The encoding in force.
    pub encoding: Encoding,
    /// The position where the body starts, after any byte order mark.
    pub start: usize,
    /// Whether new texts are written in ASCII only.
    pub ascii_only: bool,
    /// Whether they have only characters whose bytes ISO 8859-1 reads alike.
    pub latin_1: bool,
}

impl BodyStart {
    /// Opens a source. UTF-16 is refused.
    pub fn open(source: &[u8], options: SourceOptions) -> Result<BodyStart, PropertiesError>
        ensures { OpensSource source.now (asked_for options) result }
    {
        let (encoding, start) = encoding_in_force(source, options.encoding);
        match encoding {
            Encoding::WINDOWS_1252 | Encoding::UTF_8 => Ok(BodyStart {
                encoding,
                start,
                ascii_only: options.ascii_only,
                latin_1: options.latin_1,
            }),
            Encoding::UTF_16LE | Encoding::UTF_16BE => Err(make::bare(ErrorKind::Unsupported)),
        }
    }
}
