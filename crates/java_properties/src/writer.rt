// Writes comments and pairs line by line.

ghost use Rattle.std.specs.Prelude.{◌≡◌, IsOkAnd};
ghost use Rattle.std.specs.Str.{chars};
ghost use Rattle.counted_io.specs.Streams.{IsSameSink};
ghost use Rattle.properties_format.specs.Encoding.{windows_1252, output_encoding};
ghost use Rattle.properties_format.specs.Items as entry;
ghost use Rattle.properties_text.specs.Encoding.{encoding_of};
ghost use Rattle.java_properties.specs.PropertiesWriter.{new_writer, WritesLine, Flushes, SetsPrefix, SetsSeparator};
ghost use Rattle.java_properties.specs.PropertiesWriter.{SetsEnding, SetsAsciiOnly, SetsReadable};

use counted_io::CountedWrite;
use engine::{Content, Engine};
use properties_items::error::PropertiesError;
use properties_items::line::LineEnding;
use properties_text::encoding::{Encoding, LineEncoding};
use std::alloc::Global;
use std::marker::Model;

mod calls;
pub(crate) mod engine;
mod settings;

pub use calls::{Call, run_calls};

/// Writes comments and pairs to a sink, one per line.
///
/// Each line is built completely before its first byte is sent. If the sink fails within a line, it may hold a part of
/// that line, and the writer has failed: it sends nothing more, and refuses lines and flushes with the kind `Failed`.
///
/// ```text
/// let mut output = Counted::new(Vec::new(alloc));
/// let mut writer = PropertiesWriter::new(alloc, &mut output)?;
/// writer.write_comment("for the front page")?;
/// writer.write("greeting", "hello world")?;
/// writer.finish()?;
/// // The sink holds `# for the front page` and `greeting=hello\ world`, each ended by a line feed.
/// ```
#[derive(Drop)]
pub struct PropertiesWriter<W> {
    pub(crate) sink: W,
    pub(crate) engine: Engine,
}

impl<W> Model for PropertiesWriter<W> {
    ghost use Rattle.java_properties.specs.PropertiesWriter.{Writing};

    ghost Value = { Writing W };

    ghost use Rattle.java_properties.specs.Private.Engine.{writing};

    ghost view = { λ w. writing w.engine w.sink };
}

impl<W: CountedWrite> PropertiesWriter<W> {
    /// Creates a writer of windows-1252. Characters that it can't encode are written as escapes.
    ///
    /// It writes nothing and allocates nothing before it is used. Always returns `Ok`.
    pub fn new(alloc: Global, writer: W) -> Result<PropertiesWriter<W>, PropertiesError>
        ensures { IsOkAnd result (λ made. made ≡ new_writer windows_1252 writer) }
    {
        PropertiesWriter::new_with_encoding(alloc, writer, Encoding::WINDOWS_1252)
    }

    /// Creates a writer of the output encoding of `encoding`: windows-1252 or UTF-8. It writes no byte order mark.
    ///
    /// It writes nothing and allocates nothing before it is used. Always returns `Ok`.
    pub fn new_with_encoding(
        alloc: Global,
        writer: W,
        encoding: Encoding,
    ) -> Result<PropertiesWriter<W>, PropertiesError>
        ensures { let output = output_encoding (encoding_of encoding) in
            IsOkAnd result (λ made. made ≡ new_writer output writer) }
    {
        Ok(PropertiesWriter {
            sink: writer,
            engine: Engine::new(alloc, LineEncoding::from(encoding)),
        })
    }

    /// Writes a comment as one line: the prefix, the text and the line ending.
    ///
    /// Line endings in the text are written as escapes, so the comment stays on one line.
    ///
    /// Fails with `Io` if the sink fails, with `Failed` if an earlier write did, with `TooManyLines` if the line has no
    /// number, and with `Memory` if memory runs out.
    pub fn write_comment(&mut self, comment: &str) -> Result<(), PropertiesError>
        ensures writes { WritesLine W.CountedWrite self.old (entry.comment (chars comment.now)) result self.new }
        ensures same_sink { IsSameSink W.CountedWrite self.old.sink self.new.sink }
    {
        // A new `Ok`, because passing the result on would copy the space for its error.
        self.engine
            .write_line(&mut self.sink, Content::Comment(comment))?;
        Ok(())
    }

    /// Writes a pair as one line: the key, the separator, the value and the line ending.
    ///
    /// An empty key is refused with `EmptyKey` if the separator consists only of blanks, because its value would be read
    /// as the key. Otherwise it fails as [`write_comment`](PropertiesWriter::write_comment) does.
    pub fn write(&mut self, key: &str, value: &str) -> Result<(), PropertiesError>
        ensures writes { let line = entry.pair (chars key.now) (chars value.now) in
            WritesLine W.CountedWrite self.old line result self.new }
        ensures same_sink { IsSameSink W.CountedWrite self.old.sink self.new.sink }
    {
        // A new `Ok`, because passing the result on would copy the space for its error.
        self.engine
            .write_line(&mut self.sink, Content::KVPair(key, value))?;
        Ok(())
    }

    /// Sets what comments begin with from now on: optional blanks, then `#` or `!`, then any text without line endings.
    /// Any other prefix is refused with `BadCommentPrefix`. At an error, the setting stays. The default is `# `.
    pub fn set_comment_prefix(&mut self, prefix: &str) -> Result<(), PropertiesError>
        ensures { SetsPrefix self.old (chars prefix.now) result self.new }
    {
        self.engine.settings.set_comment_prefix(prefix)
    }

    /// Sets what comes between keys and values from now on: optional blanks, one `=` or `:`, optional blanks; or one or
    /// more blanks. Any other separator is refused with `BadKvSeparator`. At an error, the setting stays. The default is
    /// `=`.
    pub fn set_kv_separator(&mut self, separator: &str) -> Result<(), PropertiesError>
        ensures { SetsSeparator self.old (chars separator.now) result self.new }
    {
        self.engine.settings.set_kv_separator(separator)
    }

    /// Sets what ends lines from now on. The default is LF.
    pub fn set_line_ending(&mut self, line_ending: LineEnding)
        ensures { SetsEnding self.old line_ending self.new }
    {
        self.engine.settings.set_line_ending(line_ending);
    }

    /// Sets whether every character past U+007F is written as an escape from now on, even if the encoding has it. By
    /// default it isn't.
    ///
    /// Lines written with this setting contain ASCII only, and read back the same in windows-1252 and in UTF-8.
    ///
    /// ```text
    /// writer.set_ascii_only(true);
    /// writer.write("caf\u{e9}", "1")?; // The sink holds `caf\u00e9=1` and a line feed, all of it ASCII.
    /// ```
    pub fn set_ascii_only(&mut self, on: bool)
        ensures { SetsAsciiOnly self.old on self.new }
    {
        self.engine.settings.set_ascii_only(on);
    }

    /// Sets whether values are written as people write them from now on. By default they aren't.
    ///
    /// A readable value has spaces, `=`, `:`, `#` and `!` as they are, except at its ends: a space at the front gets a
    /// backslash, and so does a `=` or `:` at the front if the separator consists only of blanks; a space at the end is
    /// `\u0020`, even if it is the whole value. Everything else is written as in a key.
    /// [`set_value`](crate::set_value) writes values in the same way. What is written reads back the same.
    ///
    /// ```text
    /// writer.set_readable(true);
    /// writer.write("quote", "\u{201c}Hi\u{201d} you: a=b")?; // The sink holds `quote=“Hi” you: a=b` and a line feed.
    /// ```
    pub fn set_readable(&mut self, on: bool)
        ensures { SetsReadable self.old on self.new }
    {
        self.engine.settings.set_readable(on);
    }

    /// Flushes the sink. Fails with `Io` if the sink fails, and with `Failed` if an earlier write did.
    pub fn flush(&mut self) -> Result<(), PropertiesError>
        ensures flushes { Flushes W.CountedWrite self.old result self.new }
        ensures same_sink { IsSameSink W.CountedWrite self.old.sink self.new.sink }
    {
        self.engine.flush(&mut self.sink)
    }

    /// Flushes the sink. Call it after the last line, so that a sink that buffers bytes passes them on. You can still
    /// write lines afterwards. Fails as [`flush`](PropertiesWriter::flush) does.
    pub fn finish(&mut self) -> Result<(), PropertiesError>
        ensures flushes { Flushes W.CountedWrite self.old result self.new }
        ensures same_sink { IsSameSink W.CountedWrite self.old.sink self.new.sink }
    {
        self.flush()
    }

    /// Returns a reference to the sink, with what was written so far.
    pub fn get_ref(&self) -> &W
        ensures { result.now ≡ self.now.sink }
    {
        &self.sink
    }

    /// Returns the sink, with what was written so far.
    pub fn into_inner(self) -> W
        ensures { result ≡ self.sink }
    {
        let PropertiesWriter { sink, engine: _ } = self;
        sink
    }
}
