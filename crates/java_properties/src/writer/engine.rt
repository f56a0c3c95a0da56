// A writer without its sink.

ghost use Rattle.std.specs.Prelude.{◌≡◌, ◌<◌, ◌^◌, true, false, Ok, Err, OnOk};
ghost use Rattle.std.specs.Str.{chars};
ghost use Rattle.properties_format.specs.Items as format;
ghost use Rattle.properties_format.specs.Settings.{default_settings};
ghost use Rattle.properties_format.specs.Writing.{is_accepted};
ghost use Rattle.counted_io.specs.Streams.{IsSameSink};
ghost use Rattle.properties_text.specs.PrintedTexts.{IsWellPair};
ghost use Rattle.java_properties.specs.Private.Engine.{entry_content, writing, engine_repertoire, engine_line_bytes};
ghost use Rattle.java_properties.specs.Private.Engine.{comment_bytes, NumbersLine, SendsLine, takes_span, BuildsPair};
ghost use Rattle.properties_text.specs.Printing.{AppendsOnOk};
ghost use Rattle.java_properties.specs.PropertiesWriter.{call_of, WritesLine, Flushes};

use super::settings::Settings;
use counted_io::{CountedWrite, send};
use properties_items::error::{ErrorKind, PropertiesError, make};
use properties_items::line::ending_text;
use properties_text::encoding::LineEncoding;
use properties_text::escape::UnescapeError;
use properties_text::parse::Span;
use properties_text::print::{
    LineBuffer, Pair, PairLayout, Place, Repertoire, print_pair, print_readable_pair,
    print_readable_texts, print_text, print_texts,
};
use std::alloc::{AllocError, Global};
use std::io;

/// The content of a line to write.
#[derive(Clone, Copy)]
pub enum Content<'a> {
    /// A comment.
    Comment(&'a str),
    /// A key and its value.
    KVPair(&'a str, &'a str),
}

/// The state of a writer between two lines. The sink is passed to each call.
#[derive(Drop)]
pub struct Engine {
    // The line under construction. Its memory is reused for the next line.
    line: LineBuffer,
    // The number of lines written.
    lines: usize,
    // Whether a write failed.
    failed: bool,
    encoding: LineEncoding,
    /// The settings for the next line.
    pub settings: Settings,
}

impl Engine {
    /// Creates the state before the first line.
    pub fn new(alloc: Global, encoding: LineEncoding) -> Engine
        ensures encoding { result.encoding ≡ encoding }
        ensures settings { result.settings ≡ default_settings }
        ensures lines { result.lines ≡ 0 }
        ensures failed { result.failed ≡ false }
    {
        Engine {
            line: LineBuffer::new(alloc),
            lines: 0,
            failed: false,
            encoding,
            settings: Settings::new(alloc),
        }
    }

    /// Writes a line, which is built completely before its first byte is sent.
    #[inline(always)]
    pub fn write_line<W: CountedWrite>(
        &mut self,
        sink: &mut W,
        content: Content<'_>,
    ) -> Result<(), PropertiesError>
        ensures writes { let old = writing self.old sink.old in
            WritesLine W.CountedWrite old (entry_content content.entry) result
            (writing self.new sink.new) }
        ensures same_sink { IsSameSink W.CountedWrite sink.old sink.new }
    {
        let number = match self.next_number(self.accepts(content)) {
            Ok(number) => number,
            Err(why) => return Err(make::bare(why)),
        };
        self.build(content)?;
        // A new `Ok`, as in `write`: passing the result on would copy the space for its error.
        match self.send_line(sink, number) {
            Ok(()) => Ok(()),
            Err(fault) => Err(make::write_fault(Some(number), fault)),
        }
    }

    /// Returns the number of the next line, or why it is refused.
    #[inline(always)]
    pub fn next_number(&self, accepted: bool) -> Result<usize, ErrorKind>
        ensures { NumbersLine self.now accepted result }
    {
        if self.failed {
            return Err(ErrorKind::Failed);
        }
        if !accepted {
            return Err(ErrorKind::EmptyKey);
        }
        self.lines.checked_add(1).ok_or(ErrorKind::TooManyLines)
    }

    /// Sends the line that was built, and counts it.
    #[inline(always)]
    pub fn send_line<W: CountedWrite>(
        &mut self,
        sink: &mut W,
        number: usize,
    ) -> Result<(), Option<io::Error>>
        ensures sends { let old = writing self.old sink.old in
            SendsLine W.CountedWrite old self.old.line number result (writing self.new sink.new) }
        ensures fits { number < 2 ^ 64 }
        ensures same_sink { IsSameSink W.CountedWrite sink.old sink.new }
    {
        match send(sink, self.line.as_slice()) {
            Ok(()) => {
                self.lines = number;
                Ok(())
            }
            Err(fault) => {
                self.failed = true;
                Err(fault)
            }
        }
    }

    /// Flushes the sink. Fails without a flush if an earlier write failed.
    pub fn flush<W: CountedWrite>(&mut self, sink: &mut W) -> Result<(), PropertiesError>
        ensures flushes { let old = writing self.old sink.old in
            Flushes W.CountedWrite old result (writing self.new sink.new) }
        ensures same_sink { IsSameSink W.CountedWrite sink.old sink.new }
    {
        if self.failed {
            return Err(make::bare(ErrorKind::Failed));
        }
        sink.flush_counted()?;
        Ok(())
    }

    fn accepts(&self, content: Content<'_>) -> bool
        ensures { result ≡ is_accepted self.now.settings (call_of (entry_content content.entry)) }
    {
        match content {
            Content::Comment(_) => true,
            Content::KVPair(key, _) => self.settings.takes_key(key),
        }
    }

    /// Returns whether a pair can be written whose key is spelt by this span.
    #[inline(always)]
    #[tactic(auto, using(crate::proofs::Engine::spans))]
    pub fn takes_span(&self, key: Span) -> bool
        ensures { result ≡ takes_span self.now.settings key }
    {
        key.start != key.end || self.settings.takes_key("")
    }

    /// Builds the line of a pair. `readable` is the setting, which a caller that knows it needn't test for each pair.
    /// Fails with the first malformed escape, or if memory runs out.
    #[inline(always)]
    #[tactic(auto, using(crate::proofs::Engine::spelling))]
    pub fn build_pair(&mut self, pair: Pair<'_>, readable: bool) -> Result<(), UnescapeError>
        requires pair { IsWellPair pair }
        requires readable { self.old.settings.readable ≡ readable }
        ensures printed { BuildsPair self.old pair.entry result self.new.line }
        ensures same { self.new ≡ record self.old { line = self.new.line } }
    {
        let repertoire = self.repertoire();
        self.line.clear();
        let layout = PairLayout {
            repertoire,
            first: self.lines == 0,
            separator: self.settings.kv_separator(),
            ending: ending_text(self.settings.line_ending()),
        };
        if readable {
            return print_readable_pair(&mut self.line, layout, pair);
        }
        print_pair(&mut self.line, layout, pair)
    }

    // Builds the bytes of the line.
    #[inline(always)]
    #[tactic(auto, using(crate::proofs::Engine::building))]
    fn build(&mut self, content: Content<'_>) -> Result<(), AllocError>
        ensures printed { let bytes = engine_line_bytes self.old (entry_content content.entry) in
            OnOk result (self.new.line ≡ bytes) }
        ensures same { self.new ≡ record self.old { line = self.new.line } }
    {
        let repertoire = self.repertoire();
        self.line.clear();
        match content {
            Content::Comment(text) => {
                self.print_comment(text)?;
                self.line
                    .extend(ending_text(self.settings.line_ending()).as_bytes())
            }
            Content::KVPair(key, value) => {
                if self.settings.readable() {
                    return self.build_readable(key, value);
                }
                let layout = PairLayout {
                    repertoire,
                    first: self.lines == 0,
                    separator: self.settings.kv_separator(),
                    ending: ending_text(self.settings.line_ending()),
                };
                print_texts(&mut self.line, layout, key, value)
            }
        }
    }

    // Kept out of line so that other pairs take no longer.
    #[inline(never)]
    #[tactic(auto, using(crate::proofs::Engine::building))]
    fn build_readable(&mut self, key: &str, value: &str) -> Result<(), AllocError>
        requires { self.old.settings.readable ≡ true }
        ensures printed { let bytes = engine_line_bytes self.old
            (format.pair (chars key.now) (chars value.now)) in
            OnOk result (self.new.line ≡ bytes) }
        ensures same { self.new ≡ record self.old { line = self.new.line } }
    {
        let repertoire = self.repertoire();
        self.line.clear();
        let layout = PairLayout {
            repertoire,
            first: self.lines == 0,
            separator: self.settings.kv_separator(),
            ending: ending_text(self.settings.line_ending()),
        };
        print_readable_texts(&mut self.line, layout, key, value)
    }

    fn print_comment(&mut self, text: &str) -> Result<(), AllocError>
        ensures printed { let bytes = comment_bytes self.old (chars text.now) in
            AppendsOnOk self.old.line bytes result self.new.line }
        ensures same { self.new ≡ record self.old { line = self.new.line } }
    {
        let repertoire = self.repertoire();
        print_text(
            &mut self.line,
            repertoire,
            Place::Prefix,
            self.settings.comment_prefix(),
        )?;
        print_text(&mut self.line, repertoire, Place::Comment, text)
    }

    #[inline(always)]
    #[tactic(auto, using(crate::proofs::Engine::repertoires))]
    fn repertoire(&self) -> Repertoire
        ensures { result ≡ engine_repertoire self.now }
    {
        if self.settings.ascii_only() {
            return Repertoire::Ascii;
        }
        Repertoire::from(self.encoding)
    }
}
