//! Finds natural lines among bytes that the caller holds. It reads nothing, allocates nothing and can't fail.

ghost use Rattle.std.specs.Prelude.{List, ℕ, ◌≡◌, ◌↔◌, ◌+◌, ◌-◌, ◌<◌, ◌≤◌, ◌^◌, true, false, [], length, take, drop, get_or};
ghost use Rattle.std.specs.Str.{IsAscii};
ghost use Rattle.properties_format.specs.Text.{backslash, is_line_ending};
ghost use Rattle.properties_format.specs.Cut.{units};
ghost use Rattle.properties_format.specs.Computed.Lines.{begins_with_lf};
ghost use Rattle.properties_format.specs.ItemsToCome.{start};
ghost use Rattle.properties_format.specs.Computed.ItemsToCome.{after_decided};
ghost use Rattle.properties_text.specs.Encoding.{encoding_of, FindsByteOrderMark};
ghost use Rattle.properties_text.specs.Escaping.{holds_backslash};
ghost use Rattle.properties_lines.specs.LineSearch.{unit_size, IsFirstLineEnding};
ghost use Rattle.properties_lines.specs.Scanner.{Fits, Scans, SkipsFront, SkipsFeed, IsReady, IsFresh, IsBefore, FindsByte, Searches, TellsBackslash, ScansLine, TakesLast, scanner_state, is_undecided};
ghost use Rattle.properties_lines.specs.declared.scanner.Front.TheVariants.{Mark, Nothing};

use crate::search::{
    BlockSearch, FoundEnding, PlainEnds, find_line_ending, search_blocks, unit_size, whole_units,
};
use byte_blocks::LineEndings;
use properties_text::characters::is_line_ending;
use properties_text::encoding::byte_order_mark::{ByteOrderMark, byte_order_mark};
use properties_text::encoding::{Encoding, is_ascii};
use properties_text::escape::has_backslash;

/// The result of a scan.
#[derive(Clone, Copy)]
pub enum Scan {
    /// A line, which [`line`](Scanner::line) describes.
    Line,
    /// More bytes are needed: no line ending is held.
    More,
    /// No line: the scan has ended.
    End,
    /// A line without a number, because `usize::MAX` lines come before it.
    TooMany,
}

/// What may come before the next line.
#[derive(Clone, Copy)]
pub enum Front {
    /// A byte order mark, at the start of an input.
    Mark,
    /// An LF that belongs to the line ending before it, which is a CR.
    Feed,
    /// Nothing.
    Nothing,
}

/// A natural line among the bytes that are held.
#[derive(Clone, Copy)]
pub struct RawLine {
    /// The position of its first byte.
    pub start: usize,
    /// The position after its last byte, where its line ending begins.
    pub end: usize,
    /// Whether it consists of ASCII characters of one byte each.
    pub is_ascii: bool,
    /// Whether one of its bytes is the byte of a backslash.
    pub has_backslash: bool,
}

/// The state of a scan between two lines. The bytes that are held are passed to each call that needs them.
#[derive(Clone, Copy)]
pub struct Scanner {
    // The encoding in force, or the requested one while the byte order mark isn't decided.
    encoding: Encoding,
    front: Front,
    is_done: bool,
    // The number of the line that was found last.
    passed: usize,
    // The position after that line, where the scan continues.
    at: usize,
    // How many bytes from there on are known to be whole units without a line ending.
    searched: usize,
    line: RawLine,
}

impl Scanner {
    /// Starts at the beginning of an input, where a byte order mark may be.
    pub fn new(encoding: Encoding) -> Scanner
        ensures state { scanner_state result [] ≡ start (encoding_of encoding) }
        ensures fits { Fits result [] }
        ensures place { result.at ≡ 0 }
        ensures line { (result.line.start ≡ 0) × (result.line.end ≡ 0) }
    {
        Scanner {
            encoding,
            front: Front::Mark,
            is_done: false,
            passed: 0,
            at: 0,
            searched: 0,
            line: RawLine {
                start: 0,
                end: 0,
                is_ascii: true,
                has_backslash: false,
            },
        }
    }

    /// Starts after the byte order mark of an input in this encoding.
    pub fn in_body(encoding: Encoding) -> Scanner
        ensures state { (held : List ℕ) → scanner_state result held ≡ record (start (encoding_of encoding)) { is_decided = true; held = held } }
        ensures fits { (held : List ℕ) → Fits result held }
        ensures place { result.at ≡ 0 }
        ensures encoding { result.encoding ≡ encoding }
    {
        Scanner::in_body_at(encoding, 0)
    }

    /// Starts at this position of an input in this encoding, which is after its byte order mark.
    pub fn in_body_at(encoding: Encoding, place: usize) -> Scanner
        ensures state { (held : List ℕ) → scanner_state result held ≡ record (start (encoding_of encoding)) { is_decided = true; held = drop place held } }
        ensures fits { (held : List ℕ) → place ≤ length held → Fits result held }
        ensures place { result.at ≡ place }
        ensures encoding { result.encoding ≡ encoding }
    {
        Scanner {
            front: Front::Nothing,
            at: place,
            ..Scanner::new(encoding)
        }
    }

    /// Returns the encoding in force, or the requested one while the byte order mark isn't decided.
    #[inline(always)]
    pub fn encoding(&self) -> Encoding
        ensures { result ≡ self.now.encoding }
    {
        self.encoding
    }

    /// Returns the line that was found last.
    #[inline(always)]
    pub fn line(&self) -> &RawLine
        ensures { result.now ≡ self.now.line }
    {
        &self.line
    }

    /// Returns the number of that line, or 0 before the first line.
    #[inline(always)]
    pub fn number(&self) -> usize
        ensures { result ≡ self.now.passed }
    {
        self.passed
    }

    /// Returns the position after that line and its line ending, as far as the line ending is held.
    #[inline(always)]
    pub fn place(&self) -> usize
        ensures { result ≡ self.now.at }
    {
        self.at
    }

    /// Ends the scan permanently.
    pub fn end(&mut self)
        ensures { self.new ≡ record self.old { is_done = true } }
    {
        self.is_done = true;
    }

    // Records that the first `count` bytes of those that are held are released, and the last line with them.
    pub(crate) fn release(&mut self, count: usize)
        requires { count ≤ self.old.at }
        ensures { self.new ≡ record self.old { at = self.old.at - count; line = record self.old.line { start = 0; end = 0 } } }
    {
        self.at -= count;
        self.line.start = 0;
        self.line.end = 0;
    }

    /// Finds the next line among the bytes that are held. `ended` says that no more bytes come.
    #[inline(always)]
    pub fn next(&mut self, held: &[u8], ended: bool) -> Scan
        requires { Fits self.old held.now }
        ensures { Scans self.old held.now ended result self.new }
    {
        if self.is_done {
            return Scan::End;
        }
        if self.passed == usize::MAX {
            return Scan::TooMany;
        }
        if !self.skip_front(held, ended) {
            return Scan::More;
        }
        if self.search(held) {
            return Scan::Line;
        }
        if !ended {
            return Scan::More;
        }
        self.take_last(held);
        Scan::Line
    }

    // Skips the byte order mark, or the LF after a CR. Returns `false` if more bytes are needed to decide.
    #[inline(always)]
    fn skip_front(&mut self, held: &[u8], ended: bool) -> bool
        requires fits { Fits self.old held.now }
        requires live { self.old.is_done ≡ false }
        ensures { SkipsFront self.old held.now ended result self.new }
    {
        if let Front::Nothing = self.front {
            return true;
        }
        self.skip_byte_order_mark_or_feed(held, ended)
    }

    #[inline(never)]
    #[tactic(auto, using(crate::proofs::ScannerFront::skips_feed))]
    fn skip_byte_order_mark_or_feed(&mut self, held: &[u8], ended: bool) -> bool
        requires fits { Fits self.old held.now }
        requires live { self.old.is_done ≡ false }
        ensures { SkipsFront self.old held.now ended result self.new }
    {
        match self.front {
            Front::Nothing => true,
            Front::Mark => self.skip_byte_order_mark(held, ended),
            Front::Feed => {
                self.front = Front::Nothing;
                self.skip_feed(held, unit_size(self.encoding), ended)
            }
        }
    }

    // Skips the byte order mark, if there is one. Returns `false` if more bytes are needed to decide.
    fn skip_byte_order_mark(&mut self, held: &[u8], ended: bool) -> bool
        requires fits { Fits self.old held.now }
        requires live { self.old.is_done ≡ false }
        requires mark { self.old.front ≡ Mark }
        ensures { SkipsFront self.old held.now ended result self.new }
    {
        let mark = byte_order_mark(&held[self.at..]);
        if !ended && is_undecided(mark) {
            return false;
        }
        self.take_byte_order_mark(held, mark);
        true
    }

    // Skips this byte order mark, if it is one.
    fn take_byte_order_mark(&mut self, held: &[u8], mark: ByteOrderMark)
        requires fits { Fits self.old held.now }
        requires front { self.old.front ≡ Mark }
        requires tells { FindsByteOrderMark (drop self.old.at held.now) mark }
        ensures state { scanner_state self.new held.now ≡ after_decided (scanner_state self.old held.now) }
        ensures within { self.new.at ≤ length held.now }
        ensures same { self.new ≡ record self.old { encoding = self.new.encoding; front = Nothing; at = self.new.at } }
    {
        // Proof only: the length fits a `usize`.
        let _length = held.len();
        if let ByteOrderMark::Present(encoding, length) = mark {
            self.encoding = encoding;
            self.at += length;
        }
        self.front = Front::Nothing;
    }

    // Skips the LF that belongs to the CR before it, if there is one. Returns `false` if more bytes are needed to
    // decide.
    #[inline(always)]
    fn skip_feed(&mut self, held: &[u8], unit: usize, ended: bool) -> bool
        requires within { self.old.at ≤ length held.now }
        requires unit { unit ≡ unit_size (encoding_of self.old.encoding) }
        ensures { SkipsFeed self.old held.now ended result self.new }
    {
        let after = &held[self.at..];
        if after.len() < unit && !ended {
            self.front = Front::Feed;
            return false;
        }
        if begins_with_feed(self.encoding, unit, after) {
            self.at += unit;
        }
        true
    }

    // Searches for the end of the line, and takes the line if its end is held. Returns whether it is.
    #[inline(always)]
    fn search(&mut self, held: &[u8]) -> bool
        requires { IsReady self.old held.now }
        ensures { Searches self.old held.now result self.new }
    {
        match self.encoding {
            Encoding::WINDOWS_1252 | Encoding::UTF_8 if self.searched == 0 => self.search_bytes(
                held,
            ),
            _ => self.search_on(held),
        }
    }

    // Searches a line from its start on, where units are one byte long.
    #[inline(always)]
    fn search_bytes(&mut self, held: &[u8]) -> bool
        requires ready { IsReady self.old held.now }
        requires fresh { IsFresh self.old }
        ensures { Searches self.old held.now result self.new }
    {
        let bytes = &held[self.at..];
        // This test of one byte finds the end of a blank line sooner than a search of sixteen bytes.
        if !bytes.is_empty() && is_line_ending(char::from(bytes[0])) {
            let found = BlockSearch::Found {
                size: 0,
                is_ascii: true,
            };
            return self.take_found(held, found, false);
        }
        let found = search_blocks::<PlainEnds>(bytes, 0, true);
        match found {
            BlockSearch::Found { size, is_ascii } if bytes[size] == b'\\' => self.search_escaped(
                held, size, is_ascii,
            ),
            _ => self.take_found(held, found, false),
        }
    }

    // Continues to search a line from its first backslash on, where units are one byte long.
    #[inline(never)]
    #[tactic(auto, using(crate::proofs::ScannerSearch::takings))]
    fn search_escaped(&mut self, held: &[u8], from: usize, is_ascii_before: bool) -> bool
        requires ready { IsReady self.old held.now }
        requires fresh { IsFresh self.old }
        requires before { IsBefore is_line_ending (drop self.old.at held.now) from is_ascii_before }
        requires escaped { get_or (drop self.old.at held.now) from 0 ≡ backslash }
        ensures { Searches self.old held.now result self.new }
    {
        let bytes = &held[self.at..];
        let found = search_blocks::<LineEndings>(bytes, from, is_ascii_before);
        self.take_found(held, found, true)
    }

    // Takes the line up to the end that was found, or continues to search, where units are one byte long.
    #[inline(always)]
    #[tactic(auto, using(crate::proofs::ScannerSearch::takings))]
    fn take_found(&mut self, held: &[u8], found: BlockSearch, has_backslash: bool) -> bool
        requires ready { IsReady self.old held.now }
        requires fresh { IsFresh self.old }
        requires found { FindsByte is_line_ending (drop self.old.at held.now) found }
        requires backslash { TellsBackslash (drop self.old.at held.now) found has_backslash }
        ensures { Searches self.old held.now result self.new }
    {
        match found {
            BlockSearch::Found { size, is_ascii } => {
                let is_cr = held[self.at + size] == b'\r';
                let end = FoundEnding { at: size, is_cr };
                self.take(held, end, 1, is_ascii, has_backslash);
                true
            }
            BlockSearch::Searched(count) => {
                self.searched = count;
                self.search_on(held)
            }
        }
    }

    // Continues to search after the bytes that were searched, whatever the size of a unit.
    #[inline(never)]
    fn search_on(&mut self, held: &[u8]) -> bool
        requires { IsReady self.old held.now }
        ensures { Searches self.old held.now result self.new }
    {
        let bytes = &held[self.at..];
        let Some(end) = find_line_ending(self.encoding, bytes, self.searched) else {
            self.searched = whole_units(self.encoding, bytes.len());
            return false;
        };
        let line = &bytes[..end.at];
        let unit = unit_size(self.encoding);
        let is_ascii = is_ascii_in(self.encoding, line);
        self.searched = 0;
        self.take(held, end, unit, is_ascii, has_backslash(line));
        true
    }

    // Takes the line up to this line ending, whose first unit is `unit` bytes long.
    #[inline(always)]
    fn take(
        &mut self,
        held: &[u8],
        end: FoundEnding,
        unit: usize,
        is_ascii: bool,
        has_backslash: bool,
    )
        requires ready { IsReady self.old held.now }
        requires nothing { self.old.searched ≡ 0 }
        requires found { IsFirstLineEnding (encoding_of self.old.encoding) (drop self.old.at held.now) end }
        requires unit { unit ≡ unit_size (encoding_of self.old.encoding) }
        requires ascii { (is_ascii ≡ true) ↔ (unit ≡ 1) × IsAscii (take end.at (drop self.old.at held.now)) }
        requires backslash { has_backslash ≡ holds_backslash (take end.at (drop self.old.at held.now)) }
        ensures { ScansLine self.old held.now self.new }
    {
        let place = self.at + end.at;
        self.take_line(place, place + unit, is_ascii, has_backslash);
        if end.is_cr {
            self.skip_feed(held, unit, false);
        }
    }

    // Takes the last line, and ends the scan.
    #[inline(never)]
    fn take_last(&mut self, held: &[u8])
        requires { IsReady self.old held.now }
        ensures { TakesLast self.old held.now self.new }
    {
        let line = &held[self.at..];
        let end = held.len();
        let is_ascii = is_ascii_in(self.encoding, line);
        self.take_line(end, end, is_ascii, has_backslash(line));
        self.searched = 0;
        self.is_done = true;
    }

    // Takes the line up to `end`. The scan continues at `next`.
    #[inline(always)]
    fn take_line(&mut self, end: usize, next: usize, is_ascii: bool, has_backslash: bool)
        requires { self.old.passed + 1 < 2 ^ 64 }
        ensures { self.new ≡ record self.old { passed = self.old.passed + 1; at = next; line = record { start = self.old.at; end = end; is_ascii = is_ascii; has_backslash = has_backslash } } }
    {
        self.line = RawLine {
            start: self.at,
            end,
            is_ascii,
            has_backslash,
        };
        self.passed += 1;
        self.at = next;
    }
}

// Returns whether the bytes are ASCII characters of one byte each.
fn is_ascii_in(encoding: Encoding, bytes: &[u8]) -> bool
    ensures { (result ≡ true) ↔ (unit_size (encoding_of encoding) ≡ 1) × IsAscii bytes.now }
{
    match encoding {
        Encoding::WINDOWS_1252 | Encoding::UTF_8 => is_ascii(bytes),
        Encoding::UTF_16LE | Encoding::UTF_16BE => false,
    }
}

// Returns whether the first unit is an LF.
#[inline(always)]
fn begins_with_feed(encoding: Encoding, unit: usize, bytes: &[u8]) -> bool
    requires { unit ≡ unit_size (encoding_of encoding) }
    ensures { result ≡ begins_with_lf (units (encoding_of encoding) bytes.now) }
{
    match (unit, encoding, bytes) {
        (1, _, [b'\n', ..])
        | (2, Encoding::UTF_16LE, [b'\n', 0, ..])
        | (2, Encoding::UTF_16BE, [0, b'\n', ..]) => true,
        _ => false,
    }
}

fn is_undecided(mark: ByteOrderMark) -> bool
    ensures { result ≡ is_undecided mark }
{
    matches!(mark, ByteOrderMark::Undecided)
}
