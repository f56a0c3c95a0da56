// Walks through the groups of a source: blanks, comments and pairs, each with the places of its parts.

ghost use Rattle.std.specs.Prelude.{◌≡◌, IfOk, true, length, take};
ghost use Rattle.std.specs.Str.{IsCharBoundary, chars};
ghost use Rattle.properties_text.specs.Encoding.{encoding_of};
ghost use Rattle.properties_text.specs.Parsing.{IsSpan, bytes_in};
ghost use Rattle.properties_editing.specs.Private.BodyViews.{ArePartsOfLine, FindsFlaw, FindsKeyFlaw, FindsPartFlaw, GivesWalk, IsOpened, IsPlain, IsViewed, OpensWalk, walked_line, walked_lines, TellsFoundFlaw, TellsIllFormedLine, place_in, walked_places};

use crate::cuts::{count_characters, find_cut};
use crate::group::{GroupKind, PartPlaces};
use crate::groups::{Group, GroupReader, is_line};
use crate::source::{BodyStart, SourceOptions};
use properties_items::error::PropertiesError;
use properties_lines::scanner::Scanner;
use properties_text::encoding::{Encoding, LineEncoding};
use properties_text::escape::{Malformed, first_malformed};
use properties_text::parse::{ParsedSpans, Span, leading_blanks, parse_spans};
use std::alloc::{AllocError, Global};

/// The parts of a logical line, as spans of its bytes.
#[derive(Clone, Copy)]
pub struct Parts {
    /// What it is.
    pub kind: GroupKind,
    /// The key, or the sign of a comment.
    pub key: Span,
    /// The value, or the text of a comment.
    pub value: Span,
}

/// A group of a source. Positions are counted from the source's first byte.
#[derive(Clone, Copy)]
pub struct WalkedGroup {
    /// Its lines.
    pub group: Group,
    /// The position of the byte after it, where the next group begins.
    pub next: usize,
    /// The parts of its logical line.
    pub parts: Parts,
}

/// A malformed escape.
#[derive(Clone, Copy)]
pub struct FoundFlaw {
    /// How it is malformed.
    pub how: Malformed,
    /// The position of its backslash in the source.
    pub place: usize,
    /// The number of the natural line that the backslash is in.
    pub number: usize,
    /// The backslash is this byte of the line, counted from 1.
    pub column: usize,
}

/// The groups of a source, in order, which a view shows. They are those of its body, after any byte order mark.
#[derive(Drop)]
pub struct Walk<'a> {
    alloc: Global,
    source: &'a [u8],
    // The state before the group that was returned last.
    before: Scanner,
    reader: GroupReader,
}

impl<'a> Walk<'a> {
    /// Starts before the first group of a source. A byte order mark selects its encoding, and without one the requested
    /// encoding applies. UTF-16 is refused.
    pub fn open(
        alloc: Global,
        source: &'a [u8],
        encoding: Encoding,
    ) -> Result<Walk<'a>, PropertiesError>
        ensures { OpensWalk (encoding_of encoding) source.now result }
    {
        let opened = BodyStart::open(source, SourceOptions::new(encoding))?;
        let before = Scanner::in_body_at(opened.encoding, opened.start);
        Ok(Walk {
            alloc,
            source,
            before,
            reader: GroupReader::from_state(alloc, before),
        })
    }

    /// Returns the encoding in force.
    pub fn encoding(&self) -> Encoding
        ensures { result ≡ self.now.reader.scanner.encoding }
    {
        self.reader.encoding()
    }

    /// Returns the next group, or `None` after the last one.
    pub fn next(&mut self) -> Result<Option<WalkedGroup>, AllocError>
        requires { IsOpened self.old }
        ensures { GivesWalk self.old result self.new }
    {
        let before = self.reader.state();
        if before.place() == self.source.len() {
            // Nothing is left, or an empty line.
            return Ok(None);
        }
        match self.reader.next(self.source) {
            Ok(Some(group)) => {
                self.before = before;
                let parts = parts_of(self.reader.line(self.source, group));
                Ok(Some(WalkedGroup {
                    group,
                    next: self.reader.place(),
                    parts,
                }))
            }
            Ok(None) => Ok(None),
            Err(error) => {
                self.reader = GroupReader::from_state(self.alloc, before);
                Err(error)
            }
        }
    }

    /// Returns where the next group begins.
    pub fn place(&self) -> usize
        ensures { result ≡ self.now.reader.scanner.at }
    {
        self.reader.place()
    }

    /// Returns how many natural lines the group that was returned last has.
    pub fn line_count(&self, group: WalkedGroup) -> usize
        requires { IsViewed self.now group }
        ensures { result ≡ length (walked_lines self.now) }
    {
        self.reader.number() - self.before.number()
    }

    /// Returns the logical line of the group that was returned last.
    pub fn line(&self, group: WalkedGroup) -> &str
        requires { IsViewed self.now group }
        ensures { result.now ≡ walked_line self.now group }
    {
        self.reader.line(self.source, group.group)
    }

    /// Returns the key of the pair that was returned last, as it stands, with its escapes; or the sign of a comment.
    pub fn raw_key(&self, group: WalkedGroup) -> &str
        requires { IsViewed self.now group }
        ensures { result.now ≡ bytes_in (walked_line self.now group) group.parts.key }
    {
        group.parts.key.cut(self.line(group))
    }

    /// Returns the value of the pair that was returned last, or the text of a comment, as it stands.
    pub fn raw_value(&self, group: WalkedGroup) -> &str
        requires { IsViewed self.now group }
        ensures { result.now ≡ bytes_in (walked_line self.now group) group.parts.value }
    {
        group.parts.value.cut(self.line(group))
    }

    /// Returns the number of the first natural line of the group that was returned last whose bytes aren't text of the
    /// encoding, if there is one.
    pub fn ill_formed_line(&self, group: WalkedGroup) -> Result<Option<usize>, AllocError>
        requires { IsViewed self.now group }
        ensures { IfOk result (λ number. TellsIllFormedLine self.now number) }
    {
        if let Encoding::WINDOWS_1252 = self.before.encoding() {
            // Each byte is a character.
            return Ok(None);
        }
        if self.is_plain(group) {
            return Ok(None);
        }
        let mut lines = GroupReader::from_state(self.alloc, self.before);
        while lines.place() < group.next && lines.find_line(self.source)? {
            let line = lines.raw_line();
            let bytes = &self.source[line.start..line.end];
            if !is_line(lines.encoding(), line, bytes) {
                return Ok(Some(lines.number()));
            }
        }
        Ok(None)
    }

    /// Returns the places of the parts of the group that was returned last.
    pub fn places(&self, group: WalkedGroup) -> Result<PartPlaces, AllocError>
        requires { IsViewed self.now group }
        ensures { IfOk result (λ places. places ≡ walked_places self.now group) }
    {
        let end = group.group.end;
        let parts = group.parts;
        if let GroupKind::Blank = parts.kind {
            return Ok(PartPlaces {
                key_start: end,
                key_end: end,
                value_start: end,
                value_end: end,
            });
        }
        let key_start = self.place_in_line(group, parts.key.start)?;
        let key_end = self.place_in_line(group, parts.key.end)?;
        let value_start = self.place_in_line(group, parts.value.start)?;
        let value_end = match parts.kind {
            GroupKind::Comment => self.place_in_line(group, parts.value.end)?,
            _ => end,
        };
        Ok(PartPlaces {
            key_start,
            key_end,
            value_start,
            value_end,
        })
    }

    /// Returns the first malformed escape of the group that was returned last, if it has one.
    pub fn flaw(&self, group: WalkedGroup) -> Result<Option<FoundFlaw>, AllocError>
        requires { IsViewed self.now group }
        ensures { IfOk result (λ flaw. TellsFoundFlaw self.now flaw) }
    {
        let line = self.line(group);
        let Some((position, how)) = line_flaw(line, group.parts) else {
            return Ok(None);
        };
        let count = count_characters(&line.as_bytes()[..position]);
        let lines = GroupReader::from_state(self.alloc, self.before);
        // A cut after the backslash is in its line.
        let cut = find_cut(lines, self.source, count + 1)?;
        Ok(Some(FoundFlaw {
            how,
            place: cut.at - 1,
            number: cut.number,
            column: cut.at - cut.line_start,
        }))
    }

    // Returns whether the logical line of the group that was returned last is its bytes.
    fn is_plain(&self, group: WalkedGroup) -> bool
        ensures { result ≡ true → IsPlain self.now group }
    {
        self.reader.is_borrowed()
            && !group.group.is_open
            && self.reader.number() == group.group.number
    }

    // Returns the place of a position in the logical line of the group that was returned last.
    #[inline(always)]
    fn place_in_line(&self, group: WalkedGroup, position: usize) -> Result<usize, AllocError>
        requires viewed { IsViewed self.now group }
        requires whole { IsCharBoundary (walked_line self.now group) position }
        ensures { IfOk result (λ place.
            place ≡ place_in self.now (length (chars (take position (walked_line self.now group))))) }
    {
        if self.is_plain(group) {
            return Ok(group.group.start + position);
        }
        let line = self.line(group).as_bytes();
        let count = count_characters(&line[..position]);
        let lines = GroupReader::from_state(self.alloc, self.before);
        Ok(find_cut(lines, self.source, count)?.at)
    }
}

// Returns the parts of a logical line.
fn parts_of(line: &str) -> Parts
    ensures { ArePartsOfLine line.now result }
{
    match parse_spans(line) {
        None => Parts {
            kind: GroupKind::Blank,
            key: Span {
                start: line.len(),
                end: line.len(),
            },
            value: Span {
                start: line.len(),
                end: line.len(),
            },
        },
        Some(ParsedSpans::Comment(text)) => {
            let sign = leading_blanks(line.as_bytes());
            Parts {
                kind: GroupKind::Comment,
                key: Span {
                    start: sign,
                    end: sign + 1,
                },
                value: text,
            }
        }
        Some(ParsedSpans::KVPair(key, value)) => Parts {
            kind: GroupKind::Pair,
            key,
            value,
        },
    }
}

// Returns the position of the first malformed escape of a logical line, and how it is malformed, if it has one.
fn line_flaw(line: &str, parts: Parts) -> Option<(usize, Malformed)>
    requires { ArePartsOfLine line.now parts }
    ensures { FindsFlaw line.now result }
{
    match key_flaw(line, parts) {
        Some(flaw) => Some(flaw),
        None => part_flaw(line, parts.value),
    }
}

fn key_flaw(line: &str, parts: Parts) -> Option<(usize, Malformed)>
    requires { ArePartsOfLine line.now parts }
    ensures { FindsKeyFlaw line.now parts result }
{
    match parts.kind {
        GroupKind::Pair => part_flaw(line, parts.key),
        _ => None,
    }
}

fn part_flaw(line: &str, part: Span) -> Option<(usize, Malformed)>
    requires { IsSpan line.now part }
    ensures { FindsPartFlaw line.now part result }
{
    let (at, how) = first_malformed(LineEncoding::Utf8, part.cut(line).as_bytes())?;
    Some((part.start + at, how))
}
