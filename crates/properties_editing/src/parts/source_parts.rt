// A source in parts: its byte order mark, and its body.

ghost use Rattle.std.specs.Prelude.{◌≡◌, ◌≤◌, ◌-◌, ◌++◌, ◌==◌, ◌&&◌, ◌||◌, true, false, drop, length, min, nat_le, not, take, IfOk, OnOk};
ghost use Rattle.std.specs.BTreeMap.{IsOrdered};
ghost use Rattle.std.specs.String.{string_cmp};
ghost use Rattle.std.specs.Str.{chars};
ghost use Rattle.properties_format.specs.Encoding.{begins_like_bom};
ghost use Rattle.properties_text.specs.Encoding.{encoding_of};
ghost use Rattle.properties_lines.specs.LineSearch.{unit_size};
ghost use Rattle.properties_editing.specs.Private.BodyParts.{AreTextsWithin, AreUnplaced, IsTextWithin, part_bytes, parts_bytes, part_text_bytes};
ghost use Rattle.properties_editing.specs.Private.PartBounds.{AreBehindPairs, AreBounds, AreBoundsIn, AreEmpty, ArePlainFrom, IsPairless, HaveNoPair, IsWithoutLf};
ghost use Rattle.properties_editing.specs.Private.RemovedParts.{AreBelow, key_places};
ghost use Rattle.properties_editing.specs.Private.SourceParts.{GuardsParts, ReadsSourceParts, RemovesKeyFromParts, empty_front, first_text, source_bytes};

use super::{Bounds, EmptyRun, NamedKeys, Part, PartKind, PartText, Parts, bytes_of, is_empty};
use crate::source::{BodyStart, Comments};
use properties_items::error::PropertiesError;
use properties_items::line::ending_text;
use properties_text::encoding::byte_order_mark::begins_like_byte_order_mark;
use std::alloc::{AllocError, Global};
use std::cmp::min;

/// A source in parts. The bytes that were read are passed to each call.
#[derive(Drop)]
pub struct SourceParts {
    /// How it was opened.
    pub opened: BodyStart,
    /// The parts of its body.
    pub parts: Parts,
    /// How many parts at the front are empty.
    pub empty: usize,
    /// Whether an LF comes first, so that the rest isn't taken for a byte order mark.
    pub guarded: bool,
    /// Parts that edits needn't look at.
    pub bounds: Bounds,
}

impl SourceParts {
    /// Reads a source. No key has places yet. The encoding's units are one byte long.
    pub fn read(
        alloc: Global,
        opened: BodyStart,
        comments: Comments,
        body: &[u8],
        keys: NamedKeys,
    ) -> Result<SourceParts, PropertiesError>
        requires bytes { unit_size (encoding_of opened.encoding) ≡ 1 }
        requires unplaced { AreUnplaced keys }
        ensures { ReadsSourceParts comments opened body.now keys result }
    {
        let parts = Parts::read(alloc, opened.encoding, comments, body, keys)?;
        let empty = first_some(&parts.parts, 0);
        let size = parts.parts.len();
        Ok(SourceParts {
            opened,
            parts,
            empty,
            guarded: false,
            bounds: Bounds {
                feeds: size,
                pairs: size,
                end: size,
                empty: size,
                gone: EmptyRun { start: 0, end: 0 },
            },
        })
    }

    /// Returns whether nothing comes before this place.
    pub fn is_first(&self, place: usize) -> bool
        ensures { result ≡ (not self.now.guarded && nat_le place self.now.empty) }
    {
        !self.guarded && place <= self.empty
    }

    /// Removes the pairs with a key, and returns whether there were any. Allocates nothing.
    pub fn remove(&mut self, body: &[u8], key: &str) -> bool
        requires ordered { IsOrdered string_cmp self.old.parts.keys.places }
        requires within { AreTextsWithin body.now self.old.parts.parts.items }
        requires places { AreBelow (length self.old.parts.parts.items) (key_places self.old.parts (chars key.now)) }
        requires front { self.old.empty ≡ empty_front self.old.parts.parts.items }
        requires bounds { AreBounds body.now self.old.bounds self.old.parts.parts.items }
        ensures { RemovesKeyFromParts body.now (chars key.now) self.old result self.new }
    {
        self.bounds.feeds = feeds_end(body, &self.parts.parts, self.bounds.feeds);
        let feeds = self.bounds.feeds;
        let told = self.parts.remove(body, key, feeds, &mut self.bounds.gone);
        self.bounds = narrowed(&self.parts.parts, self.bounds);
        self.guard_front(body);
        told
    }

    /// Returns a place behind the last pair. No part from there on has one.
    pub fn pairs_end(&self) -> usize
        requires { AreBoundsIn self.now.bounds self.now.parts.parts.items }
        ensures { AreBehindPairs result self.now.parts.parts.items }
    {
        if self.bounds.end == self.parts.parts.len() {
            self.bounds.pairs
        } else {
            self.parts.parts.len()
        }
    }

    /// Returns a place from which on the parts are empty, but for the last one.
    pub fn empty_start(&self) -> usize
        requires { AreBoundsIn self.now.bounds self.now.parts.parts.items }
        ensures { AreEmpty result (length self.now.parts.parts.items - 1) self.now.parts.parts.items }
    {
        if self.bounds.end == self.parts.parts.len() {
            self.bounds.empty
        } else {
            self.parts.parts.len()
        }
    }

    // Counts the empty parts at the front, and puts an LF first if the rest would be taken for a byte order mark.
    fn guard_front(&mut self, body: &[u8])
        requires within { AreTextsWithin body.now self.old.parts.parts.items }
        requires front { min self.old.empty (length self.old.parts.parts.items) ≤ empty_front self.old.parts.parts.items }
        ensures { GuardsParts body.now self.old self.new }
    {
        let parts = &self.parts.parts;
        self.empty = first_some(parts, min(self.empty, parts.len()));
        self.guarded = self.guarded
            || self.opened.start == 0 && begin_like_mark(body, parts, self.empty);
    }

    /// Returns the bytes of the source, from those that were read. Their memory is taken before the first is copied.
    #[tactic(auto, using(crate::proofs::PartLists::within_at))]
    pub fn to_bytes(&self, alloc: Global, source: &[u8]) -> Result<Vec<u8>, AllocError>
        requires start { self.now.opened.start ≤ length source.now }
        requires within { AreTextsWithin (drop self.now.opened.start source.now) self.now.parts.parts.items }
        ensures { IfOk result (λ bytes. bytes.items ≡ source_bytes source.now self.now) }
    {
        let (mark, body) = source.split_at(self.opened.start);
        let parts = &self.parts.parts;
        let mut bytes = Vec::with_capacity(alloc, self.size(body))?;
        bytes.extend_from_slice(mark)?;
        if self.guarded {
            bytes.push(b'\n')?;
        }
        for part in parts {
            push_part(&mut bytes, body, part)?;
        }
        Ok(bytes)
    }

    // Returns how many bytes the source has.
    #[tactic(auto, using(crate::proofs::PartLists::within_at))]
    fn size(&self, body: &[u8]) -> usize
        requires { AreTextsWithin body.now self.now.parts.parts.items }
    {
        let mut size = self.opened.start.saturating_add(usize::from(self.guarded));
        for part in &self.parts.parts {
            size = size.saturating_add(part_size(body, part));
        }
        size
    }
}

// Returns the place of the first part that isn't empty. All before `from` are.
#[tactic(auto, using(crate::proofs::PartsLeft::front_from, crate::proofs::PartsLeft::front_next, crate::proofs::PartsLeft::front_ends, crate::proofs::PartsLeft::front_all))]
fn first_some(parts: &Vec<Part>, from: usize) -> usize
    requires within { from ≤ length parts.now.items }
    requires empty { from ≤ empty_front parts.now.items }
    ensures { result ≡ empty_front parts.now.items }
{
    let mut place = from;
    while place < parts.len() && is_empty(&parts[place]) {
        place += 1;
    }
    place
}

// Returns a place from which on no part begins with an LF, as none does from `end` on.
#[tactic(auto, using(crate::proofs::PartLists::within_at))]
fn feeds_end(body: &[u8], parts: &Vec<Part>, end: usize) -> usize
    requires within { AreTextsWithin body.now parts.now.items }
    requires plain { ArePlainFrom body.now end parts.now.items }
    ensures { ArePlainFrom body.now result parts.now.items }
{
    let mut place = end.min(parts.len());
    while place > 0 && !begins_with_line_feed(body, &parts[place - 1]) {
        place -= 1;
    }
    place
}

// Returns whether a part begins with an LF that could go.
fn begins_with_line_feed(body: &[u8], part: &Part) -> bool
    requires { IsTextWithin body.now part.now.text }
    ensures { result ≡ false → IsWithoutLf body.now part.now }
{
    match &part.text {
        PartText::Span(span) => span.start < span.end && body[span.start] == b'\n',
        PartText::Own(_) => false,
    }
}

// Returns the bounds of parts that others became, some of which went.
fn narrowed(parts: &Vec<Part>, old: Bounds) -> Bounds
    requires pairs { HaveNoPair old.pairs old.end parts.now.items }
    requires empty { AreEmpty old.empty (old.end - 1) parts.now.items }
    requires gone { AreEmpty old.gone.start old.gone.end parts.now.items }
    ensures feeds { result.feeds ≡ old.feeds }
    ensures bounds { AreBoundsIn result parts.now.items }
{
    let end = old.end.min(parts.len());
    let mut pairs = old.pairs.min(end);
    while pairs > 0 && has_no_pair(&parts[pairs - 1]) {
        pairs -= 1;
    }
    Bounds {
        feeds: old.feeds,
        pairs,
        end,
        empty: empty_before(parts, old.empty, end.saturating_sub(1)),
        gone: EmptyRun {
            start: old.gone.start,
            end: old.gone.end.min(parts.len().saturating_sub(1)),
        },
    }
}

// Returns where the empty parts in front of this place start. Those from `start` on are empty.
fn empty_before(parts: &Vec<Part>, start: usize, end: usize) -> usize
    requires within { end ≤ length parts.now.items }
    requires empty { AreEmpty start end parts.now.items }
    ensures { AreEmpty result end parts.now.items }
{
    let mut place = start.min(end);
    while place > 0 && is_empty(&parts[place - 1]) {
        place -= 1;
    }
    place
}

// Returns whether a part has no pair.
fn has_no_pair(part: &Part) -> bool
    ensures { result ≡ true → IsPairless part.now }
{
    match part.kind {
        PartKind::Others(None) => true,
        PartKind::Pair | PartKind::Others(Some(_)) => false,
    }
}

// Returns whether the parts would be taken for a byte order mark. `first` is the place of the first that isn't empty.
#[tactic(auto, using(crate::proofs::PartLists::within_at, crate::proofs::PartsLeft::front_text, crate::proofs::PartsLeft::front_none))]
fn begin_like_mark(body: &[u8], parts: &Vec<Part>, first: usize) -> bool
    requires within { AreTextsWithin body.now parts.now.items }
    requires first { first ≡ empty_front parts.now.items }
    ensures { result ≡ begins_like_bom (first_text body.now parts.now.items) }
{
    first < parts.len() && begins_like_byte_order_mark(bytes_of(body, &parts[first].text))
}

// Appends the bytes of a part.
fn push_part(bytes: &mut Vec<u8>, body: &[u8], part: &Part) -> Result<(), AllocError>
    requires { IsTextWithin body.now part.now.text }
    ensures { OnOk result (bytes.new.items ≡ bytes.old.items ++ part_bytes body.now part.now) }
{
    bytes.extend_from_slice(bytes_of(body, &part.text))?;
    if let Some(ending) = part.ending {
        bytes.extend_from_slice(ending_text(ending).as_bytes())?;
    }
    Ok(())
}

// Returns how many bytes a part has.
fn part_size(body: &[u8], part: &Part) -> usize
    requires { IsTextWithin body.now part.now.text }
{
    let ending = match part.ending {
        Some(ending) => ending_text(ending).len(),
        None => 0,
    };
    bytes_of(body, &part.text).len().saturating_add(ending)
}
