// How a body is read into parts.

ghost use Rattle.std.specs.Prelude.{◌≡◌, ◌≤◌, ◌<◌, ◌++◌, length, IfOk, None, Some, OnOk};
ghost use Rattle.std.specs.Option.{option_or};
ghost use Rattle.std.specs.BTreeMap.{IsOrdered};
ghost use Rattle.std.specs.String.{string_cmp};
ghost use Rattle.std.specs.Str.{chars};
ghost use Rattle.properties_editing.specs.Private.BodyParts.{AddsTold, AreMasked, AreUnplaced, ClosesGap, ReadsGroupParts, ReadsParts, ending_read, gap_with, no_gap, others_part};
ghost use Rattle.properties_text.specs.Encoding.{encoding_of};
ghost use Rattle.properties_lines.specs.LineSearch.{unit_size};

use super::{NamedKeys, Part, PartKind, PartText, Parts};
use crate::bytes::BodySpan;
use crate::groups::{Closing, Group, GroupReader, closing_after};
use crate::source::Comments;
use properties_items::error::PropertiesError;
use properties_items::found::{find_item, pair_texts, plain_key_size};
use properties_items::line::LineEnding;
use properties_text::encoding::Encoding;
use properties_text::escape::has_backslash;
use std::alloc::{AllocError, Global};
use std::cmp::max;

/// Groups without a key that is named, which have no part yet.
#[derive(Clone, Copy)]
pub struct Gap {
    /// The position of the first byte.
    pub start: usize,
    /// Where the last group starts; before the first byte, or at it, if there is none.
    pub last_start: usize,
    /// The last group, if it is a pair.
    pub last: Option<BodySpan>,
    /// The last pair before that group.
    pub before: Option<BodySpan>,
}

impl Gap {
    // A gap without groups.
    fn empty(start: usize) -> Gap
        ensures { result ≡ no_gap start }
    {
        Gap {
            start,
            last_start: start,
            last: None,
            before: None,
        }
    }

    // Returns the gap with one more group, which starts here and may be a pair.
    fn with_group(self, start: usize, pair: Option<BodySpan>) -> Gap
        ensures { result ≡ gap_with self start pair }
    {
        Gap {
            start: self.start,
            last_start: start,
            last: pair,
            before: self.last_pair(),
        }
    }

    // Returns the last pair.
    fn last_pair(self) -> Option<BodySpan>
        ensures { result ≡ option_or self.last self.before }
    {
        self.last.or(self.before)
    }
}

impl Parts {
    /// Reads a body. No key has places yet. The encoding's units are one byte long.
    pub fn read(
        alloc: Global,
        encoding: Encoding,
        comments: Comments,
        body: &[u8],
        keys: NamedKeys,
    ) -> Result<Parts, PropertiesError>
        requires bytes { unit_size (encoding_of encoding) ≡ 1 }
        requires unplaced { AreUnplaced keys }
        ensures { ReadsParts comments (encoding_of encoding) body.now keys result }
    {
        let mut groups = GroupReader::new(alloc, encoding);
        let mut parts = Parts {
            parts: Vec::new(alloc),
            keys,
            closing: Closing::Nothing,
        };
        let mut gap = Gap::empty(0);
        let mut closing = Closing::Nothing;
        while let Some(group) = groups.next(body)? {
            let line = groups.line(body, group);
            closing = closing_after(group);
            gap = parts.read_group(alloc, comments, body, line, group, groups.place(), gap)?;
        }
        parts.close_gap(gap, body.len())?;
        parts.closing = closing;
        Ok(parts)
    }

    // Reads one more group, of which this is the logical line and which ends in front of `next`. Returns the gap behind
    // it. Copies the key and the value only if all keys are named.
    #[tactic(auto, using(crate::proofs::NamedKeys::plain_lines))]
    #[inline(always)]
    fn read_group(
        &mut self,
        alloc: Global,
        comments: Comments,
        body: &[u8],
        line: &str,
        group: Group,
        next: usize,
        gap: Gap,
    ) -> Result<Gap, PropertiesError>
        requires ordered { IsOrdered string_cmp self.old.keys.places }
        requires masked { AreMasked self.old.keys }
        requires within { group.end ≤ next }
        requires within_body { next ≤ length body.now }
        ensures { ReadsGroupParts comments body.now line.now group next gap self.old result self.new }
    {
        if comments.are_passed_over(line) {
            return Ok(gap.with_group(group.start, None));
        }
        // Most keys have another length than those that are named, and most lines no backslash. These need no look-up.
        if !self.keys.all && !has_backslash(line.as_bytes()) {
            let Some(size) = plain_key_size(line) else {
                return Ok(gap.with_group(group.start, None));
            };
            if !self.keys.may_have(size) {
                return Ok(gap.with_group(group.start, Some(group.span())));
            }
        }
        let Some(found) = find_item(alloc, group.number, line)? else {
            return Ok(gap.with_group(group.start, None));
        };
        let Some((key, value)) = pair_texts(&found, line) else {
            return Ok(gap.with_group(group.start, None));
        };
        Ok(self.add_pair(alloc, body, group, next, key, value, gap)?)
    }

    // Stores one more group, which ends in front of `next` and is a pair. Returns the gap behind it.
    #[inline(always)]
    fn add_pair(
        &mut self,
        alloc: Global,
        body: &[u8],
        group: Group,
        next: usize,
        key: &str,
        value: &str,
        gap: Gap,
    ) -> Result<Gap, AllocError>
        requires ordered { IsOrdered string_cmp self.old.keys.places }
        requires masked { AreMasked self.old.keys }
        requires within { group.end ≤ next }
        requires within_body { next ≤ length body.now }
        ensures { IfOk result (λ after. AddsTold body.now group next (Some (chars key.now, chars value.now)) gap self.old after self.new) }
    {
        let span = group.span();
        let place = self.parts.len() + usize::from(gap.start < span.start);
        if !self.keys.add(alloc, key, value, place)? {
            return Ok(gap.with_group(group.start, Some(span)));
        }
        push_others(&mut self.parts, gap.start, span.start, gap.last_pair())?;
        self.parts.push(Part {
            text: PartText::Span(span),
            ending: ending_at(&body[group.end..next]),
            kind: PartKind::Pair,
        })?;
        Ok(Gap::empty(next))
    }

    // Makes parts of the last gap: the last group, which has no line ending, is one by itself.
    fn close_gap(&mut self, gap: Gap, end: usize) -> Result<(), AllocError>
        ensures { OnOk result (ClosesGap gap end self.old self.new) }
    {
        let start = max(gap.start, gap.last_start);
        push_others(&mut self.parts, gap.start, start, gap.before)?;
        push_others(&mut self.parts, start, end, gap.last)
    }
}

// Makes a part of groups without a key that is named, unless there are none.
fn push_others(
    parts: &mut Vec<Part>,
    start: usize,
    end: usize,
    last: Option<BodySpan>,
) -> Result<(), AllocError>
    ensures { OnOk result (parts.new.items ≡ parts.old.items ++ others_part start end last) }
{
    if start < end {
        parts.push(Part {
            text: PartText::Span(BodySpan { start, end }),
            ending: None,
            kind: PartKind::Others(last),
        })?;
    }
    Ok(())
}

// Returns the line ending that these bytes are.
fn ending_at(bytes: &[u8]) -> Option<LineEnding>
    ensures { result ≡ ending_read bytes.now }
{
    match bytes {
        [b'\r', b'\n', ..] => Some(LineEnding::CRLF),
        [b'\r', ..] => Some(LineEnding::CR),
        [b'\n', ..] => Some(LineEnding::LF),
        _ => None,
    }
}
