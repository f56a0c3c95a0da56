// A part that gets other bytes, and a pair that is added behind the parts.

ghost use Rattle.std.specs.Prelude.{◌≡◌, ◌<◌, get_or, length, vec_capacity, vec_len, IfOk, None, Some};
ghost use Rattle.std.specs.BTreeMap.{IsOrdered};
ghost use Rattle.std.specs.String.{string_cmp};
ghost use Rattle.std.specs.Str.{chars};
ghost use Rattle.properties_editing.specs.Private.BodyParts.{AreTextsWithin, IsTextWithin, no_part, part_text_bytes};
ghost use Rattle.properties_editing.specs.Private.ChangedParts.{AddsPair, ClosesLast, ClosesPart, HasBytes, closing_after_new, key_place, last_place, with_last};

use super::{Part, PartKind, PartText, Parts, bytes_of};
use crate::bytes::{BodySpan, concatenated};
use crate::groups::Closing;
use properties_items::line::{LineEnding, ending_text};
use std::alloc::{AllocError, Global};

impl Parts {
    /// Returns the place of the last pair with a key.
    pub fn find(&self, key: &str) -> Option<usize>
        ensures { result ≡ key_place self.now.keys (chars key.now) }
    {
        self.keys.places.get(key)?.last_place()
    }

    /// Returns the bytes of a part, without the line ending of a pair.
    #[tactic(auto, using(crate::proofs::PartLists::within_at))]
    pub fn text<'a>(&'a self, body: &'a [u8], place: usize) -> &'a [u8]
        requires place { place < length self.now.parts.items }
        requires within { AreTextsWithin body.now self.now.parts.items }
        ensures { result.now ≡ part_text_bytes body.now (get_or self.now.parts.items place no_part).text }
    {
        bytes_of(body, &self.parts[place].text)
    }

    /// Gives the last pair with a key, which is in this place, other bytes and another value. It keeps its line ending.
    pub fn replace(&mut self, place: usize, key: &str, bytes: Vec<u8>, value: String)
        requires place { place < length self.old.parts.items }
        requires ordered { IsOrdered string_cmp self.old.keys.places }
        ensures { HasBytes place (chars key.now) bytes value self.old self.new }
    {
        let part = &mut self.parts[place];
        self.closing = closing_after_new(part.ending, self.closing);
        part.text = PartText::Own(bytes);
        self.keys.set_value(key, value);
    }

    /// Adds a pair with these bytes and this line ending behind the parts. `by` separates it from the last group. If
    /// memory runs out and the key is new, nothing changes.
    pub fn append(
        &mut self,
        alloc: Global,
        body: &[u8],
        key: &str,
        value: &str,
        by: LineEnding,
        bytes: Vec<u8>,
        ending: LineEnding,
    ) -> Result<(), AllocError>
        requires within { AreTextsWithin body.now self.old.parts.items }
        requires ordered { IsOrdered string_cmp self.old.keys.places }
        ensures { AddsPair body.now (chars key.now) (chars value.now) by bytes ending self.old result self.new }
    {
        let closed = self.closed_last(alloc, body, by)?;
        self.parts.reserve(1)?;
        let place = self.parts.len();
        self.keys.add_any(alloc, key, value, place)?;
        set_last(&mut self.parts, closed);
        self.parts.push_reserved(Part {
            text: PartText::Own(bytes),
            ending: Some(ending),
            kind: PartKind::Pair,
        });
        self.closing = Closing::Nothing;
        Ok(())
    }

    // Returns the last part with what closes its group, or `None` if nothing has to.
    #[tactic(auto, using(crate::proofs::PartLists::within_at, std::proofs::lemmas::List::get_or_default))]
    fn closed_last(
        &self,
        alloc: Global,
        body: &[u8],
        by: LineEnding,
    ) -> Result<Option<Part>, AllocError>
        requires { AreTextsWithin body.now self.now.parts.items }
        ensures { IfOk result (ClosesLast body.now by self.now.closing self.now.parts.items) }
    {
        let size = self.parts.len();
        if size == 0 {
            return Ok(None);
        }
        let part = &self.parts[size - 1];
        match self.closing {
            Closing::Nothing => Ok(None),
            Closing::OneEnding => Ok(Some(closed_part(alloc, body, part, b"", by)?)),
            Closing::TwoEndings => {
                let opened = ending_text(by).as_bytes();
                Ok(Some(closed_part(alloc, body, part, opened, by)?))
            }
        }
    }
}

// Returns a part whose group is closed by a line ending. `opened` comes before that: it ends a line that is left open.
fn closed_part(
    alloc: Global,
    body: &[u8],
    part: &Part,
    opened: &[u8],
    by: LineEnding,
) -> Result<Part, AllocError>
    requires { IsTextWithin body.now part.now.text }
    ensures { IfOk result (λ closed. ClosesPart body.now opened.now by part.now closed) }
{
    let text = bytes_of(body, &part.text);
    match part.kind {
        PartKind::Pair => Ok(Part {
            text: PartText::Own(concatenated(alloc, text, opened, b"")?),
            ending: Some(by),
            kind: PartKind::Pair,
        }),
        PartKind::Others(last) => {
            let ending = ending_text(by).as_bytes();
            let bytes = concatenated(alloc, text, opened, ending)?;
            let end = bytes.len() - ending.len();
            Ok(Part {
                text: PartText::Own(bytes),
                ending: None,
                kind: PartKind::Others(last.and(Some(BodySpan { start: 0, end }))),
            })
        }
    }
}

// Puts a part in the place of the last one, if it is given.
#[tactic(auto, using(crate::proofs::PartLists::set_in_end, crate::proofs::PartLists::none_in_end))]
fn set_last(parts: &mut Vec<Part>, part: Option<Part>)
    ensures items { parts.new.items ≡ with_last part parts.old.items }
    ensures size { vec_len parts.new ≡ vec_len parts.old }
    ensures capacity { vec_capacity parts.new ≡ vec_capacity parts.old }
{
    if let Some(part) = part {
        let size = parts.len();
        if size > 0 {
            parts[size - 1] = part;
        }
    }
}

// Returns what separates a new pair from the last group, after a part that ends so got other bytes: without a line
// ending, it is the last group.
fn closing_after_new(ending: Option<LineEnding>, old: Closing) -> Closing
    ensures { result ≡ closing_after_new ending old }
{
    match ending {
        None => Closing::OneEnding,
        Some(_) => old,
    }
}
