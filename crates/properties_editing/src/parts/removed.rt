// Pairs that are taken out of the parts.

ghost use Rattle.std.specs.Prelude.{◌≡◌, false, ◌≤◌, ◌<◌, ◌++◌, drop, length, take, None, Some};
ghost use Rattle.std.specs.BTreeMap.{IsOrdered};
ghost use Rattle.std.specs.String.{string_cmp};
ghost use Rattle.std.specs.Str.{chars};
ghost use Rattle.properties_editing.specs.Private.BodyParts.{AreTextsWithin, IsTextWithin, taken_out, taken_all, without_lf, without_lf_first, all_places};
ghost use Rattle.properties_editing.specs.Private.PartBounds.{AreEmpty, ArePlainFrom};
ghost use Rattle.properties_editing.specs.Private.RemovedParts.{AreBelow, RemovesPairs, key_places, without_empty_end};

use super::{EmptyRun, Part, PartKind, PartText, Parts, Places, is_empty};
use crate::bytes::BodySpan;
use crate::groups::Closing;
use properties_items::line::LineEnding;

impl Parts {
    /// Removes the pairs with a key, and returns whether there were any. No part from `feeds` on begins with an LF.
    /// Parts in `gone` are empty; so are those that it has then. Allocates nothing.
    pub fn remove(&mut self, body: &[u8], key: &str, feeds: usize, gone: &mut EmptyRun) -> bool
        requires ordered { IsOrdered string_cmp self.old.keys.places }
        requires within { AreTextsWithin body.now self.old.parts.items }
        requires places { AreBelow (length self.old.parts.items) (key_places self.old (chars key.now)) }
        requires plain { ArePlainFrom body.now feeds self.old.parts.items }
        requires empty { AreEmpty gone.old.start gone.old.end self.old.parts.items }
        ensures parts { RemovesPairs body.now (chars key.now) self.old result self.new }
        ensures empty { AreEmpty gone.new.start gone.new.end self.new.parts.items }
    {
        let Some(stored) = self.keys.places.remove(key) else {
            return false;
        };
        let Some(places) = &stored.places else {
            return false;
        };
        *gone = take_all_out(body, &mut self.parts, places, feeds, *gone);
        let size = self.parts.len();
        drop_empty_end(&mut self.parts);
        if self.parts.len() < size {
            // No part stands for the last group: it is an empty line.
            self.closing = Closing::Nothing;
        }
        true
    }
}

// Removes the parts in these places, one after another. Returns parts that are empty then, as those in `gone` were.
fn take_all_out(
    body: &[u8],
    parts: &mut Vec<Part>,
    places: &Places,
    feeds: usize,
    mut gone: EmptyRun,
) -> EmptyRun
    requires within { AreTextsWithin body.now parts.old.items }
    requires places { AreBelow (length parts.old.items) (all_places places.now) }
    requires plain { ArePlainFrom body.now feeds parts.old.items }
    requires empty { AreEmpty gone.start gone.end parts.old.items }
    ensures parts { parts.new.items ≡ taken_all body.now (all_places places.now) parts.old.items }
    ensures empty { AreEmpty result.start result.end parts.new.items }
{
    for place in &places.earlier {
        gone = take_out(body, parts, *place, feeds, gone);
    }
    take_out(body, parts, places.last, feeds, gone)
}

// Drops the empty parts at the end, so that a key that is added and removed again leaves none.
#[tactic(auto, using(crate::proofs::PartLists::empty_end, crate::proofs::PartLists::some_end))]
fn drop_empty_end(parts: &mut Vec<Part>)
    ensures { parts.new.items ≡ without_empty_end parts.old.items }
{
    let mut size = parts.len();
    while size > 0 && is_empty(&parts[size - 1]) {
        size -= 1;
    }
    parts.truncate(size);
}

// Removes the part in this place, with its line ending, and an LF behind it if that belongs to the line ending. Returns
// parts that are empty then, as those in `gone` were: if an LF was looked for, those that were passed over.
#[tactic(auto, using(crate::proofs::PartLists::set_behind, crate::proofs::PartLists::set_alone, crate::proofs::PartBounds::empty_from, crate::proofs::PartBounds::empty_taken))]
fn take_out(
    body: &[u8],
    parts: &mut Vec<Part>,
    place: usize,
    feeds: usize,
    mut gone: EmptyRun,
) -> EmptyRun
    requires within { AreTextsWithin body.now parts.old.items }
    requires place { place < length parts.old.items }
    requires plain { ArePlainFrom body.now feeds parts.old.items }
    requires empty { AreEmpty gone.start gone.end parts.old.items }
    ensures parts { parts.new.items ≡ taken_out body.now place parts.old.items }
    ensures empty { AreEmpty result.start result.end (taken_out body.now place parts.old.items) }
{
    if let Some(LineEnding::CR) = parts[place].ending {
        gone = EmptyRun {
            start: place,
            end: drop_line_feed(body, parts, place + 1, feeds, gone),
        };
    }
    parts[place] = Part {
        text: PartText::Span(BodySpan { start: 0, end: 0 }),
        ending: None,
        kind: PartKind::Others(None),
    };
    gone
}

// Removes an LF that comes first in the parts from this place on: it is part of a CR LF. Returns where the empty parts
// that come before it end. Those in `gone` needn't be looked at.
#[tactic(auto, using(crate::proofs::PartLists::within_at, crate::proofs::PartLists::first_cut, crate::proofs::PartBounds::empty_passed))]
fn drop_line_feed(
    body: &[u8],
    parts: &mut Vec<Part>,
    from: usize,
    feeds: usize,
    gone: EmptyRun,
) -> usize
    requires within { AreTextsWithin body.now parts.old.items }
    requires from { from ≤ length parts.old.items }
    requires plain { ArePlainFrom body.now feeds parts.old.items }
    requires empty { AreEmpty gone.start gone.end parts.old.items }
    ensures parts { parts.new.items ≡ take from parts.old.items ++ without_lf_first body.now (drop from parts.old.items) }
    ensures empty { AreEmpty from result parts.old.items }
{
    let end = feeds.min(parts.len());
    let mut place = from;
    if gone.start <= from {
        place = place.max(end.min(gone.end));
    }
    while place < end && is_empty(&parts[place]) {
        place += 1;
    }
    if place < end {
        drop_first(body, &mut parts[place]);
    }
    place
}

// Removes an LF at the front of a part.
fn drop_first(body: &[u8], part: &mut Part)
    requires { IsTextWithin body.now part.old.text }
    ensures { part.new ≡ without_lf body.now part.old }
{
    if let PartText::Span(span) = &mut part.text {
        if span.start < span.end && body[span.start] == b'\n' {
            span.start += 1;
        }
    }
}
