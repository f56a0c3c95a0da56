// What a new pair behind the parts looks like: the last pair, and the last line ending.

ghost use Rattle.std.specs.Prelude.{◌≡◌, false, ◌≤◌, ◌-◌, ◌++◌, ◌∷◌, [], length, take, None, Some};
ghost use Rattle.std.specs.Option.{option_map};
ghost use Rattle.properties_format.specs.Text.{is_empty, line_ending_text, line_feed};
ghost use Rattle.properties_editing.specs.Private.BodyParts.{AreTextsWithin, IsTextWithin, part_span_bytes, part_bytes, parts_bytes};
ghost use Rattle.properties_editing.specs.Private.PartBounds.{AreBehindPairs};
ghost use Rattle.properties_editing.specs.Private.PartEndings.{ArePartsWithin, FindsEnding, HaveNoBytes, IsEndingIn, IsPartWithin, cr_end, last_some, part_cr_end, part_pair};
ghost use Rattle.properties_editing.specs.Private.BodyValues.{IsLastEnding};
ghost use Rattle.properties_format.specs.Computed.Lines.{ends_in_cr};
ghost use Rattle.properties_format.specs.Computed.Body.{safe_ending};
ghost use Rattle.properties_items.specs.Line.{ending_of};

use super::{Part, PartKind, Parts, bytes_in, bytes_of};
use crate::bytes::ends_in_cr;
use properties_items::line::LineEnding;

/// A line ending that was found.
#[derive(Clone, Copy)]
pub struct FoundEnding {
    /// The line ending.
    pub ending: LineEnding,
    /// Whether it is an LF with nothing before it, which belongs to a CR LF if a CR comes before.
    pub is_first: bool,
}

impl Parts {
    /// Returns the last pair, whatever its key. No part from `end` on has one.
    #[tactic(auto, using(crate::proofs::PartEndings::part_within))]
    pub fn last_pair<'a>(&'a self, body: &'a [u8], end: usize) -> Option<&'a [u8]>
        requires within { ArePartsWithin body.now self.now.parts.items }
        requires end { AreBehindPairs end self.now.parts.items }
        ensures { option_map (λ pair. pair.now) result ≡ last_some (part_pair body.now) self.now.parts.items }
    {
        let mut place = end;
        while place > 0 {
            place -= 1;
            if let Some(pair) = last_pair_of(body, &self.parts[place]) {
                return Some(pair);
            }
        }
        None
    }

    /// Returns a line ending that doesn't form a CR LF with the end of the parts.
    pub fn safe_ending(&self, body: &[u8]) -> LineEnding
        requires { AreTextsWithin body.now self.now.parts.items }
        ensures { ending_of result ≡ safe_ending (parts_bytes body.now self.now.parts.items) }
    {
        if self.ends_in_cr(body, self.parts.len()) {
            LineEnding::CR
        } else {
            LineEnding::LF
        }
    }

    /// Returns the last line ending of the parts, or an LF if they have none. The parts from `empty` on have no bytes,
    /// but for the last one.
    #[tactic(auto, using(crate::proofs::PartLists::within_at))]
    pub fn last_ending(&self, body: &[u8], empty: usize) -> LineEnding
        requires within { AreTextsWithin body.now self.now.parts.items }
        requires empty { HaveNoBytes body.now empty (length self.now.parts.items - 1) self.now.parts.items }
        ensures { IsLastEnding (parts_bytes body.now self.now.parts.items) result }
    {
        let mut place = self.parts.len();
        while place > 0 {
            place -= 1;
            if let Some(found) = ending_in(body, &self.parts[place]) {
                if found.is_first && self.ends_in_cr(body, place.min(empty)) {
                    return LineEnding::CRLF;
                }
                return found.ending;
            }
        }
        LineEnding::LF
    }

    // Returns whether the parts before a place end in a CR.
    #[tactic(auto, using(crate::proofs::PartLists::within_at))]
    fn ends_in_cr(&self, body: &[u8], end: usize) -> bool
        requires within { AreTextsWithin body.now self.now.parts.items }
        requires end { end ≤ length self.now.parts.items }
        ensures { result ≡ ends_in_cr (parts_bytes body.now (take end self.now.parts.items)) }
    {
        let mut place = end;
        while place > 0 {
            place -= 1;
            if let Some(is_cr) = part_ends_in_cr(body, &self.parts[place]) {
                return is_cr;
            }
        }
        false
    }
}

// Returns the last pair of a part, whatever its key.
fn last_pair_of<'a>(body: &'a [u8], part: &'a Part) -> Option<&'a [u8]>
    requires { IsPartWithin body.now part.now }
    ensures { option_map (λ pair. pair.now) result ≡ part_pair body.now part.now }
{
    match part.kind {
        PartKind::Pair => Some(bytes_of(body, &part.text)),
        PartKind::Others(None) => None,
        PartKind::Others(Some(span)) => Some(bytes_in(body, &part.text, span)),
    }
}

// Returns whether a part ends in a CR, or `None` if it has no bytes.
fn part_ends_in_cr(body: &[u8], part: &Part) -> Option<bool>
    requires { IsTextWithin body.now part.now.text }
    ensures { result ≡ part_cr_end body.now part.now }
{
    if let Some(ending) = part.ending {
        return Some(is_cr(ending));
    }
    let text = bytes_of(body, &part.text);
    if text.is_empty() {
        None
    } else {
        Some(ends_in_cr(text))
    }
}

// Returns whether a line ending is a CR alone.
fn is_cr(ending: LineEnding) -> bool
    ensures { Some result ≡ cr_end (line_ending_text (ending_of ending)) }
{
    match ending {
        LineEnding::CR => true,
        LineEnding::LF | LineEnding::CRLF => false,
    }
}

// Returns the last line ending of a part.
fn ending_in(body: &[u8], part: &Part) -> Option<FoundEnding>
    requires { IsTextWithin body.now part.now.text }
    ensures { FindsEnding (part_bytes body.now part.now) result }
{
    let text = bytes_of(body, &part.text);
    let Some(ending) = part.ending else {
        return last_ending_in(text);
    };
    Some(match ending {
        LineEnding::LF => line_feed_after(text),
        LineEnding::CR | LineEnding::CRLF => FoundEnding {
            ending,
            is_first: false,
        },
    })
}

// Returns the last line ending of these bytes.
fn last_ending_in(bytes: &[u8]) -> Option<FoundEnding>
    ensures { FindsEnding bytes.now result }
{
    let mut end = bytes.len();
    while end > 0 {
        match bytes[end - 1] {
            b'\n' => return Some(line_feed_after(&bytes[..end - 1])),
            b'\r' => {
                return Some(FoundEnding {
                    ending: LineEnding::CR,
                    is_first: false,
                });
            }
            _ => end -= 1,
        }
    }
    None
}

// Returns the line ending that an LF after these bytes is, or the end of.
fn line_feed_after(front: &[u8]) -> FoundEnding
    ensures { IsEndingIn (front.now ++ line_feed ∷ []) result }
{
    let ending = if ends_in_cr(front) {
        LineEnding::CRLF
    } else {
        LineEnding::LF
    };
    FoundEnding {
        ending,
        is_first: front.is_empty(),
    }
}
