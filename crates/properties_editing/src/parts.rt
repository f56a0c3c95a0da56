// The parts of a body that is edited: the pairs with keys that edits name, and what stands between them.

ghost use Rattle.std.specs.Prelude.{◌≡◌, false, Some};
ghost use Rattle.properties_format.specs.Text.{is_empty};
ghost use Rattle.properties_editing.specs.Private.BodyParts.{IsLastWithin, IsTextWithin, is_empty_part, part_text_bytes, part_span_bytes};

use crate::bytes::{BodySpan, bytes_at};
use crate::groups::Closing;
use properties_items::line::LineEnding;
use std::collections::BTreeMap;

mod changed;
mod endings;
mod key_order;
mod named_keys;
mod read;
mod removed;
pub mod source_parts;

/// Where the bytes of a part are.
#[derive(Drop)]
pub enum PartText {
    /// In the body that was read.
    Span(BodySpan),
    /// They are new.
    Own(Vec<u8>),
}

/// What a part is.
#[derive(Clone, Copy)]
pub enum PartKind {
    /// One pair, with a key that edits name.
    Pair,
    /// Groups without such a pair, and the last pair among them, in the body or in own bytes, as the text is. An empty
    /// part is of this kind.
    Others(Option<BodySpan>),
}

/// A part of a body.
#[derive(Drop)]
pub struct Part {
    /// Its bytes, without this line ending.
    pub text: PartText,
    /// The line ending of a pair; that of other groups is in the text.
    pub ending: Option<LineEnding>,
    /// What it is.
    pub kind: PartKind,
}

/// The parts that are pairs with a key.
#[derive(Drop)]
pub struct KeyPlaces {
    /// Their places, if there are such parts.
    pub places: Option<Places>,
    /// The value of the last one, if every key is named.
    pub value: String,
}

/// The places of parts, of which there is one at least.
#[derive(Drop)]
pub struct Places {
    /// The last one. A key with one pair takes no memory for others.
    pub last: usize,
    /// Those before it, in order.
    pub earlier: Vec<usize>,
}

/// The keys whose pairs have parts of their own.
#[derive(Drop)]
pub struct NamedKeys {
    /// Whether these are all keys.
    pub all: bool,
    /// The keys that were named, or read, and the places of their pairs.
    pub places: BTreeMap<String, KeyPlaces>,
    /// The lengths of the keys that were named before the body is read, modulo 64, as bits. They tell most other keys.
    pub lengths: u64,
}

/// A body in parts.
#[derive(Drop)]
pub struct Parts {
    /// The parts, in order. A part that was removed leaves an empty one.
    pub parts: Vec<Part>,
    /// The keys that have parts.
    pub keys: NamedKeys,
    /// What separates a new pair from the last group.
    pub closing: Closing,
}

/// Places that say which parts edits needn't look at. They spare that many edits each pass over the same parts.
#[derive(Clone, Copy)]
pub struct Bounds {
    /// No part from here on begins with an LF.
    pub feeds: usize,
    /// No part from here up to `end` has a pair.
    pub pairs: usize,
    /// Where these parts end. Those behind were added.
    pub end: usize,
    /// The parts from here up to the last one in front of `end` are empty.
    pub empty: usize,
    /// Parts that are empty since pairs went.
    pub gone: EmptyRun,
}

/// Empty parts, one after another.
#[derive(Clone, Copy)]
pub struct EmptyRun {
    /// The place of the first one.
    pub start: usize,
    /// The place behind the last one. There are none unless it is behind `start`.
    pub end: usize,
}

// Returns the bytes of a part's text.
fn bytes_of<'a>(body: &'a [u8], text: &'a PartText) -> &'a [u8]
    requires { IsTextWithin body.now text.now }
    ensures { result.now ≡ part_text_bytes body.now text.now }
{
    match text {
        PartText::Span(span) => bytes_at(body, *span),
        PartText::Own(bytes) => bytes.as_slice(),
    }
}

// Returns the bytes of a span where a text is: in the body, or in own bytes.
fn bytes_in<'a>(body: &'a [u8], text: &'a PartText, span: BodySpan) -> &'a [u8]
    requires { IsLastWithin body.now text.now (Some span) }
    ensures { result.now ≡ part_span_bytes body.now text.now span }
{
    match text {
        PartText::Span(_) => bytes_at(body, span),
        PartText::Own(bytes) => bytes_at(bytes, span),
    }
}

// Returns whether a part has no bytes.
fn is_empty(part: &Part) -> bool
    ensures { result ≡ is_empty_part part.now }
{
    match &part.text {
        PartText::Span(span) => span.start == span.end,
        PartText::Own(_) => false,
    }
}
