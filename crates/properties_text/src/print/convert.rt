// Converts a text: writes each of its spellings in another encoding, or in another spelling.

ghost use Rattle.std.specs.Prelude.{◌≡◌, ◌≤◌, ◌<◌, ◌+◌, ◌⊎◌, ◌++◌, ◌∷◌, ℕ, true, false, [], length, take, drop, get_or, OnOk, OnErr, IfOk, not, ◌==◌};
ghost use Rattle.properties_format.specs.Text.{backslash};
ghost use Rattle.properties_format.specs.Escapes.{letter_u, NoSpelling};
ghost use Rattle.properties_format.specs.Printing.{may_be_unescaped};
ghost use Rattle.properties_text.specs.Escaping.{text_in, IsWell, IsRead};
ghost use Rattle.properties_text.specs.Printing.{in_format};
ghost use Rattle.properties_text.specs.Converted.{converted_in, is_stop, StaysUpTo, IsConvertedFront, IsUnitFront};

use super::runs::{is_latin_1, put_literal};
use super::{Repertoire, is_copied};
use crate::encoding::{LineEncoding, ReadCharacter, byte_of};
use crate::escape::read_escape;
use crate::line_buffer::{LineBuffer, make_room};
use byte_blocks::{Byte, ByteClass, Either, NonAscii, find};
use std::alloc::{AllocError, Global};

// Where a run stops if spellings change: at a backslash, and at a non-ASCII byte.
type Stops = Either<NonAscii, Byte<b'\\'>>;

// The room for a block, or for a unit.
const ROOM: usize = 32;

// The room for a unit.
const LONGEST: usize = 16;

// The index after what was put, and the text that is left.
#[derive(Clone, Copy)]
struct Front<'a> {
    end: usize,
    rest: &'a [u8],
}

// How the spellings of a text are converted: from its encoding to a repertoire, and whether escapes become characters.
#[derive(Clone, Copy)]
struct Respelling {
    repertoire: Repertoire,
    readable: bool,
    encoding: LineEncoding,
}

// Returns a text, each of whose spellings is converted: a character outside the repertoire is escaped, and if
// `readable`, the spelling of a non-ASCII character that it has becomes the character. Fails if memory runs out.
pub(crate) fn convert_text(
    alloc: Global,
    repertoire: Repertoire,
    readable: bool,
    encoding: LineEncoding,
    text: &[u8],
) -> Result<LineBuffer, AllocError>
    requires { IsWell encoding text.now }
    ensures { IfOk result (λ line. line ≡ converted_in repertoire readable encoding text.now) }
{
    if !readable && is_copied(encoding, repertoire) {
        return LineBuffer::from_slice(alloc, text);
    }
    let how = Respelling {
        repertoire,
        readable,
        encoding,
    };
    convert_units(alloc, how, text)
}

// Returns a text, each of whose spellings is converted.
fn convert_units(alloc: Global, how: Respelling, text: &[u8]) -> Result<LineBuffer, AllocError>
    requires { IsWell how.encoding text.now }
    ensures { IfOk result (λ line. line ≡ converted_in how.repertoire how.readable how.encoding text.now) }
{
    let mut line = LineBuffer::new(alloc);
    let mut rest = text;
    while !rest.is_empty() {
        rest = convert_front(&mut line, how, rest)?;
    }
    Ok(line)
}

// Makes room, converts a front of the text, and returns the rest.
#[inline(always)]
fn convert_front<'a>(
    line: &mut LineBuffer,
    how: Respelling,
    text: &'a [u8],
) -> Result<&'a [u8], AllocError>
    requires well { IsWell how.encoding text.now }
    requires some { 0 < length text.now }
    ensures well { IfOk result (λ rest. IsWell how.encoding rest.now) }
    ensures shorter { IfOk result (λ rest. length rest.now < length text.now) }
    ensures converted { IfOk result (λ rest.
        line.old ++ converted_in how.repertoire how.readable how.encoding text.now ≡ line.new ++ converted_in how.repertoire how.readable how.encoding rest.now) }
{
    make_room(
        &mut line.bytes,
        line.filled,
        text.len().saturating_add(ROOM),
    )?;
    let front = put_front(&mut line.bytes, line.filled, how, text);
    line.filled = front.end;
    Ok(front.rest)
}

// Copies a run, and converts the units at which it stops.
#[inline(always)]
fn put_front<'a>(out: &mut [u8], at: usize, how: Respelling, text: &'a [u8]) -> Front<'a>
    requires well { IsWell how.encoding text.now }
    requires some { 0 < length text.now }
    requires room { at + (length text.now + 32) ≤ length out.old }
    ensures same_room { length out.new ≡ length out.old }
    ensures within { result.end ≤ length out.new }
    ensures shorter { length result.rest.now < length text.now }
    ensures converted { IsConvertedFront how.repertoire how.readable how.encoding out.old at text.now result.end result.rest.now out.new }
{
    let run = copy_front(out, at, text, run_length(how.readable, text));
    put_units(out, run.end, how, run.rest)
}

// The length of the run at the front, which stays as it is: up to a stop; or if spellings are kept, up to a non-ASCII byte
// and the backslashes before it.
#[inline(always)]
fn run_length(readable: bool, text: &[u8]) -> usize
    ensures within { result ≤ length text.now }
    ensures stays { StaysUpTo readable text.now result }
    ensures stops { result < length text.now → is_stop (get_or text.now result 0) ≡ true }
{
    if readable {
        return first_of::<Stops>(text);
    }
    let past = first_of::<NonAscii>(text);
    let mut count = past;
    while count > 0 && text[count - 1] == b'\\' {
        count -= 1;
    }
    count
}

// The index of the first byte of a class, or the length if there is none.
#[inline(always)]
fn first_of<C: ByteClass>(text: &[u8]) -> usize
    ensures within { result ≤ length text.now }
    ensures before { (k : ℕ) → k < result → C.holds (get_or text.now k 0) ≡ false }
    ensures at { result < length text.now → C.holds (get_or text.now result 0) ≡ true }
{
    match find::<C>(text) {
        Some(first) => first,
        None => text.len(),
    }
}

// Converts the units at which a run stops, as long as there is room.
#[inline(always)]
fn put_units<'a>(out: &mut [u8], at: usize, how: Respelling, text: &'a [u8]) -> Front<'a>
    requires well { IsWell how.encoding text.now }
    requires room { at + 16 ≤ length out.old }
    ensures same_room { length out.new ≡ length out.old }
    ensures within { result.end ≤ length out.new }
    ensures shorter { 0 < length text.now → is_stop (get_or text.now 0 0) ≡ true → length result.rest.now < length text.now }
    ensures converted { IsConvertedFront how.repertoire how.readable how.encoding out.old at text.now result.end result.rest.now out.new }
{
    let mut front = Front {
        end: at,
        rest: text,
    };
    while !front.rest.is_empty()
        && Stops::contains(front.rest[0])
        && out.len() - front.end >= LONGEST
    {
        front = put_unit(out, front.end, how, front.rest);
    }
    front
}

// Converts the unit at the front of a text, which is a stop.
#[inline(always)]
fn put_unit<'a>(out: &mut [u8], at: usize, how: Respelling, text: &'a [u8]) -> Front<'a>
    requires well { IsWell how.encoding text.now }
    requires some { 0 < length text.now }
    requires stop { is_stop (get_or text.now 0 0) ≡ true }
    requires room { at + 16 ≤ length out.old }
    ensures same_room { length out.new ≡ length out.old }
    ensures within { result.end ≤ length out.new }
    ensures unit { IsUnitFront how.repertoire how.readable how.encoding out.old at text.now result.end result.rest.now out.new }
{
    if text[0] != b'\\' {
        let first = how.encoding.first_character(text);
        let end = put_literal(out, at, how.repertoire, first.character);
        return after(end, text, first.length);
    }
    match read_escape(how.encoding, text) {
        Ok(spelt) => put_spelling(out, at, how, text, spelt),
        // No spelling begins here: the backslash and the `u` stay.
        Err(_) => copy_front(out, at, text, 2),
    }
}

// Converts the spelling at the front of a text, which begins with a backslash.
#[inline(always)]
fn put_spelling<'a>(
    out: &mut [u8],
    at: usize,
    how: Respelling,
    text: &'a [u8],
    spelt: ReadCharacter,
) -> Front<'a>
    requires well { IsWell how.encoding text.now }
    requires read { IsRead how.encoding text.now spelt }
    requires escape { get_or text.now 0 0 ≡ backslash }
    requires room { at + 16 ≤ length out.old }
    ensures same_room { length out.new ≡ length out.old }
    ensures within { result.end ≤ length out.new }
    ensures unit { IsUnitFront how.repertoire how.readable how.encoding out.old at text.now result.end result.rest.now out.new }
{
    if spelt.character.is_ascii() {
        return copy_front(out, at, text, spelt.length);
    }
    let readable = how.readable;
    let is_held = has(how.repertoire, spelt.character);
    if begins_unicode(text) {
        if is_held && readable {
            let end = put_literal(out, at, how.repertoire, spelt.character);
            return after(end, text, spelt.length);
        }
        return copy_front(out, at, text, spelt.length);
    }
    if is_held && !readable {
        out[at] = b'\\';
        let end = put_literal(out, at + 1, how.repertoire, spelt.character);
        return after(end, text, spelt.length);
    }
    let end = put_literal(out, at, how.repertoire, spelt.character);
    after(end, text, spelt.length)
}

// Returns whether the second byte is a `u`.
#[inline(always)]
fn begins_unicode(text: &[u8]) -> bool
    ensures yes { result ≡ true → (1 < length text.now) × (get_or text.now 1 0 ≡ letter_u) }
    ensures no { result ≡ false → 1 < length text.now → (get_or text.now 1 0 == letter_u) ≡ false }
{
    text.len() > 1 && text[1] == b'u'
}

#[inline(always)]
fn after<'a>(end: usize, text: &'a [u8], count: usize) -> Front<'a>
    requires { count ≤ length text.now }
    ensures end { result.end ≡ end }
    ensures rest { result.rest.now ≡ drop count text.now }
{
    Front {
        end,
        rest: &text[count..],
    }
}

// Copies this many bytes.
#[inline(always)]
fn copy_front<'a>(out: &mut [u8], at: usize, text: &'a [u8], count: usize) -> Front<'a>
    requires within { count ≤ length text.now }
    requires room { at + count ≤ length out.old }
    ensures same_room { length out.new ≡ length out.old }
    ensures end { result.end ≡ at + count }
    ensures copied { take result.end out.new ≡ take at out.old ++ take count text.now }
    ensures rest { result.rest.now ≡ drop count text.now }
{
    out[at..at + count].copy_from_slice(&text[..count]);
    after(at + count, text, count)
}

// Returns whether the repertoire has a character, which is non-ASCII.
#[inline(always)]
fn has(repertoire: Repertoire, character: char) -> bool
    requires { 0x80 ≤ character }
    ensures { result ≡ may_be_unescaped (in_format repertoire) character }
{
    match repertoire {
        Repertoire::Utf8 => true,
        Repertoire::Windows1252 => byte_of(character).is_some(),
        Repertoire::Latin1 => is_latin_1(character),
        Repertoire::Ascii => false,
    }
}
