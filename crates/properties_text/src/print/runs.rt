// Prints a key or a value from its bytes: by turns a run of bytes that are copied or get a backslash, and a character
// at which such a run stops.

ghost use Rattle.std.specs.Prelude.{◌≡◌, ◌+◌, ◌-◌, ◌*◌, ◌<◌, ◌≤◌, ◌++◌, ℕ, Bool, true, false, length, take, drop, get_or, IfOk, IsOkUnless};
ghost use Rattle.properties_text.specs.declared.escape.UnescapeError.TheVariants.{Memory};
ghost use Rattle.properties_format.specs.Text.{backslash};
ghost use Rattle.properties_format.specs.Encoding.{holds, latin_1_characters, windows_1252};
ghost use Rattle.properties_text.specs.Escaping.{IsWell};
ghost use Rattle.properties_format.specs.Printing.{literal, encoded_text};
ghost use Rattle.properties_text.specs.Printing.{in_format, put_of, puts_of};
ghost use Rattle.properties_text.specs.PrintedTexts.{past_in, ReadsBy, PutsStops, PrintsRest, IsRunPut, StopsIn, meaning_in, Prints, bytes_of};

use super::Repertoire;
use super::bytes::{first_16, put_any, put_byte, put_with_backslashes};
use super::escapes::{LONGEST, put_escape};
use super::part::Part;
use crate::encoding::{LineEncoding, ReadCharacter, byte_of, put_character};
use crate::escape::{Malformed, UnescapeError, read_escape};
use crate::line_buffer::make_room;
use byte_blocks::ByteClass;
use std::alloc::AllocError;
use std::simd::prelude::*;

// For how many bytes of a text room is made at once.
const AT_ONCE: usize = 4096;

// The room beyond two bytes for each byte of a text: what a block may overwrite, or a character be printed as.
const ROOM_FOR_BLOCK: usize = 32;

// Up to where a text was read, and up to where its bytes were put.
#[derive(Clone, Copy)]
struct Put {
    read: usize,
    end: usize,
}

/// Puts what a character of a key or a value is printed as, and returns the index after it.
#[inline(always)]
pub fn put_printed(out: &mut [u8], at: usize, repertoire: Repertoire, character: char) -> usize
    requires { at + 12 ≤ length out.old }
    ensures same_room { length out.new ≡ length out.old }
    ensures within { result ≤ at + 12 }
    ensures put { take result out.new ≡ take at out.old ++ put_of repertoire character }
{
    if character.is_ascii() {
        return put_any(out, at, u32::from(character) as u8);
    }
    put_past(out, at, repertoire, character)
}

// Puts a non-ASCII character, as a `\u` escape if it is outside the repertoire, and returns the index after it.
#[inline(always)]
#[tactic(auto, using(crate::proofs::PrintedTexts::Steps::put_lacked, crate::proofs::PrintedTexts::Steps::put_escaped, crate::proofs::PrintedTexts::Steps::put_latin_1, crate::proofs::PrintedTexts::Steps::put_latin_1_lacked, crate::proofs::PrintedTexts::Steps::latin_1_below))]
fn put_past(out: &mut [u8], at: usize, repertoire: Repertoire, character: char) -> usize
    requires room { at + 12 ≤ length out.old }
    requires past { 0x80 ≤ character }
    ensures same_room { length out.new ≡ length out.old }
    ensures within { result ≤ at + 12 }
    ensures put { take result out.new ≡ take at out.old ++ put_of repertoire character }
{
    match repertoire {
        Repertoire::Utf8 => put_character(out, at, character),
        Repertoire::Windows1252 => match byte_of(character) {
            Some(byte) => {
                out[at] = byte;
                at + 1
            }
            None => put_escape(out, at, character),
        },
        Repertoire::Latin1 if is_latin_1(character) => {
            out[at] = u32::from(character) as u8;
            at + 1
        }
        Repertoire::Latin1 | Repertoire::Ascii => put_escape(out, at, character),
    }
}

/// Returns whether windows-1252 and ISO 8859-1 have a character at the same byte, which isn't one of 80 to 9F.
#[inline(always)]
pub fn is_latin_1(character: char) -> bool
    ensures { result ≡ holds latin_1_characters windows_1252 character }
{
    matches!(character, '\u{0}'..='\u{7f}' | '\u{a0}'..='\u{ff}')
}

/// Puts a character, as a `\u` escape if it is outside the repertoire, and returns the index after it.
#[inline(always)]
pub fn put_literal(out: &mut [u8], at: usize, repertoire: Repertoire, character: char) -> usize
    requires { at + 12 ≤ length out.old }
    ensures same_room { length out.new ≡ length out.old }
    ensures within { result ≤ at + 12 }
    ensures put { let r = in_format repertoire in
        take result out.new ≡ take at out.old ++ encoded_text r.encoding (literal r character) }
{
    if character.is_ascii() {
        out[at] = u32::from(character) as u8;
        return at + 1;
    }
    put_past(out, at, repertoire, character)
}

/// Returns the first character of a text, in which a backslash begins an escape if it is a stop.
#[inline(always)]
pub fn first_character<Stops: ByteClass>(
    encoding: LineEncoding,
    text: &[u8],
) -> Result<ReadCharacter, Malformed>
    requires some { 0 < length text.now }
    requires well { IsWell encoding text.now }
    ensures { ReadsBy (Stops.holds backslash) encoding text.now result }
{
    if begins_escape::<Stops>(text) {
        return read_escape(encoding, text);
    }
    Ok(encoding.first_character(text))
}

// Whether a text begins with a backslash, and that is a stop.
#[inline(always)]
fn begins_escape<Stops: ByteClass>(text: &[u8]) -> bool
    requires { 0 < length text.now }
    ensures yes { result ≡ true → get_or text.now 0 0 ≡ backslash }
    ensures stop { result ≡ true → Stops.holds backslash ≡ true }
    ensures no { result ≡ false → get_or text.now 0 0 ≡ backslash → Stops.holds backslash ≡ false }
{
    Stops::contains(b'\\') && text[0] == b'\\'
}

// Whether a text begins with a stop. Most are backslashes, which are tested again when they are read.
#[inline(always)]
fn begins_with_stop<Stops: ByteClass>(text: &[u8]) -> bool
    requires { 0 < length text.now }
    ensures { result ≡ Stops.holds (get_or text.now 0 0) }
{
    begins_escape::<Stops>(text) || Stops::contains(text[0])
}

// Puts the rest of a text. Kept out of line because most texts have no stops, and there is room for them. `bytes` and
// `size` are separate arguments because a `Part` would be built in memory before each call.
#[inline(never)]
fn print_rest<Stops: ByteClass>(
    out: &mut Vec<u8>,
    at: usize,
    repertoire: Repertoire,
    encoding: LineEncoding,
    bytes: &[u8],
    size: usize,
    from: usize,
) -> Result<usize, UnescapeError>
    requires size { size ≤ length bytes.now }
    requires from { from ≤ size }
    requires at { at ≤ length out.old.items }
    requires stops { StopsIn Stops.holds encoding repertoire }
    requires well { IsWell encoding (past_in encoding repertoire (drop from (take size bytes.now))) }
    ensures printed { PrintsRest encoding repertoire (Stops.holds backslash) out.old.items at (take size bytes.now) from out.new.items result }
    ensures same { take at out.new.items ≡ take at out.old.items }
    ensures longer { length out.old.items ≤ length out.new.items }
{
    let part = Part { bytes, size };
    let mut put = Put {
        read: from,
        end: at,
    };
    while put.read < size {
        put = print_stops::<Stops>(out, put, repertoire, encoding, &bytes[..size])?;
        put = print_run::<Stops>(out, put.end, part, put.read)?;
    }
    Ok(put.end)
}

// Makes room for a character, and puts the characters at which a run stops.
#[inline(always)]
fn print_stops<Stops: ByteClass>(
    out: &mut Vec<u8>,
    start: Put,
    repertoire: Repertoire,
    encoding: LineEncoding,
    text: &[u8],
) -> Result<Put, UnescapeError>
    requires from { start.read ≤ length text.now }
    requires at { start.end ≤ length out.old.items }
    requires stops { StopsIn Stops.holds encoding repertoire }
    requires well { IsWell encoding (past_in encoding repertoire (drop start.read text.now)) }
    ensures put { PutsStops encoding repertoire (Stops.holds backslash) out.old.items start.end text.now start.read out.new.items result }
    ensures same { take start.end out.new.items ≡ take start.end out.old.items }
    ensures longer { length out.old.items ≤ length out.new.items }
    ensures after { IfOk result (λ put. start.end ≤ put.end) }
    ensures onwards { IfOk result (λ put. start.read ≤ put.read) }
    ensures past { IfOk result (λ put. start.read < length text.now → Stops.holds (get_or text.now start.read 0) ≡ true → start.read < put.read) }
{
    make_room(out, start.end, LONGEST)?;
    put_stops::<Stops>(out, start, repertoire, encoding, text)
}

// Prints the characters that can't be copied in blocks, while there is room, and a single byte between two of them,
// which is often a blank.
#[inline(always)]
fn put_stops<Stops: ByteClass>(
    out: &mut [u8],
    start: Put,
    repertoire: Repertoire,
    encoding: LineEncoding,
    text: &[u8],
) -> Result<Put, UnescapeError>
    requires from { start.read ≤ length text.now }
    requires room { start.end + 12 ≤ length out.old }
    requires stops { StopsIn Stops.holds encoding repertoire }
    requires well { IsWell encoding (past_in encoding repertoire (drop start.read text.now)) }
    ensures same_room { length out.new ≡ length out.old }
    ensures put { PutsStops encoding repertoire (Stops.holds backslash) out.old start.end text.now start.read out.new result }
    ensures same { take start.end out.new ≡ take start.end out.old }
    ensures after { IfOk result (λ put. start.end ≤ put.end) }
    ensures onwards { IfOk result (λ put. start.read ≤ put.read) }
    ensures past { IfOk result (λ put. start.read < length text.now → Stops.holds (get_or text.now start.read 0) ≡ true → start.read < put.read) }
{
    let mut put = start;
    while put.read < text.len() && out.len() - put.end >= LONGEST {
        let rest = &text[put.read..];
        if begins_with_stop::<Stops>(rest) {
            let first = match first_character::<Stops>(encoding, rest) {
                Ok(first) => first,
                Err(malformed) => return Err(UnescapeError::Malformed(malformed)),
            };
            let end = put_printed(out, put.end, repertoire, first.character);
            put = Put {
                read: put.read + first.length,
                end,
            };
        } else if rest.len() > 1 && Stops::contains(rest[1]) {
            let end = put_byte(out, put.end, rest[0]);
            put = Put {
                read: put.read + 1,
                end,
            };
        } else {
            break;
        }
    }
    Ok(put)
}

// Fewer bytes than this are put one by one, since a block takes longer.
const FEW: usize = 5;

/// Puts what a text is printed as after the first `at` bytes, and returns the index after it. `Stops` are the bytes
/// that are neither copied nor only get a backslash. Fails with the first malformed escape, or if memory runs out.
#[inline(always)]
pub fn print_bytes<Stops: ByteClass>(
    out: &mut Vec<u8>,
    at: usize,
    repertoire: Repertoire,
    encoding: LineEncoding,
    part: Part<'_>,
) -> Result<usize, UnescapeError>
    requires at { at ≤ length out.old.items }
    requires stops { StopsIn Stops.holds encoding repertoire }
    requires well { IsWell encoding (bytes_of part) }
    ensures printed { Prints (meaning_in encoding (Stops.holds backslash) (bytes_of part.entry)) (puts_of repertoire) out.old.items at out.new.items result }
    ensures same { take at out.new.items ≡ take at out.old.items }
    ensures longer { length out.old.items ≤ length out.new.items }
{
    let Part { bytes, size } = part;
    let put = put_if_room::<Stops>(out, at, part);
    if put.read < size {
        return print_rest::<Stops>(out, put.end, repertoire, encoding, bytes, size, put.read);
    }
    Ok(put.end)
}

// Puts a text up to a stop if there is room for two bytes for each of its bytes, and for what a block may overwrite.
// Otherwise puts nothing.
#[inline(always)]
fn put_if_room<Stops: ByteClass>(out: &mut [u8], at: usize, part: Part<'_>) -> Put
    requires at { at ≤ length out.old }
    requires controls { (b : ℕ) → b < 0x20 → Stops.holds b ≡ true }
    ensures same_room { length out.new ≡ length out.old }
    ensures run { IsRunPut Stops.holds out.old at (bytes_of part.entry) 0 result out.new }
    ensures within { result.end ≤ length out.new }
{
    if (out.len() - at) / 2 >= part.size + ROOM_FOR_BLOCK / 2 {
        return put_run::<Stops>(out, at, part, 0);
    }
    Put { read: 0, end: at }
}

// Makes room for a part of a text from index `from` on, and puts it up to a stop. So a long text takes little more room
// than it is printed in.
#[inline(always)]
fn print_run<Stops: ByteClass>(
    out: &mut Vec<u8>,
    at: usize,
    part: Part<'_>,
    from: usize,
) -> Result<Put, UnescapeError>
    requires from { from ≤ part.size }
    requires at { at ≤ length out.old.items }
    requires controls { (b : ℕ) → b < 0x20 → Stops.holds b ≡ true }
    ensures run { IfOk result (λ put. IsRunPut Stops.holds out.old.items at (bytes_of part.entry) from put out.new.items) }
    ensures within { IfOk result (λ put. put.end ≤ length out.new.items) }
    ensures onwards { IfOk result (λ put. from < part.entry.size → Stops.holds (get_or (bytes_of part.entry) from 0) ≡ false → from < put.read) }
    ensures refused { IsOkUnless result Memory }
    ensures same { take at out.new.items ≡ take at out.old.items }
    ensures longer { length out.old.items ≤ length out.new.items }
{
    let count = AT_ONCE.min(part.size - from);
    make_room(out, at, 2 * count + ROOM_FOR_BLOCK)?;
    let front = Part {
        bytes: part.bytes,
        size: from + count,
    };
    Ok(put_run::<Stops>(out, at, front, from))
}

// Puts the text from index `from` on, up to a stop.
#[inline(always)]
fn put_run<Stops: ByteClass>(out: &mut [u8], at: usize, part: Part<'_>, from: usize) -> Put
    requires from { from ≤ part.size }
    requires room { at + (2 * (part.size - from) + 32) ≤ length out.old }
    requires controls { (b : ℕ) → b < 0x20 → Stops.holds b ≡ true }
    ensures same_room { length out.new ≡ length out.old }
    ensures run { IsRunPut Stops.holds out.old at (bytes_of part.entry) from result out.new }
    ensures within { result.end ≤ length out.new }
    ensures stops { result.read < part.entry.size → Stops.holds (get_or (bytes_of part.entry) result.read 0) ≡ true }
{
    let mut put = Put {
        read: from,
        end: at,
    };
    if part.size - from >= FEW {
        while put.read < part.size && part.bytes.len() - put.read >= 16 {
            let v = u8x16::from_slice(&part.bytes[put.read..]);
            let next = put_block::<Stops>(out, put, part, v);
            if next.read < put.read + 16 {
                return next;
            }
            put = next;
        }
        if part.size - put.read >= 8 {
            let v = first_16(&part.bytes[put.read..]);
            put = put_block::<Stops>(out, put, part, v);
        }
    }
    while put.read < part.size && !Stops::contains(part.bytes[put.read]) {
        let end = put_byte(out, put.end, part.bytes[put.read]);
        put = Put {
            read: put.read + 1,
            end,
        };
    }
    put
}

// Puts the bytes of a block up to a stop.
#[inline(always)]
fn put_block<Stops: ByteClass>(out: &mut [u8], so_far: Put, part: Part<'_>, v: u8x16) -> Put
    requires from { so_far.read ≤ part.size }
    requires room { so_far.end + 32 ≤ length out.old }
    requires controls { (b : ℕ) → b < 0x20 → Stops.holds b ≡ true }
    requires block { take (length part.bytes.now - so_far.read) (take 16 v) ≡ take 16 (drop so_far.read part.bytes.now) }
    ensures same_room { length out.new ≡ length out.old }
    ensures run { IsRunPut Stops.holds out.old so_far.end (bytes_of part.entry) so_far.read result out.new }
    ensures stops { result.read < so_far.read + 16 → result.read < part.entry.size
        → Stops.holds (get_or (bytes_of part.entry) result.read 0) ≡ true }
    ensures block { result.read ≤ so_far.read + 16 }
{
    let kept = Stops::marks(v).clear_front().min(part.size - so_far.read);
    let end = put_with_backslashes(out, so_far.end, v, kept);
    Put {
        read: so_far.read + kept,
        end,
    }
}
