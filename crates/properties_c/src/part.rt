// The items of a source that goes on: those of the lines that a part of it holds whole.

ghost use Rattle.std.specs.Prelude.{◌≡◌, ◌++◌, ◌&&◌, ◌||◌, ◌≤◌, not, ℕ, List, length, IfOk, IfSome, OnOk};
ghost use Rattle.std.specs.Bool.{Decides};
ghost use Rattle.properties_format.specs.Computed.Cut.{cut_of};
ghost use Rattle.properties_format.specs.Computed.Encoding.{decoded_of};
ghost use Rattle.properties_format.specs.Computed.Lines.{lines_of};
ghost use Rattle.properties_format.specs.Encoding.{ascii_bytes};
ghost use Rattle.properties_format.specs.Lines.{line_endings};
ghost use Rattle.properties_format.specs.Text.{backslash, carriage_return, line_feed};
ghost use Rattle.properties_text.specs.Encoding.{encoding_of};
ghost use Rattle.properties_c.specs.Crossing.{crossing};
ghost use Rattle.properties_c.specs.Items.{GivesPart};
ghost use Rattle.properties_c.specs.Packed.{end_record, packed};
ghost use Rattle.properties_c.specs.Parts.{IsDivided, IsLineEnd};
ghost use Rattle.properties_c.specs.Private.Results.{HasFront, TellsLast, TellsLines, feeds};

use crate::asked::Asked;
use crate::encoding::number_of;
use crate::items::{PackedItems, items_in};
use crate::numbers::push_number;
use crate::out::{refuse, refuse_source, write_up_to};
use crate::records::{Record, push_record};
use crate::sound::refused_line;
use crate::status::Status;
use java_properties::Encoding;
use memchr::memchr;
use properties_lines::scanner::{Scan, Scanner};
use properties_lines::search::unit_size;
use properties_text::encoding::byte_order_mark::encoding_in_force;
use std::alloc::{AllocError, Global};

// The kind of the record that says where a front ends.
const END: usize = 6;

// How many bytes are searched for LFs at once: the count of these fits in a byte.
const BLOCK: usize = 240;

/// Gives the items of the front of a part, and where it ends. At a malformed escape, it gives the items before it.
pub fn give_part(
    alloc: Global,
    part: &[u8],
    encoding: Encoding,
    asked: Asked,
    out: &mut [u8],
    length: &mut usize,
    line: &mut usize,
) -> i32
    ensures { GivesPart asked (encoding_of encoding) part.now (crossing out.old result length.new line.new out.new) }
{
    let front = front_of(part, encoding);
    if let Some(number) = refused_line(asked.is_strict, front, encoding) {
        return refuse_source(number, length, line);
    }
    match front_items(alloc, front, encoding, asked) {
        Ok(items) => write_up_to(&items.bytes, items.status, items.line, out, length, line),
        Err(_) => refuse(Status::NoMemory, length, line),
    }
}

// Returns the bytes up to the last line ending that ends a logical line, whatever follows.
fn front_of(part: &[u8], encoding: Encoding) -> &[u8]
    ensures { (rest : List ℕ) × IsDivided (encoding_of encoding) part.now result.now rest }
{
    let (in_force, start) = encoding_in_force(part, encoding);
    match last_line_end(in_force, &part[start..]) {
        Some(at) => &part[..start + at],
        None => &part[..0],
    }
}

fn last_line_end(encoding: Encoding, body: &[u8]) -> Option<usize>
    ensures { TellsLast (encoding_of encoding) body.now result }
{
    let mut at = body.len();
    while !is_line_end(encoding, &body[..at], &body[at..]) {
        if at == 0 {
            return None;
        }
        at -= 1;
    }
    Some(at)
}

fn is_line_end(encoding: Encoding, before: &[u8], after: &[u8]) -> bool
    ensures { Decides result (IsLineEnd (encoding_of encoding) before.now after.now) }
{
    let carriage_return = carriage_return_in(encoding);
    let is_cr = after.starts_with(carriage_return);
    let is_lf = after.starts_with(line_feed_in(encoding));
    if !is_cr && !is_lf {
        return false;
    }
    let after_cr = before.ends_with(carriage_return);
    let is_open = before.ends_with(backslash_in(encoding));
    let is_whole = before.len() % unit_size(encoding) == 0;
    is_end(is_cr, is_lf, after_cr, is_open, is_whole)
}

fn is_end(is_cr: bool, is_lf: bool, after_cr: bool, is_open: bool, is_whole: bool) -> bool
    ensures { result ≡ (((is_cr || (is_lf && not after_cr)) && is_whole) && not is_open) }
{
    (is_cr || (is_lf && !after_cr)) && is_whole && !is_open
}

fn line_feed_in(encoding: Encoding) -> &'static [u8]
    ensures { result.now ≡ ascii_bytes (encoding_of encoding) line_feed }
{
    match encoding {
        Encoding::WINDOWS_1252 | Encoding::UTF_8 => b"\n".as_slice(),
        Encoding::UTF_16LE => b"\n\0".as_slice(),
        Encoding::UTF_16BE => b"\0\n".as_slice(),
    }
}

fn carriage_return_in(encoding: Encoding) -> &'static [u8]
    ensures { result.now ≡ ascii_bytes (encoding_of encoding) carriage_return }
{
    match encoding {
        Encoding::WINDOWS_1252 | Encoding::UTF_8 => b"\r".as_slice(),
        Encoding::UTF_16LE => b"\r\0".as_slice(),
        Encoding::UTF_16BE => b"\0\r".as_slice(),
    }
}

fn backslash_in(encoding: Encoding) -> &'static [u8]
    ensures { result.now ≡ ascii_bytes (encoding_of encoding) backslash }
{
    match encoding {
        Encoding::WINDOWS_1252 | Encoding::UTF_8 => b"\\".as_slice(),
        Encoding::UTF_16LE => b"\\\0".as_slice(),
        Encoding::UTF_16BE => b"\0\\".as_slice(),
    }
}

// Returns the items of a front, packed, and where it ends.
fn front_items(
    alloc: Global,
    front: &[u8],
    encoding: Encoding,
    asked: Asked,
) -> Result<PackedItems, AllocError>
    ensures { IfOk result (λ items. HasFront asked (encoding_of encoding) front.now items) }
{
    let mut items = items_in(alloc, front, encoding, asked)?;
    if let Status::Done = items.status {
        push_end(alloc, &mut items.bytes, front, encoding)?;
    }
    Ok(items)
}

// Appends the record that says where the front ends.
fn push_end(
    alloc: Global,
    bytes: &mut Vec<u8>,
    front: &[u8],
    encoding: Encoding,
) -> Result<(), AllocError>
    ensures { let e = encoding_of encoding in
        OnOk result (bytes.new.items ≡ bytes.old.items ++ packed (end_record e front.now (line_endings (lines_of (decoded_of e front.now))))) }
{
    let (in_force, lines) = count_endings(front, encoding);
    let mut value = Vec::new(alloc);
    push_number(&mut value, front.len())?;
    push_number(&mut value, number_of(in_force) as usize)?;
    push_record(
        bytes,
        Record {
            kind: END,
            line: lines,
            key: b"".as_slice(),
            value: &value,
        },
    )
}

// Returns the encoding in force in a source, and how many line endings it has.
fn count_endings(source: &[u8], encoding: Encoding) -> (Encoding, usize)
    ensures { TellsLines (encoding_of encoding) source.now (encoding_of result.0) result.1 }
{
    let (in_force, start) = encoding_in_force(source, encoding);
    match count_feeds(in_force, &source[start..]) {
        Some(lines) => (in_force, lines),
        None => count_lines(source, encoding),
    }
}

// Returns the same, by a scan of the body.
fn count_lines(source: &[u8], encoding: Encoding) -> (Encoding, usize)
    ensures { TellsLines (encoding_of encoding) source.now (encoding_of result.0) result.1 }
{
    let (in_force, start) = encoding_in_force(source, encoding);
    let body = &source[start..];
    let mut scanner = Scanner::in_body(in_force);
    loop {
        match scanner.next(body, true) {
            Scan::Line => {}
            Scan::End => return (in_force, scanner.number() - 1),
            // No slice has that many lines.
            Scan::TooMany => unreachable!(),
            Scan::More => unreachable!(),
        }
    }
}

// Returns how many lines end in a body, if LFs alone end them and units have one byte.
#[tactic(auto, using(crate::proofs::PartedLines::feeding))]
fn count_feeds(encoding: Encoding, body: &[u8]) -> Option<usize>
    ensures { IfSome result (λ lines. lines ≡ line_endings (cut_of (encoding_of encoding) body.now)) }
{
    match encoding {
        Encoding::UTF_16LE | Encoding::UTF_16BE => None,
        Encoding::WINDOWS_1252 | Encoding::UTF_8 => {
            if memchr(b'\r', body).is_some() {
                return None;
            }
            Some(feeds_in(body))
        }
    }
}

#[tactic(auto, using(crate::proofs::PartedLines::feeding))]
fn feeds_in(body: &[u8]) -> usize
    ensures { result ≡ feeds body.now }
{
    let mut count = 0;
    let mut rest = body;
    while rest.len() > BLOCK {
        let (block, after) = rest.split_at(BLOCK);
        count += usize::from(feeds_in_block(block));
        rest = after;
    }
    count + usize::from(feeds_in_block(rest))
}

// Returns the same in a byte, so that one instruction counts several bytes.
#[inline(always)]
fn feeds_in_block(block: &[u8]) -> u8
    requires { length block.now ≤ 240 }
    ensures { result ≡ feeds block.now }
{
    let mut count = 0;
    for byte in block {
        if *byte == b'\n' {
            count += 1;
        }
    }
    count
}
