// What is read before a fault, reckoned from what is read of the whole input.
//
// Non-ASCII characters are of no weight for where lines end and which of them are joined, so they are not decoded.

use super::FAULT;
use java_properties::Encoding;
use std::alloc::{AllocError, Global};
use vector_notation::items::{Item, Kind};

// What replaces each non-ASCII character.
const OTHER: u8 = 0xff;

/// The items whose last line has ended, out of those of the whole input, and the fault where none of them is an error.
pub fn items_before_fault(
    alloc: Global,
    encoding: Encoding,
    front: &[u8],
    whole: &[Item],
) -> Result<Vec<Item>, AllocError> {
    let characters = ascii_characters(alloc, encoding, front)?;
    let lines = ended_lines(alloc, characters.as_slice())?;
    let ended = ended_joins(alloc, lines.as_slice())?;
    let mut items = Vec::new(alloc);
    let mut fails = false;
    for item in whole {
        if ended.contains(&item.number) {
            fails = item.kind == Kind::Error;
            items.push(item.clone()?)?;
        }
    }
    if !fails {
        let number = lines.len().saturating_add(1);
        items.push(Item::of_fault(alloc, number, FAULT)?)?;
    }
    Ok(items)
}

// The characters of the bytes after the byte order mark, non-ASCII ones alike.
fn ascii_characters(alloc: Global, asked: Encoding, bytes: &[u8]) -> Result<Vec<u8>, AllocError> {
    let (encoding, body) = match bytes {
        [0xef, 0xbb, 0xbf, body @ ..] => (Encoding::UTF_8, body),
        [0xfe, 0xff, body @ ..] => (Encoding::UTF_16BE, body),
        [0xff, 0xfe, body @ ..] => (Encoding::UTF_16LE, body),
        _ => (asked, bytes),
    };
    match encoding {
        Encoding::WINDOWS_1252 | Encoding::UTF_8 => Vec::from_slice(alloc, body),
        Encoding::UTF_16LE | Encoding::UTF_16BE => ascii_units(alloc, encoding, body),
    }
}

fn ascii_units(alloc: Global, encoding: Encoding, body: &[u8]) -> Result<Vec<u8>, AllocError> {
    let mut units = Vec::new(alloc);
    for unit in body.chunks(2) {
        units.push(match (encoding, unit) {
            (Encoding::UTF_16LE, [low, 0]) | (Encoding::UTF_16BE, [0, low]) => *low,
            _ => OTHER,
        })?;
    }
    Ok(units)
}

// The natural lines that a line ending ends.
fn ended_lines(alloc: Global, characters: &[u8]) -> Result<Vec<Vec<u8>>, AllocError> {
    let mut lines = Vec::new(alloc);
    let mut line = Vec::new(alloc);
    let mut after_cr = false;
    for character in characters {
        let is_line_feed = *character == b'\n';
        let is_cr = *character == b'\r';
        if is_cr || is_line_feed && !after_cr {
            lines.push(line)?;
            line = Vec::new(alloc);
        } else if !is_line_feed {
            line.push(*character)?;
        }
        after_cr = is_cr;
    }
    Ok(lines)
}

// The numbers of the first lines of those joins whose last line is among these lines.
fn ended_joins(alloc: Global, lines: &[Vec<u8>]) -> Result<Vec<usize>, AllocError> {
    let mut numbers = Vec::new(alloc);
    let mut first = None;
    for (number, line) in (1..).zip(lines) {
        let is_whole_comment = first.is_none() && is_comment(line.as_slice());
        let number = *first.get_or_insert(number);
        if is_whole_comment || !ends_open(line.as_slice()) {
            numbers.push(number)?;
            first = None;
        }
    }
    Ok(numbers)
}

fn is_comment(line: &[u8]) -> bool {
    let text = line.trim_ascii_start();
    text.starts_with(b"#") || text.starts_with(b"!")
}

fn ends_open(line: &[u8]) -> bool {
    let mut is_open = false;
    for character in line {
        is_open = *character == b'\\' && !is_open;
    }
    is_open
}
