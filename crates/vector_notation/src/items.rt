// Items and errors, as a right side has them.

use crate::notation::{Clause, shown};
use counted_io::CountedRead;
use java_properties::{
    Cause, Encoding, ErrorKind, Line, LineContent, PropertiesError, Stopped, read, read_lines,
};
use std::alloc::{AllocError, Global};
use std::collections::BTreeMap;
use std::io;

/// What is made of an input.
#[derive(Clone, Copy)]
pub enum Reading {
    /// Items with the numbers of their lines.
    Items,
    /// The pairs that are handed over, one after another.
    Pairs,
    /// The last value of each key, or an error alone.
    Map,
}

/// What an item is.
#[derive(Clone, Copy, Debug, PartialEq, Eq)]
pub enum Kind {
    Comment,
    Pair,
    /// An error that is no fault.
    Error,
    Fault,
}

/// An item or an error under the number of its line, and its texts as they are shown.
#[derive(Clone, Drop)]
pub struct Item {
    pub number: usize,
    pub kind: Kind,
    text: String,
}

impl Item {
    /// A comment or a pair that was read.
    pub fn of_line(alloc: Global, line: &Line) -> Result<Item, AllocError> {
        let number = line.line_number();
        match line.content() {
            LineContent::Comment(text) => Ok(Item {
                number,
                kind: Kind::Comment,
                text: shown(alloc, text.as_str())?,
            }),
            LineContent::KVPair(key, value) => {
                Item::of_pair(alloc, number, key.as_str(), value.as_str())
            }
        }
    }

    /// A pair in the line of this number.
    pub fn of_pair(
        alloc: Global,
        number: usize,
        key: &str,
        value: &str,
    ) -> Result<Item, AllocError> {
        let key = shown(alloc, key)?;
        let value = shown(alloc, value)?;
        Ok(Item {
            number,
            kind: Kind::Pair,
            text: format!(in alloc; "{key} {value}")?,
        })
    }

    /// An error of reading: an I/O error, or any other. Its number is 0 if it names no line.
    pub fn of_error(alloc: Global, error: &PropertiesError) -> Result<Item, AllocError> {
        Ok(Item {
            number: error.line_number().unwrap_or(0),
            kind: match error.kind() {
                ErrorKind::Io => Kind::Fault,
                _ => Kind::Error,
            },
            text: error_text(alloc, error)?,
        })
    }

    /// The I/O error that is wanted in the line of this number.
    pub fn of_fault(
        alloc: Global,
        number: usize,
        fault: io::ErrorKind,
    ) -> Result<Item, AllocError> {
        Ok(Item {
            number,
            kind: Kind::Fault,
            text: format!(in alloc; "Io in line {number} by {fault:?}")?,
        })
    }
}

/// Returns all that an error says, as `Io in line 2 by StorageFull`.
pub fn error_text(alloc: Global, error: &PropertiesError) -> Result<String, AllocError> {
    let mut text = format!(in alloc; "{:?}", error.kind())?;
    if let Some(number) = error.line_number() {
        text.push_str(format!(in alloc; " in line {number}")?.as_str())?;
    }
    match error.cause() {
        Cause::None => {}
        Cause::Io(fault) => text.push_str(format!(in alloc; " by {:?}", fault.kind())?.as_str())?,
        Cause::NotHex => text.push_str(" by NotHex")?,
    }
    Ok(text)
}

/// The items, one after another; where pairs are wanted, these alone and without their numbers.
pub fn joined(alloc: Global, reading: Reading, items: &[Item]) -> Result<String, AllocError> {
    let mut all = String::new(alloc);
    for Item { number, kind, text } in items {
        let text = match (reading, *kind) {
            (Reading::Items, Kind::Comment) => format!(in alloc; "comment {number} {text}")?,
            (Reading::Items, Kind::Pair) => format!(in alloc; "pair {number} {text}")?,
            (_, Kind::Comment) => continue,
            (_, Kind::Pair | Kind::Error | Kind::Fault) => text.clone()?,
        };
        if !all.is_empty() {
            all.push_str("; ")?;
        }
        all.push_str(text.as_str())?;
    }
    if all.is_empty() {
        all.push_str("nothing")?;
    }
    Ok(all)
}

/// The lines that `read_lines` gives, and its error.
pub fn whole_lines<R: CountedRead>(
    alloc: Global,
    encoding: Encoding,
    input: &mut R,
) -> (Vec<Line>, Option<PropertiesError>) {
    match read_lines(alloc, input, encoding) {
        Ok(lines) => (lines, None),
        Err(Stopped { lines, error }) => (lines, Some(error)),
    }
}

/// The same as items.
pub fn whole_items<R: CountedRead>(
    alloc: Global,
    encoding: Encoding,
    input: &mut R,
) -> Result<Vec<Item>, AllocError> {
    let (lines, error) = whole_lines(alloc, encoding, input);
    let mut items = Vec::new(alloc);
    for line in &lines {
        items.push(Item::of_line(alloc, line)?)?;
    }
    if let Some(error) = &error {
        items.push(Item::of_error(alloc, error)?)?;
    }
    Ok(items)
}

/// The items that clauses have read of these bytes, each reading after a semicolon.
pub fn items_after(alloc: Global, clauses: &[Clause], bytes: &[u8]) -> Result<String, AllocError> {
    let mut all = String::new(alloc);
    for clause in clauses {
        if let Some(encoding) = clause.reading() {
            let mut input = bytes;
            let items = whole_items(alloc, encoding, &mut input)?;
            all.push_str("; ")?;
            all.push_str(joined(alloc, Reading::Items, items.as_slice())?.as_str())?;
        }
    }
    Ok(all)
}

/// The map that `read` gives, sorted by its keys.
pub fn read_and_sort<R: CountedRead>(
    alloc: Global,
    input: &mut R,
) -> Result<BTreeMap<String, String>, PropertiesError> {
    let mut sorted = BTreeMap::new(alloc);
    for (key, value) in read(alloc, input)?.iter() {
        sorted.insert(key.clone()?, value.clone()?)?;
    }
    Ok(sorted)
}
