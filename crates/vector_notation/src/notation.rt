// The notation of rows. A left side is clauses, which `;` separates, each a word and texts in quotes, of which either
// may be missing. A right side has texts and bytes in quotes.
//
// Texts have `\n`, `\r`, `\t`, `\f`, `\0`, `\\`, `\xHH` for a byte and `\u{..}` for a character. A quote in a text is
// `\x22`, and a bar `\x7c`.

use java_properties::Encoding;
use std::alloc::{AllocError, AllocFailed, Global};
use std::str;

/// What kept a row from being run.
#[derive(Clone, Copy, Debug, PartialEq, Eq)]
pub enum Halt {
    Memory,
    Unreadable,
}

impl From<AllocError> for Halt {
    fn from(_: AllocError) -> Halt {
        Halt::Memory
    }
}

impl<T: Drop> From<AllocFailed<T>> for Halt {
    fn from(_: AllocFailed<T>) -> Halt {
        Halt::Memory
    }
}

/// A word, which may be missing, and the texts after it.
#[derive(Drop)]
pub struct Clause {
    pub word: String,
    pub texts: Vec<Vec<u8>>,
}

impl Clause {
    fn new(alloc: Global) -> Clause {
        Clause {
            word: String::new(alloc),
            texts: Vec::new(alloc),
        }
    }

    /// Returns the word and the texts.
    pub fn parts(&self) -> (&str, &[Vec<u8>]) {
        (self.word.as_str(), self.texts.as_slice())
    }

    /// Returns the bytes of a clause that is a text alone.
    pub fn bytes(&self) -> Result<&[u8], Halt> {
        match self.parts() {
            ("", [bytes]) => Ok(bytes.as_slice()),
            _ => Err(Halt::Unreadable),
        }
    }

    /// Returns the encoding in which a clause, as `read utf-8`, has bytes read.
    pub fn reading(&self) -> Option<Encoding> {
        Encoding::from_name(self.word.as_str().strip_prefix("read ")?)
    }

    fn unless_empty(self) -> Result<Clause, Halt> {
        if self.word.is_empty() && self.texts.is_empty() {
            Err(Halt::Unreadable)
        } else {
            Ok(self)
        }
    }
}

/// In how many ways an input is read.
#[derive(Clone, Copy)]
pub enum Pace {
    /// Whole and byte by byte.
    Quick,
    /// In pieces of each size, and up to a fault after each byte.
    Thorough,
}

/// The left side of a row, in one of the encodings of its heading.
#[derive(Clone, Copy)]
pub struct Row<'a> {
    pub alloc: Global,
    pub encoding: Encoding,
    pub pace: Pace,
    pub clauses: &'a [Clause],
}

/// The source that a row begins with.
#[derive(Clone, Copy)]
pub struct Source<'a> {
    pub alloc: Global,
    pub encoding: Encoding,
    pub bytes: &'a [u8],
}

impl<'a> Row<'a> {
    /// Returns the source that the row begins with, and the clauses after it.
    pub fn source(self) -> Result<(Source<'a>, &'a [Clause]), Halt> {
        let [first, steps @ ..] = self.clauses else {
            return Err(Halt::Unreadable);
        };
        let source = Source {
            alloc: self.alloc,
            encoding: self.encoding,
            bytes: first.bytes()?,
        };
        Ok((source, steps))
    }

    /// Returns the row before the clause at this place, if one is named, and the clauses from there on.
    pub fn split(self, place: Option<usize>) -> (Row<'a>, &'a [Clause]) {
        let place = place.unwrap_or(self.clauses.len());
        let clauses = self.clauses.get(..place).unwrap_or_default();
        let rest = self.clauses.get(place..).unwrap_or_default();
        (Row { clauses, ..self }, rest)
    }
}

/// Returns the clauses of the left side of a row, which `;` separates.
pub fn clauses(alloc: Global, side: &str) -> Result<Vec<Clause>, Halt> {
    let mut clauses = Vec::new(alloc);
    let mut clause = Clause::new(alloc);
    let mut is_in_text = true;
    for part in side.split('"') {
        is_in_text = !is_in_text;
        if is_in_text {
            clause.texts.push(unescaped(alloc, part)?)?;
            continue;
        }
        for (index, words) in (0u64..).zip(part.split(';')) {
            if index > 0 {
                clauses.push(clause.unless_empty()?)?;
                clause = Clause::new(alloc);
            }
            let word = words.trim();
            if !word.is_empty() && !clause.texts.is_empty() {
                return Err(Halt::Unreadable);
            }
            clause.word.push_str(word)?;
        }
    }
    clauses.push(clause.unless_empty()?)?;
    if is_in_text {
        Err(Halt::Unreadable)
    } else {
        Ok(clauses)
    }
}

// How far an escape has been read.
#[derive(Clone, Copy)]
enum Escape {
    Outside,
    Begun,
    Byte,
    Half(u32),
    Brace,
    Code(u32),
}

/// Returns the bytes that a text in quotes stands for.
pub fn unescaped(alloc: Global, text: &str) -> Result<Vec<u8>, Halt> {
    let mut bytes = Vec::new(alloc);
    let mut escape = Escape::Outside;
    for character in text.chars() {
        escape = match (escape, character) {
            (Escape::Outside, '\\') => Escape::Begun,
            (Escape::Outside, _) => {
                push_character(alloc, &mut bytes, character)?;
                Escape::Outside
            }
            (Escape::Begun, 'x') => Escape::Byte,
            (Escape::Begun, 'u') => Escape::Brace,
            (Escape::Begun, _) => {
                bytes.push(short_escape(character).ok_or(Halt::Unreadable)?)?;
                Escape::Outside
            }
            (Escape::Byte, _) => Escape::Half(digit(character)?),
            (Escape::Half(high), _) => {
                let code = high.saturating_mul(16).saturating_add(digit(character)?);
                bytes.push(u8::try_from(code).unwrap_or(0))?;
                Escape::Outside
            }
            (Escape::Brace, '{') => Escape::Code(0),
            (Escape::Brace, _) => return Err(Halt::Unreadable),
            (Escape::Code(code), '}') => {
                let character = char::from_u32(code).ok_or(Halt::Unreadable)?;
                push_character(alloc, &mut bytes, character)?;
                Escape::Outside
            }
            (Escape::Code(code), _) => {
                Escape::Code(code.saturating_mul(16).saturating_add(digit(character)?))
            }
        };
    }
    if matches!(escape, Escape::Outside) {
        Ok(bytes)
    } else {
        Err(Halt::Unreadable)
    }
}

fn short_escape(character: char) -> Option<u8> {
    match character {
        'n' => Some(b'\n'),
        'r' => Some(b'\r'),
        't' => Some(b'\t'),
        'f' => Some(0x0c),
        '0' => Some(0),
        '\\' => Some(b'\\'),
        '"' => Some(b'"'),
        _ => None,
    }
}

fn digit(character: char) -> Result<u32, Halt> {
    character.to_digit(16).ok_or(Halt::Unreadable)
}

fn push_character(alloc: Global, bytes: &mut Vec<u8>, character: char) -> Result<(), AllocError> {
    let mut text = String::new(alloc);
    text.push(character)?;
    bytes.extend_from_slice(text.as_bytes())
}

/// Returns the text in quotes, as a right side has it. A thousand equal characters or more at its front are counted.
pub fn shown(alloc: Global, text: &str) -> Result<String, AllocError> {
    if let Some(first) = text.chars().next() {
        let rest = text.trim_start_matches(first);
        let count = text.chars().count().saturating_sub(rest.chars().count());
        if count >= 1000 {
            return format!(in alloc; "{count} {first:?} {rest:?}");
        }
    }
    format!(in alloc; "{text:?}")
}

/// Returns the bytes in quotes, as a right side has them.
pub fn quoted(alloc: Global, bytes: &[u8]) -> Result<String, AllocError> {
    let mut text = String::from_str(alloc, "\"")?;
    for byte in bytes {
        match *byte {
            b'\n' => text.push_str("\\n")?,
            b'\r' => text.push_str("\\r")?,
            b'\t' => text.push_str("\\t")?,
            b'\\' => text.push_str("\\\\")?,
            0x20..=0x7e => text.push(char::from(*byte))?,
            _ => text.push_str(format!(in alloc; "\\x{byte:02x}")?.as_str())?,
        }
    }
    text.push('"')?;
    Ok(text)
}

/// Returns the text that these bytes are.
pub fn text(bytes: &[u8]) -> Result<&str, Halt> {
    str::from_utf8(bytes).or(Err(Halt::Unreadable))
}

/// Returns the text that these bytes are, as a string of its own.
pub fn owned(alloc: Global, bytes: &[u8]) -> Result<String, Halt> {
    Ok(String::from_str(alloc, text(bytes)?)?)
}
