// The parts of a line: words, and texts in quotes.

use std::alloc::{AllocError, Global};
use std::mem;
use vector_notation::notation::{Halt, unescaped};

/// A word or a text.
#[derive(Drop)]
pub struct Part {
    pub bytes: Vec<u8>,
    pub is_quoted: bool,
}

impl Part {
    /// Returns whether this is the word, without quotes.
    pub fn is_word(&self, word: &str) -> bool {
        !self.is_quoted && self.bytes.as_slice() == word.as_bytes()
    }
}

// Where in a line a character stands, and how often the text is repeated that it is in, if a number says so.
#[derive(Clone, Copy)]
enum Place {
    Between,
    Word,
    Text(Option<u64>),
    Escape(Option<u64>),
}

// The parts up to a character.
#[derive(Drop)]
struct Splitter {
    alloc: Global,
    parts: Vec<Part>,
    text: String,
    place: Place,
}

/// Returns the parts of a line.
pub fn parts(alloc: Global, line: &str) -> Result<Vec<Part>, Halt> {
    let mut splitter = Splitter {
        alloc,
        parts: Vec::new(alloc),
        text: String::new(alloc),
        place: Place::Between,
    };
    for character in line.chars() {
        splitter.take(character)?;
    }
    splitter.take(' ')?;
    let Splitter {
        alloc: _alloc,
        parts,
        text: _text,
        place,
    } = splitter;
    match place {
        Place::Between => Ok(parts),
        _ => Err(Halt::Unreadable),
    }
}

impl Splitter {
    fn take(&mut self, character: char) -> Result<(), Halt> {
        self.place = match (self.place, character) {
            (Place::Between, ' ') => Place::Between,
            (Place::Between, '"') => Place::Text(None),
            (Place::Word, ' ') => {
                self.end_word()?;
                Place::Between
            }
            (Place::Word, '"') if count(self.text.as_str()).is_some() => {
                let text = mem::replace(&mut self.text, String::new(self.alloc));
                Place::Text(count(text.as_str()))
            }
            (Place::Text(count), '"') => {
                self.end_text(count)?;
                Place::Between
            }
            (place, _) => {
                self.text.push(character)?;
                after(place, character)
            }
        };
        Ok(())
    }

    fn end_word(&mut self) -> Result<(), AllocError> {
        let text = mem::replace(&mut self.text, String::new(self.alloc));
        self.parts.push(Part {
            bytes: text.as_bytes().to_vec(self.alloc)?,
            is_quoted: false,
        })?;
        Ok(())
    }

    fn end_text(&mut self, count: Option<u64>) -> Result<(), Halt> {
        let text = mem::replace(&mut self.text, String::new(self.alloc));
        let bytes = match count {
            Some(count) => repeated(self.alloc, count, text.as_str())?,
            None => unescaped(self.alloc, text.as_str())?,
        };
        self.parts.push(Part {
            bytes,
            is_quoted: true,
        })?;
        Ok(())
    }
}

// Returns the place after a character that is part of a word or of a text.
fn after(place: Place, character: char) -> Place {
    match place {
        Place::Between | Place::Word => Place::Word,
        Place::Text(count) if character == '\\' => Place::Escape(count),
        Place::Text(count) | Place::Escape(count) => Place::Text(count),
    }
}

// Returns the number in front of a `*`.
fn count(word: &str) -> Option<u64> {
    word.strip_suffix('*')?.parse::<u64>().ok()
}

// Returns a text that many times, in which `{}` is the number of the time.
fn repeated(alloc: Global, count: u64, text: &str) -> Result<Vec<u8>, Halt> {
    let mut all = String::new(alloc);
    for number in 1..=count {
        let mut pieces = text.split('{');
        all.push_str(pieces.next().unwrap_or(""))?;
        for piece in pieces {
            match piece.strip_prefix('}') {
                Some(rest) => all.push_str(format!(in alloc; "{number}{rest}")?.as_str())?,
                None => {
                    all.push('{')?;
                    all.push_str(piece)?;
                }
            }
        }
    }
    unescaped(alloc, all.as_str())
}
