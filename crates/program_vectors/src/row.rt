// A row: a command line, the files before it, and what is wanted of it.

use crate::parts::{Part, parts};
use std::alloc::{AllocError, Global};
use vector_notation::notation::{Halt, owned, text};

/// What is in a directory under a name.
#[derive(Drop)]
pub struct Entry {
    pub name: String,
    pub content: Content,
}

/// A directory, or the bytes of a file.
#[derive(Drop)]
pub enum Content {
    Folder,
    Bytes(Vec<u8>),
}

/// What a stream is to get: a text, a text and then other lines, or anything.
#[derive(Drop)]
pub enum Wanted {
    All(Vec<u8>),
    First(Vec<u8>),
    Any,
}

impl Wanted {
    /// Returns the part of what a stream got that is compared, and what it is to be.
    pub fn compared<'a>(&'a self, found: &'a [u8]) -> Option<(&'a [u8], &'a [u8])> {
        match self {
            Wanted::All(bytes) => Some((found, bytes.as_slice())),
            Wanted::First(bytes) => {
                let first = found.get(..bytes.len()).unwrap_or(found);
                Some((first, bytes.as_slice()))
            }
            Wanted::Any => None,
        }
    }

    fn add(&mut self, alloc: Global, parts: &[Part]) -> Result<(), Halt> {
        let (parts, is_whole) = match parts {
            [one] if one.is_word("..") => {
                *self = Wanted::Any;
                return Ok(());
            }
            [texts @ .., last] if last.is_word("..") => (texts, false),
            texts => (texts, true),
        };
        let mut bytes = match self {
            Wanted::All(bytes) | Wanted::First(bytes) => bytes.as_slice().to_vec(alloc)?,
            Wanted::Any => return Err(Halt::Unreadable),
        };
        add_texts(&mut bytes, parts)?;
        *self = if is_whole {
            Wanted::All(bytes)
        } else {
            Wanted::First(bytes)
        };
        Ok(())
    }
}

/// A command line, what is there before it, and what it prints and leaves.
#[derive(Drop)]
pub struct Row {
    alloc: Global,
    /// The command line as the row has it, or nothing before that line was read, and its number.
    pub line: String,
    pub number: u64,
    pub words: Vec<String>,
    pub input: Vec<u8>,
    pub before: Vec<Entry>,
    pub status: u8,
    pub output: Wanted,
    pub errors: Wanted,
    /// The files that it changes or makes.
    pub after: Vec<Entry>,
}

impl Row {
    /// Returns a row of which no line was read.
    pub fn new(alloc: Global) -> Row {
        Row {
            alloc,
            line: String::new(alloc),
            number: 0,
            words: Vec::new(alloc),
            input: Vec::new(alloc),
            before: Vec::new(alloc),
            status: 0,
            output: Wanted::All(Vec::new(alloc)),
            errors: Wanted::All(Vec::new(alloc)),
            after: Vec::new(alloc),
        }
    }

    /// Takes one of its lines, which has this number.
    pub fn read(&mut self, number: u64, line: &str) -> Result<(), Halt> {
        let alloc = self.alloc;
        let (sign, rest) = line.split_once(' ').unwrap_or((line, ""));
        let parts = parts(alloc, rest)?;
        match (sign, parts.as_slice()) {
            ("$", words) => {
                self.line = String::from_str(alloc, line)?;
                self.number = number;
                for word in words {
                    self.words.push(owned(alloc, &word.bytes)?)?;
                }
            }
            ("<", [name, texts @ ..]) if name.is_word("-") => add_texts(&mut self.input, texts)?,
            ("<", [name, content @ ..]) => add_entry(alloc, &mut self.before, name, content)?,
            (">", [name, content @ ..]) => add_entry(alloc, &mut self.after, name, content)?,
            ("?", [status]) => self.status = status_of(&status.bytes)?,
            ("1", parts) => self.output.add(alloc, parts)?,
            ("2", parts) => self.errors.add(alloc, parts)?,
            _ => return Err(Halt::Unreadable),
        }
        Ok(())
    }

    /// Returns whether a file or a directory of the row has this name.
    pub fn has_file(&self, name: &str) -> bool {
        let mut entries = self.before.iter().chain(self.after.iter());
        entries.any(|entry| entry.name.as_str() == name)
    }

    /// Returns the bytes of the file with a name that is to be there after the run.
    pub fn file_after(&self, name: &str) -> Option<&[u8]> {
        bytes_of(&self.after, name).or(bytes_of(&self.before, name))
    }
}

fn status_of(bytes: &[u8]) -> Result<u8, Halt> {
    text(bytes)?.parse::<u8>().or(Err(Halt::Unreadable))
}

fn add_texts(bytes: &mut Vec<u8>, texts: &[Part]) -> Result<(), AllocError> {
    for text in texts {
        bytes.extend_from_slice(&text.bytes)?;
    }
    Ok(())
}

// Adds a directory, or a file with these texts after those of the lines above for it. `./-` is a file called `-`.
fn add_entry(
    alloc: Global,
    entries: &mut Vec<Entry>,
    name: &Part,
    texts: &[Part],
) -> Result<(), Halt> {
    let name = text(&name.bytes)?;
    let name = name.strip_prefix("./").unwrap_or(name);
    let mut bytes = match bytes_of(entries, name) {
        Some(bytes) => bytes.to_vec(alloc)?,
        None => Vec::new(alloc),
    };
    add_texts(&mut bytes, texts)?;
    let content = match texts {
        [one] if one.is_word("folder") => Content::Folder,
        _ => Content::Bytes(bytes),
    };
    entries.push(Entry {
        name: String::from_str(alloc, name)?,
        content,
    })?;
    Ok(())
}

// Returns the bytes of a file by the last line that has its name.
fn bytes_of<'a>(entries: &'a [Entry], name: &str) -> Option<&'a [u8]> {
    let mut found = None;
    for entry in entries {
        if entry.name.as_str() == name {
            found = Some(&entry.content);
        }
    }
    match found? {
        Content::Bytes(bytes) => Some(bytes.as_slice()),
        Content::Folder => None,
    }
}
