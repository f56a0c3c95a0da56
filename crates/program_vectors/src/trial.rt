// A row that is run.

use crate::folder::{Left, make, take};
use crate::row::{Content, Row, Wanted};
use counted_io::ScriptedSink;
use propedit_running::{StandardInput, run_words};
use properties_tools::propedit::streams::Sinks;
use std::alloc::{AllocError, Global};
use std::io;
use vector_notation::notation::quoted;
use vector_notation::sinks::ROOMY;

// How many bytes of a text are shown.
const SHOWN: usize = 400;

/// Runs a row, and returns what is not as it is wanted, a line each. What has the names in `kept` is none of its files.
pub fn differences(rt: &HostRuntime, kept: &[String], row: &Row) -> io::Result<String> {
    let alloc = rt.alloc();
    if row.before.iter().any(|entry| kept.contains(&entry.name)) {
        let text = "    a file of the row is there before it\n";
        return Ok(String::from_str(alloc, text)?);
    }
    make(rt, &row.before)?;
    let mut sinks = Sinks {
        output: ROOMY.open(alloc),
        errors: ROOMY.open(alloc),
    };
    let input = StandardInput::Bytes(&row.input);
    let status = run_words(rt, input, &row.words, &mut sinks);
    let left = take(rt, kept, row)?;
    let mut comparison = Comparison {
        alloc,
        text: String::new(alloc),
    };
    comparison.add_status(status, row.status)?;
    comparison.add_stream("standard output", &sinks.output, &row.output)?;
    comparison.add_stream("standard error", &sinks.errors, &row.errors)?;
    comparison.add_files(row, &left)?;
    let Comparison {
        alloc: _alloc,
        text,
    } = comparison;
    Ok(text)
}

// What is not as it is wanted, a line each.
#[derive(Drop)]
struct Comparison {
    alloc: Global,
    text: String,
}

impl Comparison {
    fn add(&mut self, what: &str, found: &str, wanted: &str) -> Result<(), AllocError> {
        let line = format!(in self.alloc; "    {what}: {found}, and not {wanted}\n")?;
        self.text.push_str(line.as_str())
    }

    fn add_status(&mut self, found: u8, wanted: u8) -> Result<(), AllocError> {
        if found == wanted {
            return Ok(());
        }
        let (found, wanted) = (
            format!(in self.alloc; "{found}")?,
            format!(in self.alloc; "{wanted}")?,
        );
        self.add("status", found.as_str(), wanted.as_str())
    }

    fn add_bytes(&mut self, what: &str, found: &[u8], wanted: &[u8]) -> Result<(), AllocError> {
        if found == wanted {
            return Ok(());
        }
        let (found, wanted) = (self.shown(found)?, self.shown(wanted)?);
        self.add(what, found.as_str(), wanted.as_str())
    }

    fn shown(&self, bytes: &[u8]) -> Result<String, AllocError> {
        quoted(self.alloc, bytes.get(..SHOWN).unwrap_or(bytes))
    }

    fn add_stream(
        &mut self,
        what: &str,
        sink: &ScriptedSink,
        wanted: &Wanted,
    ) -> Result<(), AllocError> {
        match wanted.compared(sink.bytes()) {
            Some((found, wanted)) => self.add_bytes(what, found, wanted),
            None => Ok(()),
        }
    }

    // Compares what is left with the files of the row.
    fn add_files(&mut self, row: &Row, left: &Left) -> Result<(), AllocError> {
        for name in &left.others {
            self.add(name.as_str(), "there", "missing")?;
        }
        for entry in &left.entries {
            let name = entry.name.as_str();
            match (&entry.content, row.file_after(name)) {
                (Content::Bytes(found), Some(wanted)) => self.add_bytes(name, found, wanted)?,
                (Content::Folder, None) => {}
                _ => self.add(name, "there", "of the other kind")?,
            }
        }
        for entry in row.before.iter().chain(row.after.iter()) {
            let name = entry.name.as_str();
            if !left.entries.iter().any(|entry| entry.name.as_str() == name) {
                self.add(name, "missing", "there")?;
            }
        }
        Ok(())
    }
}
