// The lines of a table: headings, which say what the rows below them are of, and rows.

use crate::notation::{Clause, Halt, Pace, Row, clauses};
use crate::outcome::Outcome;
use java_properties::Encoding;
use std::alloc::{AllocError, Global};

/// What the rows below a heading are of.
pub trait Rows: Copy + Drop {
    /// Returns what rows are of below a heading that begins with this word.
    fn of_word(word: &str) -> Option<Self>;

    /// Runs a row, and keeps what came in place of its right side.
    fn check(self, row: Row<'_>, outcome: &mut Outcome) -> Result<(), Halt>;
}

/// How many rows were run, each counted in each encoding, and what doesn't hold or isn't understood.
#[derive(Drop)]
pub struct Report {
    pub rows: u64,
    pub failures: String,
}

impl Report {
    /// Creates a report of no rows.
    pub fn new(alloc: Global) -> Report {
        Report {
            rows: 0,
            failures: String::new(alloc),
        }
    }
}

// What a heading says of the rows below it.
#[derive(Drop)]
struct Heading<K: Rows> {
    kind: K,
    encodings: Vec<Encoding>,
    pace: Pace,
}

/// Runs each row of a table.
pub fn check_table<K: Rows>(alloc: Global, table: &str, pace: Pace) -> Result<Report, AllocError> {
    let mut report = Report::new(alloc);
    let mut heading: Option<Heading<K>> = None;
    let mut rows_above = 0;
    for (number, line) in (1u64..).zip(table.lines()) {
        let line = line.trim();
        if line.is_empty() || line.starts_with('#') {
            continue;
        }
        let failure = match line.split_once('|') {
            None => {
                let is_empty = heading.is_some() && report.rows == rows_above;
                rows_above = report.rows;
                heading = heading_of(alloc, line, pace)?;
                if heading.is_none() {
                    Some(String::from_str(alloc, "this heading is not understood")?)
                } else if is_empty {
                    let text = "no row is between this heading and the one above";
                    Some(String::from_str(alloc, text)?)
                } else {
                    None
                }
            }
            Some((left, right)) => match &heading {
                Some(heading) => check_row(alloc, heading, left, right.trim(), &mut report.rows)?,
                None => Some(String::from_str(alloc, "no heading is above this row")?),
            },
        };
        if let Some(text) = failure {
            let text = format!(in alloc; "line {number}: {line}\n    {text}\n")?;
            report.failures.push_str(text.as_str())?;
        }
    }
    if report.rows == rows_above {
        report.failures.push_str("no row is at the end\n")?;
    }
    Ok(report)
}

// A kind and the encodings after it, of which there is one at least.
fn heading_of<K: Rows>(
    alloc: Global,
    line: &str,
    pace: Pace,
) -> Result<Option<Heading<K>>, AllocError> {
    let Some((first, rest)) = line.split_once(' ') else {
        return Ok(None);
    };
    let Some(kind) = K::of_word(first) else {
        return Ok(None);
    };
    let mut encodings = Vec::new(alloc);
    for word in rest.split_whitespace() {
        match Encoding::from_name(word) {
            Some(encoding) => encodings.push(encoding)?,
            None => return Ok(None),
        }
    }
    if encodings.is_empty() {
        return Ok(None);
    }
    Ok(Some(Heading {
        kind,
        encodings,
        pace,
    }))
}

// Runs a row in each encoding, and returns what came in place of the right side the first time that something did.
fn check_row<K: Rows>(
    alloc: Global,
    heading: &Heading<K>,
    left: &str,
    right: &str,
    rows: &mut u64,
) -> Result<Option<String>, AllocError> {
    for encoding in heading.encodings.as_slice() {
        *rows = rows.saturating_add(1);
        match outcome_of(alloc, heading, *encoding, left, right) {
            Ok(outcome) => {
                if let Some(text) = outcome.failure() {
                    return Ok(Some(format!(in alloc; "{encoding:?}, {text}")?));
                }
            }
            Err(Halt::Memory) => return Err(AllocError),
            Err(Halt::Unreadable) => {
                return Ok(Some(String::from_str(alloc, "this row is not understood")?));
            }
        }
    }
    Ok(None)
}

fn outcome_of<K: Rows>(
    alloc: Global,
    heading: &Heading<K>,
    encoding: Encoding,
    left: &str,
    right: &str,
) -> Result<Outcome, Halt> {
    let clauses: Vec<Clause> = clauses(alloc, left)?;
    let row = Row {
        alloc,
        encoding,
        pace: heading.pace,
        clauses: clauses.as_slice(),
    };
    let mut outcome = Outcome::new(alloc, right)?;
    heading.kind.check(row, &mut outcome)?;
    Ok(outcome)
}
