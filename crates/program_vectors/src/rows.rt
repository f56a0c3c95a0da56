// The rows of a file.

use crate::row::Row;
use crate::trial::differences;
use std::alloc::AllocError;
use std::{io, mem};
use vector_notation::notation::Halt;
use vector_notation::table::Report;

// The rows of a file up to a line: those before the last are run.
#[derive(Drop)]
struct Reading<'a> {
    rt: &'a HostRuntime,
    kept: &'a [String],
    row: Row,
    report: Report,
}

/// Runs the rows of a file. What has the names in `kept` is in the directory before.
pub fn check_rows(rt: &HostRuntime, kept: &[String], text: &str) -> io::Result<Report> {
    let mut reading = Reading {
        rt,
        kept,
        row: Row::new(rt.alloc()),
        report: Report::new(rt.alloc()),
    };
    for (number, line) in (1u64..).zip(text.lines()) {
        reading.take(number, line)?;
    }
    reading.end_row()?;
    let Reading {
        rt: _rt,
        kept: _kept,
        row: _row,
        report,
    } = reading;
    Ok(report)
}

impl Reading<'_> {
    // A row begins with its title, or with its command line.
    fn take(&mut self, number: u64, line: &str) -> io::Result<()> {
        let has_command = !self.row.line.is_empty();
        if line.starts_with("= ") || line.starts_with('$') && has_command {
            self.end_row()?;
        }
        if line.is_empty() || line.starts_with('#') || line.starts_with("= ") {
            return Ok(());
        }
        match self.row.read(number, line) {
            Ok(()) => Ok(()),
            Err(Halt::Memory) => Err(io::Error::from(AllocError)),
            Err(Halt::Unreadable) => {
                let alloc = self.rt.alloc();
                let text = format!(in alloc; "line {number} is not understood: {line}\n")?;
                Ok(self.report.failures.push_str(text.as_str())?)
            }
        }
    }

    // Runs the row that ends here, if there is one.
    fn end_row(&mut self) -> io::Result<()> {
        let alloc = self.rt.alloc();
        let row = mem::replace(&mut self.row, Row::new(alloc));
        if row.line.is_empty() {
            return Ok(());
        }
        self.report.rows = self.report.rows.saturating_add(1);
        let found = differences(self.rt, self.kept, &row)?;
        if !found.is_empty() {
            let text = format!(in alloc; "line {}: {}\n{found}", row.number, row.line)?;
            self.report.failures.push_str(text.as_str())?;
        }
        Ok(())
    }
}
