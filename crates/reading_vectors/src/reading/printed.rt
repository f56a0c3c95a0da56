// Items, and the errors that end them, as they are printed.

use crate::script::Script;
use java_properties::Line;
use std::alloc::{AllocError, Global};
use vector_notation::items::whole_lines;
use vector_notation::notation::{Halt, Row};
use vector_notation::outcome::Outcome;

/// What the script gives is printed, each item as a line and as the content of one.
pub fn check_printed(row: Row<'_>, outcome: &mut Outcome) -> Result<(), Halt> {
    let mut input = Script::new(row)?.reader()?;
    let (lines, error) = whole_lines(row.alloc, row.encoding, &mut input);
    let mut by_line = Vec::new(row.alloc);
    let mut by_content = Vec::new(row.alloc);
    for line in &lines {
        by_line.push(line.to_string(row.alloc)?)?;
        by_content.push(line_around_content(row.alloc, line)?)?;
    }
    for (way, mut texts) in [("by lines", by_line), ("by contents", by_content)] {
        if let Some(error) = &error {
            texts.push(error.to_string(row.alloc)?)?;
        }
        outcome.compare(way, texts.as_slice().join(row.alloc, "; ")?.as_str())?;
    }
    Ok(())
}

fn line_around_content(alloc: Global, line: &Line) -> Result<String, AllocError> {
    let number = line.line_number();
    format!(in alloc;
        "Line {{line_number: {number}, content: {}}}",
        line.content()
    )
}
