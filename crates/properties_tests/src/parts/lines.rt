// Natural lines as they are found, and how they are joined. Blank ones are no items, so no table shows them.

use crate::same::shows;
use properties_lines::error::LineError;
use properties_text::encoding::Encoding;
use single_lines::logical::{LogicalLine, LogicalLines};
use single_lines::natural::{NaturalLine, NaturalLines};
use std::alloc::{AllocError, Global};

// Adds a line: its number, a bar, its text and a semicolon.
fn push_line(
    alloc: Global,
    all: &mut String,
    line: Result<(usize, String), LineError>,
) -> Result<(), AllocError> {
    let shown = match line {
        Ok((number, text)) => format!(in alloc; "{number}|{text};"),
        Err(error) => format!(in alloc; "{error:?}"),
    };
    all.push_str(shown?.as_str())
}

// The natural lines of the bytes.
fn natural_lines(alloc: Global, bytes: &[u8]) -> Result<String, AllocError> {
    let mut all = String::new(alloc);
    for line in NaturalLines::new(alloc, bytes, Encoding::WINDOWS_1252) {
        let line = line.map(|NaturalLine(number, text)| (number, text));
        push_line(alloc, &mut all, line)?;
    }
    Ok(all)
}

#[test]
fn natural_lines_end_at_each_line_ending(rt: HostRuntime) {
    let rows: [(&[u8], &str); 15] = [
        (b"", "1|;"),
        (b" ", "1| ;"),
        (b" \r", "1| ;2|;"),
        (b" \n", "1| ;2|;"),
        (b" \r\n", "1| ;2|;"),
        (b" \r ", "1| ;2| ;"),
        (b" \n ", "1| ;2| ;"),
        (b" \r\n ", "1| ;2| ;"),
        (b"\r", "1|;2|;"),
        (b"\n", "1|;2|;"),
        (b"\r\n", "1|;2|;"),
        (b"\r ", "1|;2| ;"),
        (b"\n ", "1|;2| ;"),
        (b"\r\n ", "1|;2| ;"),
        (b"\r\r\n\n", "1|;2|;3|;4|;"),
    ];
    for (bytes, wanted) in rows {
        shows(&rt, natural_lines(rt.alloc(), bytes), wanted);
    }
}

// Natural lines of these texts, with the numbers from 1.
fn numbered(
    alloc: Global,
    texts: &[&str],
) -> Result<Vec<Result<NaturalLine, LineError>>, AllocError> {
    let mut lines = Vec::new(alloc);
    for (at, text) in texts.iter().enumerate() {
        lines.push(Ok(NaturalLine(at + 1, String::from_str(alloc, text)?)))?;
    }
    Ok(lines)
}

// Their logical lines.
fn logical_lines(alloc: Global, texts: &[&str]) -> Result<String, AllocError> {
    let mut all = String::new(alloc);
    for line in LogicalLines::new(numbered(alloc, texts)?.into_iter()) {
        let line = line.map(|LogicalLine(number, text)| (number, text));
        push_line(alloc, &mut all, line)?;
    }
    Ok(all)
}

#[test]
fn open_lines_are_joined(rt: HostRuntime) {
    let rows: [(&[&str], &str); 13] = [
        (&[], ""),
        (&["foo"], "1|foo;"),
        (&["foo", "bar"], "1|foo;2|bar;"),
        (&[r"foo\", "bar"], "1|foobar;"),
        (&[r"foo\", " bar"], "1|foobar;"),
        (&["\u{1f41e}\\", "\u{1f41e}"], "1|\u{1f41e}\u{1f41e};"),
        (&["\u{1f41e}\\", " \u{1f41e}"], "1|\u{1f41e}\u{1f41e};"),
        (&[r"foo\\", "bar"], r"1|foo\\;2|bar;"),
        (&[r"foo\\\", "bar"], r"1|foo\\bar;"),
        (&[r"#foo\", " bar"], r"1|#foo\;2| bar;"),
        (&[r"foo\", "# bar"], "1|foo# bar;"),
        (&[r"foo\"], "1|foo;"),
        (&[r"foo\", "\t\\", "bar", "x"], "1|foobar;4|x;"),
    ];
    for (texts, wanted) in rows {
        shows(&rt, logical_lines(rt.alloc(), texts), wanted);
    }
}
