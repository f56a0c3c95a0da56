// Files in other formats, which `merge` would take for properties files.

use memchr::memmem;
use properties_tools::messages::Escaped;
use properties_tools::propedit::request::Source;
use std::alloc::{AllocError, Global};
use std::fmt;

// What the names of files in other formats end in, after a dot.
const ENDINGS: [(&str, OtherFormat); 5] = [
    ("json", OtherFormat::Json),
    ("yml", OtherFormat::Yaml),
    ("yaml", OtherFormat::Yaml),
    ("toml", OtherFormat::Toml),
    ("xml", OtherFormat::Xml),
];

/// A format of other files.
#[derive(Clone, Copy, Debug, PartialEq, Eq)]
pub enum OtherFormat {
    Json,
    Yaml,
    Toml,
    Xml,
    /// Lines that set variables of a shell.
    Shell,
}

/// Returns the format that the name of a file tells, or its first bytes, or a line, if that isn't the format of
/// properties files. Standard input has no name. Fails if memory runs out for a file in UTF-16.
///
/// ```text
/// other_format(alloc, &Source::Dash, b"{\"port\": 80}")? // Some(OtherFormat::Json)
/// ```
pub fn other_format(
    alloc: Global,
    source: &Source,
    file: &[u8],
) -> Result<Option<OtherFormat>, AllocError> {
    if let Some(format) = path(source).and_then(format_named) {
        return Ok(Some(format));
    }
    match file {
        [0xff, 0xfe, units @ ..] => Ok(format_of(&narrowed(alloc, units, true)?)),
        [0xfe, 0xff, units @ ..] => Ok(format_of(&narrowed(alloc, units, false)?)),
        [0xef, 0xbb, 0xbf, body @ ..] => Ok(format_of(body)),
        body => Ok(format_of(body)),
    }
}

/// Returns the path of a source that is a file.
pub fn path(source: &Source) -> Option<&str> {
    match source {
        Source::File(path) => Some(path.as_str()),
        Source::StandardInput | Source::Dash => None,
    }
}

fn format_named(name: &str) -> Option<OtherFormat> {
    let ending = name.rsplit_once('.')?.1;
    let is_of = |row: &&(&str, OtherFormat)| row.0.eq_ignore_ascii_case(ending);
    ENDINGS.iter().find(is_of).map(|row| row.1)
}

// Returns a byte for each unit of UTF-16: itself, or FF if it is more than a byte.
fn narrowed(alloc: Global, units: &[u8], is_low_first: bool) -> Result<Vec<u8>, AllocError> {
    let mut bytes = Vec::with_capacity(alloc, units.len() / 2)?;
    for unit in units.chunks_exact(2) {
        match unit {
            [low, 0] if is_low_first => bytes.push(*low)?,
            [0, low] if !is_low_first => bytes.push(*low)?,
            _ => bytes.push(0xff)?,
        }
    }
    Ok(bytes)
}

fn format_of(body: &[u8]) -> Option<OtherFormat> {
    match body.trim_ascii_start() {
        [b'{', ..] => Some(OtherFormat::Json),
        [b'<', ..] => Some(OtherFormat::Xml),
        _ if is_yaml(body) => Some(OtherFormat::Yaml),
        // As `export -p` of Bash prints variables.
        text if text.starts_with(b"declare -x ") || has_export(body) => Some(OtherFormat::Shell),
        _ => None,
    }
}

// Returns whether the first line is the directive of a YAML version, or three hyphens, perhaps with a comment after them.
fn is_yaml(body: &[u8]) -> bool {
    let is_end = |byte: &u8| matches!(byte, b'\n' | b'\r');
    let line = body.split(is_end).next().unwrap_or(body);
    match line.strip_prefix(b"---") {
        Some([]) => true,
        Some(after @ [b' ' | b'\t', ..]) => { matches!(after.trim_ascii_start(), [] | [b'#', ..]) }
        Some(_) => false,
        None => line.starts_with(b"%YAML "),
    }
}

// Returns whether a line sets a variable of a shell, and continues no other line.
fn has_export(body: &[u8]) -> bool {
    // Few files have the word, and it is found faster than lines are.
    if memmem::find(body, b"export").is_none() {
        return false;
    }
    let mut is_joined = false;
    for line in body.split(|byte| *byte == b'\n') {
        let line = line.strip_suffix(b"\r").unwrap_or(line);
        for line in line.split(|byte| *byte == b'\r') {
            let text = line.trim_ascii_start();
            if !is_joined && is_export(text) {
                return true;
            }
            is_joined = is_open(text) && (is_joined || !matches!(text, [b'#' | b'!', ..]));
        }
    }
    false
}

// Returns whether a text ends in an odd number of backslashes.
fn is_open(text: &[u8]) -> bool {
    text.iter().rev().take_while(|byte| **byte == b'\\').count() % 2 == 1
}

// Returns whether a line is `export NAME=`, and anything after it.
fn is_export(text: &[u8]) -> bool {
    match text.strip_prefix(b"export") {
        Some(after @ [b' ' | b'\t', ..]) => is_assignment(after.trim_ascii_start()),
        _ => false,
    }
}

// Returns whether a text begins with `NAME=`, `NAME+=` or `NAME[`.
fn is_assignment(text: &[u8]) -> bool {
    let is_in_name = |byte: &&u8| byte.is_ascii_alphanumeric() || **byte == b'_';
    let length = text.iter().take_while(is_in_name).count();
    let is_name = text.first().is_some_and(|byte| !byte.is_ascii_digit()) && length > 0;
    is_name
        && matches!(
            text.get(length..),
            Some([b'=' | b'[', ..] | [b'+', b'=', ..])
        )
}

/// Prints that a file, or standard input, is in another format, what makes pairs of it, and how it is taken as it is.
pub(crate) fn show_other_format<W: fmt::Write>(
    f: &mut fmt::Formatter<W>,
    path: Option<&str>,
    format: OtherFormat,
) -> fmt::Result {
    let (format, tools) = match format {
        OtherFormat::Json => ("JSON", "jq"),
        OtherFormat::Yaml => ("YAML", "yq, jq"),
        OtherFormat::Toml => ("TOML", "tomlq, jq"),
        OtherFormat::Xml => ("XML", "xq, jq"),
        OtherFormat::Shell => ("shell variables", "env -0"),
    };
    let (name, word) = match path {
        Some(path) => (path, "FILE"),
        None => ("standard input", "-"),
    };
    write!(
        f,
        "{}: looks like {format}; use {tools} and 'merge -z' (see the manual, Other formats), \
        or 'merge -- {word}' if it is a properties file",
        Escaped(name)
    )
}
