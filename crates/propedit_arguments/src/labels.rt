// The labels of encodings that people write otherwise, and the messages about them.

use crate::mistake::show_meant;
use properties_tools::messages::Escaped;
use std::fmt;

/// The encodings that a conversion may be to.
pub(crate) const TARGETS: &str = "utf-8, iso-8859-1, windows-1252 or ascii";

/// Prints that no conversion is to this encoding, and which one may be meant, or which there are.
pub(crate) fn show_no_target<W: fmt::Write>(f: &mut fmt::Formatter<W>, word: &str) -> fmt::Result {
    write!(f, "cannot convert to '{}'; ", Escaped(word))?;
    match target_meant(word) {
        Some(hint) => f.write_str(hint),
        None => write!(f, "use {TARGETS}"),
    }
}

/// Prints that no encoding has this label, and which one may be meant, or which there are.
pub(crate) fn show_unknown_encoding<W: fmt::Write>(
    f: &mut fmt::Formatter<W>,
    label: &str,
) -> fmt::Result {
    write!(f, "unknown encoding '{}'", Escaped(label))?;
    match label_meant(label) {
        Some(meant) => show_meant(f, "", meant),
        None => f.write_str("; use utf-8, iso-8859-1, windows-1252, utf-16le or utf-16be"),
    }
}

/// Prints what a label that means ASCII stands for, and how to find what isn't ASCII.
pub(crate) fn show_ascii_encoding<W: fmt::Write>(
    f: &mut fmt::Formatter<W>,
    label: &str,
) -> fmt::Result {
    write!(
        f,
        "encoding '{}': ASCII is read as windows-1252; write '-e windows-1252' if that is meant, \
        or '-a check' to find non-ASCII characters",
        Escaped(label)
    )
}

// Returns the hint on an encoding that no conversion is to: which one may be meant.
fn target_meant(word: &str) -> Option<&'static str> {
    if means_ascii(word) {
        return Some("did you mean 'ascii'?");
    }
    match label_meant(word) {
        Some("utf-8") => Some("did you mean 'utf-8'?"),
        Some("windows-1252" | "cp1252") => Some("did you mean 'windows-1252'?"),
        Some("latin1" | "iso-8859-1") => Some("did you mean 'iso-8859-1'?"),
        _ => None,
    }
}

/// Returns whether this label means ASCII to people who write it.
pub(crate) fn means_ascii(label: &str) -> bool {
    ASCII_LABELS
        .iter()
        .any(|ascii| have_same_letters(ascii, label))
}

const ASCII_LABELS: &[&str] = &["ascii", "us-ascii", "ansi_x3.4-1968"];

// Labels that people write with other signs between their letters and digits.
const LABELS: &[&str] = &[
    "windows-1252",
    "utf-8",
    "utf-16le",
    "utf-16be",
    "utf-16",
    "latin1",
    "iso-8859-1",
    "cp1252",
];

// Returns the label that has the letters and digits of this one.
fn label_meant(label: &str) -> Option<&'static str> {
    LABELS
        .iter()
        .find(|meant| have_same_letters(meant, label))
        .copied()
}

/// Returns whether two names have the same letters and digits, in any case.
pub(crate) fn have_same_letters(one: &str, other: &str) -> bool {
    let letters = one.bytes().filter(u8::is_ascii_alphanumeric);
    let others = other.bytes().filter(u8::is_ascii_alphanumeric);
    letters
        .map(|letter| letter.to_ascii_lowercase())
        .eq(others.map(|letter| letter.to_ascii_lowercase()))
}
