// The kinds of findings that a check leaves out.

use crate::command_line::{CommandRow, is_continued};
use crate::labels::have_same_letters;
use crate::mistake::{Mistake, show_meant};
use properties_tools::messages::Escaped;
use properties_tools::propedit::kinds::{Ignored, Kind};
use std::fmt;

// The kinds that may be left out. `--pairs` leaves out escapes in comments.
const OPTIONAL: &[Kind] = &[
    Kind::ByteOrderMark,
    Kind::Utf32Mark,
    Kind::MarkInside,
    Kind::NonAscii,
    Kind::ReadOtherwise,
    Kind::LooksLikeUtf8,
    Kind::BlankAfterBackslash,
    Kind::BackslashAtEnd,
    Kind::RepeatedKey,
    Kind::MissingKey,
    Kind::SurplusKey,
];

// Those for which other commands refuse a file: all of them, but `convert` keeps a malformed escape.
const REQUIRED: &[Kind] = &[Kind::Zero, Kind::IllFormed, Kind::EscapeInPair];

/// Returns what these names of kinds, with commas between them, have this command leave out.
pub(crate) fn ignored_in<'a>(
    names: &'a str,
    row: &'static CommandRow,
) -> Result<Ignored, Mistake<'a>> {
    let mut ignored = Ignored::NONE;
    for name in names.split(',') {
        match kind_named(OPTIONAL, name) {
            Some(kind) => leave_out(&mut ignored, kind),
            None => return Err(Mistake::NoKind(name, row)),
        }
    }
    Ok(ignored)
}

fn kind_named(kinds: &[Kind], name: &str) -> Option<Kind> {
    kinds.iter().find(|kind| kind.name() == name).copied()
}

fn leave_out(ignored: &mut Ignored, kind: Kind) {
    match kind {
        Kind::Zero | Kind::IllFormed | Kind::EscapeInPair => {}
        Kind::LooksLikeUtf8 => ignored.looks_like_utf_8 = true,
        Kind::NonAscii => ignored.non_ascii = true,
        Kind::ReadOtherwise => ignored.read_otherwise = true,
        Kind::ByteOrderMark => ignored.byte_order_mark = true,
        Kind::Utf32Mark => ignored.utf_32_mark = true,
        Kind::MarkInside => ignored.mark_inside = true,
        Kind::BlankAfterBackslash => ignored.blank_after_backslash = true,
        Kind::BackslashAtEnd => ignored.backslash_at_end = true,
        Kind::EscapeInComment => ignored.escape_in_comment = true,
        Kind::RepeatedKey => ignored.repeated_key = true,
        Kind::MissingKey => ignored.missing_key = true,
        Kind::SurplusKey => ignored.surplus_key = true,
    }
}

/// Prints that no kind that may be left out has this name, and which one may be meant, or which there are.
pub(crate) fn show_no_kind<W: fmt::Write>(f: &mut fmt::Formatter<W>, name: &str) -> fmt::Result {
    if let Some(kind) = kind_named(REQUIRED, name) {
        write!(f, "'{}'", kind.name())?;
        return show_required(f, kind);
    }
    write!(f, "unknown kind '{}'", Escaped(name))?;
    if let Some(kind) = kind_meant(OPTIONAL, name) {
        return show_meant(f, "", kind.name());
    }
    match kind_meant(REQUIRED, name) {
        Some(kind) => {
            write!(f, "; '{}'", kind.name())?;
            show_required(f, kind)
        }
        None => show_kinds(f),
    }
}

// Prints why a kind can't be left out, and what can.
fn show_required<W: fmt::Write>(f: &mut fmt::Formatter<W>, kind: Kind) -> fmt::Result {
    if kind == Kind::EscapeInPair {
        return f.write_str(
            " cannot be ignored: all other commands but convert refuse such a file; \
            '--pairs' passes over those in comments",
        );
    }
    f.write_str(" cannot be ignored: all other commands refuse such a file")?;
    show_kinds(f)
}

// Returns the kind of these whose name has the letters and digits of this one, or begins with it, or the other way round.
fn kind_meant(kinds: &[Kind], name: &str) -> Option<Kind> {
    kinds
        .iter()
        .find(|kind| have_same_letters(kind.name(), name) || is_continued(kind.name(), name))
        .copied()
}

/// What the page of a command says of a KIND.
pub(crate) const KINDS: &str =
    "A KIND is byte-order-mark, utf-32-mark, u-feff, non-ascii, read-otherwise,\n\
    looks-like-utf-8, blank-after-backslash, backslash-at-end, repeated-key,\n\
    missing-key or surplus-key.\n";

// Prints the kinds that may be left out.
fn show_kinds<W: fmt::Write>(f: &mut fmt::Formatter<W>) -> fmt::Result {
    let mut before = "; use ";
    for kind in OPTIONAL {
        write!(f, "{before}{}", kind.name())?;
        before = ", ";
    }
    Ok(())
}
