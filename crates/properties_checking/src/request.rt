// What a check is asked for.

use crate::kinds::Ignored;

/// How a source is checked.
#[derive(Clone, Copy, Debug, PartialEq, Eq)]
pub struct Check {
    /// The characters that aren't reported.
    pub allowed: Allowed,
    /// The kinds of findings that are left out.
    pub ignored: Ignored,
    /// Whether nothing is printed: the status alone tells whether anything is wrong.
    pub quiet: bool,
    /// Whether the findings are lines or objects.
    pub report: Report,
}

/// The characters that a check allows.
#[derive(Clone, Copy, Debug, PartialEq, Eq)]
pub enum Allowed {
    /// Those of any text.
    All,
    /// In windows-1252, those whose bytes ISO 8859-1 reads alike. All others are reported, byte by byte.
    Latin1,
    /// Only ASCII, in comments too.
    Ascii,
}

/// How what differs, or what is wrong, is printed.
#[derive(Clone, Copy, Debug, PartialEq, Eq)]
pub enum Report {
    /// As lines that begin with the name of a source.
    Lines,
    /// As JSON objects, each on a line.
    Json,
}
