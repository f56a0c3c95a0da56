// What Java reads differently than people think.

ghost use Rattle.std.specs.Prelude.{◌≡◌, ◌++◌, OnOk};
ghost use Rattle.properties_text.specs.Encoding.{encoding_of};
ghost use Rattle.properties_checking.specs.Misread.{misread_at, misread_kind, misread_mark, misread_words};
ghost use Rattle.properties_checking.specs.Private.Checking.{misread_finding, FindsMisread};

use crate::check::{Finding, FindingKind, push_all};
use crate::kinds::Kind;
use crate::open_lines::push_ends;
use java_properties::{Encoding, PropertiesError};
use properties_tables::error::UTF_32_MARK;
use properties_tables::ill_formed::{Flaw, flawed_lines, has_byte_order_mark, has_utf_32_mark};
use std::alloc::{AllocError, Global};

// What Java reads differently than people think.
#[derive(Clone, Copy)]
pub(crate) enum Misread {
    // The source begins with the byte order mark of UTF-8.
    Mark,
    // It begins with that of UTF-32.
    Utf32Mark,
    // A line holds U+FEFF.
    MarkInside,
    // A line ends in a backslash and blanks. Without the blanks the next line would continue it.
    BlankAfterBackslash,
    // A line is continued, and nothing comes after it, or an empty last line.
    OpenAtEnd,
}

// Returns what Java reads differently than people think, after a mark at the front, kind by kind.
pub(crate) fn find_misread(
    alloc: Global,
    source: &[u8],
    encoding: Encoding,
) -> Result<Vec<Finding>, PropertiesError>
    ensures { FindsMisread (encoding_of encoding) source.now result }
{
    let mut findings = Vec::new(alloc);
    let numbers = flawed_lines(alloc, source, encoding, Flaw::MarkInside)?;
    push_all(
        &mut findings,
        &numbers,
        FindingKind::Misread(Misread::MarkInside),
    )?;
    push_ends(&mut findings, source, encoding)?;
    Ok(findings)
}

// Adds what Java reads differently in the line with this number, if there is something.
pub(crate) fn push_misread(
    findings: &mut Vec<Finding>,
    line_number: usize,
    misread: Option<Misread>,
) -> Result<(), AllocError>
    ensures { OnOk result (findings.new.items ≡ findings.old.items ++ misread_at misread_finding line_number misread) }
{
    let Some(misread) = misread else {
        return Ok(());
    };
    Ok(findings.push(Finding {
        line_number,
        kind: FindingKind::Misread(misread),
    })?)
}

// Returns what Java reads differently at the front of a source.
pub(crate) fn misread_mark(source: &[u8]) -> Option<Misread>
    ensures { result ≡ misread_mark source.now }
{
    if has_byte_order_mark(source) {
        Some(Misread::Mark)
    } else if has_utf_32_mark(source) {
        Some(Misread::Utf32Mark)
    } else {
        None
    }
}

impl Misread {
    // Returns its message.
    pub(crate) fn words(self) -> &'static str
        ensures { result.now ≡ misread_words self }
    {
        match self {
            Misread::Mark => "begins with a byte order mark, which Java reads as part of a key",
            Misread::Utf32Mark => UTF_32_MARK,
            Misread::MarkInside => "has U+FEFF, a byte order mark that is not at the front",
            Misread::BlankAfterBackslash => {
                "ends in a backslash and a blank, so the next line does not continue it"
            }
            Misread::OpenAtEnd => "ends in a backslash that continues nothing",
        }
    }

    // Returns the kind of such a finding.
    pub(crate) fn kind(self) -> Kind
        ensures { result ≡ misread_kind self }
    {
        match self {
            Misread::Mark => Kind::ByteOrderMark,
            Misread::Utf32Mark => Kind::Utf32Mark,
            Misread::MarkInside => Kind::MarkInside,
            Misread::BlankAfterBackslash => Kind::BlankAfterBackslash,
            Misread::OpenAtEnd => Kind::BackslashAtEnd,
        }
    }
}
