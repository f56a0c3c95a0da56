// What is wrong in a source, as lines.

ghost use Rattle.std.specs.Prelude.{◌≡◌, ◌++◌, ◌∷◌, [], encode_utf8_all, map, List, OnOk};
ghost use Rattle.std.specs.Str.{chars};
ghost use Rattle.std.specs.String.{string_bytes};
ghost use Rattle.properties_format.specs.Windows1252.{windows_1252_character};
ghost use Rattle.java_properties.specs.Findings.{KeyPlace};
ghost use Rattle.properties_text.specs.Encoding.{encoding_of};
ghost use Rattle.properties_checking.specs.Check.{comment_words, first_of, first_words, ill_formed_of, ill_formed_text, finding_kind, said_line, said_value, words_after, words_of, ReportsFindings};
ghost use Rattle.properties_checking.specs.Kinds.{reported};
ghost use Rattle.properties_checking.specs.Private.Checking.{escape_finding, finding_of, ill_formed_finding, place_at, said_of, what_of, ArrangesFindings, ChecksKeys, FindsBytes, FindsOtherBytes, FindsOtherwise, FindsRefused, FindsSoundKeys};
ghost use Rattle.properties_checking.specs.Private.Objects.{AddsReport};
ghost use Rattle.properties_tables.specs.Private.Table.{table_places, IsKeyTable};

use crate::check_json::push_value;
use crate::kinds::{Ignored, Kind};
use crate::line_findings::line_findings;
use crate::misread::{Misread, find_misread, misread_mark, push_misread};
use crate::request::{Allowed, Check, Report};
use java_properties::{Encoding, MalformedEscape, PropertiesError};
use properties_tables::error::{HOLDS_ZERO, NOT_UTF_8, NOT_UTF_8_BY_MARK, NOT_UTF_16};
use properties_tables::fold::take_all;
use properties_tables::ill_formed::{
    Flaw, first_flawed_line, first_utf_8_line, flawed_lines, has_byte_order_mark, ill_formed_lines,
};
use properties_tables::key_table::KeyTable;
use properties_tables::messages::Escaped;
use properties_tables::sound::{first_in_pair, in_utf_16};
use properties_text::encoding::LineEncoding;
use std::alloc::{AllocError, Global};
use std::fmt::{self, Write};

// The bytes that windows-1252 and ISO 8859-1 read as different characters.
const READ_OTHERWISE: &[u8] = b"\x80\x82\x83\x84\x85\x86\x87\x88\x89\x8a\x8b\x8c\x8e\
    \x91\x92\x93\x94\x95\x96\x97\x98\x99\x9a\x9b\x9c\x9e\x9f";

const LOOKS_UTF_8: &str = "looks like UTF-8; without -e it is read as UTF-8";

// What is wrong in a line.
#[derive(Clone, Copy)]
pub(crate) struct Finding {
    pub line_number: usize,
    pub kind: FindingKind,
}

#[derive(Clone, Copy)]
pub(crate) enum FindingKind {
    // U+0000, in the first line that has it.
    HoldsZero,
    IllFormedLine(Words),
    // The source is UTF-8, and is read as windows-1252. This is its first line that isn't ASCII.
    LooksUtf8,
    NonAscii,
    // This byte, which ISO 8859-1 reads as another character than windows-1252 does.
    ReadOtherwise(u8),
    Misread(Misread),
    Escape(MalformedEscape),
    // The key in this row of the source's keys, which an earlier pair has.
    Repeats(usize),
}

// The message for an ill-formed line.
#[derive(Clone, Copy)]
pub(crate) enum Words {
    // It is not UTF-8, and another encoding reads it.
    WithEncoding,
    // It is not UTF-8, though a byte order mark says so, and no option helps.
    WithByteOrderMark,
    // It is not UTF-8. Another finding has said what helps.
    NotUtf8,
    NotUtf16,
}

/// Returns what is wrong in a source, a line or a JSON object for each finding, in the order of the source's lines: a
/// byte order mark of UTF-8 or UTF-32 at the front; the first line with U+0000, if UTF-8 is in force without a byte
/// order mark; the lines that are ill-formed in the encoding in force; the first line with a non-ASCII character, if
/// windows-1252 is in force though the source is well-formed UTF-8; the well-formed lines with a non-ASCII character,
/// if only ASCII is allowed; in UTF-8 and UTF-16 each line with U+FEFF; the lines, except comment lines, that end in a
/// backslash and blanks, and the last line if it ends in a backslash; each byte of a line that ISO 8859-1 reads as
/// another character, if that isn't allowed and windows-1252 is in force; malformed escapes; and pairs that repeat a
/// key. Omits findings of kinds that are ignored. The text is empty if nothing is left. Fails only if memory
/// runs out. Whether the check is quiet is the caller's concern.
///
/// If a line is ill-formed, a key with U+FFFD repeats no other, since that character may stand for any bytes.
///
/// ```text
/// let source = b"# C:\\users\na=1\na=\xe9";
/// let asked = Check {
///     allowed: Allowed::All,
///     ignored: Ignored::NONE,
///     quiet: false,
///     report: Report::Lines,
/// };
/// let text = report(alloc, "my.properties", source, Encoding::UTF_8, asked)?;
/// // my.properties:1: Malformed \uxxxx encoding: not hex. (in a comment, which Java and propedit pass over)
/// // my.properties:3: not UTF-8; if it is in windows-1252 or Latin-1, -e windows-1252 reads it
/// // my.properties:3: repeats the key 'a' of line 2
/// ```
pub fn report(
    alloc: Global,
    name: &str,
    source: &[u8],
    encoding: Encoding,
    asked: Check,
) -> Result<String, PropertiesError>
    ensures { ReportsFindings (encoding_of encoding) asked name.now source.now result }
{
    Ok(checked(alloc, name, source, encoding, asked)?.text)
}

/// What is wrong in a source, and the keys of its pairs.
#[derive(Drop)]
pub struct Reported {
    /// What is wrong, as [`report`] returns it.
    pub text: String,
    /// The keys of its pairs, except those with a malformed escape.
    pub keys: KeyTable,
    /// Its malformed escapes.
    pub escapes: Vec<MalformedEscape>,
    /// Whether no line is ill-formed.
    pub is_well_formed: bool,
}

/// Returns what is wrong in a source, as [`report`] does, and the keys of its pairs.
pub fn checked(
    alloc: Global,
    name: &str,
    source: &[u8],
    encoding: Encoding,
    asked: Check,
) -> Result<Reported, PropertiesError>
    ensures { ChecksKeys (encoding_of encoding) asked name.now source.now result }
{
    let numbers = ill_formed_lines(alloc, source, encoding)?;
    let mut findings = Vec::new(alloc);
    push_misread(&mut findings, 1, misread_mark(source))?;
    let zero = first_flawed_line(source, encoding, Flaw::Zero);
    push_first(&mut findings, zero, FindingKind::HoldsZero)?;
    let words = words_for(source, encoding, zero.is_some());
    push_ill_formed(&mut findings, &numbers, words)?;
    let utf_8 = first_utf_8_line(source, encoding);
    push_first(&mut findings, utf_8, FindingKind::LooksUtf8)?;
    let refused = refused_lines(alloc, source, encoding, asked.allowed)?;
    push_all(&mut findings, &refused, FindingKind::NonAscii)?;
    let otherwise = read_otherwise(alloc, source, encoding, asked.allowed)?;
    findings.extend_from_slice(&otherwise)?;
    let in_lines = line_findings(alloc, source, encoding, numbers.is_empty())?;
    push_escapes(&mut findings, &in_lines.escapes)?;
    findings.extend_from_slice(&in_lines.repeats)?;
    sort(&mut findings)?;
    let mut text = String::new(alloc);
    let heading = Heading {
        name,
        report: asked.report,
        ignored: asked.ignored,
    };
    push_findings(alloc, &mut text, heading, &in_lines.keys, &findings)?;
    Ok(Reported {
        text,
        keys: in_lines.keys,
        escapes: in_lines.escapes,
        is_well_formed: numbers.is_empty(),
    })
}

/// Returns the keys of the pairs of a source, also of those whose values are malformed, given the keys of the others and
/// its malformed escapes.
pub fn sound_keys(
    alloc: Global,
    source: &[u8],
    encoding: Encoding,
    keys: KeyTable,
    escapes: &[MalformedEscape],
) -> Result<KeyTable, PropertiesError>
    ensures { FindsSoundKeys (encoding_of encoding) source.now keys escapes.now result }
{
    match first_in_pair(escapes) {
        None => Ok(keys),
        Some(_) => {
            let none = KeyTable::for_source(alloc, source.len())?;
            take_all(alloc, source, encoding, none)
        }
    }
}

fn push_first(
    findings: &mut Vec<Finding>,
    number: Option<usize>,
    kind: FindingKind,
) -> Result<(), AllocError>
    ensures { OnOk result (findings.new.items ≡ findings.old.items ++ first_of (finding_of kind) number) }
{
    let Some(number) = number else {
        return Ok(());
    };
    Ok(findings.push(Finding {
        line_number: number,
        kind,
    })?)
}

// Returns the message for the first ill-formed line of a source. If the source has U+0000, that finding already says
// what helps.
fn words_for(source: &[u8], encoding: Encoding, has_zero: bool) -> Words
    ensures { result ≡ first_words (encoding_of encoding) source.now has_zero }
{
    if in_utf_16(source, encoding) {
        Words::NotUtf16
    } else if has_byte_order_mark(source) {
        Words::WithByteOrderMark
    } else if has_zero {
        Words::NotUtf8
    } else {
        Words::WithEncoding
    }
}

// Returns the message for the ill-formed lines after one with this message.
fn words_after(words: Words) -> Words
    ensures { result ≡ words_after words }
{
    match words {
        Words::NotUtf16 => Words::NotUtf16,
        _ => Words::NotUtf8,
    }
}

fn push_ill_formed(
    findings: &mut Vec<Finding>,
    numbers: &[usize],
    first: Words,
) -> Result<(), AllocError>
    ensures { OnOk result (findings.new.items ≡ findings.old.items ++ ill_formed_of ill_formed_finding first numbers.now) }
{
    let mut words = first;
    for number in numbers {
        findings.push(Finding {
            line_number: *number,
            kind: FindingKind::IllFormedLine(words),
        })?;
        words = words_after(words);
    }
    Ok(())
}

// Returns the numbers of the lines with characters that aren't allowed, unless they are ill-formed.
fn refused_lines(
    alloc: Global,
    source: &[u8],
    encoding: Encoding,
    allowed: Allowed,
) -> Result<Vec<usize>, PropertiesError>
    ensures { FindsRefused allowed (encoding_of encoding) source.now result }
{
    match allowed {
        Allowed::All | Allowed::Latin1 => Ok(Vec::new(alloc)),
        Allowed::Ascii => flawed_lines(alloc, source, encoding, Flaw::NonAscii),
    }
}

// Returns what Java reads differently: than people think, and of bytes that aren't allowed, than windows-1252 has it.
fn read_otherwise(
    alloc: Global,
    source: &[u8],
    encoding: Encoding,
    allowed: Allowed,
) -> Result<Vec<Finding>, PropertiesError>
    ensures { FindsOtherwise allowed (encoding_of encoding) source.now result }
{
    let mut findings = find_misread(alloc, source, encoding)?;
    let bytes = other_bytes(alloc, source, encoding, allowed)?;
    findings.extend_from_slice(&bytes)?;
    Ok(findings)
}

// Returns the lines with bytes that ISO 8859-1 reads differently, byte by byte, if these aren't allowed.
fn other_bytes(
    alloc: Global,
    source: &[u8],
    encoding: Encoding,
    allowed: Allowed,
) -> Result<Vec<Finding>, PropertiesError>
    ensures { FindsOtherBytes allowed (encoding_of encoding) source.now result }
{
    match allowed {
        Allowed::Latin1 => lines_with(alloc, source, encoding, READ_OTHERWISE),
        Allowed::All | Allowed::Ascii => Ok(Vec::new(alloc)),
    }
}

// Returns the lines that have one of these bytes, byte by byte.
fn lines_with(
    alloc: Global,
    source: &[u8],
    encoding: Encoding,
    bytes: &[u8],
) -> Result<Vec<Finding>, PropertiesError>
    ensures { FindsBytes bytes.now (encoding_of encoding) source.now result }
{
    let mut findings = Vec::new(alloc);
    for byte in bytes {
        let numbers = flawed_lines(alloc, source, encoding, Flaw::Byte(*byte))?;
        push_all(&mut findings, &numbers, FindingKind::ReadOtherwise(*byte))?;
    }
    Ok(findings)
}

pub(crate) fn push_all(
    findings: &mut Vec<Finding>,
    numbers: &[usize],
    kind: FindingKind,
) -> Result<(), AllocError>
    ensures { OnOk result (findings.new.items ≡ findings.old.items ++ map (finding_of kind) numbers.now) }
{
    for number in numbers {
        findings.push(Finding {
            line_number: *number,
            kind,
        })?;
    }
    Ok(())
}

fn push_escapes(findings: &mut Vec<Finding>, escapes: &[MalformedEscape]) -> Result<(), AllocError>
    ensures { OnOk result (findings.new.items ≡ findings.old.items ++ map escape_finding escapes.now) }
{
    for escape in escapes {
        findings.push(Finding {
            line_number: escape.line_number,
            kind: FindingKind::Escape(*escape),
        })?;
    }
    Ok(())
}

// Sorts the findings by line. Those of one line keep their order.
fn sort(findings: &mut Vec<Finding>) -> Result<(), AllocError>
    ensures { OnOk result (ArrangesFindings findings.old.items findings.new.items) }
{
    findings.sort_by_key(|finding| finding.line_number)?;
    Ok(())
}

/// How findings are printed.
#[derive(Clone, Copy)]
pub struct Heading<'a> {
    /// The name of the source.
    pub name: &'a str,
    /// Whether they are lines or objects.
    pub report: Report,
    /// The kinds of findings that are left out.
    pub ignored: Ignored,
}

fn push_findings<'a>(
    alloc: Global,
    text: &mut String,
    heading: Heading<'a>,
    keys: &'a KeyTable,
    findings: &[Finding],
) -> Result<(), AllocError>
    requires { IsKeyTable keys.now }
    ensures { let said = reported heading.entry.ignored (λ s. finding_kind s.what) (map (said_of (table_places keys.now)) findings.now) in
        OnOk result (AddsReport heading.entry.report (said_line heading.entry.name.now) (said_value heading.entry.name.now) said text.old text.new) }
{
    for finding in findings {
        if !heading.ignored.contains(kind_of(finding.kind)) {
            push_finding(alloc, text, heading, keys, finding)?;
        }
    }
    Ok(())
}

// Returns the kind of a finding.
pub(crate) fn kind_of(kind: FindingKind) -> Kind
    ensures { (places : List KeyPlace) → result ≡ finding_kind (what_of places kind) }
{
    match kind {
        FindingKind::HoldsZero => Kind::Zero,
        FindingKind::IllFormedLine(_) => Kind::IllFormed,
        FindingKind::LooksUtf8 => Kind::LooksLikeUtf8,
        FindingKind::NonAscii => Kind::NonAscii,
        FindingKind::ReadOtherwise(_) => Kind::ReadOtherwise,
        FindingKind::Misread(misread) => misread.kind(),
        FindingKind::Escape(escape) => {
            if escape.in_comment {
                Kind::EscapeInComment
            } else {
                Kind::EscapeInPair
            }
        }
        FindingKind::Repeats(_) => Kind::RepeatedKey,
    }
}

#[inline(always)]
fn push_finding<'a>(
    alloc: Global,
    text: &mut String,
    heading: Heading<'a>,
    keys: &'a KeyTable,
    finding: &Finding,
) -> Result<(), AllocError>
    requires { IsKeyTable keys.now }
    ensures { let said = said_of (table_places keys.now) finding.now in
        OnOk result (AddsReport heading.entry.report (said_line heading.entry.name.now) (said_value heading.entry.name.now) (said ∷ []) text.old text.new) }
{
    match heading.report {
        Report::Lines => push_line(text, heading.name, keys, finding),
        Report::Json => push_value(alloc, text, heading.name, keys, finding),
    }
}

fn push_line(
    text: &mut String,
    name: &str,
    keys: &KeyTable,
    finding: &Finding,
) -> Result<(), AllocError>
    requires { IsKeyTable keys.now }
    ensures { OnOk result (string_bytes text.new ≡ string_bytes text.old ++ said_line name.now (said_of (table_places keys.now) finding.now)) }
{
    let name = Escaped(name);
    write!(text, "{name}:{}: ", finding.line_number)?;
    push_words(text, keys, finding.kind)?;
    text.push_str("\n")
}

// Appends what is wrong, in words.
pub(crate) fn push_words(
    text: &mut String,
    keys: &KeyTable,
    kind: FindingKind,
) -> Result<(), AllocError>
    requires { IsKeyTable keys.now }
    ensures { OnOk result (string_bytes text.new ≡ string_bytes text.old ++ words_of (what_of (table_places keys.now) kind)) }
{
    match kind {
        FindingKind::HoldsZero => text.push_str(HOLDS_ZERO),
        FindingKind::IllFormedLine(words) => text.push_str(ill_formed_words(words)),
        FindingKind::LooksUtf8 => text.push_str(LOOKS_UTF_8),
        FindingKind::NonAscii => text.push_str("has a non-ASCII character"),
        FindingKind::ReadOtherwise(byte) => write!(text, "{}", OtherByte(byte)),
        FindingKind::Misread(misread) => text.push_str(misread.words()),
        FindingKind::Escape(escape) => {
            let place = place_words(escape.in_comment);
            write!(text, "{}{place}", escape.kind)
        }
        FindingKind::Repeats(row) => {
            let (key, first) = key_at(keys, row);
            let key = Escaped(key);
            write!(text, "repeats the key '{key}' of line {first}")
        }
    }
}

// A byte that ISO 8859-1 reads as another character, in words.
#[derive(Clone, Copy)]
struct OtherByte(u8);

impl fmt::Display for OtherByte {
    ghost use Rattle.std.specs.Prelude.{Some};
    ghost use Rattle.properties_checking.specs.Check.{otherwise_words};

    ghost output = { λ byte. Some (otherwise_words byte.0 (windows_1252_character byte.0)) };

    fn fmt<W: fmt::Write>(&self, f: &mut fmt::Formatter<W>) -> fmt::Result {
        let byte = self.0;
        let code = u32::from(character_of(byte));
        let zero = if code < 0x1000 { "0" } else { "" };
        write!(
            f,
            "byte {byte:X} is '\\u{zero}{code:x}' in windows-1252 and U+00{byte:X} to Java"
        )
    }
}

// Returns the key in a row, and the line of its first pair.
pub(crate) fn key_at(keys: &KeyTable, row: usize) -> (&str, usize)
    requires { IsKeyTable keys.now }
    ensures key { chars result.0.now ≡ (place_at (table_places keys.now) row).key }
    ensures text { result.0.now ≡ encode_utf8_all (place_at (table_places keys.now) row).key }
    ensures line { result.1 ≡ (place_at (table_places keys.now) row).number }
{
    if row < keys.len() {
        (keys.key(row), keys.first_line(row))
    } else {
        ("", 0)
    }
}

fn ill_formed_words(words: Words) -> &'static str
    ensures { result.now ≡ ill_formed_text words }
{
    match words {
        Words::WithEncoding => NOT_UTF_8,
        Words::WithByteOrderMark => NOT_UTF_8_BY_MARK,
        Words::NotUtf8 => "not UTF-8",
        Words::NotUtf16 => NOT_UTF_16,
    }
}

// Returns the character of a byte in windows-1252.
fn character_of(byte: u8) -> char
    ensures { result ≡ windows_1252_character byte }
{
    LineEncoding::Windows1252.first_character(&[byte]).character
}

fn place_words(in_comment: bool) -> &'static str
    ensures { result.now ≡ comment_words in_comment }
{
    if in_comment {
        " (in a comment, which Java and propedit pass over)"
    } else {
        ""
    }
}
