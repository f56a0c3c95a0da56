// The keys of a source, compared with those of a base.

ghost use Rattle.std.specs.Prelude.{◌≡◌, ◌&&◌, ◌||◌, ◌∷◌, [], OnOk};
ghost use Rattle.std.specs.Str.{chars};
ghost use Rattle.properties_text.specs.Encoding.{encoding_of};
ghost use Rattle.properties_tools.specs.Propedit.{ChecksAgainst, ChecksBase};
ghost use Rattle.properties_tools.specs.Private.Lacking.{is_lacking, lacking_kind, lacking_places, key_place, AddsLacking, HaveTables};
ghost use Rattle.properties_tables.specs.Lines.{starts_with_utf_32_mark};
ghost use Rattle.properties_tables.specs.Private.Table.{place_keys, table_places, IsKeyTable};

use crate::propedit::answer::{Answer, reported};
use crate::propedit::named::NamedSource;
use java_properties::Encoding;
use properties_checking::check::{Heading, Reported, checked, sound_keys};
use properties_checking::kinds::Kind;
use properties_checking::line_findings::may_stand_for_bytes;
use properties_checking::objects::{Member, push_object};
use properties_checking::request::{Check, Report};
use properties_tables::error::Failure;
use properties_tables::ill_formed::has_utf_32_mark;
use properties_tables::key_table::KeyTable;
use properties_tables::messages::Escaped;
use std::alloc::{AllocError, Global};
use std::fmt::{self, Write};
use std::marker::Model;

/// A base: the keys of a file that others are to have, and no others.
#[derive(Drop)]
pub struct Base {
    name: String,
    keys: KeyTable,
    // Whether no line is ill-formed.
    is_well_formed: bool,
    // Whether it begins with the byte order mark of UTF-32.
    is_utf_32: bool,
}

impl Model for Base {
    ghost use Rattle.properties_tools.specs.Propedit.Against.{KnownBase};

    ghost Value = { KnownBase };

    ghost use Rattle.properties_tools.specs.Private.Lacking.{known_base, IsBase};

    ghost view = { known_base };

    ghost invariant = { IsBase };
}

/// Returns what is wrong in a base, as the command `check` gives it, and its keys. Fails only if memory runs out.
///
/// ```text
/// let source = NamedSource { name: "m.properties", bytes: b"a=1\nb=2" };
/// let (answer, base) = base_of(alloc, source, Encoding::UTF_8, asked)?;
/// // Nothing is wrong, and the base has the keys `a` and `b`.
/// ```
pub fn base_of(
    alloc: Global,
    source: NamedSource<'_>,
    encoding: Encoding,
    asked: Check,
) -> Result<(Answer, Base), Failure>
    ensures { ChecksBase source.entry.name.now (encoding_of encoding) asked source.entry.bytes.now result }
{
    let Reported {
        text,
        keys,
        escapes,
        is_well_formed,
    } = checked(alloc, source.name, source.bytes, encoding, asked)?;
    let keys = sound_keys(alloc, source.bytes, encoding, keys, &escapes)?;
    let base = Base {
        name: String::from_str(alloc, source.name)?,
        keys,
        is_well_formed,
        is_utf_32: has_utf_32_mark(source.bytes),
    };
    Ok((reported(alloc, text, asked.quiet), base))
}

/// Returns what is wrong in a source, as the command `check` gives it, and then which of the keys of a base no pair of
/// the source has, and which keys of the source no pair of the base has, unless these kinds are ignored. Fails only if
/// memory runs out.
///
/// A key whose value is malformed counts. A malformed key doesn't. If a line of either is ill-formed, keys with U+FFFD
/// aren't compared, since that character may stand for any bytes. If either begins with the byte order mark of UTF-32,
/// no key is compared.
///
/// ```text
/// let source = NamedSource { name: "m_de.properties", bytes: b"b=2\nc=3" };
/// let answer = check_against(alloc, source, Encoding::UTF_8, asked, &base)?;
/// // m_de.properties: key 'a' is missing (m.properties:1)
/// // m_de.properties:2: key 'c' is not in m.properties
/// ```
pub fn check_against<'a>(
    alloc: Global,
    source: NamedSource<'a>,
    encoding: Encoding,
    asked: Check,
    base: &'a Base,
) -> Result<Answer, Failure>
    ensures { ChecksAgainst base.now source.entry.name.now (encoding_of encoding) asked source.entry.bytes.now result }
{
    let Reported {
        mut text,
        keys,
        escapes,
        is_well_formed,
    } = checked(alloc, source.name, source.bytes, encoding, asked)?;
    if is_utf_32(base, source.bytes) {
        return Ok(reported(alloc, text, asked.quiet));
    }
    let keys = sound_keys(alloc, source.bytes, encoding, keys, &escapes)?;
    let surplus = Sides {
        heading: Heading {
            name: source.name,
            report: asked.report,
            ignored: asked.ignored,
        },
        base_name: base.name.as_str(),
        lacking: LackingKey::Surplus,
        keys: &keys,
        others: &base.keys,
        are_well_formed: are_well_formed(base, is_well_formed),
    };
    let missing = Sides {
        lacking: LackingKey::Missing,
        keys: &base.keys,
        others: &keys,
        ..surplus
    };
    push_lacking(alloc, &mut text, &missing)?;
    push_lacking(alloc, &mut text, &surplus)?;
    Ok(reported(alloc, text, asked.quiet))
}

// Returns whether a base or a source begins with the byte order mark of UTF-32, in which neither is read.
fn is_utf_32(base: &Base, source: &[u8]) -> bool
    ensures { result ≡ (base.now.is_utf_32 || starts_with_utf_32_mark source.now) }
{
    base.is_utf_32 || has_utf_32_mark(source)
}

// Returns whether no line of a base is ill-formed, and none of a source.
fn are_well_formed(base: &Base, is_well_formed: bool) -> bool
    ensures { result ≡ (base.now.is_well_formed && is_well_formed) }
{
    base.is_well_formed && is_well_formed
}

// What a key is that only one of a source and its base has.
#[derive(Clone, Copy)]
enum LackingKey {
    // One of the base.
    Missing,
    // One of the source.
    Surplus,
}

impl LackingKey {
    fn kind(self) -> Kind
        ensures { result ≡ lacking_kind self }
    {
        match self {
            LackingKey::Missing => Kind::MissingKey,
            LackingKey::Surplus => Kind::SurplusKey,
        }
    }
}

// The keys of a source or of its base, those of the other one, and how the keys that it doesn't have are printed.
#[derive(Clone, Copy)]
struct Sides<'a> {
    heading: Heading<'a>,
    base_name: &'a str,
    // What a key is that isn't among the others.
    lacking: LackingKey,
    keys: &'a KeyTable,
    others: &'a KeyTable,
    // Whether no line of either is ill-formed.
    are_well_formed: bool,
}

// Appends the report of each compared key that isn't among the others, unless that is ignored.
fn push_lacking(alloc: Global, text: &mut String, sides: &Sides<'_>) -> Result<(), AllocError>
    requires { HaveTables sides.now }
    ensures { OnOk result (AddsLacking sides.now.lacking sides.now (lacking_places sides.now) text.old text.new) }
{
    if sides.heading.ignored.contains(sides.lacking.kind()) {
        return Ok(());
    }
    for row in 0..sides.keys.len() {
        let key = sides.keys.key(row);
        if is_lacking(key, sides.others, sides.are_well_formed) {
            push_key(alloc, text, sides, key, sides.keys.first_line(row))?;
        }
    }
    Ok(())
}

// Returns whether a key is compared, and isn't among these.
#[inline(always)]
fn is_lacking(key: &str, keys: &KeyTable, are_well_formed: bool) -> bool
    requires { IsKeyTable keys.now }
    ensures { result ≡ is_lacking are_well_formed (place_keys (table_places keys.now)) (chars key.now) }
{
    keys.find(key).is_none() && (are_well_formed || !may_stand_for_bytes(key))
}

// Appends the report of a key that is missing among the others, whose first pair begins in this line.
#[inline(never)]
fn push_key<'a>(
    alloc: Global,
    text: &mut String,
    sides: &Sides<'a>,
    key: &'a str,
    line: usize,
) -> Result<(), AllocError>
    ensures { OnOk result (AddsLacking sides.now.lacking sides.now (key_place (chars key.now) line ∷ []) text.old text.new) }
{
    match sides.lacking {
        LackingKey::Missing => push_missing(alloc, text, sides, key, line),
        LackingKey::Surplus => push_surplus(alloc, text, sides, key, line),
    }
}

// Appends the report of a key that only the base has.
fn push_missing<'a>(
    alloc: Global,
    text: &mut String,
    sides: &Sides<'a>,
    key: &'a str,
    base_line: usize,
) -> Result<(), AllocError>
    ensures { OnOk result (AddsLacking LackingKey.Missing sides.now (key_place (chars key.now) base_line ∷ []) text.old text.new) }
{
    let name = Escaped(sides.heading.name);
    let words = MissingKey {
        key,
        base: sides.base_name,
        base_line,
    };
    match sides.heading.report {
        Report::Lines => write!(text, "{name}: {words}\n")?,
        Report::Json => {
            let words = format!(in alloc; "{words}")?;
            let members = [
                Member::Text("file", sides.heading.name),
                Member::Text("kind", Kind::MissingKey.name()),
                Member::Text("key", key),
                Member::Text("base", sides.base_name),
                Member::Number("base_line", base_line),
                Member::Text("message", words.as_str()),
            ];
            push_object(alloc, text, &members)?;
        }
    }
    Ok(())
}

// Appends the report of a key that only the source has.
fn push_surplus<'a>(
    alloc: Global,
    text: &mut String,
    sides: &Sides<'a>,
    key: &'a str,
    line: usize,
) -> Result<(), AllocError>
    ensures { OnOk result (AddsLacking LackingKey.Surplus sides.now (key_place (chars key.now) line ∷ []) text.old text.new) }
{
    let name = Escaped(sides.heading.name);
    let words = SurplusKey {
        key,
        base: sides.base_name,
    };
    match sides.heading.report {
        Report::Lines => write!(text, "{name}:{line}: {words}\n")?,
        Report::Json => {
            let words = format!(in alloc; "{words}")?;
            let members = [
                Member::Text("file", sides.heading.name),
                Member::Number("line", line),
                Member::Text("kind", Kind::SurplusKey.name()),
                Member::Text("key", key),
                Member::Text("base", sides.base_name),
                Member::Text("message", words.as_str()),
            ];
            push_object(alloc, text, &members)?;
        }
    }
    Ok(())
}

// The message about a key that a source doesn't have.
#[derive(Clone, Copy)]
struct MissingKey<'a> {
    key: &'a str,
    base: &'a str,
    base_line: usize,
}

impl fmt::Display for MissingKey<'_> {
    ghost use Rattle.std.specs.Prelude.{Some};
    ghost use Rattle.std.specs.Str.{chars};
    ghost use Rattle.properties_tools.specs.Propedit.Against.{missing_words};

    ghost output = { λ m. Some (missing_words m.base.now (record { key = chars m.key.now; number = m.base_line })) };

    fn fmt<W: fmt::Write>(&self, f: &mut fmt::Formatter<W>) -> fmt::Result {
        let key = Escaped(self.key);
        let base = Escaped(self.base);
        write!(f, "key '{key}' is missing ({base}:{})", self.base_line)
    }
}

// The message about a key that a base doesn't have.
#[derive(Clone, Copy)]
struct SurplusKey<'a> {
    key: &'a str,
    base: &'a str,
}

impl fmt::Display for SurplusKey<'_> {
    ghost use Rattle.std.specs.Prelude.{Some};
    ghost use Rattle.std.specs.Str.{chars};
    ghost use Rattle.properties_tools.specs.Propedit.Against.{surplus_words};

    ghost output = { λ s. Some (surplus_words s.base.now (chars s.key.now)) };

    fn fmt<W: fmt::Write>(&self, f: &mut fmt::Formatter<W>) -> fmt::Result {
        let key = Escaped(self.key);
        let base = Escaped(self.base);
        write!(f, "key '{key}' is not in {base}")
    }
}
