// A new pair: what separates its key from its value, and its bytes.

ghost use Rattle.std.specs.Prelude.{◌≡◌, ◌++◌, ◌&&◌, [], ◌∷◌, if◌then◌else◌, IfOk, OnOk, false, true};
ghost use Rattle.std.specs.Option.{option_map};
ghost use Rattle.std.specs.Str.{chars};
ghost use Rattle.properties_format.specs.Text.{is_blank, is_blanks, is_empty};
ghost use Rattle.properties_format.specs.Edited.{pair_bytes};
ghost use Rattle.properties_format.specs.Valued.{separator_after, shortened_after};
ghost use Rattle.properties_format.specs.Computed.Body.{held_groups_of};
ghost use Rattle.properties_format.specs.Computed.Settings.{is_good_separator};
ghost use Rattle.properties_format.specs.Computed.Valued.{last_between};
ghost use Rattle.properties_text.specs.Encoding.{encoding_of};
ghost use Rattle.properties_text.specs.Printing.{AppendsOnOk};
ghost use Rattle.properties_lines.specs.LineSearch.{unit_size};
ghost use Rattle.properties_items.specs.Texts.{characters};
ghost use Rattle.properties_editing.specs.Private.BodyValues.{IsGroupAlone, unended_pair};
ghost use Rattle.properties_editing.specs.Private.Sources.{PrintsIn, printed_repertoire};
ghost use Rattle.properties_format.specs.Encoding.{latin_1_in, output_encoding};

use crate::groups::first_group;
use crate::layout::separator_span;
use crate::source::BodyStart;
use properties_text::characters::is_blank;
use properties_text::encoding::{Encoding, LineEncoding};
use properties_text::parse::are_blanks;
use properties_text::print::{
    LineBuffer, PairLayout, Repertoire, print_readable_texts, print_texts,
};
use std::alloc::{AllocError, Global};

/// Appends a pair without a line ending. A pair that is `first` in a body is printed so that it isn't taken for a byte
/// order mark.
pub fn print_new(
    line: &mut LineBuffer,
    opened: BodyStart,
    first: bool,
    key: &str,
    value: &str,
) -> Result<(), AllocError>
    ensures { AppendsOnOk line.old (pair_bytes (printed_repertoire opened) first (chars key.now) (chars value.now)) result line.new }
{
    let layout = PairLayout {
        repertoire: repertoire_of(opened),
        first,
        separator: "=",
        ending: "",
    };
    print_texts(line, layout, key, value)
}

/// Appends a pair with this separator likewise.
pub fn print_new_pair(
    line: &mut LineBuffer,
    opened: BodyStart,
    first: bool,
    separator: &str,
    key: &str,
    value: &str,
) -> Result<(), AllocError>
    requires { is_good_separator (chars separator.now) ≡ true }
    ensures { AppendsOnOk line.old (unended_pair (printed_repertoire opened) first (chars key.now) (chars separator.now) (chars value.now)) result line.new }
{
    let repertoire = repertoire_of(opened);
    let layout = PairLayout {
        repertoire,
        first,
        separator,
        ending: "",
    };
    print_readable_texts(line, layout, key, value)
}

/// Returns the separator of a new pair with this key that looks like the pair of these bytes, which are one group, or
/// `None` if the group isn't a pair. The encoding's units are one byte long.
pub fn separator_like(
    alloc: Global,
    encoding: Encoding,
    bytes: &[u8],
    key: &str,
) -> Result<Option<String>, AllocError>
    requires unit { unit_size (encoding_of encoding) ≡ 1 }
    requires alone { IsGroupAlone (encoding_of encoding) bytes.now }
    ensures { IfOk result (λ text. option_map characters text
        ≡ option_map (separator_after (chars key.now)) (last_between (held_groups_of (encoding_of encoding) bytes.now))) }
{
    let (groups, group) = first_group(alloc, encoding, bytes)?;
    let line = groups.line(bytes, group);
    match separator_span(line) {
        Some(span) => Ok(Some(separator_for(alloc, span.cut(line), key)?)),
        None => Ok(None),
    }
}

// Returns a separator like this one that a new pair with this key can have.
fn separator_for(alloc: Global, separator: &str, key: &str) -> Result<String, AllocError>
    ensures { IfOk result (λ text. characters text ≡ separator_after (chars key.now) (chars separator.now)) }
{
    if separator.is_empty() || is_indent(key, separator) {
        return String::from_str(alloc, "=");
    }
    shortened(alloc, separator)
}

// Returns whether key and separator would be read as leading blanks.
fn is_indent(key: &str, separator: &str) -> bool
    ensures { result ≡ (is_empty (chars key.now) && is_blanks (chars separator.now)) }
{
    if key.is_empty() {
        are_blanks(separator)
    } else {
        false
    }
}

// Returns a text with only the first blank of each run of blanks.
fn shortened(alloc: Global, text: &str) -> Result<String, AllocError>
    ensures { IfOk result (λ short. characters short ≡ shortened_after false (chars text.now)) }
{
    let mut short = String::new(alloc);
    let mut was_blank = false;
    for character in text.chars() {
        push_shortened(&mut short, was_blank, character)?;
        was_blank = is_blank(character);
    }
    Ok(short)
}

// Appends a character, unless it is a blank after a blank.
fn push_shortened(short: &mut String, was_blank: bool, character: char) -> Result<(), AllocError>
    ensures { let more = if was_blank && is_blank character then [] else character ∷ [] in
        OnOk result (characters short.new ≡ characters short.old ++ more) }
{
    if was_blank && is_blank(character) {
        return Ok(());
    }
    short.push(character)?;
    Ok(())
}

/// Returns the characters that an edit prints as they are: all that the encoding has, those of them whose bytes
/// ISO 8859-1 reads alike, or those of ASCII.
pub fn repertoire_of(opened: BodyStart) -> Repertoire
    ensures { PrintsIn (printed_repertoire opened) result }
{
    if opened.ascii_only {
        return Repertoire::Ascii;
    }
    if opened.latin_1 {
        return latin_1_in(opened.encoding);
    }
    Repertoire::from(LineEncoding::from(opened.encoding))
}

// Returns the characters of an encoding whose bytes ISO 8859-1 reads alike. Of UTF-8, these are those of ASCII.
fn latin_1_in(encoding: Encoding) -> Repertoire
    ensures { PrintsIn (latin_1_in (output_encoding (encoding_of encoding))) result }
{
    match encoding {
        Encoding::WINDOWS_1252 => Repertoire::Latin1,
        _ => Repertoire::Ascii,
    }
}
