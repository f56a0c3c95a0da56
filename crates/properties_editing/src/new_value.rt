// A pair with another value, and its layout kept.

ghost use Rattle.std.specs.Prelude.{◌≡◌, ◌≤◌, ◌+◌, ◌-◌, take, drop, length, false, IfOk};
ghost use Rattle.std.specs.Str.{chars};
ghost use Rattle.properties_format.specs.Printing.{encoded_text};
ghost use Rattle.properties_format.specs.Valued.{value_text};
ghost use Rattle.properties_text.specs.Encoding.{encoding_of};
ghost use Rattle.properties_text.specs.Printing.{AppendsOnOk};
ghost use Rattle.properties_lines.specs.LineSearch.{unit_size};
ghost use Rattle.properties_format.specs.Computed.Edited.{IsSoundOutcome};
ghost use Rattle.properties_format.specs.Computed.Items.{outcome_of};
ghost use Rattle.properties_format.specs.Computed.Valued.{is_pair_to};
ghost use Rattle.properties_editing.specs.Private.BodyValues.{GivesValue, IsBetweenAt, IsPairAlone};
ghost use Rattle.properties_editing.specs.Private.Sources.{printed_repertoire, used_in};

use crate::groups::first_group;
use crate::layout::{front_size, separator_span};
use crate::new_pair::repertoire_of;
use crate::source::BodyStart;
use properties_text::escape::{UnescapeError, unescape};
use properties_text::parse::{Span, are_blanks};
use properties_text::print::{LineBuffer, print_value};
use std::alloc::{AllocError, Global};

/// How the bytes of a pair change when it gets another value.
#[derive(Drop)]
pub struct NewValue {
    /// The number of bytes at the front that stay.
    pub front_size: usize,
    /// The bytes that follow them, up to the pair's last line ending.
    pub bytes: LineBuffer,
}

/// Returns how a pair changes when it gets this value, or `None` if it has the value. The encoding's units are one byte
/// long.
pub fn new_value(
    alloc: Global,
    opened: BodyStart,
    pair: &[u8],
    value: &str,
) -> Result<Option<NewValue>, AllocError>
    requires bytes { unit_size (encoding_of opened.encoding) ≡ 1 }
    requires alone { IsPairAlone (encoding_of opened.encoding) pair.now }
    ensures { IfOk result (λ new. GivesValue (used_in opened) pair.now (chars value.now) new) }
{
    let (groups, group) = first_group(alloc, opened.encoding, pair)?;
    let line = groups.line(pair, group);
    let Some(separator) = separator_span(line) else {
        unreachable!()
    };
    if has_value(alloc, line, separator, value)? {
        return Ok(None);
    }
    let front_size = front_size(alloc, opened.encoding, pair, &line[..separator.end])?;
    let mut bytes = LineBuffer::new(alloc);
    print_value_after(&mut bytes, opened, separator.cut(line), value)?;
    Ok(Some(NewValue { front_size, bytes }))
}

// Returns whether the pair that is this logical line has this value. `separator` is what separates its key from its
// value. No escape of the line is malformed.
fn has_value(alloc: Global, line: &str, separator: Span, value: &str) -> Result<bool, AllocError>
    requires separator { IsBetweenAt line.now separator }
    requires sound { IsSoundOutcome (outcome_of (chars line.now)) }
    ensures { IfOk result (λ answer. answer ≡ is_pair_to (chars value.now) (outcome_of (chars line.now))) }
{
    match unescape(alloc, &line[separator.end..]) {
        Ok(text) => Ok(text.as_str() == value),
        Err(UnescapeError::Malformed(_)) => unreachable!(),
        Err(UnescapeError::Memory) => Err(AllocError),
    }
}

// Appends what follows the front of a pair. If nothing separates its key and value, an equals sign comes first.
fn print_value_after(
    line: &mut LineBuffer,
    opened: BodyStart,
    separator: &str,
    value: &str,
) -> Result<(), AllocError>
    ensures { AppendsOnOk line.old (encoded_text (printed_repertoire opened).encoding (value_text (printed_repertoire opened) (chars separator.now) (chars value.now))) result line.new }
{
    let repertoire = repertoire_of(opened);
    if separator.is_empty() {
        line.extend(b"=")?;
        return print_value(line, repertoire, false, value);
    }
    print_value(line, repertoire, are_blanks(separator), value)
}
