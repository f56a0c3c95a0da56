// The front of a pair: its bytes up to the end of its separator, or of its key if nothing separates key and value.

ghost use Rattle.std.specs.Prelude.{◌≡◌, IfOk};
ghost use Rattle.std.specs.Str.{chars};
ghost use Rattle.properties_text.specs.Encoding.{encoding_of};
ghost use Rattle.properties_lines.specs.LineSearch.{unit_size};
ghost use Rattle.properties_editing.specs.Private.BodyValues.{IsBeforeValue, IsBetweenIn, IsFrontSize};

use crate::cuts::{count_characters, find_cut};
use crate::groups::GroupReader;
use properties_text::encoding::Encoding;
use properties_text::parse::{ParsedSpans, Span, parse_spans};
use std::alloc::{AllocError, Global};

/// Returns what separates the key and the value of a logical line, or `None` if the line isn't a pair. The value begins
/// where the separator ends.
pub fn separator_span(line: &str) -> Option<Span>
    ensures { IsBetweenIn line.now result }
{
    match parse_spans(line)? {
        ParsedSpans::Comment(_) => None,
        ParsedSpans::KVPair(key, value) => Some(Span {
            start: key.end,
            end: value.start,
        }),
    }
}

/// Returns the size of a pair's front: its bytes up to the end of its separator, or of its key if nothing separates key
/// and value. `before` is what comes before the value in the pair's logical line. The encoding's units are one byte
/// long.
pub fn front_size(
    alloc: Global,
    encoding: Encoding,
    pair: &[u8],
    before: &str,
) -> Result<usize, AllocError>
    requires bytes { unit_size (encoding_of encoding) ≡ 1 }
    requires before { IsBeforeValue (encoding_of encoding) pair.now (chars before.now) }
    ensures { IfOk result (λ size. IsFrontSize (encoding_of encoding) pair.now size) }
{
    let lines = GroupReader::new(alloc, encoding);
    let count = count_characters(before.as_bytes());
    let cut = find_cut(lines, pair, count)?;
    Ok(cut.at)
}
