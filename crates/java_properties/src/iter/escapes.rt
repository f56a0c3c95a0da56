// Finds the malformed escapes of a source.

ghost use Rattle.std.specs.Str.{chars};
ghost use Rattle.properties_text.specs.Encoding.{encoding_of};
ghost use Rattle.properties_text.specs.Parsing.{bytes_in, IsSpan};
ghost use Rattle.properties_text.specs.Escaping.{Checks};
ghost use Rattle.properties_text.specs.declared.encoding.line_encoding.LineEncoding.TheVariants.{Utf8};
ghost use Rattle.java_properties.specs.Findings.{FindsMalformedIn};
ghost use Rattle.java_properties.specs.Private.LineByLine.{ChecksLine, FindsLineEscape};

use properties_items::error::{PropertiesError, make};
use properties_items::findings::MalformedEscape;
use properties_lines::continuation::is_comment;
use properties_lines::joiner::LineJoiner;
use properties_text::encoding::{Encoding, LineEncoding};
use properties_text::escape::{Malformed, check_escapes};
use properties_text::parse::{ParsedSpans, Span, parse_spans};
use std::alloc::Global;

/// Returns the first malformed escape of each logical line of a source that has one, in order.
///
/// It fails only if memory runs out. A byte order mark at the front overrides the encoding.
///
/// ```text
/// for escape in &malformed_escapes(alloc, b"# C:\\users\na = \\u12", Encoding::UTF_8)? {
///     println!(rt; "{}: {}", escape.line_number, escape.kind)?; // of lines 1 and 2
/// }
/// ```
pub fn malformed_escapes(
    alloc: Global,
    source: &[u8],
    encoding: Encoding,
) -> Result<Vec<MalformedEscape>, PropertiesError>
    ensures { FindsMalformedIn (encoding_of encoding) source.now result }
{
    let mut input = source;
    let mut lines = LineJoiner::new(alloc, encoding);
    let mut escapes = Vec::new(alloc);
    while let Some(number) = lines.next_text(&mut input) {
        // A line without a backslash has no escape.
        if !lines.has_backslash() {
            continue;
        }
        let Some(escape) = malformed_in(number, lines.line()) else {
            continue;
        };
        escapes.push(escape)?;
    }
    lines.finish()?;
    Ok(escapes)
}

// Returns the first malformed escape of a logical line that begins in the line with this number, if it has one.
#[inline(always)]
fn malformed_in(line_number: usize, line: &str) -> Option<MalformedEscape>
    ensures { FindsLineEscape line_number (chars line.now) result }
{
    let Err(malformed) = check_line(line) else {
        return None;
    };
    Some(MalformedEscape {
        line_number,
        kind: make::malformed_kind(malformed),
        in_comment: is_comment(line.as_bytes()),
    })
}

// Returns how the first malformed escape of a logical line is malformed, if it has one. It makes no text. Kept out of
// line so that lines without a backslash take no longer.
#[inline(never)]
fn check_line(line: &str) -> Result<(), Malformed>
    ensures { ChecksLine (chars line.now) result }
{
    match parse_spans(line) {
        None => Ok(()),
        Some(ParsedSpans::Comment(text)) => check_part(line, text),
        Some(ParsedSpans::KVPair(key, value)) => {
            check_part(line, key)?;
            check_part(line, value)
        }
    }
}

fn check_part(line: &str, part: Span) -> Result<(), Malformed>
    requires { IsSpan line.now part }
    ensures { Checks Utf8 (bytes_in line.now part) result }
{
    check_escapes(LineEncoding::Utf8, part.cut(line).as_bytes())
}
