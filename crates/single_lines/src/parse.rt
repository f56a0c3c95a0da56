//! Splits a logical line into its parts.

ghost use Rattle.std.specs.Prelude.{◌≡◌, Some};
ghost use Rattle.std.specs.Str.{chars};
ghost use Rattle.properties_format.specs.Split.{IsSplit};
ghost use Rattle.properties_text.specs.Parsing.{spanned, in_characters, AreSpans};
ghost use Rattle.single_lines.specs.Lines.{parsed};

use properties_text::parse::{ParsedSpans, parse_spans};

/// The parts of a line, before their escapes are resolved.
#[derive(Clone, Copy)]
pub enum ParsedLine<'a> {
    /// The text after the comment sign, without the blanks around it.
    Comment(&'a str),
    /// The key, and the value including the blanks at its end.
    KVPair(&'a str, &'a str),
}

/// Returns the comment or pair of a line, or `None` if the line has no character but blanks.
///
/// Line endings are treated like any other character.
///
/// ```text
/// if let Some(ParsedLine::KVPair(key, value)) = parse_line(r"a\ key : a\tvalue") {
///     // The key is `a\ key`, and the value `a\tvalue`: the escapes stand as they did.
/// }
/// ```
pub fn parse_line(line: &str) -> Option<ParsedLine<'_>>
    ensures slices { IsSplit line.now (parsed result) }
    ensures meets { IsSplit (chars line.now) (in_characters (parsed result)) }
{
    let spans = parse_spans(line)?;
    Some(cut(spans, line))
}

// Returns the parts of the line that these spans were found in.
fn cut(spans: ParsedSpans, line: &str) -> ParsedLine<'_>
    requires { AreSpans line.now (Some spans) }
    ensures { parsed (Some result) ≡ spanned line.now (Some spans) }
{
    match spans {
        ParsedSpans::Comment(text) => ParsedLine::Comment(text.cut(line)),
        ParsedSpans::KVPair(key, value) => ParsedLine::KVPair(key.cut(line), value.cut(line)),
    }
}
