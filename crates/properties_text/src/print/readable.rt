// Prints pairs whose values are printed as people write them.

ghost use Rattle.std.specs.Prelude.{◌++◌};
ghost use Rattle.std.specs.Str.{chars};
ghost use Rattle.properties_format.specs.Text.{is_blanks};
ghost use Rattle.properties_text.specs.Printing.{AppendsOnOk, key_bytes, puts_of, value_bytes};
ghost use Rattle.properties_text.specs.PrintedTexts.{IsWellPair, PrintsPair};

use super::{
    Escaped, EscapedAscii, LineBuffer, Literal, LiteralAscii, Pair, PairLayout, Part, Spelt,
    is_copied, print_parts, print_value_in,
};
use crate::escape::UnescapeError;
use crate::parse::are_blanks;
use std::alloc::AllocError;

/// Appends a pair of texts as [`print_texts`](super::print_texts) does, but for its value, which is printed as
/// [`print_value`](super::print_value) prints it. Fails if memory runs out.
///
/// ```text
/// let layout = PairLayout {
///     repertoire,
///     first: false,
///     separator: "=",
///     ending: "\n",
/// };
/// print_readable_texts(&mut line, layout, "a b", "c d")?; // appends `a\ b=c d` and a line feed
/// ```
pub fn print_readable_texts(
    line: &mut LineBuffer,
    layout: PairLayout<'_>,
    key: &str,
    value: &str,
) -> Result<(), AllocError>
    ensures { let l = layout.entry in
        let value = value_bytes l.repertoire (is_blanks (chars l.separator.now)) (chars value.now) in
        let bytes = key_bytes l.repertoire l.first (chars key.now) ++ (l.separator.now ++ (value ++ l.ending.now)) in
        AppendsOnOk line.old bytes result line.new }
{
    let pair = Pair::literal(key, value);
    match print_readable_pair(line, layout, pair) {
        Ok(()) => Ok(()),
        // No escape is malformed, since a backslash begins none.
        Err(_) => Err(AllocError),
    }
}

/// Appends a pair as [`print_pair`](super::print_pair) does, but for its value, which is resolved first, and printed as
/// [`print_value`](super::print_value) prints it. Fails with the first malformed escape, or if memory runs out; then a
/// part of the pair may have been appended.
pub fn print_readable_pair(
    line: &mut LineBuffer,
    layout: PairLayout<'_>,
    pair: Pair<'_>,
) -> Result<(), UnescapeError>
    requires { IsWellPair pair }
    ensures { let l = layout.entry in
        let puts = value_bytes l.repertoire (is_blanks (chars l.separator.now)) in
        PrintsPair l.repertoire l.first puts line.old pair.entry l.separator.now l.ending.now result line.new }
{
    let Pair {
        encoding,
        escaped,
        key,
        value,
    } = pair;
    let front = Pair {
        encoding,
        escaped,
        key,
        value: Part::of(""),
    };
    let front_layout = PairLayout {
        ending: "",
        ..layout
    };
    print_front(line, front_layout, front)?;
    let spelt = Spelt {
        encoding,
        escaped,
        bytes: &value.bytes[..value.size],
    };
    print_value_in(line, layout.repertoire, are_blanks(layout.separator), spelt)?;
    line.extend(layout.ending.as_bytes())?;
    Ok(())
}

// Prints a key and a separator, as a pair without a value. A second call of [`print_pair`](super::print_pair) would keep
// it from being inlined in the first, where it takes the time of each pair.
fn print_front(
    line: &mut LineBuffer,
    layout: PairLayout<'_>,
    pair: Pair<'_>,
) -> Result<(), UnescapeError>
    requires { IsWellPair pair }
    ensures { let l = layout.entry in
        PrintsPair l.repertoire l.first (puts_of l.repertoire) line.old pair.entry l.separator.now l.ending.now result line.new }
{
    match (pair.escaped, is_copied(pair.encoding, layout.repertoire)) {
        (true, true) => print_parts::<Escaped>(line, layout, pair),
        (true, false) => print_parts::<EscapedAscii>(line, layout, pair),
        (false, true) => print_parts::<Literal>(line, layout, pair),
        (false, false) => print_parts::<LiteralAscii>(line, layout, pair),
    }
}
