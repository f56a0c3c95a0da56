// A catalogue for Java 8 and back.

use counted_io::{CountedRead, CountedWrite};
use java_properties::{
    Encoding, PropertiesError, Repertoire, Spelling, convert, read_source, write_source,
};
use std::alloc::Global;

/// Copies a catalogue in UTF-8 in the form that Java 8 reads: with an escape for each non-ASCII character.
pub fn for_java_8<R: CountedRead, W: CountedWrite>(
    alloc: Global,
    input: &mut R,
    output: &mut W,
) -> Result<(), PropertiesError> {
    let from = Encoding::UTF_8;
    let source = read_source(alloc, input, from)?;
    let escaped = convert(alloc, &source, from, Repertoire::Ascii, Spelling::Kept)?;
    write_source(output, &escaped)
}

/// Copies a catalogue of Java 8 in the form that people read: in UTF-8, without such escapes.
pub fn for_people<R: CountedRead, W: CountedWrite>(
    alloc: Global,
    input: &mut R,
    output: &mut W,
) -> Result<(), PropertiesError> {
    let from = Encoding::WINDOWS_1252;
    let source = read_source(alloc, input, from)?;
    let readable = convert(alloc, &source, from, Repertoire::Utf8, Spelling::Readable)?;
    write_source(output, &readable)
}

#[cfg(test)]
mod tests {
    use super::*;
    use crate::same::same;
    use counted_io::Counted;
    use std::test::Fail;

    const READABLE: &str = "# Grüße\n\nhello = Grüß Gott \\\n    aus Köln\nprice : 3 €\n";

    const ESCAPED: &str =
        "# Gr\\u00fc\\u00dfe\n\nhello = Gr\\u00fc\\u00df Gott \\\n    aus K\\u00f6ln\nprice : 3 \\u20ac\n";

    #[test]
    fn goes_to_java_8_and_back(rt: HostRuntime) -> Result<(), Fail> {
        let mut input = READABLE.as_bytes();
        let mut output = Counted::new(Vec::new(rt.alloc()));
        for_java_8(rt.alloc(), &mut input, &mut output)?;
        same(&rt, output.into_inner().as_slice(), ESCAPED.as_bytes());
        let mut input = ESCAPED.as_bytes();
        let mut output = Counted::new(Vec::new(rt.alloc()));
        for_people(rt.alloc(), &mut input, &mut output)?;
        same(&rt, output.into_inner().as_slice(), READABLE.as_bytes());
        Ok(())
    }

    // What Java 8 couldn't read, or reads as other characters, is gone.
    #[test]
    fn drops_a_mark_and_a_backslash(rt: HostRuntime) -> Result<(), Fail> {
        let mut input = "\u{feff}\\é = 1\n".as_bytes();
        let mut output = Counted::new(Vec::new(rt.alloc()));
        for_java_8(rt.alloc(), &mut input, &mut output)?;
        let wanted = b"\\u00e9 = 1\n".as_slice();
        same(&rt, output.into_inner().as_slice(), wanted);
        Ok(())
    }
}
