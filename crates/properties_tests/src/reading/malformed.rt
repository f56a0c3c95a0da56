// The malformed escapes of a source.

use crate::same::same;
use java_properties::{Encoding, ErrorKind, MalformedEscape, malformed_escapes};
use std::test::Fail;

const fn escape(line_number: usize, kind: ErrorKind, in_comment: bool) -> MalformedEscape {
    MalformedEscape {
        line_number,
        kind,
        in_comment,
    }
}

#[test]
fn malformed_escapes_are_found_to_the_end(rt: HostRuntime) -> Result<(), Fail> {
    let source: &[u8] =
        b"# C:\\users\\n\na = \\u00e9\nb\\u12 = \\uzzzz\nc = d\\\n  \\ud83d\n! \\u1\\\n\\udc00 = 1";
    let wanted = [
        escape(1, ErrorKind::NotHex, true),
        escape(3, ErrorKind::NotEnoughDigits, false),
        escape(4, ErrorKind::InvalidCharacter, false),
        escape(6, ErrorKind::NotEnoughDigits, true),
        escape(7, ErrorKind::InvalidCharacter, false),
    ];
    let escapes = malformed_escapes(rt.alloc(), source, Encoding::UTF_8)?;
    same(&rt, escapes.as_slice(), wanted.as_slice());
    Ok(())
}
