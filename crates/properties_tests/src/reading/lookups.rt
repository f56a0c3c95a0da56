// The value of a key in a source.

use crate::failure::failure_of;
use crate::same::same;
use java_properties::Encoding::{UTF_8, UTF_16BE, UTF_16LE, WINDOWS_1252};
use java_properties::ErrorKind::{InvalidCharacter, NotEnoughDigits, NotHex};
use java_properties::{Encoding, ErrorKind, value_of};
use std::test::Fail;

#[test]
fn the_last_pair_with_a_key_gives_its_value(rt: HostRuntime) -> Result<(), Fail> {
    let rows: [(&[u8], &str, Option<&str>); 13] = [
        (b"", "a", None),
        (b"# a=1\nb=a\nab=2\n", "a", None),
        (b"b=1\na=2\nc=3", "a", Some("2")),
        (b"a=1\nb=2\na=3\r\na\xcc\x81=4\n", "a", Some("3")),
        (b"a=1\n\\u0061 2", "a", Some("2")),
        (b"a\\ b : 1\\\n  2\\t\n", "a b", Some("12\t")),
        (b"caf\xc3\xa9=\\u20ac", "caf\u{e9}", Some("\u{20ac}")),
        (b"a=\xff", "a", Some("\u{fffd}")),
        (b"a=1\na", "a", Some("")),
        (b"a=1\na=\nb=2", "a", Some("")),
        (b"a=1\n\n#\n", "", None),
        (b"=1\n : 2\na=", "", Some("2")),
        (b"\xef\xbb\xbfa=1", "a", Some("1")),
    ];
    for (source, key, wanted) in rows {
        let value = value_of(rt.alloc(), source, UTF_8, key)?;
        same(&rt, value.as_deref(), wanted);
    }
    Ok(())
}

#[test]
fn values_are_read_in_each_encoding_and_by_a_mark(rt: HostRuntime) -> Result<(), Fail> {
    let rows: [(&[u8], Encoding); 7] = [
        (b"a=\x80", WINDOWS_1252),
        (b"a=\xe2\x82\xac", UTF_8),
        (b"a\0=\0\xac\x20", UTF_16LE),
        (b"\0a\0=\x20\xac", UTF_16BE),
        (b"\xef\xbb\xbfa=\xe2\x82\xac", WINDOWS_1252),
        (b"\xff\xfea\0=\0\xac\x20", UTF_16BE),
        (b"\xfe\xff\0a\0=\x20\xac", UTF_8),
    ];
    for (source, encoding) in rows {
        for (key, wanted) in [("a", Some("\u{20ac}")), ("b", None)] {
            let value = value_of(rt.alloc(), source, encoding, key)?;
            same(&rt, value.as_deref(), wanted);
        }
    }
    Ok(())
}

#[test]
fn a_malformed_escape_anywhere_is_the_error(rt: HostRuntime) {
    let rows: [(&[u8], Encoding, ErrorKind, usize); 6] = [
        (b"\\u12=1\na=1", UTF_8, NotEnoughDigits, 1),
        (b"a=1\n\nb=\\u00g0\na=2\\ud800", UTF_8, NotHex, 3),
        (b"a=1\na=\\ud800", WINDOWS_1252, InvalidCharacter, 2),
        (b"a=1\nb=\\\n\\u12", UTF_8, NotEnoughDigits, 2),
        (b"a=1\n# C:\\users", UTF_8, NotHex, 2),
        (b"\0a\0\n\0\\\0u", UTF_16BE, NotEnoughDigits, 2),
    ];
    for (source, encoding, kind, line_number) in rows {
        let failure = match value_of(rt.alloc(), source, encoding, "a") {
            Ok(_) => None,
            Err(error) => Some(failure_of(&error)),
        };
        same(&rt, failure, Some((kind, Some(line_number), None)));
    }
}
