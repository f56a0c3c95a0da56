// The comment of a key in a source.

use crate::failure::failure_of;
use crate::same::same;
use java_properties::Encoding::{UTF_8, UTF_16BE, WINDOWS_1252};
use java_properties::ErrorKind::{NotEnoughDigits, NotHex, Unsupported};
use java_properties::{Encoding, ErrorKind, comment_of};
use std::alloc::Global;
use std::test::Fail;

// The texts, each with an LF behind it.
fn joined(alloc: Global, texts: Option<Vec<String>>) -> Result<Option<String>, Fail> {
    let Some(texts) = texts else {
        return Ok(None);
    };
    let mut all = String::new(alloc);
    for text in &texts {
        all.push_str(text)?;
        all.push('\n')?;
    }
    Ok(Some(all))
}

#[test]
fn the_comment_lines_directly_above_the_last_pair_are_a_keys_comment(
    rt: HostRuntime,
) -> Result<(), Fail> {
    let rows: [(&[u8], &str, Option<&str>); 22] = [
        (b"", "a", None),
        (b"# a\nb=1\n", "a", None),
        (b"a=1", "a", Some("")),
        (
            b"# one\n#two\n!  three\na=1\n",
            "a",
            Some("one\ntwo\n three\n"),
        ),
        (b"# one\n\n# two\na=1\n", "a", Some("two\n")),
        (b"# one\n \t\na=1\n", "a", Some("")),
        (b"# one\nb=2\na=1\n", "a", Some("")),
        (b"#\n# C:\\users \n#\na=1\n", "a", Some("\nC:\\users \n\n")),
        (b"# one\na=1\n# two\na=2\n", "a", Some("two\n")),
        (b"# one\na=1\na=2\n", "a", Some("")),
        (b"# one\na=1\n# two\nb=2\n", "a", Some("one\n")),
        (b"b=2\\\n# no\na=1\n", "a", Some("")),
        (b"\\\n# no\na=1\n", "a", Some("")),
        (b"# one\n\\\n# no\na=1\n", "a", Some("")),
        (b"# ends \\\na=1\n", "a", Some("ends \\\n")),
        (b"# one\r\n \x0c!\ttwo\r\\u0061=1", "a", Some("one\ntwo\n")),
        (b"# one\n\\\n a=1\n", "a", Some("one\n")),
        (b"# one\n\\\n\na=1\n", "a", Some("")),
        (
            b"# \xe3\x81\x82\xff\na=1\n",
            "a",
            Some("\u{3042}\u{fffd}\n"),
        ),
        (b"# one\n=1\n", "", Some("one\n")),
        (b"\xef\xbb\xbf# one\na=1", "a", Some("one\n")),
        (b"# one\na=1\n# two", "a", Some("one\n")),
    ];
    for (source, key, wanted) in rows {
        let texts = comment_of(rt.alloc(), source, UTF_8, key)?;
        let texts = joined(rt.alloc(), texts)?;
        same(&rt, texts.as_deref(), wanted);
    }
    let texts = comment_of(rt.alloc(), b"# \xe9\x80\na=1\n", WINDOWS_1252, "a")?;
    let texts = joined(rt.alloc(), texts)?;
    same(&rt, texts.as_deref(), Some("\u{e9}\u{20ac}\n"));
    Ok(())
}

#[test]
fn a_malformed_escape_in_a_pair_refuses_a_comment(rt: HostRuntime) {
    let rows: [(&[u8], Encoding, ErrorKind, Option<usize>); 5] = [
        (
            b"# a\na=1\n# C:\\users\nb=\\u12",
            UTF_8,
            NotEnoughDigits,
            Some(4),
        ),
        (b"\\u00g0\na=1\\\n\\u12", UTF_8, NotHex, Some(1)),
        (b"a=1\\\n\\u12", WINDOWS_1252, NotEnoughDigits, Some(1)),
        (b"\0a", UTF_16BE, Unsupported, None),
        (b"\xff\xfea\0", UTF_8, Unsupported, None),
    ];
    for (source, encoding, kind, line_number) in rows {
        let failure = match comment_of(rt.alloc(), source, encoding, "a") {
            Ok(_) => None,
            Err(error) => Some(failure_of(&error)),
        };
        same(&rt, failure, Some((kind, line_number, None)));
    }
}
