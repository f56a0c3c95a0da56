// The slices of a line, with their escapes as they are.

use crate::same::same;
use single_lines::parse::{ParsedLine, parse_line};

// What a line is, and its slices.
fn slices(line: &str) -> (&str, &str, &str) {
    match parse_line(line) {
        None => ("none", "", ""),
        Some(ParsedLine::Comment(text)) => ("comment", text, ""),
        Some(ParsedLine::KVPair(key, value)) => ("pair", key, value),
    }
}

#[test]
fn lines_are_cut_into_slices(rt: HostRuntime) {
    let rows = [
        ("", ("none", "", "")),
        (" ", ("none", "", "")),
        (r"\", ("pair", r"\", "")),
        (r"a=\", ("pair", "a", r"\")),
        ("a", ("pair", "a", "")),
        ("x=", ("pair", "x", "")),
        ("# foo", ("comment", "foo", "")),
        (" # foo", ("comment", "foo", "")),
        ("#", ("comment", "", "")),
        ("\t!\x0c foo\t \x0c", ("comment", "foo", "")),
        ("# \u{e9} \u{e9} ", ("comment", "\u{e9} \u{e9}", "")),
        ("a = b", ("pair", "a", "b")),
        (
            "a.key.of.many.letters=b",
            ("pair", "a.key.of.many.letters", "b"),
        ),
        (
            r"a.key.of\ many\=letters:b",
            ("pair", r"a.key.of\ many\=letters", "b"),
        ),
        (
            "a.key.of.many.letters\tb",
            ("pair", "a.key.of.many.letters", "b"),
        ),
        (
            "a.key!of#many.letters b",
            ("pair", "a.key!of#many.letters", "b"),
        ),
        ("a : b", ("pair", "a", "b")),
        ("a b", ("pair", "a", "b")),
        (" a : b", ("pair", "a", "b")),
        (" a b", ("pair", "a", "b")),
        (" a = b ", ("pair", "a", "b ")),
        ("a:=b", ("pair", "a", "=b")),
        ("a=:b", ("pair", "a", ":b")),
        ("a b:c", ("pair", "a", "b:c")),
        ("a # foo", ("pair", "a", "# foo")),
        (r"a\ \:\=b=c", ("pair", r"a\ \:\=b", "c")),
        (r"a\ \:\=b c", ("pair", r"a\ \:\=b", "c")),
        (r"a\\ \\:\\=b c", ("pair", r"a\\", r"\\:\\=b c")),
        (r"\  b", ("pair", r"\ ", "b")),
        ("=", ("pair", "", "")),
        ("=x", ("pair", "", "x")),
        (r"\=x", ("pair", r"\=x", "")),
        (r"\ ", ("pair", r"\ ", "")),
        ("\u{a0}a\r\nb", ("pair", "\u{a0}a\r\nb", "")),
        ("\u{1f41e}=\u{1f41e}", ("pair", "\u{1f41e}", "\u{1f41e}")),
    ];
    for (line, wanted) in rows {
        same(&rt, slices(line), wanted);
    }
}
