// Escapes, and the backslashes at the end of a line.

use crate::same::same;
use properties_text::escape::{Malformed, UnescapeError, count_ending_backslashes, unescape};
use std::alloc::Global;
use std::borrow::CowStr;
use std::process::Abort;

// Compares the text that is meant, and whether it is borrowed, or how an escape is malformed.
fn means(rt: &impl Abort, alloc: Global, text: &str, wanted: (&str, &str)) {
    match unescape(alloc, text) {
        Ok(CowStr::Borrowed(meant)) => same(rt, ("borrowed", meant), wanted),
        Ok(CowStr::Owned(meant)) => same(rt, ("owned", meant.as_str()), wanted),
        Err(error) => same(rt, (words(error), ""), wanted),
    }
}

fn words(error: UnescapeError) -> &'static str {
    match error {
        UnescapeError::Malformed(Malformed::NotEnoughDigits) => "not enough digits",
        UnescapeError::Malformed(Malformed::NotHex) => "not hex",
        UnescapeError::Malformed(Malformed::InvalidCharacter) => "invalid character",
        UnescapeError::Memory => "no memory",
    }
}

#[test]
fn escapes_are_resolved_or_refused(rt: HostRuntime) {
    let rows = [
        (r"\\\n\r\t\f\u0001\b", ("owned", "\\\n\r\t\x0c\x01b")),
        (r"\", ("owned", "\x00")),
        ("", ("borrowed", "")),
        ("x", ("borrowed", "x")),
        ("\u{1f41e} = #!", ("borrowed", "\u{1f41e} = #!")),
        (r"\\", ("owned", r"\")),
        (r"\#", ("owned", "#")),
        (r"\!", ("owned", "!")),
        (r"\#\!", ("owned", "#!")),
        (r"\u00E9\u00e9", ("owned", "\u{e9}\u{e9}")),
        ("a\\\u{1f41e}b\\", ("owned", "a\u{1f41e}b\x00")),
        (r"\ud83d\udc1e", ("owned", "\u{1f41e}")),
        (r"x\uDBFF\uDFFFy", ("owned", "x\u{10ffff}y")),
        (r"\uD83D\uDC1e\u0041z", ("owned", "\u{1f41e}Az")),
        (
            r"\u0430 \u0431-\u0432  \u0433",
            ("owned", "\u{430} \u{431}-\u{432}  \u{433}"),
        ),
        (r"\t\n\u0041\:, \=x\r", ("owned", "\t\nA:, =x\r")),
        (
            "\\u0041\\ud83d\\udc1e\\\u{e9}\\u0042",
            ("owned", "A\u{1f41e}\u{e9}B"),
        ),
        (r"\U0041", ("owned", "U0041")),
        (r"\u", ("not enough digits", "")),
        (r"\u12", ("not enough digits", "")),
        ("\\u\u{e9}\u{e9}\u{e9}", ("not enough digits", "")),
        (r"\uasfd", ("not hex", "")),
        (r"\u+041", ("not hex", "")),
        (r"\u12\\", ("not hex", "")),
        ("\\u\u{e9}\u{e9}\u{e9}\u{e9}", ("not hex", "")),
        (r"\udc1e", ("invalid character", "")),
        (r"\ud83d", ("invalid character", "")),
        (r"\ud83dx", ("invalid character", "")),
        (r"\ud83d\t", ("invalid character", "")),
        (r"\ud83d\u12", ("invalid character", "")),
        (r"\ud83d\u0041", ("invalid character", "")),
        (r"\ud83d\ud83d\udc1e", ("invalid character", "")),
        (r"\t\u1\uxxxx", ("not hex", "")),
        (r"\u0041\u004g", ("not hex", "")),
        (r"\u0041\ud83d\u0041", ("invalid character", "")),
    ];
    for (text, wanted) in rows {
        means(&rt, rt.alloc(), text, wanted);
    }
}

#[test]
fn ending_backslashes_are_counted(rt: HostRuntime) {
    let rows = [
        ("", 0),
        ("x", 0),
        ("xx", 0),
        (r"\x", 0),
        ("xxx", 0),
        (r"\xx", 0),
        (r"x\x", 0),
        (r"\\x", 0),
        ("x\u{1f41e}", 0),
        ("\\\u{1f41e}", 0),
        ("\u{1f41e}x", 0),
        (r"\", 1),
        (r"x\", 1),
        (r"xx\", 1),
        (r"\x\", 1),
        ("\u{1f41e}\\", 1),
        (r"\\", 2),
        (r"x\\", 2),
        (r"\\\", 3),
    ];
    for (text, wanted) in rows {
        same(&rt, count_ending_backslashes(text), wanted);
    }
}
