// Sources in which a key is renamed, its comment set, or both removed, and what comes of each.

use java_properties::{
    Comments, Encoding, ErrorKind, NewComment, Rename, RenameError, RenamesError, SourceOptions,
    comment_of, remove_with_comment, remove_with_comments, rename_key, rename_keys, set_comment,
    set_comments,
};
use std::alloc::{AllocError, Global};
use std::process::Abort;
use std::test::Fail;

// A source, its key, the new key, and the source after that.
type Row = (&'static [u8], &'static str, &'static str, &'static [u8]);

// A source, its key, the new key, and why that is refused.
type Refused = (&'static [u8], &'static str, &'static str, Why);

#[derive(Clone, Copy, Debug, PartialEq)]
enum Why {
    NoKey,
    KeyTaken(usize),
    Source(ErrorKind, Option<usize>),
}

fn same<T: PartialEq + Copy>(rt: &impl Abort, row: usize, found: T, wanted: T) {
    assert!(*rt; found == wanted, "row {row}");
}

fn check(rt: &impl Abort, alloc: Global, options: SourceOptions, rows: &[Row]) -> Result<(), Fail> {
    for (row, (source, old, new, wanted)) in rows.iter().enumerate() {
        let renamed = rename_key(alloc, source, options, old, new)?;
        same(rt, row, renamed.as_slice(), *wanted);
    }
    Ok(())
}

fn check_refused(rt: &impl Abort, alloc: Global, options: SourceOptions, rows: &[Refused]) {
    for (row, (source, old, new, wanted)) in rows.iter().enumerate() {
        match rename_key(alloc, source, options, old, new) {
            Ok(_) => panic!(*rt; "row {row}"),
            Err(error) => same(rt, row, reason_of(&error), *wanted),
        }
    }
}

fn reason_of(error: &RenameError) -> Why {
    match error {
        RenameError::NoKey => Why::NoKey,
        RenameError::KeyTaken(number) => Why::KeyTaken(*number),
        RenameError::Source(error) => Why::Source(error.kind(), error.line_number()),
    }
}

#[test]
fn only_the_bytes_of_the_key_change(rt: HostRuntime) -> Result<(), Fail> {
    let rows: [Row; 13] = [
        (b"  a : 1\r\nb=2", "a", "c", b"  c : 1\r\nb=2"),
        (b"a=1\nb=2\na: 3\r", "a", "c", b"c=1\nb=2\nc: 3\r"),
        (b"# a\na=a\n", "a", "b", b"# a\nb=a\n"),
        (b"a b\n", "a", "c", b"c b\n"),
        (b"a", "a", "c", b"c"),
        (b"ke\\\n  y = 1\\\n  2\n", "key", "k", b"k = 1\\\n  2\n"),
        (b"key\\\n  = 1\n", "key", "k", b"k\\\n  = 1\n"),
        (b"  \\\n  key=1\n", "key", "k", b"  \\\n  k=1\n"),
        (b"\\\n\\\n \\\na=1", "a", "b", b"\\\n\\\n \\\nb=1"),
        (b"\\u0061=1\n", "a", "b", b"b=1\n"),
        (b"\\u00\\\n  61=1\n", "a", "b", b"b=1\n"),
        (b"a\\ b=1\n", "a b", "a.b", b"a.b=1\n"),
        (b"a\\", "a", "b", b"b\\"),
    ];
    let options = SourceOptions::new(Encoding::UTF_8);
    check(&rt, rt.alloc(), options, rows.as_slice())
}

#[test]
fn a_new_key_is_printed_as_it_is_set(rt: HostRuntime) -> Result<(), Fail> {
    let rows: [Row; 6] = [
        (b"a=1\n", "a", "#x", b"\\#x=1\n"),
        (b"a=1\n", "a", " =:\\\n", b"\\ \\=\\:\\\\\\n=1\n"),
        (b"a=1\n", "a", "\u{e9}", b"\xc3\xa9=1\n"),
        (b"a=1\n", "a", "\u{feff}k", b"\\ufeffk=1\n"),
        (b" a=1\n", "a", "\u{feff}k", b" \xef\xbb\xbfk=1\n"),
        (
            b"\xef\xbb\xbfa=1\n",
            "a",
            "\u{feff}k",
            b"\xef\xbb\xbf\\ufeffk=1\n",
        ),
    ];
    let options = SourceOptions::new(Encoding::UTF_8);
    check(&rt, rt.alloc(), options, rows.as_slice())
}

#[test]
fn a_new_key_has_what_the_encoding_has(rt: HostRuntime) -> Result<(), Fail> {
    let rows: [Row; 3] = [
        (b"a=1\n", "a", "\u{3042}", b"\\u3042=1\n"),
        (b"a=1\n", "a", "\u{20ac}", b"\x80=1\n"),
        (b"a=1\n", "a", "\u{ef}\u{bb}\u{bf}", b"\\u00ef\xbb\xbf=1\n"),
    ];
    let options = SourceOptions::new(Encoding::WINDOWS_1252);
    check(&rt, rt.alloc(), options, rows.as_slice())
}

#[test]
fn options_say_how_it_is_printed(rt: HostRuntime) -> Result<(), Fail> {
    let ascii = SourceOptions {
        ascii_only: true,
        ..SourceOptions::new(Encoding::UTF_8)
    };
    let row: [Row; 1] = [(
        b"\xc3\xbc=\xc3\xbc\n",
        "\u{fc}",
        "\u{e9}",
        b"\\u00e9=\xc3\xbc\n",
    )];
    check(&rt, rt.alloc(), ascii, row.as_slice())?;
    let latin_1 = SourceOptions {
        latin_1: true,
        ..SourceOptions::new(Encoding::WINDOWS_1252)
    };
    let row: [Row; 1] = [(b"a=1\n", "a", "\u{e9}\u{20ac}", b"\xe9\\u20ac=1\n")];
    check(&rt, rt.alloc(), latin_1, row.as_slice())?;
    let passed_over = SourceOptions {
        comments: Comments::PassedOver,
        ..SourceOptions::new(Encoding::UTF_8)
    };
    let row: [Row; 1] = [(b"# C:\\users\na=1\n", "a", "b", b"# C:\\users\nb=1\n")];
    check(&rt, rt.alloc(), passed_over, row.as_slice())
}

#[test]
fn a_key_may_be_empty(rt: HostRuntime) -> Result<(), Fail> {
    let rows: [Row; 8] = [
        (b"a=1\n", "a", "", b"=1\n"),
        (b"a : 1\n", "a", "", b" : 1\n"),
        (b"a b\n", "a", "", b"= b\n"),
        (b"a\n", "a", "", b"=\n"),
        (b"a\\\n  b\n", "ab", "", b"=\n"),
        (b"a\\\n  =b\n", "a", "", b"\\\n  =b\n"),
        (b"  \\\n  =1\n", "", "a", b"  \\\n  a=1\n"),
        (b"a=1\n", "a", "a", b"a=1\n"),
    ];
    let options = SourceOptions::new(Encoding::UTF_8);
    check(&rt, rt.alloc(), options, rows.as_slice())
}

#[test]
fn others_are_refused(rt: HostRuntime) {
    let few = Why::Source(ErrorKind::NotEnoughDigits, Some(2));
    let utf_16 = Why::Source(ErrorKind::Unsupported, None);
    let not_hex = Why::Source(ErrorKind::NotHex, Some(1));
    let rows: [Refused; 9] = [
        (b"x=1\\\na=2\n", "a", "b", Why::NoKey),
        (b"b=1\n", "a", "b", Why::NoKey),
        (b"b=1\n", "a", "a", Why::NoKey),
        (b"a=1\n", "b", "c", Why::NoKey),
        (b"a=1\nb=2\n", "a", "b", Why::KeyTaken(2)),
        (b"a=1\nc=1\nb=2\nb=3\n", "a", "b", Why::KeyTaken(3)),
        (b"a=1\nb=\\u12\n", "a", "c", few),
        (b"# C:\\users\na=1\n", "a", "b", not_hex),
        (b"\xff\xfea\0=\0", "a", "c", utf_16),
    ];
    let options = SourceOptions::new(Encoding::UTF_8);
    check_refused(&rt, rt.alloc(), options, rows.as_slice());
}

// Keys and their new names.
type Names = &'static [(&'static str, &'static str)];

fn renames_of(alloc: Global, names: Names) -> Result<Vec<Rename>, Fail> {
    let mut renames = Vec::new(alloc);
    for (old, new) in names {
        renames.push(Rename {
            old: String::from_str(alloc, old)?,
            new: String::from_str(alloc, new)?,
        })?;
    }
    Ok(renames)
}

#[test]
fn keys_are_renamed_in_turn(rt: HostRuntime) -> Result<(), Fail> {
    let rows: [(&'static [u8], Names, &'static [u8]); 12] = [
        (
            b"a=1\n b : 2\na",
            &[("a", "c"), ("b", "d")],
            b"c=1\n d : 2\nc",
        ),
        (
            b"a=1\nb=2\n",
            &[("a", "b c"), ("b", "a.b")],
            b"b\\ c=1\na.b=2\n",
        ),
        (b"a=1\n", &[("a", "b"), ("b", "c")], b"c=1\n"),
        (
            b"a=1\nb=2\n",
            &[("a", "t"), ("b", "a"), ("t", "b")],
            b"b=1\na=2\n",
        ),
        (
            b"a=1\nb=2\n",
            &[("b", "c"), ("a", "\u{feff}k")],
            b"\\ufeffk=1\nc=2\n",
        ),
        (b"a = 1\nb=2\n", &[("a", ""), ("b", "a")], b" = 1\na=2\n"),
        (b"a=1\n", &[("a", "a")], b"a=1\n"),
        (b"a=1\n", &[], b"a=1\n"),
        // A key that gets its own name back is printed.
        (
            b"\\u0061 : 1\nk\\\n  y = 2\n",
            &[("a", "b"), ("ky", "a"), ("b", "c"), ("c", "d"), ("a", "ky")],
            b"d : 1\nky = 2\n",
        ),
        // One that is to keep its name isn't.
        (
            b"\\u0061=1\nb=2\n",
            &[("a", "a"), ("b", "c"), ("a", "a"), ("c", "d")],
            b"\\u0061=1\nd=2\n",
        ),
        (b"a=1\n", &[("a", "b"), ("b", "b"), ("b", "c")], b"c=1\n"),
        (
            b"a=1\n",
            &[("a", ""), ("", "b"), ("b", ""), ("", "c")],
            b"c=1\n",
        ),
    ];
    let options = SourceOptions::new(Encoding::UTF_8);
    for (row, (source, names, wanted)) in rows.iter().enumerate() {
        let renames = renames_of(rt.alloc(), names)?;
        let renamed = rename_keys(rt.alloc(), source, options, &renames)?;
        same(&rt, row, renamed.as_slice(), *wanted);
    }
    Ok(())
}

#[test]
fn a_refused_rename_is_told(rt: HostRuntime) -> Result<(), Fail> {
    let rows: [(&'static [u8], Names, usize, Why); 13] = [
        (b"a=1\n", &[("a", "b"), ("c", "d")], 1, Why::NoKey),
        // The first rename that is refused is told, and not the first pair that refuses one.
        (
            b"d=1\nf=2\na=3\nc=4\n",
            &[("a", "b"), ("c", "d"), ("e", "f")],
            1,
            Why::KeyTaken(1),
        ),
        (
            b"f=1\na=2\ne=3\n",
            &[("a", "b"), ("c", "d"), ("e", "f")],
            1,
            Why::NoKey,
        ),
        (b"a=1\n", &[("a", "b"), ("a", "c")], 1, Why::NoKey),
        (
            b"a=1\nb=2\n",
            &[("a", "c"), ("b", "c")],
            1,
            Why::KeyTaken(1),
        ),
        (
            b"a=1\nb=2\n",
            &[("a", "b"), ("b", "a")],
            0,
            Why::KeyTaken(2),
        ),
        (b"b=1\n\na=2\n", &[("a", "b")], 0, Why::KeyTaken(1)),
        (
            b"a=1\n#\nb=2\n",
            &[("a", "c"), ("c", "b")],
            1,
            Why::KeyTaken(3),
        ),
        // What the first rename leaves has a line less.
        (
            b"a\\\n b=1\nc=2\n",
            &[("ab", "x"), ("x", "c")],
            1,
            Why::KeyTaken(2),
        ),
        (
            b"a=1\nd=2\n",
            &[("a", "b"), ("b", "c"), ("c", "d")],
            2,
            Why::KeyTaken(2),
        ),
        (
            b"a=1\n",
            &[("a", "b"), ("b", "c"), ("b", "b")],
            2,
            Why::NoKey,
        ),
        (
            b"b=1\n",
            &[("b", "c"), ("a", "a"), ("c", "d")],
            1,
            Why::NoKey,
        ),
        (
            b"a=1\nb=\\u12\n",
            &[("a", "c")],
            0,
            Why::Source(ErrorKind::NotEnoughDigits, Some(2)),
        ),
    ];
    let options = SourceOptions::new(Encoding::UTF_8);
    for (row, (source, names, index, wanted)) in rows.iter().enumerate() {
        let renames = renames_of(rt.alloc(), names)?;
        match rename_keys(rt.alloc(), source, options, &renames) {
            Ok(_) => panic!(rt; "row {row}"),
            Err(RenamesError::Source(error)) => {
                same(
                    &rt,
                    row,
                    Why::Source(error.kind(), error.line_number()),
                    *wanted,
                );
            }
            Err(RenamesError::NoKey(refused)) => {
                same(&rt, row, (refused, Why::NoKey), (*index, *wanted));
            }
            Err(RenamesError::KeyTaken(refused, number)) => {
                same(
                    &rt,
                    row,
                    (refused, Why::KeyTaken(number)),
                    (*index, *wanted),
                );
            }
        }
    }
    Ok(())
}

// A source, a key, and the source after it was removed with its comment.
type Removed = (&'static [u8], &'static str, &'static [u8]);

fn check_removed(
    rt: &impl Abort,
    alloc: Global,
    options: SourceOptions,
    rows: &[Removed],
) -> Result<(), Fail> {
    for (row, (source, key, wanted)) in rows.iter().enumerate() {
        let removed = remove_with_comment(alloc, source, options, key)?;
        same(rt, row, removed.as_slice(), *wanted);
    }
    Ok(())
}

#[test]
fn a_key_is_removed_with_its_comment(rt: HostRuntime) -> Result<(), Fail> {
    let rows: [Removed; 12] = [
        (
            b"# one\na=1\n\n# two\nb=2\n# three\na=3\n",
            "a",
            b"\n# two\nb=2\n",
        ),
        (b"# head\n\n# one\na=1\nb=2\n", "a", b"# head\n\nb=2\n"),
        (b"# one\nb=1\na=2\n", "a", b"# one\nb=1\n"),
        (b"# one\n  !two\r\na=1", "a", b""),
        (b"# one\nb=1\n# two", "a", b"# one\nb=1\n# two"),
        (b"# one\na=1\n# two\n", "a", b"# two\n"),
        (b"b=2\\\n# no\na=1\n", "a", b"b=2\\\n# no\n"),
        (b"\\\n# no\na=1\n", "a", b"\\\n# no\n"),
        (b"# ends \\\na=1\\\n  2\nb=1", "a", b"b=1"),
        (b"# one\n \t\na=1\n", "a", b"# one\n \t\n"),
        (
            b"\xef\xbb\xbf# one\na=1\n# two\nb=2\n",
            "a",
            b"\xef\xbb\xbf# two\nb=2\n",
        ),
        (b"# one\n\\u0061=1\nb=2\n", "a", b"b=2\n"),
    ];
    let options = SourceOptions::new(Encoding::UTF_8);
    check_removed(&rt, rt.alloc(), options, rows.as_slice())?;
    // What is left would begin like a byte order mark.
    let row: [Removed; 1] = [(
        b"# one\na=1\n\xef\xbb\xbfb=2\n",
        "a",
        b"\n\xef\xbb\xbfb=2\n",
    )];
    let windows = SourceOptions::new(Encoding::WINDOWS_1252);
    check_removed(&rt, rt.alloc(), windows, row.as_slice())
}

#[test]
fn a_source_with_a_malformed_escape_keeps_its_comments(rt: HostRuntime) -> Result<(), Fail> {
    let options = SourceOptions::new(Encoding::UTF_8);
    let source = b"# C:\\users\na=1\n";
    match remove_with_comment(rt.alloc(), source, options, "a") {
        Ok(_) => panic!(rt; "it was edited"),
        Err(error) => same(&rt, 0, error.kind(), ErrorKind::NotHex),
    }
    let passed_over = SourceOptions {
        comments: Comments::PassedOver,
        ..options
    };
    let row: [Removed; 1] = [(b"# C:\\users\na=1\nb=2\n", "a", b"b=2\n")];
    check_removed(&rt, rt.alloc(), passed_over, row.as_slice())
}

// A source, a key, the text of its comment, and the source after that was set.
type Commented = (&'static [u8], &'static str, &'static str, &'static [u8]);

fn check_commented(
    rt: &impl Abort,
    alloc: Global,
    options: SourceOptions,
    rows: &[Commented],
) -> Result<(), Fail> {
    for (row, (source, key, text, wanted)) in rows.iter().enumerate() {
        let commented = set_comment(alloc, source, options, key, text)?;
        same(rt, row, commented.as_slice(), *wanted);
    }
    Ok(())
}

#[test]
fn the_comment_of_a_key_is_set(rt: HostRuntime) -> Result<(), Fail> {
    let rows: [Commented; 12] = [
        (b"# old\na=1\n", "a", "new", b"# new\na=1\n"),
        (b"a=1\n", "a", "new", b"# new\na=1\n"),
        (b"a=1", "a", "new", b"# new\na=1"),
        (
            b"b=2\r\n  a=1\r\n",
            "a",
            "x\ny",
            b"b=2\r\n  # x\r\n  # y\r\n  a=1\r\n",
        ),
        (b"#a\n# b\nk=1\n", "k", "a\nb", b"#a\n# b\nk=1\n"),
        (b"# old\na=1\n", "a", "C:\\new\\", b"# C:\\new\\\na=1\n"),
        (b"# old\na=1\n", "a", "x\r\ny\rz\n", b"# x\n# y\n# z\na=1\n"),
        (b"a=1\n", "a", "\r\r\n\nx", b"#\n#\n#\n# x\na=1\n"),
        (b"# one\n\n# two\na=1\n", "a", "", b"# one\n\na=1\n"),
        (b"# one\nb=1\na=1\n", "a", "", b"# one\nb=1\na=1\n"),
        (b"# one\na=1\n# two\na=2", "a", "x", b"# one\na=1\n# x\na=2"),
        (
            b"\xef\xbb\xbf# one\na=1\n",
            "a",
            "\u{e9}",
            b"\xef\xbb\xbf# \xc3\xa9\na=1\n",
        ),
    ];
    let options = SourceOptions::new(Encoding::UTF_8);
    check_commented(&rt, rt.alloc(), options, rows.as_slice())
}

#[test]
fn new_comment_lines_look_like_the_old_ones(rt: HostRuntime) -> Result<(), Fail> {
    let rows: [Commented; 7] = [
        (
            b"#\n  !old\r#x\na=1",
            "a",
            "p\n\nq",
            b"  !p\r  !\r  !q\ra=1",
        ),
        (b"#old\na=1\n", "a", " x", b"#  x\na=1\n"),
        (b"#\told\r\na=1\n", "a", "x\n y", b"#\tx\r\n#\t y\r\na=1\n"),
        (b"#\n#\n a=1", "a", "x", b" # x\n a=1"),
        (b"# \xe3\x81\x82\na=1\n", "a", "", b"a=1\n"),
        (
            b" \t! one\n! two\na=1\r",
            "a",
            "\u{3042}",
            b" \t! \xe3\x81\x82\na=1\r",
        ),
        (
            b"\t\\\n  a=1\\\n  2\r\n",
            "a",
            "x",
            b"\t# x\r\n\t\\\n  a=1\\\n  2\r\n",
        ),
    ];
    let options = SourceOptions::new(Encoding::UTF_8);
    check_commented(&rt, rt.alloc(), options, rows.as_slice())
}

#[test]
fn a_new_line_ends_as_the_source_does(rt: HostRuntime) -> Result<(), Fail> {
    let rows: [Commented; 8] = [
        (b"a=1\r\nk=2", "k", "x", b"a=1\r\n# x\r\nk=2"),
        (b"a=1\nb=2\rk=3", "k", "x", b"a=1\nb=2\r# x\rk=3"),
        (b"k=1\\\r\n  2", "k", "x", b"# x\r\nk=1\\\r\n  2"),
        (b"k=1\\\r\n", "k", "x", b"# x\r\nk=1\\\r\n"),
        (b"# old\r\n\r\n#\r\nk", "k", "x", b"# old\r\n\r\n# x\r\nk"),
        (b"a=1\r\n# old\nk=2", "k", "x", b"a=1\r\n# x\nk=2"),
        (b"k=1\nb=2\r\nc", "k", "x", b"# x\nk=1\nb=2\r\nc"),
        (
            b"\xef\xbb\xbfa=1\r\nk=2",
            "k",
            "x",
            b"\xef\xbb\xbfa=1\r\n# x\r\nk=2",
        ),
    ];
    let options = SourceOptions::new(Encoding::UTF_8);
    check_commented(&rt, rt.alloc(), options, rows.as_slice())
}

#[test]
fn a_comment_has_what_the_encoding_has(rt: HostRuntime) -> Result<(), Fail> {
    let rows: [Commented; 3] = [
        (b"a=1\n", "a", "\u{e9} \u{3042}", b"# \xe9 \\u3042\na=1\n"),
        (b"#\xe9\na=1\n", "a", "\u{e9}", b"#\xe9\na=1\n"),
        // What is left would begin like a byte order mark.
        (
            b"# x\n\xef\xbb\xbf=1\n",
            "\u{ef}\u{bb}\u{bf}",
            "",
            b"\n\xef\xbb\xbf=1\n",
        ),
    ];
    let windows = SourceOptions::new(Encoding::WINDOWS_1252);
    check_commented(&rt, rt.alloc(), windows, rows.as_slice())?;
    let ascii = SourceOptions {
        ascii_only: true,
        ..SourceOptions::new(Encoding::UTF_8)
    };
    let row: [Commented; 1] = [(b"a=1\n", "a", "\u{e9}", b"# \\u00e9\na=1\n")];
    check_commented(&rt, rt.alloc(), ascii, row.as_slice())
}

#[test]
fn a_comment_that_was_set_is_read(rt: HostRuntime) -> Result<(), Fail> {
    let options = SourceOptions::new(Encoding::UTF_8);
    let source = b"#old\na=1\n";
    let commented = set_comment(rt.alloc(), source, options, "a", " x\n\n\u{e9}")?;
    let Some(texts) = comment_of(rt.alloc(), &commented, Encoding::UTF_8, "a")? else {
        panic!(rt; "the key is there");
    };
    let [first, second, third] = texts.as_slice() else {
        panic!(rt; "there are three lines");
    };
    same(&rt, 1, first.as_str(), " x");
    same(&rt, 2, second.as_str(), "");
    same(&rt, 3, third.as_str(), "\u{e9}");
    Ok(())
}

#[test]
fn a_comment_needs_its_key(rt: HostRuntime) {
    let rows: [(&'static [u8], Why); 3] = [
        (b"# old\nb=1\n", Why::NoKey),
        (b"\xff\xfea\0=\0", Why::Source(ErrorKind::Unsupported, None)),
        (
            b"b=\\u12\n",
            Why::Source(ErrorKind::NotEnoughDigits, Some(1)),
        ),
    ];
    let options = SourceOptions::new(Encoding::UTF_8);
    for (row, (source, wanted)) in rows.iter().enumerate() {
        match set_comment(rt.alloc(), source, options, "a", "x") {
            Ok(_) => panic!(rt; "row {row}"),
            Err(error) => same(&rt, row, reason_of(&error), *wanted),
        }
    }
}

// A list of keys and texts.
fn new_comments(alloc: Global, texts: &[(&str, &str)]) -> Result<Vec<NewComment>, AllocError> {
    let mut comments = Vec::new(alloc);
    for (key, text) in texts {
        comments.push(NewComment {
            key: String::from_str(alloc, key)?,
            text: String::from_str(alloc, text)?,
        })?;
    }
    Ok(comments)
}

#[test]
fn comments_of_many_keys_are_set(rt: HostRuntime) -> Result<(), Fail> {
    let alloc = rt.alloc();
    let options = SourceOptions::new(Encoding::UTF_8);
    let texts = [("b", "two"), ("a", "x"), ("c", ""), ("a", "one")];
    let comments = new_comments(alloc, texts.as_slice())?;
    let source = b"# first\na=1\n;old\n! a\na=2\r\nb=1\n#\nc=1";
    let commented = set_comments(alloc, source, options, &comments)?;
    same(
        &rt,
        0,
        commented.as_slice(),
        b"# first\na=1\n;old\n! one\na=2\r\n# two\nb=1\nc=1".as_slice(),
    );
    let none = set_comments(alloc, source, options, &[])?;
    same(&rt, 1, none.as_slice(), source.as_slice());
    Ok(())
}

#[test]
fn the_first_comment_without_a_pair_is_told(rt: HostRuntime) -> Result<(), Fail> {
    let alloc = rt.alloc();
    let options = SourceOptions::new(Encoding::UTF_8);
    let texts = [("b", "x"), ("c", "x"), ("a", "x"), ("d", "x")];
    let comments = new_comments(alloc, texts.as_slice())?;
    match set_comments(alloc, b"# d=1\na=1\nb=1\n", options, &comments) {
        Ok(_) => panic!(rt; "it was commented"),
        Err(RenamesError::NoKey(index)) => same(&rt, 0, index, 1usize),
        Err(_other) => panic!(rt; "another error"),
    }
    Ok(())
}

#[test]
fn many_keys_are_removed_with_their_comments(rt: HostRuntime) -> Result<(), Fail> {
    let alloc = rt.alloc();
    let options = SourceOptions::new(Encoding::UTF_8);
    let keys = vec![in alloc;
        String::from_str(alloc, "a")?,
        String::from_str(alloc, "c")?,
        String::from_str(alloc, "z")?,
    ]?;
    let source = b"# one\na=1\n# two\nb=2\n\n# three\nc=3\n# four\na=4\n# end\n";
    let removed = remove_with_comments(alloc, source, options, &keys)?;
    same(
        &rt,
        0,
        removed.as_slice(),
        b"# two\nb=2\n\n# end\n".as_slice(),
    );
    let all = remove_with_comments(alloc, source, options, &[])?;
    same(&rt, 1, all.as_slice(), source.as_slice());
    Ok(())
}
