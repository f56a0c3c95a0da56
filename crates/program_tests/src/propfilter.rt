// Runs of the program `propfilter`.

use crate::runs::{Program, Row, SOUND, Streams, check_run, check_runs};
use crate::same::{Bytes, same};
use crate::streams::{AMPLE, sink};
use counted_io::Tail;
use properties_tools::propfilter::print_not_utf_8;
use std::io::ErrorKind;
use std::test::Fail;

const PAIRS: &[Row] = &[
    ("", b"b = 2\na", 0, b"b=2\na=\n"),
    ("", b"# x\nb = 2\na", 0, b"b=2\na=\n"),
    ("", b" a = b ", 0, b"a=b\\ \n"),
    ("", b"a=1\r\n!c\nb:2", 0, b"a=1\nb=2\n"),
    ("", b"\xef\xbb\xbfk=\xe3\x81\x82", 0, b"k=\\u3042\n"),
    ("", b"", 0, b""),
];

#[test]
fn the_pairs_are_printed(rt: HostRuntime) -> Result<(), Fail> {
    check_runs(&rt, Program::Propfilter, PAIRS)
}

const ENCODINGS: &[Row] = &[
    ("windows-1252", b"a=\xe9", 0, b"a=\xe9\n"),
    ("utf-8", b"k=\xe3\x81\nx=y", 0, b"k=\xef\xbf\xbd\nx=y\n"),
    ("utf-8", b"a=\xc3\xa9", 0, b"a=\xc3\xa9\n"),
    ("utf-16le", b"a\0=\0\xe9\0", 0, b"a=\xc3\xa9\n"),
    ("utf-16be", b"\0a\0=\0\xe9", 0, b"a=\xc3\xa9\n"),
    (
        "utf-16be",
        b"\0a\0=\xd8\x3d\xdc\x1e",
        0,
        b"a=\xf0\x9f\x90\x9e\n",
    ),
    ("utf-8 ascii", b"k=\xe6\x97\xa5\n", 0, b"k=\\u65e5\n"),
    ("windows-1252 ascii", b"k=\xe9", 0, b"k=\\u00e9\n"),
    ("utf-16le ascii", b"\xff\xfea\0=\0\xe9\0", 0, b"a=\\u00e9\n"),
    ("utf-16be ascii", b"\0a\0=\0\xe9", 0, b"a=\\u00e9\n"),
];

#[test]
fn words_name_the_encoding_and_ascii(rt: HostRuntime) -> Result<(), Fail> {
    check_runs(&rt, Program::Propfilter, ENCODINGS)
}

const USAGE: &str = "usage: propfilter [windows-1252|utf-8|utf-16le|utf-16be [ascii]]\n";

const OTHER_WORDS: &[&str] = &[
    "x",
    "UTF-8",
    "ascii",
    "utf-8 utf-8",
    "ascii utf-8",
    "x ascii",
    "utf-8 ascii ascii",
];

#[test]
fn other_words_print_the_usage(rt: HostRuntime) -> Result<(), Fail> {
    for (number, words) in (1usize..).zip(OTHER_WORDS) {
        let row = (*words, b"a=1".as_slice(), 2, b"".as_slice(), USAGE);
        check_run(&rt, number, Program::Propfilter, SOUND, row)?;
    }
    Ok(())
}

const FAILING: Streams = Streams {
    tail: Tail::Fault(ErrorKind::Other),
    ..SOUND
};

const ERRORS: &[(Streams, &[u8], &str)] = &[
    (
        SOUND,
        b"a=1\nk=\\u12",
        "Malformed \\uxxxx encoding: not enough digits. (line_number = 2)\n",
    ),
    (FAILING, b"a=1\nb=2", "I/O error (line_number = 2)\n"),
];

#[test]
fn errors_are_printed(rt: HostRuntime) -> Result<(), Fail> {
    for (number, row) in (1usize..).zip(ERRORS) {
        let (streams, input, errors) = *row;
        let row = ("", input, 1, b"a=1\n".as_slice(), errors);
        check_run(&rt, number, Program::Propfilter, streams, row)?;
    }
    Ok(())
}

#[test]
fn an_argument_that_is_not_utf_8_is_refused(rt: HostRuntime) {
    let mut errors = sink(rt.alloc(), AMPLE);
    let status = print_not_utf_8(&mut errors);
    let wanted = Bytes(b"propfilter: an argument is not UTF-8\n");
    same(&rt, 1, (status, Bytes(errors.bytes())), (1, wanted));
}
