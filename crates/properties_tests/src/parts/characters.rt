// Characters of bytes: one by one, in pieces of any size and up to a fault, and all at once.

use crate::same::same;
use crate::script::{TIMES_OUT, script};
use counted_io::{CountedRead, Tail};
use properties_text::encoding::Encoding;
use properties_text::encoding::Encoding::{UTF_8, UTF_16BE, UTF_16LE, WINDOWS_1252};
use properties_text::encoding::byte_order_mark::encoding_in_force;
use single_lines::decode::decode_line;
use single_lines::decode_iter::DecodeIter;
use std::alloc::{AllocError, Global};
use std::process::Abort;

// An encoding that is asked for, some bytes, and the text that they are decoded to.
const ROWS: [(Encoding, &[u8], &str); 24] = [
    (
        WINDOWS_1252,
        b"\x80\x81\x9f\xe9",
        "\u{20ac}\u{81}\u{178}\u{e9}",
    ),
    (UTF_8, b"\xf0\x9f\x90\x9e", "\u{1f41e}"),
    (
        WINDOWS_1252,
        b"eight and\xe9abc\x80",
        "eight and\u{e9}abc\u{20ac}",
    ),
    (
        UTF_16LE,
        b"l\0o\0n\0g\0e\0\xe9\0x\0y\0z\0\0\x41",
        "longe\u{e9}xyz\u{4100}",
    ),
    (
        UTF_16BE,
        b"\0l\0o\0n\0g\0e\0\xe9\0x\0y\0z\x41\0",
        "longe\u{e9}xyz\u{4100}",
    ),
    (UTF_8, b"\xf0\x9f\x90", "\u{fffd}"),
    (UTF_8, b"\xed\xa0\x80", "\u{fffd}\u{fffd}\u{fffd}"),
    (UTF_8, b"\xf0\x80A", "\u{fffd}\u{fffd}A"),
    (UTF_8, b"\xc0\xaf", "\u{fffd}\u{fffd}"),
    (UTF_8, b"\xe3\x81\xe3\x81\x82", "\u{fffd}\u{3042}"),
    (UTF_16BE, b"\xd8\x3d\xdc\x1e", "\u{1f41e}"),
    (UTF_16BE, b"\xdc\x1e\x00A", "\u{fffd}A"),
    (UTF_16BE, b"\xd8\x3d\xd8\x3d\xdc\x1e", "\u{fffd}\u{1f41e}"),
    (UTF_16LE, b"A", "\u{fffd}"),
    (UTF_8, b"\xef\xbb\xbf\xef\xbb\xbfa", "\u{feff}a"),
    (UTF_16LE, b"\xef\xbb\xbfa", "a"),
    (UTF_8, b"\xff\xfea\x00", "a"),
    (UTF_8, b"\xfe", "\u{fffd}"),
    (WINDOWS_1252, b"\xef\xbb", "\u{ef}\u{bb}"),
    (WINDOWS_1252, b"caf\xe9 \x80 = x", "caf\u{e9} \u{20ac} = x"),
    (WINDOWS_1252, b"\xfe\xff\x00a\x00=\x00b", "a=b"),
    (UTF_8, b"k=\xe3\x81\nx=y", "k=\u{fffd}\nx=y"),
    (
        WINDOWS_1252,
        b"\xff\xfea\x00=\x00=\xd8\n\x00b",
        "a=\u{fffd}\n\u{fffd}",
    ),
    (WINDOWS_1252, b"\xff\xfe=\xd8a", "\u{fffd}"),
];

// The text of a body, whose byte order mark is taken off.
fn decoded_whole(alloc: Global, asked: Encoding, bytes: &[u8]) -> Result<String, AllocError> {
    let (encoding, start) = encoding_in_force(bytes, asked);
    let body = bytes.get(start..).unwrap_or(&[]);
    decode_line(alloc, encoding, body)?.into_owned(alloc)
}

// The next character, or a bar in the place of a fault.
fn next_shown<R: CountedRead>(characters: &mut DecodeIter<R>) -> Option<char> {
    match characters.next() {
        Some(Ok(character)) => Some(character),
        Some(Err(_)) => Some('|'),
        None => None,
    }
}

// The text of all characters and a fault. A plus shows that more come after it.
fn decoded_singly(
    alloc: Global,
    asked: Encoding,
    bytes: &[u8],
    size: usize,
    tail: Tail,
) -> Result<String, AllocError> {
    let mut characters = DecodeIter::new(alloc, script(alloc, bytes, size, tail)?, asked)?;
    let mut text = String::new(alloc);
    // Each character has a byte at least, so no more of them come.
    for _ in 0..bytes.len() + 1 {
        if let Some(character) = next_shown(&mut characters) {
            text.push(character)?;
        }
    }
    if next_shown(&mut characters).is_some() {
        text.push('+')?;
    }
    Ok(text)
}

// These bytes are decoded to this text, and come to this end.
fn decodes(rt: &impl Abort, found: Result<String, AllocError>, text: &str, end: &str) {
    match found {
        Ok(found) => same(rt, found.as_str().strip_suffix(end), Some(text)),
        Err(_) => panic!(*rt; "no memory for {text:?}"),
    }
}

// So they are in pieces of any size, and before a fault too.
fn decodes_in_pieces(rt: &impl Abort, alloc: Global, asked: Encoding, bytes: &[u8], text: &str) {
    for size in [1, 2, 3, 100] {
        for (tail, end) in [(Tail::End, ""), (TIMES_OUT, "|")] {
            let found = decoded_singly(alloc, asked, bytes, size, tail);
            decodes(rt, found, text, end);
        }
    }
}

#[test]
fn bytes_are_decoded_to_their_characters(rt: HostRuntime) {
    for (asked, bytes, text) in &ROWS {
        decodes(&rt, decoded_whole(rt.alloc(), *asked, bytes), text, "");
        decodes_in_pieces(&rt, rt.alloc(), *asked, bytes, text);
    }
}
