// Lines that are found among bytes and then decoded, beside the lines of the text that the whole input is decoded to.

use crate::same::same;
use crate::script::script;
use counted_io::Tail;
use properties_text::encoding::Encoding;
use properties_text::encoding::Encoding::{UTF_8, UTF_16BE, UTF_16LE, WINDOWS_1252};
use single_lines::decode_iter::DecodeIter;
use single_lines::natural::{NaturalLine, NaturalLines};
use std::alloc::{AllocError, Global};
use std::process::Abort;

// Inputs of the other tests and of the tables, in these encodings.
const INPUTS: [(Encoding, &[u8]); 84] = [
    (WINDOWS_1252, b""),
    (
        WINDOWS_1252,
        b"a=b\nc=d\\\ne=f\ng=h\r#comment1\r\n#comment2\\\ni=j\\\n#comment3\n \n#comment4",
    ),
    (WINDOWS_1252, b"x=\\\\\\\nty"),
    (WINDOWS_1252, b"a\\"),
    (WINDOWS_1252, b"\\"),
    (WINDOWS_1252, b"\\\n#b"),
    (WINDOWS_1252, b"a\\\n\nb"),
    (WINDOWS_1252, b"a=\\\n\xa0b"),
    (WINDOWS_1252, b"#a\\ "),
    (UTF_8, b"k=\xe3\x81\nx=y"),
    (WINDOWS_1252, b"a=1\r\nb=2"),
    (WINDOWS_1252, b"\xff\xfea\x00=\x00=\xd8\n\x00b"),
    (WINDOWS_1252, b"\xff\xfe=\xd8a"),
    (WINDOWS_1252, b"\xff\xfea\x00=\x00\n\n"),
    (WINDOWS_1252, b"\xfe\xff\x00a\x00=\x00b"),
    (WINDOWS_1252, b"\xef\xbb"),
    (WINDOWS_1252, b"\\ud83d\\udc1e=\\u0001"),
    (WINDOWS_1252, b"\\ud83d=x"),
    (WINDOWS_1252, b"\\u+041=x"),
    (WINDOWS_1252, b"\\u12=x"),
    (WINDOWS_1252, b"\\uxxxx"),
    (WINDOWS_1252, b"a\\\nb\n\\uxxxx"),
    (WINDOWS_1252, b"\r"),
    (WINDOWS_1252, b"a=1\r"),
    (WINDOWS_1252, b"a:=b"),
    (WINDOWS_1252, b"a b:c"),
    (WINDOWS_1252, b" a = b "),
    (WINDOWS_1252, b"="),
    (WINDOWS_1252, b"\\=x"),
    (WINDOWS_1252, b"\\u00fe\xff=x\n\xfe\xff=x\n"),
    (WINDOWS_1252, b"a \n"),
    (WINDOWS_1252, b"#xa\\r\\nb\\\\ \n"),
    (WINDOWS_1252, b"a=b\r# c\r\n"),
    (WINDOWS_1252, b"a=1\na=2"),
    (WINDOWS_1252, b"a=1\n\xfe\xff=2\n"),
    (WINDOWS_1252, b"\n\xfe\xff=2\n"),
    (WINDOWS_1252, b"a\\\r"),
    (WINDOWS_1252, b"a\\\r\rb=c\n"),
    (WINDOWS_1252, b"a\\\n\nb=c\n"),
    (WINDOWS_1252, b"#x\\"),
    (WINDOWS_1252, b"#x\\\nb=c\n"),
    (WINDOWS_1252, b"b=c\n"),
    (WINDOWS_1252, b"a=1\na=3"),
    (
        WINDOWS_1252,
        b"#c\n#Thu Jan 01 00:00:00 UTC 1970\nk=\\u00E9\nm=\\uD83D\\uDC1E\n",
    ),
    (WINDOWS_1252, b"#C:\\users"),
    (WINDOWS_1252, b"#\\\\uD83D\\uDC1E"),
    (WINDOWS_1252, b"# x\nb = 2\na"),
    (WINDOWS_1252, b"a=1\nk=\\u12"),
    (WINDOWS_1252, b"\x80\x81\x9f\xe9"),
    (UTF_8, b"\xf0\x9f\x90\x9e"),
    (UTF_8, b"\xf0\x9f\x90"),
    (UTF_8, b"\xed\xa0\x80"),
    (UTF_8, b"\xf0\x80A"),
    (UTF_8, b"\xc0\xaf"),
    (UTF_8, b"\xe3\x81\xe3\x81\x82"),
    (UTF_16BE, b"\xd8=\xdc\x1e"),
    (UTF_16BE, b"\xdc\x1e\x00A"),
    (UTF_16BE, b"\xd8=\xd8=\xdc\x1e"),
    (UTF_16LE, b"A"),
    (UTF_8, b"\xef\xbb\xbf\xef\xbb\xbfa"),
    (UTF_16LE, b"\xef\xbb\xbfa"),
    (UTF_8, b"\xff\xfea\x00"),
    (UTF_8, b"\xfe"),
    (WINDOWS_1252, b"a = b\\\n  c, d "),
    (
        UTF_8,
        b"a=\xe6\x97\xa5\xe6\x9c\xac\xe8\xaa\x9e\nb=Fran\xc3\xa7ais",
    ),
    (WINDOWS_1252, b"a=b"),
    (WINDOWS_1252, b"a=\\#b"),
    (WINDOWS_1252, b"\\!a=b"),
    (WINDOWS_1252, b"a=\\\nb=\\u12"),
    (WINDOWS_1252, b"\\u1=\\uxxxx"),
    (WINDOWS_1252, b"#a\n\\uzzzz"),
    (WINDOWS_1252, b"!t\t\nk=\r"),
    (UTF_16LE, b"\xff\xfea\x00=\x00\xe9\x00"),
    (UTF_8, b"a=\xc3\xa9\n"),
    (WINDOWS_1252, b"\\u00fe\xff=\n"),
    (WINDOWS_1252, b"a=1\n#c"),
    (WINDOWS_1252, b"a=1\rx=y\\\nz\n\\u0061=2"),
    (WINDOWS_1252, b"\xef\xbb\xbfa=1\r\n"),
    (WINDOWS_1252, b"\xff\xfea\x00"),
    (WINDOWS_1252, b"a=1\n\\u1=x"),
    (WINDOWS_1252, b"\xfe\xff\n\r\x00\n\x00a"),
    (WINDOWS_1252, b"\xff\xfe\x00\r\x00\n\r\x00\n\x00b\x00"),
    (UTF_8, b"a=\xf0\x9f\x90\r\xf0\x9f\x90\x9e\n"),
    (UTF_16LE, b"=\xd8\r\x00\x1e\xdc"),
];

// The text of the whole input, with LF as each line ending.
fn decoded(
    alloc: Global,
    encoding: Encoding,
    bytes: &[u8],
    size: usize,
) -> Result<String, AllocError> {
    let characters = DecodeIter::new(alloc, script(alloc, bytes, size, Tail::End)?, encoding)?;
    let mut text = String::new(alloc);
    // Each character has a byte at least, so no more of them come.
    for character in characters.take(bytes.len() + 1) {
        text.push(character.unwrap_or('?'))?;
    }
    let text = text.replace(alloc, "\r\n", "\n")?;
    text.replace(alloc, '\r', "\n")
}

// Its lines, with an LF between two.
fn lines(
    alloc: Global,
    encoding: Encoding,
    bytes: &[u8],
    size: usize,
) -> Result<String, AllocError> {
    let mut all = String::new(alloc);
    for line in NaturalLines::new(alloc, script(alloc, bytes, size, Tail::End)?, encoding) {
        let Ok(NaturalLine(number, text)) = line else {
            return String::from_str(alloc, "an error");
        };
        if number > 1 {
            all.push('\n')?;
        }
        all.push_str(text.as_str())?;
    }
    Ok(all)
}

// In pieces of this size, the two ways give the same.
fn agree(rt: &impl Abort, alloc: Global, encoding: Encoding, bytes: &[u8], size: usize) {
    let found = lines(alloc, encoding, bytes, size);
    match (found, decoded(alloc, encoding, bytes, size)) {
        (Ok(found), Ok(wanted)) => same(rt, found.as_str(), wanted.as_str()),
        _ => panic!(*rt; "no memory for {bytes:?}"),
    }
}

#[test]
fn lines_are_those_of_the_decoded_text(rt: HostRuntime) {
    for (encoding, bytes) in &INPUTS {
        for size in [1, 2, 3, 1000] {
            agree(&rt, rt.alloc(), *encoding, bytes, size);
        }
    }
}
