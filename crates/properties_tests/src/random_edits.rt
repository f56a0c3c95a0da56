// Documents and lists of edits, beside the calls on single keys made one after another, on sources and edits that a
// seed gives. The bytes are those by which groups run into each other: blanks, separators, backslashes, line endings
// and the bytes of a byte order mark.

ghost use Rattle.std.specs.Prelude.{◌<◌};

use crate::same::same;
use java_properties::Encoding::WINDOWS_1252;
use java_properties::{
    Comments, Document, Edit, PropertiesError, SourceOptions, edit_all, edit_with, map_of,
    remove_key, set_key, set_value, value_of, value_with,
};
use std::alloc::{AllocError, Global};
use std::process::Abort;
use std::test::Fail;

const BYTES: [u8; 19] = *b"aaab==: \\\\\n\n\r\r\n#\xef\xbb\xbf";

// Lines of few keys, and what ends them.
const LINES: [&[u8]; 9] = [
    b"a=1",
    b"a 2",
    b"a=x\\",
    b"a",
    b"b:3",
    b"#",
    b"",
    b"\xef\xbb\xbf",
    b"\xfe\xff",
];

const ENDS: [&[u8]; 3] = [b"\n", b"\r", b"\r\n"];

const KEYS: [&str; 7] = ["a", "b", "", "aa", "ab", "\u{ef}\u{bb}\u{bf}", "ba"];

const VALUES: [&str; 7] = ["", "a", "b c", " x ", "=", "\\", "\u{ef}"];

#[test]
fn documents_and_lists_are_edited_as_single_calls_edit_sources(
    rt: HostRuntime,
) -> Result<(), Fail> {
    let mut numbers = Numbers { seed: 12345 };
    for _ in 0..1500 {
        let source = numbers.source(rt.alloc())?;
        check_edits(&rt, rt.alloc(), &mut numbers, &source)?;
    }
    Ok(())
}

// 10,200 edits of sources with keys that many pairs have.
#[test]
fn repeated_keys_are_edited_as_by_single_calls(rt: HostRuntime) -> Result<(), Fail> {
    let mut numbers = Numbers { seed: 54321 };
    for _ in 0..1700 {
        let source = numbers.lines(rt.alloc())?;
        check_edits(&rt, rt.alloc(), &mut numbers, &source)?;
    }
    Ok(())
}

// Six edits of a source.
fn check_edits(
    rt: &impl Abort,
    alloc: Global,
    numbers: &mut Numbers,
    source: &[u8],
) -> Result<(), Fail> {
    let mut document = Document::parse(alloc, source, WINDOWS_1252)?;
    let mut edits = Vec::new(alloc);
    let mut wanted = source.to_vec(alloc)?;
    for _ in 0..6 {
        let edit = numbers.edit(alloc)?;
        change(&mut document, &edit)?;
        wanted = changed(alloc, &wanted, &edit)?;
        edits.push(edit)?;
        check_document(rt, alloc, &document, &wanted)?;
    }
    let listed = edit_all(alloc, source, WINDOWS_1252, &edits)?;
    same(rt, listed.as_slice(), wanted.as_slice());
    let options = SourceOptions {
        comments: Comments::PassedOver,
        ..SourceOptions::new(WINDOWS_1252)
    };
    let paired = edit_with(alloc, source, options, &edits)?;
    same(rt, paired.as_slice(), wanted.as_slice());
    check_ascii(rt, alloc, source, &edits, &document)?;
    check_source(rt, alloc, &document, KEYS[numbers.below(7)])
}

// A document and a list give the same bytes in ASCII only, which are ASCII if the source is. The document says what the
// other one says.
fn check_ascii(
    rt: &impl Abort,
    alloc: Global,
    source: &[u8],
    edits: &[Edit],
    other: &Document,
) -> Result<(), Fail> {
    let mut document = Document::parse(alloc, source, WINDOWS_1252)?;
    document.set_ascii_only(true);
    for edit in edits {
        change(&mut document, edit)?;
    }
    let options = SourceOptions {
        ascii_only: true,
        ..SourceOptions::new(WINDOWS_1252)
    };
    let listed = edit_with(alloc, source, options, edits)?;
    let bytes = document.to_bytes()?;
    same(rt, listed.as_slice(), bytes.as_slice());
    if source.is_ascii() {
        same(rt, listed.is_ascii(), true);
    }
    check_values(rt, &document, other);
    Ok(())
}

fn change(document: &mut Document, edit: &Edit) -> Result<(), AllocError> {
    match edit {
        Edit::Put(key, value) => document.put(key, value),
        Edit::SetValue(key, value) => document.set_value(key, value),
        Edit::Remove(key) => {
            let _ = document.remove(key);
            Ok(())
        }
    }
}

fn changed(alloc: Global, source: &[u8], edit: &Edit) -> Result<Vec<u8>, PropertiesError> {
    match edit {
        Edit::Put(key, value) => set_key(alloc, source, WINDOWS_1252, key, value),
        Edit::SetValue(key, value) => set_value(alloc, source, WINDOWS_1252, key, value),
        Edit::Remove(key) => remove_key(alloc, source, WINDOWS_1252, key),
    }
}

// The document has these bytes, and answers as one that was opened on them.
fn check_document(
    rt: &impl Abort,
    alloc: Global,
    document: &Document,
    wanted: &[u8],
) -> Result<(), Fail> {
    let bytes = document.to_bytes()?;
    same(rt, bytes.as_slice(), wanted);
    let opened = Document::parse(alloc, wanted, WINDOWS_1252)?;
    check_values(rt, document, &opened);
    let keys = document.keys()?;
    let others = opened.keys()?;
    check_keys(rt, &keys, &others);
    Ok(())
}

fn check_keys(rt: &impl Abort, found: &[&str], wanted: &[&str]) {
    same(rt, found, wanted);
}

// What a document says of a key, its bytes say too.
fn check_source(
    rt: &impl Abort,
    alloc: Global,
    document: &Document,
    key: &str,
) -> Result<(), Fail> {
    let bytes = document.to_bytes()?;
    let value = value_of(alloc, &bytes, WINDOWS_1252, key)?;
    same(rt, value.as_deref(), document.get(key));
    let options = SourceOptions {
        comments: Comments::PassedOver,
        ..SourceOptions::new(WINDOWS_1252)
    };
    let value = value_with(alloc, &bytes, options, key)?;
    same(rt, value.as_deref(), document.get(key));
    let map = map_of(alloc, &bytes, options)?;
    same(
        rt,
        map.get(key).map(|value| value.as_str()),
        document.get(key),
    );
    same(rt, map.len(), document.keys()?.len());
    Ok(())
}

fn check_values(rt: &impl Abort, document: &Document, other: &Document) {
    for key in KEYS {
        same(rt, document.get(key), other.get(key));
    }
}

// Numbers that look random, and what they choose.
#[derive(Drop)]
struct Numbers {
    seed: u64,
}

impl Numbers {
    fn below(&mut self, count: usize) -> usize
        requires { 0 < count }
        ensures { result < count }
    {
        self.seed = self
            .seed
            .wrapping_mul(6364136223846793005)
            .wrapping_add(1442695040888963407);
        (self.seed >> 33) as usize % count
    }

    fn source(&mut self, alloc: Global) -> Result<Vec<u8>, AllocError> {
        let mut source = Vec::new(alloc);
        if self.below(8) == 0 {
            source.extend_from_slice(b"\xef\xbb\xbf")?;
        }
        for _ in 0..self.below(14) {
            source.push(BYTES[self.below(19)])?;
        }
        Ok(source)
    }

    // The first line isn't the last of `LINES`, which is the byte order mark of an encoding that isn't edited.
    fn lines(&mut self, alloc: Global) -> Result<Vec<u8>, AllocError> {
        let mut source = Vec::new(alloc);
        source.extend_from_slice(LINES[self.below(8)])?;
        source.extend_from_slice(ENDS[self.below(3)])?;
        for _ in 0..self.below(14) {
            source.extend_from_slice(LINES[self.below(9)])?;
            source.extend_from_slice(ENDS[self.below(3)])?;
        }
        Ok(source)
    }

    fn edit(&mut self, alloc: Global) -> Result<Edit, AllocError> {
        let key = String::from_str(alloc, KEYS[self.below(7)])?;
        let kind = self.below(3);
        if kind == 0 {
            return Ok(Edit::Remove(key));
        }
        let value = String::from_str(alloc, VALUES[self.below(7)])?;
        Ok(match kind {
            1 => Edit::Put(key, value),
            _ => Edit::SetValue(key, value),
        })
    }
}
