// Calls, edits and lines as values: compared, copied, hashed, debugged and taken apart.

use crate::printed::check_debugged;
use crate::same::same;
use java_properties::{Call, Document, Edit, Encoding, Line, LineContent, LineEnding, read_lines};
use std::alloc::Global;
use std::collections::HashMap;
use std::fmt::Debug;
use std::hash::{DefaultHasher, Hash, Hasher};
use std::process::Abort;
use std::test::Fail;

fn text(rt: &impl Abort, alloc: Global, text: &str) -> String {
    String::from_str(alloc, text).expect(rt, "memory for a text")
}

#[test]
fn calls_are_compared_copied_and_debugged(rt: HostRuntime) -> Result<(), Fail> {
    let (rt, alloc) = (&rt, rt.alloc());
    let rows = [
        (Call::Comment(text(rt, alloc, "a")), r#"Comment("a")"#),
        (call_of_pair(rt, alloc, "a", "b"), r#"Pair("a", "b")"#),
        (call_of_pair(rt, alloc, "a", "c"), r#"Pair("a", "c")"#),
        (Call::Prefix(text(rt, alloc, "a")), r#"Prefix("a")"#),
        (Call::Separator(text(rt, alloc, "a")), r#"Separator("a")"#),
        (Call::Ending(LineEnding::CR), "Ending(CR)"),
        (Call::Ending(LineEnding::LF), "Ending(LF)"),
        (Call::Flush, "Flush"),
        (Call::AsciiOnly(true), "AsciiOnly(true)"),
        (Call::AsciiOnly(false), "AsciiOnly(false)"),
        (Call::Readable(true), "Readable(true)"),
        (Call::Readable(false), "Readable(false)"),
    ];
    check_values(rt, alloc, rows.as_slice())
}

fn call_of_pair(rt: &impl Abort, alloc: Global, key: &str, value: &str) -> Call {
    Call::Pair(text(rt, alloc, key), text(rt, alloc, value))
}

#[test]
fn edits_are_compared_copied_and_debugged(rt: HostRuntime) -> Result<(), Fail> {
    let (rt, alloc) = (&rt, rt.alloc());
    let rows = [
        (put(rt, alloc, "a", "b"), r#"Put("a", "b")"#),
        (put(rt, alloc, "a", "\n"), r#"Put("a", "\n")"#),
        (put(rt, alloc, "b", "b"), r#"Put("b", "b")"#),
        (Edit::Remove(text(rt, alloc, "a")), r#"Remove("a")"#),
        (Edit::Remove(text(rt, alloc, "")), r#"Remove("")"#),
        (value_set(rt, alloc, "a", "b"), r#"SetValue("a", "b")"#),
        (value_set(rt, alloc, "a", "\n"), r#"SetValue("a", "\n")"#),
    ];
    check_values(rt, alloc, rows.as_slice())
}

#[test]
fn a_document_is_debugged(rt: HostRuntime) -> Result<(), Fail> {
    let (rt, alloc) = (&rt, rt.alloc());
    let source = b"\xef\xbb\xbfa=1\nb=2\na=3";
    let document = Document::parse(alloc, source, Encoding::WINDOWS_1252)?;
    let wanted = "Document { encoding: UTF_8, bytes_read: 14, keys: 2, .. }";
    check_debugged(rt, alloc, &document, wanted)
}

fn put(rt: &impl Abort, alloc: Global, key: &str, value: &str) -> Edit {
    Edit::Put(text(rt, alloc, key), text(rt, alloc, value))
}

fn value_set(rt: &impl Abort, alloc: Global, key: &str, value: &str) -> Edit {
    Edit::SetValue(text(rt, alloc, key), text(rt, alloc, value))
}

// Each value is equal to its copy and to no other, and is debugged as the text beside it.
fn check_values<T: PartialEq + Clone + Debug>(
    rt: &impl Abort,
    alloc: Global,
    rows: &[(T, &str)],
) -> Result<(), Fail> {
    for (place, (value, debugged)) in rows.iter().enumerate() {
        check_debugged(rt, alloc, value, debugged)?;
        same(rt, value.clone()? == *value, true);
        for (other_place, (other, _)) in rows.iter().enumerate() {
            same(rt, other == value, other_place == place);
        }
    }
    Ok(())
}

#[test]
fn lines_are_hashed_copied_and_taken_apart(rt: HostRuntime) -> Result<(), Fail> {
    for bytes in [b"#z".as_slice(), b"a=1", b"\n\na="] {
        check_line(&rt, rt.alloc(), bytes)?;
    }
    Ok(())
}

// Two equal lines stay equal in parts. A line that no row begins with isn't found among them.
fn check_line(rt: &impl Abort, alloc: Global, bytes: &[u8]) -> Result<(), Fail> {
    let line = first_line(rt, alloc, bytes);
    let again = first_line(rt, alloc, bytes);
    same(rt, hash_of(&line), hash_of(&again));
    same(rt, hash_of(line.content()), hash_of(again.content()));
    let content = line.content().clone()?;
    same(rt, content == *again.content(), true);
    same(rt, line.clone()?.consume_content() == content, true);
    same(rt, LineContent::from(line.clone()?) == content, true);
    let mut seen = HashMap::new(alloc);
    seen.insert(line, true)?;
    same(rt, seen.get(&again).copied(), Some(true));
    same(rt, seen.get(&first_line(rt, alloc, b"!")).copied(), None);
    Ok(())
}

fn first_line(rt: &impl Abort, alloc: Global, bytes: &[u8]) -> Line {
    let mut input = bytes;
    match read_lines(alloc, &mut input, Encoding::UTF_8) {
        Ok(lines) => lines.into_iter().next().expect(rt, "a line"),
        Err(_) => panic!(*rt; "these lines are not read"),
    }
}

fn hash_of<T: Hash>(value: &T) -> u64 {
    let mut state = DefaultHasher::new();
    value.hash(&mut state);
    state.finish()
}

#[test]
fn line_endings_are_ordered(rt: HostRuntime) -> Result<(), Fail> {
    let order = [LineEnding::CR, LineEnding::LF, LineEnding::CRLF];
    for (place, ending) in order.iter().enumerate() {
        for (other_place, other) in order.iter().enumerate() {
            same(&rt, ending < other, place < other_place);
        }
    }
    Ok(())
}
