// Borrowed items, and which of their texts are slices of the line.

use self::Item::{Comment, Pair};
use self::Text::{Borrowed, Owned};
use crate::same::same;
use java_properties::{ContentRef, LineRef, PropertiesIter};
use std::alloc::Global;
use std::borrow::CowStr;
use std::process::Abort;
use std::test::Fail;

#[derive(Clone, Copy, Debug, PartialEq)]
enum Text<'a> {
    Borrowed(&'a str),
    Owned(&'a str),
}

// An item under the number of its line.
#[derive(Clone, Copy, Debug, PartialEq)]
enum Item<'a> {
    Comment(usize, Text<'a>),
    Pair(usize, Text<'a>, Text<'a>),
}

#[test]
fn texts_without_escapes_are_borrowed(rt: HostRuntime) -> Result<(), Fail> {
    let rows: [(&[u8], &[Item<'_>]); 4] = [
        (
            b"a=b\nc=d\\te",
            &[
                Pair(1, Borrowed("a"), Borrowed("b")),
                Pair(2, Borrowed("c"), Owned("d\te")),
            ],
        ),
        (b"k=\xe9", &[Pair(1, Borrowed("k"), Borrowed("\u{e9}"))]),
        (b"x=1\\\n2", &[Pair(1, Borrowed("x"), Borrowed("12"))]),
        (
            b"#\\\nb",
            &[
                Comment(1, Owned("\0")),
                Pair(2, Borrowed("b"), Borrowed("")),
            ],
        ),
    ];
    for (bytes, wanted) in rows {
        check_borrowed(&rt, rt.alloc(), bytes, wanted)?;
    }
    Ok(())
}

// These items come, and then none.
fn check_borrowed(
    rt: &impl Abort,
    alloc: Global,
    bytes: &[u8],
    wanted: &[Item<'_>],
) -> Result<(), Fail> {
    let mut items = PropertiesIter::new(alloc, bytes)?;
    for wanted in wanted {
        match items.next_ref() {
            Some(Ok(line)) => same(rt, item_of(&line), *wanted),
            _ => panic!(*rt; "no item {wanted:?}"),
        }
    }
    same(rt, items.next_ref().is_none(), true);
    Ok(())
}

fn item_of<'a>(line: &'a LineRef<'_>) -> Item<'a> {
    match line.content() {
        ContentRef::Comment(text) => Comment(line.line_number(), text_of(text)),
        ContentRef::KVPair(key, value) => Pair(line.line_number(), text_of(key), text_of(value)),
    }
}

fn text_of<'a>(text: &'a CowStr<'_>) -> Text<'a> {
    match text {
        CowStr::Borrowed(text) => Borrowed(text),
        CowStr::Owned(text) => Owned(text.as_str()),
    }
}
