// What the library gives for two sources.

use crate::same::{Bytes, same};
use java_properties::Encoding;
use properties_tools::propedit::diff::{DiffFailure, diff};
use properties_tools::propedit::named::NamedSource;
use std::alloc::{AllocError, Global};
use std::process::Abort;
use std::test::Fail;

const OLD: &[u8] = b"# c\nport = 80\nhost=a\npath=b\nport = 81\n";

// What stands for the status of sources of which one is refused.
const REFUSAL: u8 = 8;

// Returns what the library gives for two sources in windows-1252: the status and the text, or which one it refuses.
fn answer(alloc: Global, old: &[u8], new: &[u8]) -> Result<(u8, Vec<u8>), AllocError> {
    let old = NamedSource {
        name: "old",
        bytes: old,
    };
    let new = NamedSource {
        name: "\u{e9}\t",
        bytes: new,
    };
    match diff(alloc, old, new, Encoding::WINDOWS_1252) {
        Ok(answer) => Ok((answer.status, answer.text)),
        Err(DiffFailure::Old(_failure)) => Ok((REFUSAL, b"old".to_vec(alloc)?)),
        Err(DiffFailure::New(_failure)) => Ok((REFUSAL, b"new".to_vec(alloc)?)),
        Err(DiffFailure::Output(_error)) => Ok((REFUSAL, b"output".to_vec(alloc)?)),
    }
}

// Both sources, the status, and the text.
type Answered<'a> = (&'a [u8], &'a [u8], u8, &'a [u8]);

const ANSWERS: &[Answered<'static>] = &[
    (OLD, OLD, 0, b""),
    (
        b"a=1\nb=\xe9",
        b"c = 3\r\na: 1\r\n",
        1,
        b"old:2: -b=\xc3\xa9\n\xc3\xa9\\u{9}:1: +c=3\n",
    ),
    (b"a=\\u12", b"a=\\u1", REFUSAL, b"old"),
    (b"a=1", b"a=\\u12", REFUSAL, b"new"),
];

fn check_answer<R: Abort + AllocGlobal>(
    rt: &R,
    number: usize,
    row: Answered<'_>,
) -> Result<(), Fail> {
    let (old, new, status, text) = row;
    let (found, given) = answer(rt.alloc(), old, new)?;
    same(
        rt,
        number,
        (found, Bytes(given.as_slice())),
        (status, Bytes(text)),
    );
    Ok(())
}

#[test]
fn what_differs_is_given_as_a_text(rt: HostRuntime) -> Result<(), Fail> {
    for (number, row) in (1usize..).zip(ANSWERS) {
        check_answer(&rt, number, *row)?;
    }
    Ok(())
}
