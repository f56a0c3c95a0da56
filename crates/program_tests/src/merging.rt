// The edits by which the library sets the pairs of a file.

use crate::same::{Bytes, same};
use java_properties::{Edit, Encoding};
use properties_tools::propedit::merge::edits_of;
use properties_tools::propedit::request::Form;
use std::alloc::{AllocError, Global};
use std::process::Abort;
use std::test::Fail;

// Returns the keys and the values of edits, each with a line feed. There are no other edits than those of values.
fn shown(alloc: Global, edits: &[Edit]) -> Result<Vec<u8>, AllocError> {
    let mut text = Vec::new(alloc);
    for edit in edits {
        let (key, value) = match edit {
            Edit::SetValue(key, value) => (key.as_bytes(), value.as_bytes()),
            Edit::Put(_, _) | Edit::Remove(_) => (b"other".as_slice(), b"edit".as_slice()),
        };
        for part in [key, b"=".as_slice(), value, b"\n".as_slice()] {
            text.extend_from_slice(part)?;
        }
    }
    Ok(text)
}

// Returns the edits that the library gives for a file in windows-1252, or that it refuses it.
fn edits(alloc: Global, file: &[u8], form: Form) -> Result<Vec<u8>, AllocError> {
    match edits_of(alloc, file, Encoding::WINDOWS_1252, form) {
        Ok(edits) => shown(alloc, edits.as_slice()),
        Err(_failure) => b"refused".to_vec(alloc),
    }
}

// The file, its form, and its edits.
type Given<'a> = (&'a [u8], Form, &'a [u8]);

const GIVEN: &[Given<'static>] = &[
    (b"b = 1\na = 2\nb = 3", Form::Properties, b"b=3\na=2\n"),
    (b"\xe9: \\u0041\n#\\u", Form::Properties, b"\xc3\xa9=A\n"),
    (b"key\0 a\\tb\0", Form::Texts, b"key= a\\tb\n"),
    (b"b\x001\0a\x002\0b\x003\0", Form::Texts, b"b=1\na=2\nb=3\n"),
    (b"", Form::Texts, b""),
    (b"a=\\u12", Form::Properties, b"refused"),
    (b"a=1", Form::Texts, b"refused"),
];

fn check_given<R: Abort + AllocGlobal>(rt: &R, number: usize, row: Given<'_>) -> Result<(), Fail> {
    let (file, form, wanted) = row;
    let found = edits(rt.alloc(), file, form)?;
    same(rt, number, Bytes(found.as_slice()), Bytes(wanted));
    Ok(())
}

#[test]
fn edits_set_the_pairs_of_a_file(rt: HostRuntime) -> Result<(), Fail> {
    for (number, row) in (1usize..).zip(GIVEN) {
        check_given(&rt, number, *row)?;
    }
    Ok(())
}
