// Lists of edits of any kind, and keys of documents.

use crate::same::same;
use java_properties::{
    Comments, Document, Edit, Encoding, ErrorKind, KeyEdit, NewComment, Rename, RenameError,
    RenamesError, SourceOptions, comment_in, edit_keys, remove_with_comment_in, rename_in,
    set_comment_in,
};
use std::alloc::{AllocError, Global};
use std::test::Fail;

const SOURCE: &[u8] = b"# of a\na = 1\n\n# of b\nb = 2\nc = 3\n";

fn text(alloc: Global, text: &str) -> Result<String, AllocError> {
    String::from_str(alloc, text)
}

fn value(alloc: Global, key: &str, value: &str) -> Result<KeyEdit, AllocError> {
    Ok(KeyEdit::Edit(Edit::SetValue(text(alloc, key)?, text(alloc, value)?)))
}

fn rename(alloc: Global, old: &str, new: &str) -> Result<KeyEdit, AllocError> {
    Ok(KeyEdit::Rename(Rename {
        old: text(alloc, old)?,
        new: text(alloc, new)?,
    }))
}

fn comment(alloc: Global, key: &str, comment: &str) -> Result<KeyEdit, AllocError> {
    Ok(KeyEdit::SetComment(NewComment {
        key: text(alloc, key)?,
        text: text(alloc, comment)?,
    }))
}

fn removal(alloc: Global, key: &str) -> Result<KeyEdit, AllocError> {
    Ok(KeyEdit::RemoveWithComment(text(alloc, key)?))
}

#[test]
fn edits_of_all_kinds_are_made_in_order(rt: HostRuntime) -> Result<(), Fail> {
    let alloc = rt.alloc();
    let options = SourceOptions::new(Encoding::UTF_8);
    let edits = vec![in alloc;
        rename(alloc, "a", "x")?,
        rename(alloc, "x", "y")?,
        comment(alloc, "y", "of y")?,
        value(alloc, "y", "10")?,
        value(alloc, "z", "4")?,
        removal(alloc, "b")?,
        removal(alloc, "c")?,
        rename(alloc, "z", "a")?,
    ]?;
    let edited = edit_keys(alloc, SOURCE, options, &edits)?;
    same(
        &rt,
        edited.as_slice(),
        b"# of y\ny = 10\n\na = 4\n".as_slice(),
    );
    let none = edit_keys(alloc, SOURCE, options, &[])?;
    same(&rt, none.as_slice(), SOURCE);
    Ok(())
}

#[test]
fn the_index_of_a_refused_edit_is_told(rt: HostRuntime) -> Result<(), Fail> {
    let alloc = rt.alloc();
    let options = SourceOptions::new(Encoding::UTF_8);
    let taken = vec![in alloc;
        value(alloc, "d", "4")?,
        removal(alloc, "b")?,
        rename(alloc, "d", "e")?,
        rename(alloc, "a", "c")?,
    ]?;
    match edit_keys(alloc, SOURCE, options, &taken) {
        Err(RenamesError::KeyTaken(index, line)) => same(&rt, (index, line), (3usize, 4usize)),
        _ => panic!(rt; "the key isn't taken"),
    }
    // The rename before it joined two lines.
    let joined = vec![in alloc; rename(alloc, "ab", "x")?, rename(alloc, "c", "d")?]?;
    match edit_keys(alloc, b"a\\\nb=1\nc=2\nd=3\n", options, &joined) {
        Err(RenamesError::KeyTaken(index, line)) => same(&rt, (index, line), (1usize, 3usize)),
        _ => panic!(rt; "the key isn't taken"),
    }
    let missing = vec![in alloc;
        removal(alloc, "b")?,
        comment(alloc, "a", "x")?,
        comment(alloc, "b", "x")?,
    ]?;
    match edit_keys(alloc, SOURCE, options, &missing) {
        Err(RenamesError::NoKey(index)) => same(&rt, index, 2usize),
        _ => panic!(rt; "a pair has the key"),
    }
    Ok(())
}

#[test]
fn keys_of_a_document_are_renamed_and_commented(rt: HostRuntime) -> Result<(), Fail> {
    let alloc = rt.alloc();
    let options = SourceOptions {
        ascii_only: true,
        comments: Comments::PassedOver,
        ..SourceOptions::new(Encoding::UTF_8)
    };
    let mut document = Document::parse_with(alloc, SOURCE, options)?;
    document.set_value("c", "4")?;
    rename_in(alloc, &mut document, "c", "\u{e9}")?;
    same(&rt, document.get("\u{e9}"), Some("4"));
    set_comment_in(alloc, &mut document, "\u{e9}", "\\u12")?;
    let texts = comment_in(alloc, &document, "\u{e9}")?.unwrap_or(Vec::new(alloc));
    match texts.as_slice() {
        [only] => same(&rt, only.as_str(), "\\u12"),
        _ => panic!(rt; "it is one line"),
    }
    remove_with_comment_in(alloc, &mut document, "b")?;
    document.put("d", "\u{e9}")?;
    let bytes = document.to_bytes()?;
    let wanted = b"# of a\na = 1\n\n# \\u12\n\\u00e9 = 4\nd=\\u00e9\n";
    same(&rt, bytes.as_slice(), wanted.as_slice());
    same(&rt, document.options() == options, true);
    Ok(())
}

#[test]
fn a_document_stays_as_it_is_if_a_call_fails(rt: HostRuntime) -> Result<(), Fail> {
    let alloc = rt.alloc();
    let mut document = Document::parse(alloc, SOURCE, Encoding::UTF_8)?;
    match rename_in(alloc, &mut document, "a", "b") {
        Err(RenameError::KeyTaken(line)) => same(&rt, line, 5usize),
        _ => panic!(rt; "the key isn't taken"),
    }
    match set_comment_in(alloc, &mut document, "z", "x") {
        Err(RenameError::NoKey) => {}
        _ => panic!(rt; "a pair has the key"),
    }
    // The document reads comments.
    match set_comment_in(alloc, &mut document, "c", "\\u12") {
        Err(RenameError::Source(error)) => {
            same(&rt, error.kind() == ErrorKind::NotEnoughDigits, true);
            same(&rt, error.line_number(), Some(6usize));
        }
        _ => panic!(rt; "the comment is read"),
    }
    let bytes = document.to_bytes()?;
    same(&rt, bytes.as_slice(), SOURCE);
    Ok(())
}
