// The exports that rename a key, set or tell its comment, and remove both.

ghost use Rattle.std.specs.Prelude.{◌≡◌, [], ◌∷◌, ◌++◌, IfOk, OnOk, map};
ghost use Rattle.std.specs.List.{flat_map};
ghost use Rattle.std.specs.Str.{chars};
ghost use Rattle.properties_format.specs.Text.{line_feed};
ghost use Rattle.properties_items.specs.Texts.{characters};
ghost use Rattle.properties_text.specs.Encoding.{encoding_of};
ghost use Rattle.properties_c.specs.Crossing.{crossing};
ghost use Rattle.properties_c.specs.Keys.{ChangedCrosses, CommentCrosses, RemovesAcross, RenamesAcross, SetsAcross, TellsAcross, TellsCommentLines, text_line};

use crate::encoding::{FOR_COMMENTS, FOR_EDITS, FOR_KEYS};
use crate::key_call::{KeyCall, NO_TEXT};
use crate::out::{fail, refuse, refuse_call, set_outputs, write_bytes, write_result};
use crate::status::Status;
use java_properties::{
    Encoding, PropertiesError, RenameError, comment_of, remove_with_comment, rename_key,
    set_comment,
};
use std::alloc::{AllocError, Global};

/// Gives the source with a key renamed where it stands. If a pair has the new key, `line` is that of the first one.
#[unsafe(no_mangle)]
pub extern "C" fn todrenval_rename_key(
    alloc: Global,
    source: &[u8],
    encoding: u32,
    flags: u32,
    old: &[u8],
    new: &[u8],
    out: &mut [u8],
    length: &mut usize,
    line: &mut usize,
) -> i32
    ensures { let x = crossing out.old result length.new line.new out.new in
        RenamesAcross source.now encoding flags old.now new.now x }
{
    let call = KeyCall {
        source,
        encoding,
        flags,
        key: old,
        text: new,
    };
    let asked = match call.asked(FOR_EDITS) {
        Ok(asked) => asked,
        Err(refusal) => return refuse_call(refusal, length, line),
    };
    let renamed = rename_key(alloc, source, asked.options, asked.key, asked.text);
    write_changed(renamed, out, length, line)
}

/// Gives the source with the comment of a key set: a comment line directly above the last pair with it for each line of
/// the text.
#[unsafe(no_mangle)]
pub extern "C" fn todrenval_set_comment(
    alloc: Global,
    source: &[u8],
    encoding: u32,
    flags: u32,
    key: &[u8],
    text: &[u8],
    out: &mut [u8],
    length: &mut usize,
    line: &mut usize,
) -> i32
    ensures { let x = crossing out.old result length.new line.new out.new in
        SetsAcross source.now encoding flags key.now text.now x }
{
    let call = KeyCall {
        source,
        encoding,
        flags,
        key,
        text,
    };
    let asked = match call.asked(FOR_EDITS) {
        Ok(asked) => asked,
        Err(refusal) => return refuse_call(refusal, length, line),
    };
    let commented = set_comment(alloc, source, asked.options, asked.key, asked.text);
    write_changed(commented, out, length, line)
}

// Answers with the bytes that a renaming or a new comment gave, or with why it gave none.
fn write_changed(
    outcome: Result<Vec<u8>, RenameError>,
    out: &mut [u8],
    length: &mut usize,
    line: &mut usize,
) -> i32
    ensures { ChangedCrosses outcome (crossing out.old result length.new line.new out.new) }
{
    match outcome {
        Ok(bytes) => write_bytes(&bytes, out, length, line),
        Err(RenameError::NoKey) => refuse(Status::NoKey, length, line),
        Err(RenameError::KeyTaken(number)) => {
            set_outputs(Status::KeyTaken, 0, number, length, line)
        }
        Err(RenameError::Source(error)) => fail(&error, length, line),
    }
}

/// Gives the source without a key and the comment lines directly above its pairs.
#[unsafe(no_mangle)]
pub extern "C" fn todrenval_remove_with_comment(
    alloc: Global,
    source: &[u8],
    encoding: u32,
    flags: u32,
    key: &[u8],
    out: &mut [u8],
    length: &mut usize,
    line: &mut usize,
) -> i32
    ensures { let x = crossing out.old result length.new line.new out.new in
        RemovesAcross source.now encoding flags key.now x }
{
    let call = KeyCall {
        source,
        encoding,
        flags,
        key,
        text: NO_TEXT,
    };
    let asked = match call.asked(FOR_KEYS) {
        Ok(asked) => asked,
        Err(refusal) => return refuse_call(refusal, length, line),
    };
    let removed = remove_with_comment(alloc, source, asked.options, asked.key);
    write_result(removed, out, length, line)
}

/// Gives the comment of a key: the texts of the comment lines directly above the last pair with it, each with a line
/// feed behind it.
#[unsafe(no_mangle)]
pub extern "C" fn todrenval_comment(
    alloc: Global,
    source: &[u8],
    encoding: u32,
    flags: u32,
    key: &[u8],
    out: &mut [u8],
    length: &mut usize,
    line: &mut usize,
) -> i32
    ensures { let x = crossing out.old result length.new line.new out.new in
        TellsAcross source.now encoding flags key.now x }
{
    let call = KeyCall {
        source,
        encoding,
        flags,
        key,
        text: NO_TEXT,
    };
    let asked = match call.asked(FOR_COMMENTS) {
        Ok(asked) => asked,
        Err(refusal) => return refuse_call(refusal, length, line),
    };
    let lines = comment_lines(alloc, source, asked.options.encoding, asked.key);
    write_comment(lines, out, length, line)
}

// Answers with the lines of a comment, or with why there are none.
fn write_comment(
    lines: Result<Option<Vec<u8>>, PropertiesError>,
    out: &mut [u8],
    length: &mut usize,
    line: &mut usize,
) -> i32
    ensures { CommentCrosses lines (crossing out.old result length.new line.new out.new) }
{
    match lines {
        Ok(Some(lines)) => write_bytes(&lines, out, length, line),
        Ok(None) => refuse(Status::NoKey, length, line),
        Err(error) => fail(&error, length, line),
    }
}

// Returns the lines of the comment of a key, or `None` if no pair has it.
fn comment_lines(
    alloc: Global,
    source: &[u8],
    encoding: Encoding,
    key: &str,
) -> Result<Option<Vec<u8>>, PropertiesError>
    ensures { TellsCommentLines (encoding_of encoding) source.now (chars key.now) result }
{
    let Some(texts) = comment_of(alloc, source, encoding, key)? else {
        return Ok(None);
    };
    let lines = lines_of(alloc, &texts)?;
    Ok(Some(lines))
}

// Returns the texts, with a line feed after each.
fn lines_of(alloc: Global, texts: &[String]) -> Result<Vec<u8>, AllocError>
    ensures { IfOk result (λ lines. lines.items ≡ flat_map text_line (map characters texts.now)) }
{
    let mut lines = Vec::new(alloc);
    for text in texts {
        push_text(&mut lines, text.as_str())?;
    }
    Ok(lines)
}

fn push_text(lines: &mut Vec<u8>, text: &str) -> Result<(), AllocError>
    ensures { OnOk result (lines.new.items ≡ lines.old.items ++ (text.now ++ line_feed ∷ [])) }
{
    lines.extend_from_slice(text.as_bytes())?;
    lines.push(b'\n')?;
    Ok(())
}
