// The exports that read.

ghost use Rattle.properties_c.specs.Crossing.{crossing};
ghost use Rattle.properties_c.specs.Items.{ItemsAcross};
ghost use Rattle.properties_c.specs.Reading.{FindingsAcross, GetsAcross, ValueCrosses};

use crate::asked::asked_numbered;
use crate::encoding::{FOR_KEYS, encoding_numbered};
use crate::findings::findings_in;
use crate::items::items_in;
use crate::key_call::{KeyCall, NO_TEXT};
use crate::out::{
    fail, refuse, refuse_call, refuse_source, write_bytes, write_result, write_up_to,
};
use crate::part::give_part;
use crate::sound::refused_line;
use crate::spans::spanned_items;
use crate::status::Status;
use java_properties::{PropertiesError, value_with};
use std::alloc::Global;

/// Gives the value of a key: that of the last pair with it.
#[unsafe(no_mangle)]
pub extern "C" fn todrenval_get(
    alloc: Global,
    source: &[u8],
    encoding: u32,
    flags: u32,
    key: &[u8],
    out: &mut [u8],
    length: &mut usize,
    line: &mut usize,
) -> i32
    ensures { let x = crossing out.old result length.new line.new out.new in
        GetsAcross source.now encoding flags key.now x }
{
    let call = KeyCall {
        source,
        encoding,
        flags,
        key,
        text: NO_TEXT,
    };
    let asked = match call.asked(FOR_KEYS) {
        Ok(asked) => asked,
        Err(refusal) => return refuse_call(refusal, length, line),
    };
    let value = value_with(alloc, source, asked.options, asked.key);
    write_value(value, out, length, line)
}

// Answers with a value, or with why there is none.
fn write_value(
    value: Result<Option<String>, PropertiesError>,
    out: &mut [u8],
    length: &mut usize,
    line: &mut usize,
) -> i32
    ensures { ValueCrosses value (crossing out.old result length.new line.new out.new) }
{
    match value {
        Ok(Some(value)) => write_bytes(value.as_str().as_bytes(), out, length, line),
        Ok(None) => refuse(Status::NoKey, length, line),
        Err(error) => fail(&error, length, line),
    }
}

/// Gives the items of a source, packed, each with its line. At a malformed escape, it gives those before it.
#[unsafe(no_mangle)]
pub extern "C" fn todrenval_items(
    alloc: Global,
    source: &[u8],
    encoding: u32,
    flags: u32,
    out: &mut [u8],
    length: &mut usize,
    line: &mut usize,
) -> i32
    ensures { let x = crossing out.old result length.new line.new out.new in
        ItemsAcross source.now encoding flags x }
{
    let Some(encoding) = encoding_numbered(encoding) else {
        return refuse(Status::UnknownEncoding, length, line);
    };
    let Some(asked) = asked_numbered(flags) else {
        return refuse(Status::UnknownFlags, length, line);
    };
    if asked.is_part {
        return give_part(alloc, source, encoding, asked, out, length, line);
    }
    if let Some(number) = refused_line(asked.is_strict, source, encoding) {
        return refuse_source(number, length, line);
    }
    if asked.has_spans {
        return write_result(
            spanned_items(alloc, source, encoding, asked),
            out,
            length,
            line,
        );
    }
    match items_in(alloc, source, encoding, asked) {
        Ok(items) => write_up_to(&items.bytes, items.status, items.line, out, length, line),
        Err(_) => refuse(Status::NoMemory, length, line),
    }
}

/// Gives what is wrong, packed: malformed escapes, and then keys that an earlier pair has.
#[unsafe(no_mangle)]
pub extern "C" fn todrenval_findings(
    alloc: Global,
    source: &[u8],
    encoding: u32,
    out: &mut [u8],
    length: &mut usize,
    line: &mut usize,
) -> i32
    ensures { let x = crossing out.old result length.new line.new out.new in
        FindingsAcross source.now encoding x }
{
    let Some(encoding) = encoding_numbered(encoding) else {
        return refuse(Status::UnknownEncoding, length, line);
    };
    write_result(findings_in(alloc, source, encoding), out, length, line)
}
