// The export that edits.

ghost use Rattle.properties_c.specs.Crossing.{crossing};
ghost use Rattle.properties_c.specs.Editing.{EditedCrosses, EditsAcross};

use crate::encoding::{FOR_EDITS, encoding_numbered, flags_numbered, options_for};
use crate::lists::edits_of;
use crate::out::{fail, refuse, refuse_source, set_outputs, write_bytes};
use crate::sound::refused_line;
use crate::status::Status;
use java_properties::{RenamesError, edit_keys};
use std::alloc::Global;

/// Gives the source after a packed list of edits, in order. If one of them is refused, `length` is its index. If that
/// is a rename to a key that a pair has, `line` is where the first such pair begins.
#[unsafe(no_mangle)]
pub extern "C" fn todrenval_edit(
    alloc: Global,
    source: &[u8],
    encoding: u32,
    flags: u32,
    edits: &[u8],
    out: &mut [u8],
    length: &mut usize,
    line: &mut usize,
) -> i32
    ensures { let x = crossing out.old result length.new line.new out.new in
        EditsAcross source.now encoding flags edits.now x }
{
    let Some(encoding) = encoding_numbered(encoding) else {
        return refuse(Status::UnknownEncoding, length, line);
    };
    let Some(flags) = flags_numbered(flags, FOR_EDITS) else {
        return refuse(Status::UnknownFlags, length, line);
    };
    let edits = match edits_of(alloc, edits) {
        Ok(edits) => edits,
        Err(status) => return refuse(status, length, line),
    };
    if let Some(number) = refused_line(flags.strict, source, encoding) {
        return refuse_source(number, length, line);
    }
    let edited = edit_keys(alloc, source, options_for(encoding, flags), &edits);
    write_edited(edited, out, length, line)
}

// Answers with the bytes that edits gave, or with why they gave none.
fn write_edited(
    outcome: Result<Vec<u8>, RenamesError>,
    out: &mut [u8],
    length: &mut usize,
    line: &mut usize,
) -> i32
    ensures { EditedCrosses outcome (crossing out.old result length.new line.new out.new) }
{
    match outcome {
        Ok(bytes) => write_bytes(&bytes, out, length, line),
        Err(RenamesError::NoKey(index)) => set_outputs(Status::NoKey, index, 0, length, line),
        Err(RenamesError::KeyTaken(index, number)) => {
            set_outputs(Status::KeyTaken, index, number, length, line)
        }
        Err(RenamesError::Source(error)) => fail(&error, length, line),
    }
}
