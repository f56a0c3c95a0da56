// The export that converts.

ghost use Rattle.std.specs.Prelude.{◌≡◌};
ghost use Rattle.properties_text.specs.Converted.{is_readable};
ghost use Rattle.properties_c.specs.Editing.{ConvertsAcross};
ghost use Rattle.properties_c.specs.Crossing.{crossing};

use crate::encoding::{FOR_CONVERSIONS, encoding_numbered, flags_numbered, target_numbered};
use crate::out::{refuse, refuse_source, write_result};
use crate::sound::refused_line;
use crate::status::Status;
use java_properties::{Spelling, convert};
use std::alloc::Global;

/// Gives the source in another encoding, with readable characters or with their spellings kept, and all else as it is.
#[unsafe(no_mangle)]
pub extern "C" fn todrenval_convert(
    alloc: Global,
    source: &[u8],
    encoding: u32,
    target: u32,
    flags: u32,
    out: &mut [u8],
    length: &mut usize,
    line: &mut usize,
) -> i32
    ensures { let x = crossing out.old result length.new line.new out.new in
        ConvertsAcross source.now encoding target flags x }
{
    let Some(encoding) = encoding_numbered(encoding) else {
        return refuse(Status::UnknownEncoding, length, line);
    };
    let Some(target) = target_numbered(target) else {
        return refuse(Status::UnknownEncoding, length, line);
    };
    let Some(flags) = flags_numbered(flags, FOR_CONVERSIONS) else {
        return refuse(Status::UnknownFlags, length, line);
    };
    if let Some(number) = refused_line(flags.strict, source, encoding) {
        return refuse_source(number, length, line);
    }
    let converted = convert(alloc, source, encoding, target, spelling_if(flags.readable));
    write_result(converted, out, length, line)
}

// Returns how characters are spelt in what is readable or not.
fn spelling_if(readable: bool) -> Spelling
    ensures { is_readable result ≡ readable }
{
    if readable {
        Spelling::Readable
    } else {
        Spelling::Kept
    }
}
