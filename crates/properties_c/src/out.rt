// Writes what a call returns to where C wants it.

ghost use Rattle.std.specs.Prelude.{◌≡◌};
ghost use Rattle.properties_c.specs.Statuses.{error_line, status_of_kind};
ghost use Rattle.properties_c.specs.Crossing.{crossing, AnswersCall, Crosses, Delivers};
ghost use Rattle.properties_c.specs.Private.KeyCalls.{refusal_line, refusal_status};
ghost use Rattle.properties_c.specs.declared.status.Status.TheVariants.{Done, NoRoom, NotText};
ghost use Rattle.properties_items.specs.Errors.{kind_of};

use crate::key_call::Refusal;
use crate::status::{Status, number_of, status_of};
use java_properties::PropertiesError;

/// Sets the length and the line, and returns the number of the status.
pub fn set_outputs(
    status: Status,
    count: usize,
    number: usize,
    length: &mut usize,
    line: &mut usize,
) -> i32
    ensures { AnswersCall status count number result length.new line.new }
{
    *length = count;
    *line = number;
    number_of(status)
}

/// Returns a status, with no size and no line.
pub fn refuse(status: Status, length: &mut usize, line: &mut usize) -> i32
    ensures { AnswersCall status 0 0 result length.new line.new }
{
    set_outputs(status, 0, 0, length, line)
}

/// Returns that this line isn't text.
pub fn refuse_source(number: usize, length: &mut usize, line: &mut usize) -> i32
    ensures { AnswersCall NotText 0 number result length.new line.new }
{
    set_outputs(Status::NotText, 0, number, length, line)
}

/// Returns why a call is refused.
pub fn refuse_call(refusal: Refusal, length: &mut usize, line: &mut usize) -> i32
    ensures { AnswersCall (refusal_status refusal) 0 (refusal_line refusal) result length.new line.new }
{
    match refusal {
        Refusal::Arguments(status) => refuse(status, length, line),
        Refusal::Source(number) => refuse_source(number, length, line),
    }
}

/// Returns `NoRoom` with the size that is needed.
pub fn buffer_too_small(needed: usize, length: &mut usize, line: &mut usize) -> i32
    ensures { AnswersCall NoRoom needed 0 result length.new line.new }
{
    set_outputs(Status::NoRoom, needed, 0, length, line)
}

/// Copies the bytes to the front of `out`, if they fit.
pub fn write_bytes(bytes: &[u8], out: &mut [u8], length: &mut usize, line: &mut usize) -> i32
    ensures { Delivers bytes.now Done 0 (crossing out.old result length.new line.new out.new) }
{
    write_up_to(bytes, Status::Done, 0, out, length, line)
}

/// Copies the bytes to the front of `out`, if they fit, and answers with this status and this line.
pub fn write_up_to(
    bytes: &[u8],
    status: Status,
    number: usize,
    out: &mut [u8],
    length: &mut usize,
    line: &mut usize,
) -> i32
    ensures { Delivers bytes.now status number (crossing out.old result length.new line.new out.new) }
{
    let count = bytes.len();
    if count > out.len() {
        return buffer_too_small(count, length, line);
    }
    out[..count].copy_from_slice(bytes);
    set_outputs(status, count, number, length, line)
}

/// Returns the status of an error, with its line.
pub fn fail(error: &PropertiesError, length: &mut usize, line: &mut usize) -> i32
    ensures { AnswersCall (status_of_kind (kind_of error.now)) 0 (error_line error.now) result length.new line.new }
{
    set_outputs(status_of(error.kind()), 0, line_in(error), length, line)
}

/// Returns the line of an error, or 0.
pub fn line_in(error: &PropertiesError) -> usize
    ensures { result ≡ error_line error.now }
{
    match error.line_number() {
        Some(number) => number,
        None => 0,
    }
}

/// Answers with the bytes that a call returned, or with its error.
pub fn write_result(
    outcome: Result<Vec<u8>, PropertiesError>,
    out: &mut [u8],
    length: &mut usize,
    line: &mut usize,
) -> i32
    ensures { Crosses outcome (crossing out.old result length.new line.new out.new) }
{
    match outcome {
        Ok(bytes) => write_bytes(&bytes, out, length, line),
        Err(error) => fail(&error, length, line),
    }
}
