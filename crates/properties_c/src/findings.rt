// What is wrong in a source, packed: a kind, a line, a number that says of an escape whether it is in a comment and of a
// key in which line it comes first, the length of the key, and then the key.

ghost use Rattle.std.specs.Prelude.{◌≡◌, ◌++◌, OnOk};
ghost use Rattle.std.specs.List.{flat_map};
ghost use Rattle.java_properties.specs.Findings.{key_line_entry, key_line_entries};
ghost use Rattle.properties_text.specs.Encoding.{encoding_of};
ghost use Rattle.properties_c.specs.Packed.{finding_bytes, repeat_bytes};
ghost use Rattle.properties_c.specs.Private.Results.{malformed_bytes, kind_of_finding, FindsAll};

use crate::numbers::push_number;
use java_properties::{
    Encoding, ErrorKind, KeyLine, MalformedEscape, PropertiesError, key_lines, malformed_escapes,
};
use std::alloc::{AllocError, Global};

// The kind of a repeated key.
const REPEATED: usize = 0;

/// Returns the malformed escapes of a source and then its repeated keys, packed.
#[tactic(auto, using(crate::proofs::Slices::finding))]
pub fn findings_in(
    alloc: Global,
    source: &[u8],
    encoding: Encoding,
) -> Result<Vec<u8>, PropertiesError>
    ensures { FindsAll (encoding_of encoding) source.now result }
{
    let escapes = malformed_escapes(alloc, source, encoding)?;
    let keys = key_lines(alloc, source, encoding)?;
    let mut bytes = Vec::new(alloc);
    push_escapes(&mut bytes, &escapes)?;
    push_repeats(&mut bytes, &keys)?;
    Ok(bytes)
}

fn push_escapes(bytes: &mut Vec<u8>, escapes: &[MalformedEscape]) -> Result<(), AllocError>
    ensures { OnOk result (bytes.new.items ≡ bytes.old.items ++ flat_map malformed_bytes escapes.now) }
{
    for escape in escapes {
        let kind = kind_number(escape.kind);
        let in_comment = if escape.in_comment { 1 } else { 0 };
        push_finding(bytes, kind, escape.line_number, in_comment, b"".as_slice())?;
    }
    Ok(())
}

fn push_repeats(bytes: &mut Vec<u8>, keys: &[KeyLine]) -> Result<(), AllocError>
    ensures { let repeats = flat_map repeat_bytes (key_line_entries keys.now) in
        OnOk result (bytes.new.items ≡ bytes.old.items ++ repeats) }
{
    for key in keys {
        push_repeat(bytes, key)?;
    }
    Ok(())
}

// Appends the finding that an earlier pair has the key, if one has.
#[tactic(auto, using(crate::proofs::Texts::texts))]
fn push_repeat(bytes: &mut Vec<u8>, key: &KeyLine) -> Result<(), AllocError>
    ensures { OnOk result (bytes.new.items ≡ bytes.old.items ++ repeat_bytes (key_line_entry key.now)) }
{
    if key.first_line_number == key.line_number {
        return Ok(());
    }
    let text = key.key.as_str();
    push_finding(
        bytes,
        REPEATED,
        key.line_number,
        key.first_line_number,
        text.as_bytes(),
    )
}

#[tactic(auto, using(std::proofs::Common::append_assoc), unfolding(crate::specs::Packed::finding_bytes))]
fn push_finding(
    bytes: &mut Vec<u8>,
    kind: usize,
    line: usize,
    more: usize,
    key: &[u8],
) -> Result<(), AllocError>
    ensures { OnOk result (bytes.new.items ≡ bytes.old.items ++ finding_bytes kind line more key.now) }
{
    push_number(bytes, kind)?;
    push_number(bytes, line)?;
    push_number(bytes, more)?;
    push_number(bytes, key.len())?;
    bytes.extend_from_slice(key)?;
    Ok(())
}

// Returns the kind of finding that a malformed escape is.
fn kind_number(kind: ErrorKind) -> usize
    ensures { result ≡ kind_of_finding kind }
{
    match kind {
        ErrorKind::NotEnoughDigits => 1,
        ErrorKind::NotHex => 2,
        _ => 3,
    }
}
