// Records of packed lists: a kind, a line, the lengths of a key and a value, and then these.

ghost use Rattle.std.specs.Prelude.{◌≡◌, ◌++◌, ◌<◌, length, MatchOption, OnOk};
ghost use Rattle.std.specs.List.{flat_map};
ghost use Rattle.properties_c.specs.Packed.{number_bytes, packed, record_in, spanned};
ghost use Rattle.properties_c.specs.Private.Lists.{SplitsRecord, header_bytes, header_of, IsSizedHeader};

use crate::numbers::{push_number, split_number};
use std::alloc::AllocError;

/// How many bytes the numbers at the front of a record take.
pub const HEADER_SIZE: usize = 32;

/// A record of a packed list.
#[derive(Clone, Copy)]
pub struct Record<'a> {
    pub kind: usize,
    pub line: usize,
    pub key: &'a [u8],
    pub value: &'a [u8],
}

// The numbers at the front of a record.
#[derive(Clone, Copy)]
struct Header {
    kind: usize,
    line: usize,
    key_length: usize,
    value_length: usize,
}

/// Appends a record.
#[tactic(auto, using(std::proofs::Common::append_assoc, crate::proofs::Packing::headers))]
#[inline(always)]
pub fn push_record(bytes: &mut Vec<u8>, given: Record<'_>) -> Result<(), AllocError>
    ensures { OnOk result (bytes.new.items ≡ bytes.old.items ++ packed (record_in given.entry)) }
{
    push_header(bytes, given)?;
    bytes.extend_from_slice(given.key)?;
    bytes.extend_from_slice(given.value)?;
    Ok(())
}

/// Appends a record with numbers before its texts.
#[tactic(auto, using(std::proofs::Common::append_assoc, crate::proofs::Packing::headers))]
pub fn push_spanned(
    bytes: &mut Vec<u8>,
    given: Record<'_>,
    numbers: &[usize],
) -> Result<(), AllocError>
    ensures { OnOk result (bytes.new.items ≡ bytes.old.items ++ spanned (record_in given.entry) numbers.now) }
{
    push_header(bytes, given)?;
    push_numbers(bytes, numbers)?;
    bytes.extend_from_slice(given.key)?;
    bytes.extend_from_slice(given.value)?;
    Ok(())
}

// Appends the numbers at the front of a record, at once.
#[tactic(auto, unfolding(crate::specs::Packed::number_bytes))]
#[inline(always)]
fn push_header(bytes: &mut Vec<u8>, given: Record<'_>) -> Result<(), AllocError>
    ensures { OnOk result (bytes.new.items ≡ bytes.old.items ++ header_bytes (header_of (record_in given.entry))) }
{
    let numbers = [
        given.kind.to_le_bytes(),
        given.line.to_le_bytes(),
        given.key.len().to_le_bytes(),
        given.value.len().to_le_bytes(),
    ];
    bytes.extend_from_slice(numbers.as_slice().as_flattened())
}

fn push_numbers(bytes: &mut Vec<u8>, numbers: &[usize]) -> Result<(), AllocError>
    ensures { OnOk result (bytes.new.items ≡ bytes.old.items ++ flat_map number_bytes numbers.now) }
{
    for number in numbers {
        push_number(bytes, *number)?;
    }
    Ok(())
}

/// Returns the record at the front of a packed list and what comes after it, or `None` if it is cut short.
#[tactic(auto, using(crate::proofs::Packing::sizes))]
pub fn split_record(list: &[u8]) -> Option<(Record<'_>, &[u8])>
    ensures { SplitsRecord list.now result }
{
    let Some((header, texts)) = split_header(list) else {
        return None;
    };
    let Some((key, values)) = texts.split_at_checked(header.key_length) else {
        return None;
    };
    let Some((value, rest)) = values.split_at_checked(header.value_length) else {
        return None;
    };
    let first = Record {
        kind: header.kind,
        line: header.line,
        key,
        value,
    };
    Some((first, rest))
}

#[tactic(auto, using(crate::proofs::Packing::sizes))]
fn split_header(list: &[u8]) -> Option<(Header, &[u8])>
    ensures { MatchOption result (length list.now < 32)
        (λ split. IsSizedHeader split.0 × (list.now ≡ header_bytes split.0 ++ split.1.now)) }
{
    let (kind, after_kind) = split_number(list)?;
    let (line, after_line) = split_number(after_kind)?;
    let (key_length, after_key_length) = split_number(after_line)?;
    let (value_length, texts) = split_number(after_key_length)?;
    let header = Header {
        kind,
        line,
        key_length,
        value_length,
    };
    Some((header, texts))
}
