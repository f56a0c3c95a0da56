// Searches for the first byte of a class.

ghost use Rattle.std.specs.Prelude.{◌+◌, ◌≤◌, length, take, drop};
ghost use Rattle.memchr.specs.Find.{IsFirstByte};

use super::classes::ByteClass;
use super::short::ends;
use std::simd::prelude::*;

/// Returns the index of the first byte of the class, in any number of bytes.
#[inline(always)]
pub fn find<C: ByteClass>(bytes: &[u8]) -> Option<usize>
    ensures { IsFirstByte C.holds bytes.now result }
{
    match bytes.len() {
        0..=7 => find_singly::<C>(bytes),
        8..=15 => find_in_ends::<C>(bytes),
        _ => find_by_blocks::<C>(bytes),
    }
}

/// Returns the index of the first byte of the class among the sixteen bytes from `at` on, counted from `at`.
#[inline(always)]
pub fn find_in_block<C: ByteClass>(bytes: &[u8], at: usize) -> Option<usize>
    requires { at + 16 ≤ length bytes.now }
    ensures { IsFirstByte C.holds (take 16 (drop at bytes.now)) result }
{
    C::marks(u8x16::from_slice(&bytes[at..])).first()
}

#[inline(always)]
fn find_singly<C: ByteClass>(bytes: &[u8]) -> Option<usize>
    ensures { IsFirstByte C.holds bytes.now result }
{
    for (at, byte) in bytes.iter().enumerate() {
        if C::contains(*byte) {
            return Some(at);
        }
    }
    None
}

// Tests the first eight bytes and the last eight as one block.
#[inline(always)]
fn find_in_ends<C: ByteClass>(bytes: &[u8]) -> Option<usize>
    requires least { 8 ≤ length bytes.now }
    requires most { length bytes.now ≤ 16 }
    ensures { IsFirstByte C.holds bytes.now result }
{
    let first = C::marks(ends(bytes)).first()?;
    if first < 8 {
        Some(first)
    } else {
        Some(bytes.len() - 8 + (first - 8))
    }
}

// Tests block after block. The last block ends where the bytes end, so it may overlap the one before it.
#[inline(always)]
fn find_by_blocks<C: ByteClass>(bytes: &[u8]) -> Option<usize>
    requires { 16 ≤ length bytes.now }
    ensures { IsFirstByte C.holds bytes.now result }
{
    let last = bytes.len() - 16;
    let mut at = 0;
    while at < last {
        if let Some(first) = find_in_block::<C>(bytes, at) {
            return Some(at + first);
        }
        at += 16;
    }
    let first = find_in_block::<C>(bytes, last)?;
    Some(last + first)
}
