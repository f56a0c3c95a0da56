// Writes a block with other bytes inserted before some of its bytes.

ghost use Rattle.std.specs.Prelude.{◌≡◌, ◌+◌, ◌*◌, ◌%◌, ◌^◌, ◌<◌, ◌≤◌, ◌++◌, length, take, drop, count_ones};
ghost use Rattle.byte_blocks.specs.Marks.{lowest_bits, spread};

use super::marks::Marks;
use lanes::LANES;
use std::simd::prelude::*;

mod lanes;

/// Writes the first `kept` bytes of the block to `out` at index `at`, each marked byte preceded by the byte of `before`
/// at its index. Returns the index after what was written. May overwrite up to 32 bytes.
#[inline(always)]
pub fn put_spread(
    out: &mut [u8],
    at: usize,
    block: u8x16,
    before: u8x16,
    marks: Marks,
    kept: usize,
) -> usize
    requires room { at + 32 ≤ length out.old }
    requires kept { kept ≤ 16 }
    ensures same_room { length out.new ≡ length out.old }
    ensures after { at ≤ result }
    ensures within { result ≤ at + 2 * kept }
    ensures written { take result out.new ≡
        take at out.old ++ spread (take kept marks) (take kept before) (take kept block) }
{
    if marks.is_clear_before(kept) {
        block.copy_to_slice(&mut out[at..]);
        return at + kept;
    }
    let middle = put_eight(out, at, front(block, before), marks.bits() % 256);
    put_eight(out, middle, back(block, before), marks.bits() / 256);
    place_after(at, marks.bits(), kept)
}

// The first eight bytes of the block, and the bytes that may be inserted before them.
#[inline(always)]
fn front(block: u8x16, before: u8x16) -> u8x16
    ensures { result ≡ take 8 block ++ take 8 before }
{
    block.shuffle(
        before,
        [0, 1, 2, 3, 4, 5, 6, 7, 16, 17, 18, 19, 20, 21, 22, 23],
    )
}

// The last eight bytes of the block, and the bytes that may be inserted before them.
#[inline(always)]
fn back(block: u8x16, before: u8x16) -> u8x16
    ensures { result ≡ drop 8 block ++ drop 8 before }
{
    block.shuffle(
        before,
        [8, 9, 10, 11, 12, 13, 14, 15, 24, 25, 26, 27, 28, 29, 30, 31],
    )
}

// Writes the first eight lanes. Before each lane whose bit is set comes its counterpart among the last eight.
#[inline(always)]
fn put_eight(out: &mut [u8], at: usize, pairs: u8x16, bits: u64) -> usize
    requires room { at + 16 ≤ length out.old }
    requires bits { bits < 256 }
    ensures same_room { length out.new ≡ length out.old }
    ensures place { result ≡ at + (8 + count_ones bits) }
    ensures within { result ≤ at + 16 }
    ensures written { take result out.new ≡
        take at out.old ++ spread (lowest_bits 8 bits) (drop 8 pairs) (take 8 pairs) }
{
    let lanes = u8x16::from_array(LANES[bits as usize]);
    pairs.swizzle_dyn(lanes).copy_to_slice(&mut out[at..]);
    at + (8 + bits.count_ones() as usize)
}

// The index after the first `count` bytes are written: two bytes for each byte whose bit is set, one for each other.
#[inline(always)]
fn place_after(at: usize, bits: u64, count: usize) -> usize
    requires small { at + 2 * count < 2 ^ 64 }
    requires count { count ≤ 16 }
    ensures value { result ≡ at + (count + count_ones (bits % 2 ^ count)) }
    ensures within { result ≤ at + 2 * count }
{
    let first = bits % (1 << count);
    at + (count + first.count_ones() as usize)
}
