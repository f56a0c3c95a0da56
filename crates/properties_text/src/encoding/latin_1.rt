// Characters of Latin-1, whose code points are single bytes, encoded in UTF-8 sixteen at a time.

ghost use Rattle.std.specs.Prelude.{◌≡◌, ◌+◌, ◌*◌, ◌≤◌, ◌++◌, true, length, take, map, encode_utf8_all};
ghost use Rattle.std.specs.Str.{all_scalars};
ghost use Rattle.properties_format.specs.Windows1252.{is_in_table};
ghost use Rattle.properties_text.specs.Private.Tails.{lead_byte, last_byte};

use byte_blocks::{ByteClass, Marks, NonAscii, Within, put_spread};
use std::simd::prelude::*;

/// Marks the bytes 80 to 9F, whose characters in windows-1252 have other code points.
#[inline(always)]
pub fn tabled(v: u8x16) -> Marks
    ensures { result ≡ map is_in_table v }
{
    Within::<0x80, 0x9f>::marks(v)
}

/// Writes the first `kept` characters in UTF-8 at index `at`. Returns the index after them. May overwrite up to 32
/// bytes.
#[inline(always)]
#[tactic(auto, using(crate::proofs::Latin1::first_scalars, crate::proofs::Latin1::first_spread))]
pub fn put_latin_1(run: &mut [u8], at: usize, v: u8x16, kept: usize) -> usize
    requires room { at + 32 ≤ length run.old }
    requires kept { kept ≤ 16 }
    ensures same_room { length run.new ≡ length run.old }
    ensures after { at ≤ result }
    ensures within { result ≤ at + 2 * kept }
    ensures scalars { all_scalars (take kept v) ≡ true }
    ensures text { take result run.new ≡ take at run.old ++ encode_utf8_all (take kept v) }
{
    put_spread(
        run,
        at,
        last_bytes(v),
        lead_bytes(v),
        NonAscii::marks(v),
        kept,
    )
}

// For each character of two bytes, the first byte.
#[inline(always)]
fn lead_bytes(v: u8x16) -> u8x16
    ensures { result ≡ map lead_byte v }
{
    let is_lower = v.simd_lt(u8x16::splat(0xc0));
    is_lower.select(u8x16::splat(0xc2), u8x16::splat(0xc3))
}

// For each character, the last byte or the only one.
#[inline(always)]
#[tactic(auto, using(crate::proofs::Latin1::lasts_are))]
fn last_bytes(v: u8x16) -> u8x16
    ensures { result ≡ map last_byte v }
{
    let is_lower = v.simd_lt(u8x16::splat(0xc0));
    is_lower.select(v, v & u8x16::splat(0xbf))
}
