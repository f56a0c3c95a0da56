// What the bytes of a key or a value are printed as, with vectors and tables.

ghost use Rattle.std.specs.Prelude.{◌≡◌, ◌+◌, ◌*◌, ◌<◌, ◌≤◌, ◌++◌, length, take};
ghost use Rattle.properties_text.specs.Printing.{printed_byte, with_backslashes, backslashes_before, last_of};

use super::escapes::put_unit;
use crate::classes::Specials;
use byte_blocks::{ByteClass, put_spread};
use std::simd::prelude::*;

// For each byte, the number of backslashes before the last byte that is printed for it, or 2 if a longer escape is
// printed.
const BEFORE: [u8; 256] = [
    2, 2, 2, 2, 2, 2, 2, 2, 2, 1, 1, 2, 1, 1, 2, 2, 2, 2, 2, 2, 2, 2, 2, 2, 2, 2, 2, 2, 2, 2, 2, 2,
    1, 1, 0, 1, 0, 0, 0, 0, 0, 0, 0, 0, 0, 0, 0, 0, 0, 0, 0, 0, 0, 0, 0, 0, 0, 0, 1, 0, 0, 1, 0, 0,
    0, 0, 0, 0, 0, 0, 0, 0, 0, 0, 0, 0, 0, 0, 0, 0, 0, 0, 0, 0, 0, 0, 0, 0, 0, 0, 0, 0, 1, 0, 0, 0,
    0, 0, 0, 0, 0, 0, 0, 0, 0, 0, 0, 0, 0, 0, 0, 0, 0, 0, 0, 0, 0, 0, 0, 0, 0, 0, 0, 0, 0, 0, 0, 0,
    0, 0, 0, 0, 0, 0, 0, 0, 0, 0, 0, 0, 0, 0, 0, 0, 0, 0, 0, 0, 0, 0, 0, 0, 0, 0, 0, 0, 0, 0, 0, 0,
    0, 0, 0, 0, 0, 0, 0, 0, 0, 0, 0, 0, 0, 0, 0, 0, 0, 0, 0, 0, 0, 0, 0, 0, 0, 0, 0, 0, 0, 0, 0, 0,
    0, 0, 0, 0, 0, 0, 0, 0, 0, 0, 0, 0, 0, 0, 0, 0, 0, 0, 0, 0, 0, 0, 0, 0, 0, 0, 0, 0, 0, 0, 0, 0,
    0, 0, 0, 0, 0, 0, 0, 0, 0, 0, 0, 0, 0, 0, 0, 0, 0, 0, 0, 0, 0, 0, 0, 0, 0, 0, 0, 0, 0, 0, 0, 0,
];

// For each byte, the last byte that is printed for it, unless a longer escape is printed.
const LAST: [u8; 256] = [
    0, 1, 2, 3, 4, 5, 6, 7, 8, 116, 110, 11, 102, 114, 14, 15, 16, 17, 18, 19, 20, 21, 22, 23, 24,
    25, 26, 27, 28, 29, 30, 31, 32, 33, 34, 35, 36, 37, 38, 39, 40, 41, 42, 43, 44, 45, 46, 47, 48,
    49, 50, 51, 52, 53, 54, 55, 56, 57, 58, 59, 60, 61, 62, 63, 64, 65, 66, 67, 68, 69, 70, 71, 72,
    73, 74, 75, 76, 77, 78, 79, 80, 81, 82, 83, 84, 85, 86, 87, 88, 89, 90, 91, 92, 93, 94, 95, 96,
    97, 98, 99, 100, 101, 102, 103, 104, 105, 106, 107, 108, 109, 110, 111, 112, 113, 114, 115,
    116, 117, 118, 119, 120, 121, 122, 123, 124, 125, 126, 127, 128, 129, 130, 131, 132, 133, 134,
    135, 136, 137, 138, 139, 140, 141, 142, 143, 144, 145, 146, 147, 148, 149, 150, 151, 152, 153,
    154, 155, 156, 157, 158, 159, 160, 161, 162, 163, 164, 165, 166, 167, 168, 169, 170, 171, 172,
    173, 174, 175, 176, 177, 178, 179, 180, 181, 182, 183, 184, 185, 186, 187, 188, 189, 190, 191,
    192, 193, 194, 195, 196, 197, 198, 199, 200, 201, 202, 203, 204, 205, 206, 207, 208, 209, 210,
    211, 212, 213, 214, 215, 216, 217, 218, 219, 220, 221, 222, 223, 224, 225, 226, 227, 228, 229,
    230, 231, 232, 233, 234, 235, 236, 237, 238, 239, 240, 241, 242, 243, 244, 245, 246, 247, 248,
    249, 250, 251, 252, 253, 254, 255,
];

/// The first sixteen bytes, padded with zeros if there are fewer. Fewer are copied as two halves, which may overlap, since
/// that takes no call.
#[inline(always)]
pub fn first_16(bytes: &[u8]) -> u8x16
    requires { 8 ≤ length bytes.now }
    ensures { take (length bytes.now) (take 16 result) ≡ take 16 bytes.now }
{
    if bytes.len() >= 16 {
        return u8x16::from_slice(bytes);
    }
    let mut padded = [0; 16];
    let second = bytes.len() - 8;
    padded[..8].copy_from_slice(&bytes[..8]);
    padded[second..second + 8].copy_from_slice(&bytes[second..]);
    u8x16::from_array(padded)
}

/// Prints the first `kept` of sixteen bytes at index `at`, and returns the index after them. Control characters are
/// copied, not escaped. May overwrite 32 bytes.
#[inline(always)]
#[tactic(auto, using(crate::proofs::Printing::Vectors::first_spread))]
pub fn put_with_backslashes(out: &mut [u8], at: usize, v: u8x16, kept: usize) -> usize
    requires room { at + 32 ≤ length out.old }
    requires kept { kept ≤ 16 }
    ensures length { length out.new ≡ length out.old }
    ensures within { result ≤ at + 2 * kept }
    ensures printed { take result out.new ≡ take at out.old ++ with_backslashes (take kept v) }
{
    put_spread(out, at, v, u8x16::splat(b'\\'), Specials::marks(v), kept)
}

/// Prints a byte at index `at`, and returns the index after it.
#[inline(always)]
#[tactic(auto, using(crate::proofs::Printing::Bytes::printed_digits))]
pub fn put_any(out: &mut [u8], at: usize, byte: u8) -> usize
    requires { at + 6 ≤ length out.old }
    ensures length { length out.new ≡ length out.old }
    ensures within { result ≤ at + 6 }
    ensures printed { take result out.new ≡ take at out.old ++ printed_byte byte }
{
    if backslashes_before(byte) > 1 {
        return put_unit(out, at, u32::from(byte));
    }
    put_byte(out, at, byte)
}

/// Prints a byte at index `at`, and returns the index after it. Has no branch.
#[inline(always)]
pub fn put_byte(out: &mut [u8], at: usize, byte: u8) -> usize
    requires room { at + 2 ≤ length out.old }
    requires short { backslashes_before byte < 2 }
    ensures length { length out.new ≡ length out.old }
    ensures within { result ≤ at + 2 }
    ensures printed { take result out.new ≡ take at out.old ++ printed_byte byte }
{
    out[at] = b'\\';
    let last = at + usize::from(backslashes_before(byte));
    out[last] = last_of(byte);
    last + 1
}

/// Returns the number of backslashes before the last byte that is printed for a byte, or 2 if a longer escape is
/// printed.
#[inline(always)]
#[tactic(auto, using(crate::proofs::Printing::Bytes::before_at))]
pub fn backslashes_before(byte: u8) -> u8
    ensures { result ≡ backslashes_before byte }
{
    BEFORE[usize::from(byte)]
}

#[inline(always)]
#[tactic(auto, using(crate::proofs::Printing::Bytes::last_at))]
fn last_of(byte: u8) -> u8
    ensures { result ≡ last_of byte }
{
    LAST[usize::from(byte)]
}
