// Eight to sixteen bytes as one block.

ghost use Rattle.std.specs.Prelude.{◌≡◌, ◌-◌, ◌≤◌, ◌++◌, length, take, drop};

use std::simd::prelude::*;

/// Returns the first eight bytes and the last eight. If there are fewer than sixteen, some are in both halves.
#[inline(always)]
pub fn ends(bytes: &[u8]) -> u8x16
    requires { 8 ≤ length bytes.now }
    ensures { result ≡ take 8 bytes.now ++ drop (length bytes.now - 8) bytes.now }
{
    u8x8::from_slice(bytes).shuffle(
        u8x8::from_slice(&bytes[bytes.len() - 8..]),
        [0, 1, 2, 3, 4, 5, 6, 7, 8, 9, 10, 11, 12, 13, 14, 15],
    )
}
