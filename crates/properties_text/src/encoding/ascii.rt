// Tests whether bytes are ASCII, block by block.

ghost use Rattle.std.specs.Prelude.{◌≡◌, ◌↔◌, true};
ghost use Rattle.std.specs.Str.{IsAscii};

use byte_blocks::{NonAscii, find};

/// Returns whether all bytes are ASCII.
#[inline(always)]
pub fn is_ascii(bytes: &[u8]) -> bool
    ensures { (result ≡ true) ↔ IsAscii bytes.now }
{
    find::<NonAscii>(bytes).is_none()
}
