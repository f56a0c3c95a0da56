// The classes of bytes that parts of a line are searched and printed by.

ghost use Rattle.properties_format.specs.Text.{is_blank};
ghost use Rattle.properties_format.specs.Printing.{is_special};

use byte_blocks::{ByteClass, Marks, table_marks};
use std::simd::prelude::*;

/// The space, the tab and the form feed.
pub struct Blanks;

static BLANKS: [u8; 16] = [b' ', 0, 0, 0, 0, 0, 0, 0, 0, b'\t', 0, 0, b'\x0c', 0, 0, 0];

impl ByteClass for Blanks {
    ghost holds = { is_blank };

    #[inline(always)]
    fn marks(block: u8x16) -> Marks {
        table_marks(block, BLANKS)
    }

    #[inline(always)]
    fn contains(byte: u8) -> bool {
        matches!(byte, b' ' | b'\t' | b'\x0c')
    }
}

/// The printable characters with a special meaning in a properties file: the space, `!`, `#`, `:`, `=` and the
/// backslash.
pub struct Specials;

static SPECIALS: [u8; 16] = [
    b' ', b'!', 0, b'#', 0, 0, 0, 0, 0, 0, b':', 0, b'\\', b'=', 0, 0,
];

impl ByteClass for Specials {
    ghost holds = { is_special };

    #[inline(always)]
    fn marks(block: u8x16) -> Marks {
        table_marks(block, SPECIALS)
    }

    #[inline(always)]
    fn contains(byte: u8) -> bool {
        matches!(byte, b' ' | b'!' | b'#' | b':' | b'=' | b'\\')
    }
}
