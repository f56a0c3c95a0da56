// Classes of bytes.

ghost use Rattle.std.specs.Prelude.{◌≡◌, ◌==◌, ◌||◌, ◌&&◌, ℕ, nat_le, Bool, not, map};
ghost use Rattle.byte_blocks.specs.Classes.{is_ending_byte, is_control, is_non_ascii, matches_table};

use super::marks::Marks;
use std::marker::PhantomData;
use std::simd::prelude::*;

/// A class of bytes: a test that runs on sixteen bytes at once.
pub trait ByteClass {
    /// Whether a byte belongs to the class.
    ghost holds: { ℕ → Bool };

    /// Marks the bytes of the block that belong to the class.
    fn marks(block: u8x16) -> Marks
        ensures { result ≡ map holds block };

    /// Returns whether a byte belongs to the class.
    fn contains(byte: u8) -> bool
        ensures { result ≡ holds byte };
}

/// Marks each byte that equals the table's byte at the index given by its own low four bits.
///
/// A class whose bytes all differ in these bits can be written as such a table. Where the class has no byte for an
/// index, put any byte there that has a different index.
#[inline(always)]
pub fn table_marks(block: u8x16, table: [u8; 16]) -> Marks
    ensures { result ≡ map (matches_table table) block }
{
    let low = block & u8x16::splat(15);
    Marks::from_bits(
        block
            .simd_eq(u8x16::from_array(table).swizzle_dyn(low))
            .to_bitmask(),
    )
}

/// The class of one byte.
pub struct Byte<const BYTE: u8>;

impl<const BYTE: u8> ByteClass for Byte<BYTE> {
    ghost holds = { λ b. b == BYTE };

    #[inline(always)]
    fn marks(block: u8x16) -> Marks {
        Marks::from_bits(block.simd_eq(u8x16::splat(BYTE)).to_bitmask())
    }

    #[inline(always)]
    fn contains(byte: u8) -> bool {
        byte == BYTE
    }
}

/// The bytes from `FIRST` to `LAST`, both included. The class is empty if `LAST` is below `FIRST`.
pub struct Within<const FIRST: u8, const LAST: u8>;

impl<const FIRST: u8, const LAST: u8> ByteClass for Within<FIRST, LAST> {
    ghost holds = { λ b. nat_le FIRST b && nat_le b LAST };

    // Bytes below `FIRST` wrap around and become greater than all others.
    #[inline(always)]
    fn marks(block: u8x16) -> Marks {
        if LAST < FIRST {
            return Marks::from_bits(0);
        }
        let from_first = block - u8x16::splat(FIRST);
        Marks::from_bits(from_first.simd_le(u8x16::splat(LAST - FIRST)).to_bitmask())
    }

    #[inline(always)]
    fn contains(byte: u8) -> bool {
        FIRST <= byte && byte <= LAST
    }
}

/// CR and LF.
pub struct LineEndings;

static LINE_ENDS: [u8; 16] = [1, 0, 0, 0, 0, 0, 0, 0, 0, 0, b'\n', 0, 0, b'\r', 0, 0];

impl ByteClass for LineEndings {
    ghost holds = { is_ending_byte };

    #[inline(always)]
    fn marks(block: u8x16) -> Marks {
        table_marks(block, LINE_ENDS)
    }

    #[inline(always)]
    fn contains(byte: u8) -> bool {
        matches!(byte, b'\n' | b'\r')
    }
}

/// The ASCII control characters except DEL: the bytes below the space.
pub struct Controls;

impl ByteClass for Controls {
    ghost holds = { is_control };

    #[inline(always)]
    fn marks(block: u8x16) -> Marks {
        Marks::from_bits(block.simd_lt(u8x16::splat(b' ')).to_bitmask())
    }

    #[inline(always)]
    fn contains(byte: u8) -> bool {
        byte < b' '
    }
}

/// The bytes that aren't ASCII characters.
pub struct NonAscii;

impl ByteClass for NonAscii {
    ghost holds = { is_non_ascii };

    #[inline(always)]
    fn marks(block: u8x16) -> Marks {
        Marks::from_bits(block.simd_ge(u8x16::splat(0x80)).to_bitmask())
    }

    #[inline(always)]
    fn contains(byte: u8) -> bool {
        byte >= 0x80
    }
}

/// The bytes of either class. One load serves both tests.
pub struct Either<A, B> {
    of: PhantomData<(A, B)>,
}

impl<A: ByteClass, B: ByteClass> ByteClass for Either<A, B> {
    ghost holds = { λ b. A.holds b || B.holds b };

    #[inline(always)]
    fn marks(block: u8x16) -> Marks {
        A::marks(block).or(B::marks(block))
    }

    #[inline(always)]
    fn contains(byte: u8) -> bool {
        A::contains(byte) || B::contains(byte)
    }
}

/// The bytes that don't belong to the class.
pub struct Except<C> {
    of: PhantomData<C>,
}

impl<C: ByteClass> ByteClass for Except<C> {
    ghost holds = { λ b. not (C.holds b) };

    #[inline(always)]
    fn marks(block: u8x16) -> Marks {
        C::marks(block).complement()
    }

    #[inline(always)]
    fn contains(byte: u8) -> bool {
        !C::contains(byte)
    }
}
