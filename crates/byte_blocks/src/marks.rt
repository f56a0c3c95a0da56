// The results of testing sixteen bytes.

ghost use Rattle.std.specs.Prelude.{◌≡◌, ◌<◌, ◌≤◌, ◌↔◌, ◌||◌, true, not, length, map};
ghost use Rattle.std.specs.Simd.Lanes.{mask_l, zip2};
ghost use Rattle.byte_blocks.specs.Marks.{lowest_bits, clear_front, IsFirstMark};

use std::marker::Model;

/// Sixteen bytes, each marked or not.
#[derive(Clone, Copy)]
pub struct Marks {
    bits: u64,
}

impl Model for Marks {
    ghost use Rattle.std.proofs.Common.{◌<◌, List, Bool, ap};
    ghost use Rattle.std.specs.Simd.Lanes.{mask_l};
    ghost use Rattle.byte_blocks.specs.Marks.{lowest_bits};
    ghost use Rattle.byte_blocks.specs.Bits.{mask-of_bits};

    ghost Value = { List Bool };

    ghost view = { λ m. lowest_bits 16 m.bits };

    ghost invariant = { λ m. m.bits < 0x1_0000 };

    ghost inverse = { λ l. record { bits = mask_l l } };

    ghost inverse_ok = { λ a small. ap (λ n. record { bits = n }) (mask-of_bits 16 a.bits small) };
}

impl Marks {
    /// Returns marks in which byte i is marked if bit i is set.
    #[inline(always)]
    pub fn from_bits(bits: u64) -> Self
        requires { bits < 0x1_0000 }
        ensures { result ≡ lowest_bits 16 bits }
    {
        Marks { bits }
    }

    /// Returns the marks as bits: bit i is set if byte i is marked.
    #[inline(always)]
    pub fn bits(self) -> u64
        ensures value { result ≡ mask_l self }
        ensures sixteen { length self ≡ 16 }
    {
        self.bits
    }

    /// Marks the bytes that are marked in `self`, in `other` or in both.
    #[inline(always)]
    pub fn or(self, other: Marks) -> Self
        ensures { result ≡ zip2 (λ a b. a || b) self other }
    {
        Marks {
            bits: self.bits | other.bits,
        }
    }

    /// Marks exactly the bytes that aren't marked in `self`.
    #[inline(always)]
    pub fn complement(self) -> Self
        ensures { result ≡ map not self }
    {
        Marks {
            bits: 0xffff - self.bits,
        }
    }

    /// Returns the index of the first marked byte, or `None` if no byte is marked.
    #[inline(always)]
    pub fn first(self) -> Option<usize>
        ensures { IsFirstMark self result }
    {
        if self.bits == 0 {
            return None;
        }
        Some(self.bits.trailing_zeros() as usize)
    }

    /// Returns the number of bytes before the first marked byte, or 16 if no byte is marked.
    #[inline(always)]
    pub fn clear_front(self) -> usize
        ensures value { result ≡ clear_front self }
        ensures within { result ≤ 16 }
    {
        (self.bits | 0x1_0000).trailing_zeros() as usize
    }

    /// Returns whether no byte is marked.
    #[inline(always)]
    pub fn is_clear(self) -> bool
        ensures { (result ≡ true) ↔ 16 ≤ clear_front self }
    {
        self.bits == 0
    }

    /// Returns whether none of the first `count` bytes is marked.
    #[inline(always)]
    pub fn is_clear_before(self, count: usize) -> bool
        requires { count ≤ 16 }
        ensures { (result ≡ true) ↔ count ≤ clear_front self }
    {
        count <= self.bits.trailing_zeros() as usize
    }
}
