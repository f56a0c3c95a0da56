// Classes by the bytes that they mark, and searches by the places that they return.

use crate::same::same;
use byte_blocks::{
    Byte, ByteClass, Controls, Either, Except, LineEndings, Marks, NonAscii, Within, find,
    find_in_block, table_marks,
};
use std::simd::prelude::*;

// The bytes that end a field of CSV.
type FieldEnds = Either<Byte<b','>, LineEndings>;

const TEXT: &[u8; 16] = b"a\t= \xe2\x82\xac,\r\n\x0c\\# !:";

fn marked<C: ByteClass>() -> u64 {
    C::marks(u8x16::from_array(*TEXT)).bits()
}

// Digits in a block, of which the table has a 7 alone.
fn marked_by_a_table() -> u64 {
    let mut digits = [0xff; 16];
    digits[7] = b'7';
    table_marks(u8x16::from_array(*b"1234567654321777"), digits).bits()
}

#[test]
fn classes_mark_their_bytes(rt: HostRuntime) {
    let rows = [
        (marked::<Byte<b','>>(), 0b0000_0000_1000_0000),
        (marked::<LineEndings>(), 0b0000_0011_0000_0000),
        (marked::<Controls>(), 0b0000_0111_0000_0010),
        (marked::<NonAscii>(), 0b0000_0000_0111_0000),
        (marked::<Within<0x20, 0x3d>>(), 0b1111_0000_1000_1100),
        (marked::<Within<0x3d, 0x20>>(), 0),
        (marked::<FieldEnds>(), 0b0000_0011_1000_0000),
        (marked::<Except<FieldEnds>>(), 0b1111_1100_0111_1111),
        (marked_by_a_table(), 0b1110_0000_0100_0000),
    ];
    for (bits, wanted) in rows {
        same(&rt, bits, wanted);
    }
}

#[test]
fn searches_return_the_first_place(rt: HostRuntime) {
    let text = b"one,two,three,four,five\n";
    let marks = Marks::from_bits(0b0110_0000);
    let rows = [
        (find::<FieldEnds>(b"one,two\n"), Some(3)),
        (find::<FieldEnds>(b"one two\n"), Some(7)),
        (find::<FieldEnds>(b"one two"), None),
        (find::<LineEndings>(text), Some(23)),
        (find_in_block::<Byte<b','>>(text, 4), Some(3)),
        (find_in_block::<Byte<b';'>>(text, 7), None),
        (marks.first(), Some(5)),
        (Marks::from_bits(1).first(), Some(0)),
        (Marks::from_bits(0).first(), None),
        (marks.or(Marks::from_bits(1)).first(), Some(0)),
        (marks.complement().first(), Some(0)),
        (Some(marks.clear_front()), Some(5)),
        (Some(Marks::from_bits(0).clear_front()), Some(16)),
    ];
    for (place, wanted) in rows {
        same(&rt, place, wanted);
    }
}
