// UTF-16: units of two bytes. A high and a low surrogate together encode one character.

ghost use Rattle.std.specs.Prelude.{◌≡◌, ℕ, ◌∷◌, true};
ghost use Rattle.properties_format.specs.Utf16.{is_high, is_low, pair_character};
ghost use Rattle.properties_format.specs.Computed.Encoding.{first_utf_16_piece, high_piece, awaits_unit};
ghost use Rattle.properties_text.specs.Encoding.{ShowsPiece, unit_of};

use super::first_piece::FirstPiece;

/// Which byte of a unit comes first.
#[derive(Clone, Copy, Debug, PartialEq, Eq)]
pub enum ByteOrder {
    LowFirst,
    HighFirst,
}

impl ByteOrder {
    // The unit that two bytes make.
    fn unit(self, first: u8, second: u8) -> u16
        ensures { result ≡ unit_of self first second }
    {
        let (low, high) = match self {
            ByteOrder::LowFirst => (first, second),
            ByteOrder::HighFirst => (second, first),
        };
        u16::from(high) * 0x100 + u16::from(low)
    }
}

/// Returns the first piece of the bytes `first` and then the rest.
#[inline]
pub fn first_piece(order: ByteOrder, first: u8, rest: &[u8]) -> FirstPiece
    ensures { let unit = unit_of order in
        ShowsPiece (first_utf_16_piece unit first rest.now) (awaits_unit unit first rest.now) result }
{
    let Some((&second, after)) = rest.split_first() else {
        return FirstPiece::broken(1, true);
    };
    let unit = order.unit(first, second);
    match unit {
        0xd800..=0xdbff => high_piece(order, unit, after),
        0xdc00..=0xdfff => FirstPiece::broken(2, false),
        _ => FirstPiece::whole(u32::from(unit), 2),
    }
}

// The piece that begins with a high surrogate, given the bytes after it.
fn high_piece(order: ByteOrder, high: u16, after: &[u8]) -> FirstPiece
    requires { is_high high ≡ true }
    ensures { (a b : ℕ) → let unit = unit_of order in unit a b ≡ high
        → ShowsPiece (high_piece unit a b after.now) (awaits_unit unit a (b ∷ after.now)) result }
{
    match after {
        [] => FirstPiece::broken(2, true),
        [_] => FirstPiece::broken(3, true),
        [third, fourth, ..] => match order.unit(*third, *fourth) {
            low @ 0xdc00..=0xdfff => FirstPiece::whole(
                pair_character(u32::from(high), u32::from(low)),
                4,
            ),
            _ => FirstPiece::broken(2, false),
        },
    }
}

/// Returns the character of a high and a low surrogate.
pub fn pair_character(high: u32, low: u32) -> u32
    requires high { is_high high ≡ true }
    requires low { is_low low ≡ true }
    ensures { result ≡ pair_character high low }
{
    0x1_0000 + (high - 0xd800) * 0x400 + (low - 0xdc00)
}
