// Numbers in packed bytes: eight bytes each, the lowest first.

ghost use Rattle.std.specs.Prelude.{◌≡◌, ◌++◌, ◌<◌, ◌^◌, length, MatchOption, OnOk};
ghost use Rattle.properties_c.specs.Packed.{number_bytes};

use std::alloc::AllocError;

/// Appends a number.
#[tactic(auto, unfolding(crate::specs::Packed::number_bytes))]
pub fn push_number(bytes: &mut Vec<u8>, number: usize) -> Result<(), AllocError>
    ensures { OnOk result (bytes.new.items ≡ bytes.old.items ++ number_bytes number) }
{
    bytes.extend_from_slice(&number.to_le_bytes())?;
    Ok(())
}

/// Returns the number at the front and what comes after it, or `None` if the bytes are too few.
pub fn split_number(bytes: &[u8]) -> Option<(usize, &[u8])>
    ensures { MatchOption result (length bytes.now < 8)
        (λ split. (split.0 < 2 ^ 64) × (bytes.now ≡ number_bytes split.0 ++ split.1.now)) }
{
    let (front, rest) = bytes.split_first_chunk::<8>()?;
    Some((usize::from_le_bytes(*front), rest))
}
