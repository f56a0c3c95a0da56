// Texts that are held one after another.

ghost use Rattle.std.specs.Prelude.{◌≡◌, ◌++◌, OnOk, IfOk};
ghost use Rattle.properties_tables.specs.Private.Table.{bytes_at, HoldsText};

use std::alloc::AllocError;
use std::str;

/// Where a text is.
#[derive(Clone, Copy)]
pub struct Place {
    /// Where it begins, in bytes.
    pub start: usize,
    /// How many bytes it has.
    pub length: usize,
}

/// Returns the text at a place.
#[inline(always)]
pub fn text_at(texts: &[u8], place: Place) -> &str
    requires { HoldsText texts.now place }
    ensures { result.now ≡ bytes_at texts.now place }
{
    // SAFETY: a text is at this place.
    unsafe { str::from_utf8_unchecked(&texts[place.start..place.start + place.length]) }
}

/// Appends a text, and returns where it is.
#[inline(always)]
pub(crate) fn append(texts: &mut Vec<u8>, text: &str) -> Result<Place, AllocError>
    ensures appends { OnOk result (texts.new.items ≡ texts.old.items ++ text.now) }
    ensures holds { IfOk result (HoldsText texts.new.items) }
    ensures is { IfOk result (λ place. bytes_at texts.new.items place ≡ text.now) }
{
    let start = texts.len();
    texts.extend_from_slice(text.as_bytes())?;
    Ok(Place {
        start,
        length: text.len(),
    })
}
