// Why the next line can't be returned.

ghost use Rattle.std.specs.Prelude.{◌≡◌};
ghost use Rattle.properties_lines.specs.declared.error.LineError.TheVariants.{Memory};

use std::alloc::AllocError;
use std::io;

/// Why the next line can't be returned.
#[derive(Debug, Drop)]
pub enum LineError {
    /// A read failed in the line with this number.
    Io(usize, io::Error),
    /// A line has no number, because `usize::MAX` lines come before it.
    TooManyLines,
    /// Memory ran out.
    Memory,
}

impl From<AllocError> for LineError {
    ghost from_gives = { λ _ e. e ≡ Memory };

    fn from(_: AllocError) -> LineError {
        LineError::Memory
    }
}
