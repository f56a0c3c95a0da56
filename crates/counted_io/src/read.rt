// Readers that count their faults.

ghost use Rattle.std.specs.Prelude.{◌≡◌, ℕ, ◌==◌, Bool, List, [], ◌∷◌, Result, length};
ghost use Rattle.std.specs.declared.io.Error.{Error};
ghost use Rattle.std.specs.Io.{ReadsAtMost};
ghost use Rattle.std.specs.Io.KnownBytes.{ReadConsumes};
ghost use Rattle.counted_io.specs.Faults.{CountsFault, ShowsEnd};

use std::io::{self, Read};

/// A reader that counts its failed reads and shows whether it is at its end.
///
/// The bytes that it returns are those of [`Read`].
pub trait CountedRead: Read + Drop {
    /// The number of failed reads. It saturates at `usize::MAX`.
    ghost faults: { Self → ℕ };

    /// Whether the reader is at its end.
    ghost at_end: { Self → Bool };

    /// Which reference the reader is, if it is one, then which one the reader behind it is, and so on. A call leaves
    /// the references themselves in place, so that their owners find what the calls left.
    ghost identity: { Self → List ℕ } = { λ _. [] };

    /// What a call of `read_counted` may return: a relation between a reader, a result and the reader after the call. A
    /// caller that passes an error on can use it to show that the reader returned that error.
    ghost read_gives: { Self → Result ℕ Error → Self → Type 0 } = { λ _ _ _. Unit {0} };

    /// Does what `read` does.
    fn read_counted(&mut self, buf: &mut [u8]) -> io::Result<usize>
        ensures bound { ReadsAtMost result buf.new }
        ensures bytes { ReadConsumes (Self.remaining self.old) (Self.remaining self.new)
            result buf.new }
        ensures faults { CountsFault (faults self.old) (faults self.new) result }
        ensures ended { ShowsEnd (at_end self.new) result buf.new }
        ensures gives { read_gives self.old result self.new }
        ensures same_reference { identity self.new ≡ identity self.old };
}

/// A slice has no faults, and is at its end if it is empty.
impl CountedRead for &[u8] {
    ghost faults = { λ _. 0 };

    ghost at_end = { λ s. length s.now == 0 };

    fn read_counted(&mut self, buf: &mut [u8]) -> io::Result<usize> {
        self.read(buf)
    }
}

impl<R: CountedRead> CountedRead for &mut R {
    ghost faults = { λ r. R.faults r.now };

    ghost at_end = { λ r. R.at_end r.now };

    ghost identity = { λ r. r.ghost_name ∷ R.identity r.now };

    ghost read_gives = { λ r result s. R.read_gives r.now result s.now };

    fn read_counted(&mut self, buf: &mut [u8]) -> io::Result<usize> {
        (**self).read_counted(buf)
    }
}
