// Sinks that count their faults.

ghost use Rattle.std.specs.Prelude.{◌≡◌, ℕ, Bool, List, [], ◌∷◌, Result};
ghost use Rattle.std.specs.declared.io.Error.{Error};
ghost use Rattle.std.specs.Io.{WritesAtMost};
ghost use Rattle.std.specs.Io.KnownBytes.{WriteAppends, Keeps};
ghost use Rattle.counted_io.specs.Faults.{CountsFault, CountsWrite, flushed_after_write, flushed_after_flush};

use std::io::{self, Write};

/// A sink that counts its faults and shows whether it is flushed.
///
/// A fault is a call that fails, or a write that accepts no byte of a slice that has some. The bytes that it accepts
/// are those of [`Write`].
pub trait CountedWrite: Write + Drop {
    /// The number of faults. It saturates at `usize::MAX`.
    ghost faults: { Self → ℕ };

    /// Whether the sink was flushed and has accepted no byte since.
    ghost is_flushed: { Self → Bool };

    /// Which reference the sink is, if it is one, then which one the sink behind it is, and so on. A call leaves the
    /// references themselves in place, so that their owners find what the calls left.
    ghost identity: { Self → List ℕ } = { λ _. [] };

    /// What a call of `write_counted` may return: a relation between a sink, bytes, a result and the sink after the
    /// call. A caller that passes an error on can use it to show that the sink returned that error.
    ghost write_gives: { Self → List ℕ → Result ℕ Error → Self → Type 0 } = { λ _ _ _ _. Unit {0} };

    /// What a call of `flush_counted` may return: a relation between a sink, a result and the sink after the call.
    ghost flush_gives: { Self → Result Unit Error → Self → Type 0 } = { λ _ _ _. Unit {0} };

    /// Does what `write` does.
    fn write_counted(&mut self, bytes: &[u8]) -> io::Result<usize>
        ensures bound { WritesAtMost result bytes.now }
        ensures bytes { WriteAppends (Self.contents self.old) (Self.contents self.new)
            result bytes.now }
        ensures faults { CountsWrite (faults self.old) (faults self.new) result bytes.now }
        ensures flushed { is_flushed self.new ≡ flushed_after_write (is_flushed self.old) result }
        ensures gives { write_gives self.old bytes.now result self.new }
        ensures same_reference { identity self.new ≡ identity self.old };

    /// Does what `flush` does.
    fn flush_counted(&mut self) -> io::Result<()>
        ensures bytes { Keeps (Self.contents self.old) (Self.contents self.new) }
        ensures faults { CountsFault (faults self.old) (faults self.new) result }
        ensures flushed { is_flushed self.new ≡ flushed_after_flush (is_flushed self.old) result }
        ensures gives { flush_gives self.old result self.new }
        ensures same_reference { identity self.new ≡ identity self.old };
}

impl<W: CountedWrite> CountedWrite for &mut W {
    ghost faults = { λ w. W.faults w.now };

    ghost is_flushed = { λ w. W.is_flushed w.now };

    ghost identity = { λ w. w.ghost_name ∷ W.identity w.now };

    ghost write_gives = { λ w bytes answer v. W.write_gives w.now bytes answer v.now };

    ghost flush_gives = { λ w answer v. W.flush_gives w.now answer v.now };

    fn write_counted(&mut self, bytes: &[u8]) -> io::Result<usize> {
        (**self).write_counted(bytes)
    }

    fn flush_counted(&mut self) -> io::Result<()> {
        (**self).flush_counted()
    }
}
