// Counts the faults of any stream.

ghost use Rattle.std.specs.Prelude.{◌≡◌, false};
ghost use Rattle.std.specs.Io.{ReadsAtMost, WritesAtMost};
ghost use Rattle.std.specs.Io.KnownBytes.{ReadConsumes, WriteAppends, Keeps};
ghost use Rattle.counted_io.specs.Faults.{one_more, CountsFault, CountsWrite, flushed_after_write, flushed_after_flush};
ghost use Rattle.counted_io.specs.Counting.{counted_inner, counted_faults, counted_ended, counted_flushed, ended_after_read};

use crate::read::CountedRead;
use crate::write::CountedWrite;
use std::io::{self, Read, Write};

/// A stream with the number of its faults.
///
/// It is at its end if its last read into a buffer with room returned no bytes.
///
/// ```text
/// let mut output = Counted::new(Vec::new(alloc));
/// output.write_counted(b"a=b\n")?;
/// assert_eq!(rt; output.faults(), 0);
/// ```
#[derive(Drop)]
pub struct Counted<T> {
    inner: T,
    faults: usize,
    ended: bool,
    flushed: bool,
}

impl<T> Counted<T> {
    /// Counts the faults of `inner` from 0.
    pub fn new(inner: T) -> Counted<T>
        ensures inner { counted_inner result ≡ inner }
        ensures faults { counted_faults result ≡ 0 }
        ensures ended { counted_ended result ≡ false }
        ensures flushed { counted_flushed result ≡ false }
    {
        Counted {
            inner,
            faults: 0,
            ended: false,
            flushed: false,
        }
    }

    /// Returns the inner stream.
    pub fn into_inner(self) -> T
        ensures { result ≡ counted_inner self }
    {
        let Counted {
            inner,
            faults: _,
            ended: _,
            flushed: _,
        } = self;
        inner
    }

    /// Returns the number of faults. It saturates at `usize::MAX`.
    pub fn faults(&self) -> usize
        ensures { result ≡ counted_faults self.now }
    {
        self.faults
    }

    fn count(&mut self)
        ensures { self.new ≡ record self.old { faults = one_more self.old.faults } }
    {
        self.faults = self.faults.saturating_add(1);
    }
}

impl<R: Read> Read for Counted<R> {
    ghost remaining = { λ c. R.remaining (counted_inner c) };

    fn read(&mut self, buf: &mut [u8]) -> io::Result<usize>
        ensures bound { ReadsAtMost result buf.new }
        ensures bytes { ReadConsumes (R.remaining (counted_inner self.old))
            (R.remaining (counted_inner self.new)) result buf.new }
        ensures faults { CountsFault (counted_faults self.old) (counted_faults self.new) result }
        ensures ended { counted_ended self.new
            ≡ ended_after_read (counted_ended self.old) result buf.new }
        ensures flushed { counted_flushed self.new ≡ counted_flushed self.old }
    {
        let has_room = !buf.is_empty();
        match self.inner.read(buf) {
            Ok(count) => {
                if has_room {
                    self.ended = count == 0;
                }
                Ok(count)
            }
            Err(error) => {
                if has_room {
                    self.ended = false;
                }
                self.count();
                Err(error)
            }
        }
    }
}

impl<R: Read + Drop> CountedRead for Counted<R> {
    ghost faults = { counted_faults };

    ghost at_end = { counted_ended };

    fn read_counted(&mut self, buf: &mut [u8]) -> io::Result<usize>
        ensures bound { ReadsAtMost result buf.new }
        ensures bytes { ReadConsumes (R.remaining (counted_inner self.old))
            (R.remaining (counted_inner self.new)) result buf.new }
        ensures faults { CountsFault (counted_faults self.old) (counted_faults self.new) result }
        ensures ended { counted_ended self.new
            ≡ ended_after_read (counted_ended self.old) result buf.new }
        ensures flushed { counted_flushed self.new ≡ counted_flushed self.old }
    {
        self.read(buf)
    }
}

impl<W: Write> Write for Counted<W> {
    ghost contents = { λ c. W.contents (counted_inner c) };

    fn write(&mut self, bytes: &[u8]) -> io::Result<usize>
        ensures bound { WritesAtMost result bytes.now }
        ensures bytes { WriteAppends (W.contents (counted_inner self.old))
            (W.contents (counted_inner self.new)) result bytes.now }
        ensures faults { CountsWrite (counted_faults self.old) (counted_faults self.new)
            result bytes.now }
        ensures flushed { counted_flushed self.new
            ≡ flushed_after_write (counted_flushed self.old) result }
        ensures ended { counted_ended self.new ≡ counted_ended self.old }
    {
        match self.inner.write(bytes) {
            Ok(0) => {
                if !bytes.is_empty() {
                    self.count();
                }
                Ok(0)
            }
            Ok(taken) => {
                self.flushed = false;
                Ok(taken)
            }
            Err(error) => {
                self.count();
                Err(error)
            }
        }
    }

    fn flush(&mut self) -> io::Result<()>
        ensures bytes { Keeps (W.contents (counted_inner self.old))
            (W.contents (counted_inner self.new)) }
        ensures faults { CountsFault (counted_faults self.old) (counted_faults self.new) result }
        ensures flushed { counted_flushed self.new
            ≡ flushed_after_flush (counted_flushed self.old) result }
        ensures ended { counted_ended self.new ≡ counted_ended self.old }
    {
        match self.inner.flush() {
            Ok(()) => {
                self.flushed = true;
                Ok(())
            }
            Err(error) => {
                self.count();
                Err(error)
            }
        }
    }
}

impl<W: Write + Drop> CountedWrite for Counted<W> {
    ghost faults = { counted_faults };

    ghost is_flushed = { counted_flushed };

    fn write_counted(&mut self, bytes: &[u8]) -> io::Result<usize>
        ensures bound { WritesAtMost result bytes.now }
        ensures bytes { WriteAppends (W.contents (counted_inner self.old))
            (W.contents (counted_inner self.new)) result bytes.now }
        ensures faults { CountsWrite (counted_faults self.old) (counted_faults self.new)
            result bytes.now }
        ensures flushed { counted_flushed self.new
            ≡ flushed_after_write (counted_flushed self.old) result }
        ensures ended { counted_ended self.new ≡ counted_ended self.old }
    {
        self.write(bytes)
    }

    fn flush_counted(&mut self) -> io::Result<()>
        ensures bytes { Keeps (W.contents (counted_inner self.old))
            (W.contents (counted_inner self.new)) }
        ensures faults { CountsFault (counted_faults self.old) (counted_faults self.new) result }
        ensures flushed { counted_flushed self.new
            ≡ flushed_after_flush (counted_flushed self.old) result }
        ensures ended { counted_ended self.new ≡ counted_ended self.old }
    {
        self.flush()
    }
}
