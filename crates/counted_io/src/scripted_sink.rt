// A sink that follows a script.

ghost use Rattle.std.specs.Prelude.{◌≡◌, Some, None, [], false};
ghost use Rattle.std.specs.Io.{WritesAtMost};
ghost use Rattle.std.specs.Io.KnownBytes.{WriteAppends, Keeps};
ghost use Rattle.counted_io.specs.Faults.{one_more, CountsFault, CountsWrite, flushed_after_write, flushed_after_flush};
ghost use Rattle.counted_io.specs.SinkScript.{sink_plan, sink_bytes, sink_calls, sink_faults, sink_flushed, FailsAs, TakesMost, WriteAnswers, FlushAnswers, ScriptWrites, ScriptFlushes};

use crate::write::CountedWrite;
use std::alloc::Global;
use std::io::{self, Write};

/// How the chosen write of a [`ScriptedSink`] fails.
#[derive(Clone, Copy, Debug, PartialEq, Eq)]
pub enum SinkFault {
    /// With an error of this kind.
    Fault(io::ErrorKind),
    /// By accepting no byte.
    Nothing,
}

/// A sink that keeps the bytes that it accepts, accepts them in small pieces, and fails at a chosen write.
///
/// ```text
/// let mut output = ScriptedSink::new(alloc, 1, Some(3), SinkFault::Nothing);
/// assert_eq!(rt; output.write_counted(b"a=b\n")?, 1);
/// assert_eq!(rt; output.bytes(), b"a".as_slice());
/// ```
#[derive(Drop)]
pub struct ScriptedSink {
    taken: Vec<u8>,
    most: usize,
    fail_at: Option<usize>,
    how: SinkFault,
    flush_fault: Option<io::ErrorKind>,
    calls: usize,
    faults: usize,
    flushed: bool,
}

impl ScriptedSink {
    /// Creates a sink that accepts at most `most` bytes per write, where 0 counts as 1. Writes are numbered from 1, and
    /// their number saturates at `usize::MAX`. Only the write with the number `fail_at` fails as `how` says.
    pub fn new(alloc: Global, most: usize, fail_at: Option<usize>, how: SinkFault) -> ScriptedSink
        ensures bytes { sink_bytes result ≡ [] }
        ensures plan { sink_plan result
            ≡ record { most = most; fail_at = fail_at; how = how; flush_fault = None } }
        ensures calls { sink_calls result ≡ 0 }
        ensures faults { sink_faults result ≡ 0 }
        ensures flushed { sink_flushed result ≡ false }
    {
        ScriptedSink {
            taken: Vec::new(alloc),
            most,
            fail_at,
            how,
            flush_fault: None,
            calls: 0,
            faults: 0,
            flushed: false,
        }
    }

    /// Sets the kind of error with which each flush fails from now on. With `None`, no flush fails.
    pub fn set_flush_fault(&mut self, flush_fault: Option<io::ErrorKind>)
        ensures plan { sink_plan self.new
            ≡ record (sink_plan self.old) { flush_fault = flush_fault } }
        ensures bytes { sink_bytes self.new ≡ sink_bytes self.old }
        ensures calls { sink_calls self.new ≡ sink_calls self.old }
        ensures faults { sink_faults self.new ≡ sink_faults self.old }
        ensures flushed { sink_flushed self.new ≡ sink_flushed self.old }
    {
        self.flush_fault = flush_fault;
    }

    /// Returns the bytes that were accepted.
    pub fn bytes(&self) -> &[u8]
        ensures { result.now ≡ sink_bytes self.now }
    {
        &self.taken
    }

    /// Returns the number of writes, whatever they returned. It saturates at `usize::MAX`.
    pub fn calls(&self) -> usize
        ensures { result ≡ sink_calls self.now }
    {
        self.calls
    }

    /// Returns the number of faults: failed calls, and writes of some bytes that accepted none. It saturates at
    /// `usize::MAX`.
    pub fn faults(&self) -> usize
        ensures { result ≡ sink_faults self.now }
    {
        self.faults
    }

    fn count_fault(&mut self)
        ensures { self.new ≡ record self.old { faults = one_more self.old.faults } }
    {
        self.faults = self.faults.saturating_add(1);
    }

    // Fails a write as `how` says.
    fn fail(&mut self, bytes: &[u8]) -> io::Result<usize>
        ensures answer { FailsAs self.old.how result }
        ensures faults { CountsWrite self.old.faults self.new.faults result bytes.now }
        ensures same { self.new ≡ record self.old { faults = self.new.faults } }
    {
        match self.how {
            SinkFault::Fault(kind) => {
                self.count_fault();
                Err(io::Error::from(kind))
            }
            SinkFault::Nothing => {
                if !bytes.is_empty() {
                    self.count_fault();
                }
                Ok(0)
            }
        }
    }

    // Accepts as many bytes as it may. Fails if there is no memory for them.
    fn take(&mut self, bytes: &[u8]) -> io::Result<usize>
        ensures answer { TakesMost self.old.most bytes.now result }
        ensures bytes { WriteAppends (Some (sink_bytes self.old)) (Some (sink_bytes self.new))
            result bytes.now }
        ensures faults { CountsWrite self.old.faults self.new.faults result bytes.now }
        ensures flushed { self.new.flushed ≡ flushed_after_write self.old.flushed result }
        ensures calls { self.new.calls ≡ self.old.calls }
        ensures plan { sink_plan self.new ≡ sink_plan self.old }
    {
        let count = bytes.len().min(self.most.max(1));
        match self.taken.extend_from_slice(&bytes[..count]) {
            Ok(()) => {
                if count > 0 {
                    self.flushed = false;
                }
                Ok(count)
            }
            Err(error) => {
                self.count_fault();
                Err(io::Error::from(error))
            }
        }
    }
}

impl Write for ScriptedSink {
    ghost contents = { λ s. Some (sink_bytes s) };

    fn write(&mut self, bytes: &[u8]) -> io::Result<usize>
        ensures bound { WritesAtMost result bytes.now }
        ensures bytes { WriteAppends (Some (sink_bytes self.old)) (Some (sink_bytes self.new))
            result bytes.now }
        ensures answer { WriteAnswers (sink_plan self.old) (sink_calls self.old) bytes.now result }
        ensures calls { sink_calls self.new ≡ one_more (sink_calls self.old) }
        ensures faults { CountsWrite (sink_faults self.old) (sink_faults self.new)
            result bytes.now }
        ensures flushed { sink_flushed self.new
            ≡ flushed_after_write (sink_flushed self.old) result }
        ensures plan { sink_plan self.new ≡ sink_plan self.old }
    {
        self.calls = self.calls.saturating_add(1);
        if self.fail_at == Some(self.calls) {
            self.fail(bytes)
        } else {
            self.take(bytes)
        }
    }

    fn flush(&mut self) -> io::Result<()>
        ensures bytes { Keeps (Some (sink_bytes self.old)) (Some (sink_bytes self.new)) }
        ensures answer { FlushAnswers (sink_plan self.old).flush_fault result }
        ensures calls { sink_calls self.new ≡ sink_calls self.old }
        ensures faults { CountsFault (sink_faults self.old) (sink_faults self.new) result }
        ensures flushed { sink_flushed self.new
            ≡ flushed_after_flush (sink_flushed self.old) result }
        ensures plan { sink_plan self.new ≡ sink_plan self.old }
    {
        match self.flush_fault {
            Some(kind) => {
                self.count_fault();
                Err(io::Error::from(kind))
            }
            None => {
                self.flushed = true;
                Ok(())
            }
        }
    }
}

impl CountedWrite for ScriptedSink {
    ghost faults = { sink_faults };

    ghost is_flushed = { sink_flushed };

    ghost write_gives = { ScriptWrites };

    ghost flush_gives = { ScriptFlushes };

    fn write_counted(&mut self, bytes: &[u8]) -> io::Result<usize>
        ensures bound { WritesAtMost result bytes.now }
        ensures bytes { WriteAppends (Some (sink_bytes self.old)) (Some (sink_bytes self.new))
            result bytes.now }
        ensures answer { WriteAnswers (sink_plan self.old) (sink_calls self.old) bytes.now result }
        ensures calls { sink_calls self.new ≡ one_more (sink_calls self.old) }
        ensures faults { CountsWrite (sink_faults self.old) (sink_faults self.new)
            result bytes.now }
        ensures flushed { sink_flushed self.new
            ≡ flushed_after_write (sink_flushed self.old) result }
        ensures plan { sink_plan self.new ≡ sink_plan self.old }
    {
        self.write(bytes)
    }

    fn flush_counted(&mut self) -> io::Result<()>
        ensures bytes { Keeps (Some (sink_bytes self.old)) (Some (sink_bytes self.new)) }
        ensures answer { FlushAnswers (sink_plan self.old).flush_fault result }
        ensures calls { sink_calls self.new ≡ sink_calls self.old }
        ensures faults { CountsFault (sink_faults self.old) (sink_faults self.new) result }
        ensures flushed { sink_flushed self.new
            ≡ flushed_after_flush (sink_flushed self.old) result }
        ensures plan { sink_plan self.new ≡ sink_plan self.old }
    {
        self.flush()
    }
}
