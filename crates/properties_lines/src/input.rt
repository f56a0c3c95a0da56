// The bytes that were read.

ghost use Rattle.std.specs.Prelude.{◌≡◌, ◌-◌, ◌<◌, ◌≤◌, ◌+◌, [], take, drop, length};
ghost use Rattle.counted_io.specs.Streams.{IsSameReader};
ghost use Rattle.properties_lines.specs.Private.InputBuffer.{Buffer, Fills, MakesRoom, ReadsAt};

use counted_io::CountedRead;
use std::alloc::{AllocError, Global};
use std::io;
use std::marker::Model;

// The number of bytes by which the buffer grows.
const ROOM: usize = 1 << 16;

/// The bytes that were read and are still held, in one buffer that grows when they fill it.
#[derive(Drop)]
pub struct InputBuffer {
    // The bytes up to `filled` are held. The others are free space.
    bytes: Vec<u8>,
    filled: usize,
}

impl Model for InputBuffer {
    ghost Value = { Buffer };

    ghost view = { λ s. record { held = take s.filled s.bytes.items; room = length s.bytes.items - s.filled } };

    ghost invariant = { λ s. s.filled ≤ length s.bytes.items };
}

impl InputBuffer {
    /// Returns a buffer without bytes. Allocates nothing.
    pub fn new(alloc: Global) -> InputBuffer
        ensures { result ≡ record { held = []; room = 0 } }
    {
        InputBuffer {
            bytes: Vec::new(alloc),
            filled: 0,
        }
    }

    /// Returns the bytes that are held.
    #[inline(always)]
    pub fn held(&self) -> &[u8]
        ensures { result.now ≡ self.now.held }
    {
        &self.bytes[..self.filled]
    }

    /// Makes room for a read. The first `count` bytes may be released. Returns how many were: 0 or `count`.
    ///
    /// The bytes move down only if more than half of the buffer can be released, so that each byte moves at most
    /// once on average.
    pub fn make_room(&mut self, count: usize) -> Result<usize, AllocError>
        requires { count ≤ length self.old.held }
        ensures { MakesRoom count self.old result self.new }
    {
        if self.filled < self.bytes.len() {
            return Ok(0);
        }
        if count > self.bytes.len() / 2 {
            self.move_down(count);
            return Ok(count);
        }
        // The vector's capacity still doubles. Only the space of the next read is cleared.
        let size = self.bytes.len().saturating_add(ROOM);
        self.bytes.resize(size, 0)?;
        Ok(0)
    }

    /// Reads once, and holds the bytes after those that are already held. If a read returns none, the reader is at its
    /// end.
    pub fn fill<R: CountedRead>(&mut self, reader: &mut R) -> io::Result<usize>
        requires { 0 < self.old.room }
        ensures fills { Fills R.CountedRead self.old.held reader.old result self.new.held reader.new }
        ensures size { length self.new.held + self.new.room ≡ length self.old.held + self.old.room }
        ensures same_reader { IsSameReader R.CountedRead reader.old reader.new }
    {
        let count = read_at(&mut self.bytes, self.filled, reader)?;
        self.filled += count;
        Ok(count)
    }

    // Releases the first `count` bytes.
    fn move_down(&mut self, count: usize)
        requires { count ≤ length self.old.held }
        ensures held { self.new.held ≡ drop count self.old.held }
        ensures room { self.new.room ≡ self.old.room + count }
    {
        self.bytes.copy_within(count..self.filled, 0);
        self.filled -= count;
    }
}

// Reads once, into the bytes from this position on.
#[tactic(auto, using(crate::proofs::InputBuffer::reads_at))]
fn read_at<R: CountedRead>(bytes: &mut [u8], place: usize, reader: &mut R) -> io::Result<usize>
    requires { place < length bytes.old }
    ensures reads { ReadsAt R.CountedRead place bytes.old reader.old result bytes.new reader.new }
    ensures size { length bytes.new ≡ length bytes.old }
    ensures same_reader { IsSameReader R.CountedRead reader.old reader.new }
{
    reader.read_counted(&mut bytes[place..])
}
