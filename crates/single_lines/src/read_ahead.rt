// Bytes that were read but not decoded yet.

ghost use Rattle.std.specs.Prelude.{◌≡◌, ℕ, ◌<◌, ◌≤◌, ◌+◌, ◌-◌, List, [], take, drop, length, IfOk};
ghost use Rattle.counted_io.specs.Streams.{IsSameReader};
ghost use Rattle.single_lines.specs.Private.ReadAhead.{ReadsMore, count_read, room};

use counted_io::CountedRead;
use std::alloc::{AllocError, Global};
use std::io;
use std::marker::Model;

// The size of the buffer in bytes.
const ROOM: usize = 8192;

/// Bytes that were read but not decoded yet, in a buffer that is allocated once.
#[derive(Drop)]
pub struct ReadAhead {
    buffer: Vec<u8>,
    start: usize,
    end: usize,
}

impl Model for ReadAhead {
    ghost Value = { List ℕ };

    ghost view = { λ s. drop s.start (take s.end s.buffer.items) };

    ghost invariant = { λ s. (length s.buffer.items ≡ room) × (s.start ≤ s.end) × (s.end ≤ room) };
}

impl ReadAhead {
    /// Returns a buffer without bytes.
    pub fn new(alloc: Global) -> Result<ReadAhead, AllocError>
        ensures { IfOk result (λ s. s ≡ []) }
    {
        let buffer = vec![in alloc; 0; ROOM]?;
        Ok(ReadAhead {
            buffer,
            start: 0,
            end: 0,
        })
    }

    /// Returns the bytes.
    pub fn bytes(&self) -> &[u8]
        ensures { result.now ≡ self.now }
    {
        &self.buffer[self.start..self.end]
    }

    /// Skips the first `count` bytes.
    pub fn skip(&mut self, count: usize)
        requires { count ≤ length self.old }
        ensures { self.new ≡ drop count self.old }
    {
        self.start += count;
    }

    /// Reads once and returns how many bytes came.
    pub fn read<R: CountedRead>(&mut self, reader: &mut R) -> io::Result<usize>
        requires { length self.old < room }
        ensures reads { ReadsMore R.CountedRead reader.old self.old result reader.new self.new }
        ensures same_reader { IsSameReader R.CountedRead reader.old reader.new }
    {
        let held = self.end - self.start;
        move_down(&mut self.buffer, self.start, self.end);
        self.start = 0;
        self.end = held;
        match read_after(reader, &mut self.buffer, held) {
            Ok(count) => {
                self.end += count;
                Ok(count)
            }
            Err(error) => Err(error),
        }
    }
}

// Moves the bytes between these positions to the front.
fn move_down(buffer: &mut [u8], start: usize, end: usize)
    requires order { start ≤ end }
    requires within { end ≤ length buffer.old }
    ensures { take (end - start) buffer.new ≡ drop start (take end buffer.old) }
{
    buffer.copy_within(start..end, 0);
}

// Reads once, into the buffer from this position on.
fn read_after<R: CountedRead>(reader: &mut R, buffer: &mut [u8], place: usize) -> io::Result<usize>
    requires { place < length buffer.old }
    ensures reads { ReadsMore R.CountedRead reader.old (take place buffer.old)
        result reader.new (take (place + count_read result) buffer.new) }
    ensures within { place + count_read result ≤ length buffer.new }
    ensures same_reader { IsSameReader R.CountedRead reader.old reader.new }
{
    reader.read_counted(&mut buffer[place..])
}
