// A reader that follows a script.

ghost use Rattle.std.specs.Prelude.{◌≡◌, ◌<◌, Some, [], length, map, filter, vec_items, IsTrue, IsFalse, HoldsAt};
ghost use Rattle.std.specs.List.{concat};
ghost use Rattle.std.specs.Io.{ReadsAtMost};
ghost use Rattle.std.specs.Io.KnownBytes.{ReadConsumes};
ghost use Rattle.counted_io.specs.Faults.{one_more, CountsFault, ShowsEnd};
ghost use Rattle.counted_io.specs.ReaderScript.{pieces_left, reader_tail, reader_reads, reader_faults, has_bytes, is_at_end, next_bytes, overwritten, pieces_after, ReadAnswers, ScriptGives};

use crate::read::CountedRead;
use std::io::{self, Read};

/// What a [`ScriptedReader`] returns after its last piece.
#[derive(Clone, Copy, Debug, PartialEq, Eq)]
pub enum Tail {
    /// The end of the input.
    End,
    /// An I/O error of this kind, at every read.
    Fault(io::ErrorKind),
}

/// A reader that returns given bytes in given pieces, and then ends or fails.
///
/// ```text
/// let mut input = ScriptedReader::new(pieces, Tail::Fault(ErrorKind::Other));
/// let items = read_lines(alloc, &mut input, Encoding::UTF_8);
/// assert_eq!(rt; input.faults(), 1);
/// ```
#[derive(Drop)]
pub struct ScriptedReader {
    pieces: Vec<Vec<u8>>,
    index: usize,
    place: usize,
    tail: Tail,
    reads: usize,
    faults: usize,
}

impl ScriptedReader {
    /// Creates a reader that returns `pieces` in order, at most one per read, and skips empty ones.
    pub fn new(pieces: Vec<Vec<u8>>, tail: Tail) -> ScriptedReader
        ensures pieces { pieces_left result ≡ filter has_bytes (map vec_items pieces.items) }
        ensures bytes { concat (pieces_left result) ≡ concat (map vec_items pieces.items) }
        ensures tail { reader_tail result ≡ tail }
        ensures reads { reader_reads result ≡ 0 }
        ensures faults { reader_faults result ≡ 0 }
    {
        ScriptedReader {
            pieces,
            index: 0,
            place: 0,
            tail,
            reads: 0,
            faults: 0,
        }
    }

    /// Returns the number of reads, whatever they returned. It saturates at `usize::MAX`.
    pub fn reads(&self) -> usize
        ensures { result ≡ reader_reads self.now }
    {
        self.reads
    }

    /// Returns the number of failed reads. It saturates at `usize::MAX`.
    pub fn faults(&self) -> usize
        ensures { result ≡ reader_faults self.now }
    {
        self.faults
    }

    // Advances to the first piece that has bytes left, or past the last piece if none has. Returns whether there is
    // one.
    fn find_piece(&mut self) -> bool
        ensures pieces { pieces_left self.new ≡ pieces_left self.old }
        ensures same { self.new ≡ record self.old
            { index = self.new.index; place = self.new.place } }
        ensures found { IsTrue result → self.new.index < length self.new.pieces.items }
        ensures has_bytes { IsTrue result → HoldsAt (λ piece. self.new.place < length (vec_items piece)) self.new.pieces.items self.new.index }
        ensures none { IsFalse result → pieces_left self.new ≡ [] }
    {
        while self.index < self.pieces.len() {
            if self.place < self.pieces[self.index].len() {
                return true;
            }
            self.index += 1;
            self.place = 0;
        }
        false
    }

    // Returns what a read into a buffer with room returns when no piece is left.
    fn answer_tail(&mut self) -> io::Result<usize>
        ensures answer { ReadAnswers [] (reader_tail self.old) 1 result }
        ensures faults { CountsFault (reader_faults self.old) (reader_faults self.new) result }
        ensures same { self.new ≡ record self.old { faults = self.new.faults } }
    {
        match self.tail {
            Tail::End => Ok(0),
            Tail::Fault(kind) => {
                self.faults = self.faults.saturating_add(1);
                Err(io::Error::from(kind))
            }
        }
    }

    // Copies as many bytes of the current piece as fit, and returns how many.
    fn read_piece(&mut self, buf: &mut [u8]) -> usize
        requires found { self.old.index < length self.old.pieces.items }
        requires has_bytes { HoldsAt (λ piece. self.old.place < length (vec_items piece))
            self.old.pieces.items self.old.index }
        ensures count { result ≡ length (next_bytes (pieces_left self.old) (length buf.old)) }
        ensures buffer { buf.new ≡ overwritten
            (next_bytes (pieces_left self.old) (length buf.old)) buf.old }
        ensures pieces { pieces_left self.new
            ≡ pieces_after (pieces_left self.old) (length buf.old) }
        ensures some { 0 < length buf.old → 0 < result }
        ensures same { self.new ≡ record self.old { place = self.new.place } }
    {
        let piece = &self.pieces[self.index];
        let left = &piece[self.place..];
        let count = left.len().min(buf.len());
        buf[..count].copy_from_slice(&left[..count]);
        self.place += count;
        count
    }
}

impl Read for ScriptedReader {
    ghost remaining = { λ r. Some (concat (pieces_left r)) };

    fn read(&mut self, buf: &mut [u8]) -> io::Result<usize>
        ensures bound { ReadsAtMost result buf.new }
        ensures bytes { ReadConsumes (Some (concat (pieces_left self.old)))
            (Some (concat (pieces_left self.new))) result buf.new }
        ensures answer { ReadAnswers (pieces_left self.old) (reader_tail self.old)
            (length buf.old) result }
        ensures buffer { buf.new ≡ overwritten
            (next_bytes (pieces_left self.old) (length buf.old)) buf.old }
        ensures pieces { pieces_left self.new
            ≡ pieces_after (pieces_left self.old) (length buf.old) }
        ensures tail { reader_tail self.new ≡ reader_tail self.old }
        ensures reads { reader_reads self.new ≡ one_more (reader_reads self.old) }
        ensures faults { CountsFault (reader_faults self.old) (reader_faults self.new) result }
        ensures ended { ShowsEnd (is_at_end (pieces_left self.new) (reader_tail self.new))
            result buf.new }
    {
        self.reads = self.reads.saturating_add(1);
        if buf.is_empty() {
            return Ok(0);
        }
        if !self.find_piece() {
            return self.answer_tail();
        }
        Ok(self.read_piece(buf))
    }
}

impl CountedRead for ScriptedReader {
    ghost faults = { reader_faults };

    ghost at_end = { λ r. is_at_end (pieces_left r) (reader_tail r) };

    ghost read_gives = { ScriptGives };

    fn read_counted(&mut self, buf: &mut [u8]) -> io::Result<usize>
        ensures bound { ReadsAtMost result buf.new }
        ensures bytes { ReadConsumes (Some (concat (pieces_left self.old)))
            (Some (concat (pieces_left self.new))) result buf.new }
        ensures answer { ReadAnswers (pieces_left self.old) (reader_tail self.old)
            (length buf.old) result }
        ensures buffer { buf.new ≡ overwritten
            (next_bytes (pieces_left self.old) (length buf.old)) buf.old }
        ensures pieces { pieces_left self.new
            ≡ pieces_after (pieces_left self.old) (length buf.old) }
        ensures tail { reader_tail self.new ≡ reader_tail self.old }
        ensures reads { reader_reads self.new ≡ one_more (reader_reads self.old) }
        ensures faults { CountsFault (reader_faults self.old) (reader_faults self.new) result }
        ensures gives { ScriptGives self.old result self.new }
        ensures ended { ShowsEnd (is_at_end (pieces_left self.new) (reader_tail self.new))
            result buf.new }
    {
        self.read(buf)
    }
}
