//! The characters of a reader, one by one.

ghost use Rattle.std.specs.Prelude.{◌≡◌, ◌<◌, ◌⊎◌, true, false, [], length, IfOk};
ghost use Rattle.std.specs.Bool.{OnTrue, OnFalse};
ghost use Rattle.counted_io.specs.Streams.{IsSameReader};
ghost use Rattle.properties_format.specs.Computed.Encoding.{awaits_bom};
ghost use Rattle.properties_text.specs.Encoding.{encoding_of};
ghost use Rattle.single_lines.specs.Private.ReadAhead.{room};
ghost use Rattle.single_lines.specs.DecodeIter.{Decoding, DecodesNext, ReadsOn, GivesOn, ShowsFault, TakesCharacter, decoding, fresh, is_over, undecoded, waits};
ghost use Rattle.single_lines.specs.declared.decode_iter.Ending.TheVariants.{End};

use super::read_ahead::ReadAhead;
use counted_io::CountedRead;
use properties_text::encoding::Encoding;
use properties_text::encoding::byte_order_mark::{ByteOrderMark, byte_order_mark};
use properties_text::encoding::first_piece::first_piece;
use std::alloc::{AllocError, Global};
use std::marker::Model;
use std::{io, mem};

// How the input continues after the bytes that are held.
#[derive(Drop)]
enum Ending {
    // More bytes may come.
    More,
    // No more bytes come.
    End,
    // A read failed with this error, which hasn't been returned yet.
    Fault(io::Error),
}

// The state between two characters. The reader is passed to each call that reads.
#[derive(Drop)]
struct CharacterDecoder {
    // The requested encoding, or the one in force once the byte order mark is decided.
    encoding: Encoding,
    is_decided: bool,
    bytes: ReadAhead,
    ending: Ending,
}

impl CharacterDecoder {
    // Returns the next character, the error of a failed read, or `None` at the end.
    fn next_character<R: CountedRead>(&mut self, reader: &mut R) -> Option<Result<char, io::Error>>
        ensures decodes { DecodesNext R.CountedRead
            (decoding reader.old self.old) result (decoding reader.new self.new) }
        ensures same_reader { IsSameReader R.CountedRead reader.old reader.new }
    {
        self.decide(reader);
        self.settle(reader);
        if let Some(character) = self.take_character() {
            return Some(Ok(character));
        }
        let error = self.take_fault()?;
        Some(Err(error))
    }

    // Returns the error of a failed read if it hasn't been returned yet. No bytes come after it.
    fn take_fault(&mut self) -> Option<io::Error>
        ensures after { self.new ≡ record self.old { ending = End } }
        ensures fault { ShowsFault self.old.ending result }
    {
        match mem::replace(&mut self.ending, Ending::End) {
            Ending::Fault(error) => Some(error),
            Ending::More | Ending::End => None,
        }
    }

    // Removes the byte order mark, if it isn't decided yet.
    fn decide<R: CountedRead>(&mut self, reader: &mut R)
        ensures decodes { ReadsOn R.CountedRead reader.old self.old reader.new self.new }
        ensures decided { self.new.is_decided ≡ true }
        ensures same_reader { IsSameReader R.CountedRead reader.old reader.new }
    {
        if self.is_decided {
            return;
        }
        self.settle_byte_order_mark(reader);
        self.take_byte_order_mark();
    }

    // Reads until the byte order mark is decided, or until no more bytes come.
    fn settle_byte_order_mark<R: CountedRead>(&mut self, reader: &mut R)
        requires { self.old.is_decided ≡ false }
        ensures decodes { ReadsOn R.CountedRead reader.old self.old reader.new self.new }
        ensures settled { (is_over self.new.ending ≡ true) ⊎ (awaits_bom self.new.bytes ≡ false) }
        ensures undecided { self.new.is_decided ≡ false }
        ensures same_reader { IsSameReader R.CountedRead reader.old reader.new }
    {
        while matches!(
            byte_order_mark(self.bytes.bytes()),
            ByteOrderMark::Undecided
        ) {
            if !self.read(reader) {
                return;
            }
        }
    }

    // Removes the byte order mark, if there is one.
    fn take_byte_order_mark(&mut self)
        requires undecided { self.old.is_decided ≡ false }
        requires settled { (is_over self.old.ending ≡ true) ⊎ (awaits_bom self.old.bytes ≡ false) }
        ensures gives { GivesOn (undecoded self.old) [] (undecoded self.new) }
        ensures decided { self.new.is_decided ≡ true }
    {
        if let ByteOrderMark::Present(encoding, length) = byte_order_mark(self.bytes.bytes()) {
            self.encoding = encoding;
            self.bytes.skip(length);
        }
        self.is_decided = true;
    }

    // Reads until the first piece is decided, or until no more bytes come.
    fn settle<R: CountedRead>(&mut self, reader: &mut R)
        requires { self.old.is_decided ≡ true }
        ensures decodes { ReadsOn R.CountedRead reader.old self.old reader.new self.new }
        ensures settled { (is_over self.new.ending ≡ true) ⊎ (waits (undecoded self.new) ≡ false) }
        ensures decided { self.new.is_decided ≡ true }
        ensures same_reader { IsSameReader R.CountedRead reader.old reader.new }
    {
        while self.waits() {
            if !self.read(reader) {
                return;
            }
        }
    }

    // Returns whether there is no piece yet, or more bytes may change the first one.
    fn waits(&self) -> bool
        ensures { result ≡ waits (undecoded self.now) }
    {
        match self.bytes.bytes().split_first() {
            Some((first, rest)) => first_piece(self.encoding, *first, rest).may_change,
            None => true,
        }
    }

    // Removes the first piece and returns its character, if there is one.
    fn take_character(&mut self) -> Option<char>
        requires decided { self.old.is_decided ≡ true }
        requires settled { (is_over self.old.ending ≡ true) ⊎ (waits (undecoded self.old) ≡ false) }
        ensures { TakesCharacter (undecoded self.old) result (undecoded self.new) }
    {
        let (first, rest) = self.bytes.bytes().split_first()?;
        let piece = first_piece(self.encoding, *first, rest);
        self.bytes.skip(piece.length);
        Some(piece.character)
    }

    // Reads once if more bytes may come, and returns whether any came.
    fn read<R: CountedRead>(&mut self, reader: &mut R) -> bool
        requires { length self.old.bytes < room }
        ensures decodes { ReadsOn R.CountedRead reader.old self.old reader.new self.new }
        ensures decided { self.new.is_decided ≡ self.old.is_decided }
        ensures came { OnTrue result (length self.old.bytes < length self.new.bytes) }
        ensures over { OnFalse result (is_over self.new.ending ≡ true) }
        ensures same_reader { IsSameReader R.CountedRead reader.old reader.new }
    {
        if !matches!(self.ending, Ending::More) {
            return false;
        }
        match self.bytes.read(reader) {
            Ok(0) => {
                self.ending = Ending::End;
                false
            }
            Ok(_) => true,
            Err(error) => {
                self.ending = Ending::Fault(error);
                false
            }
        }
    }
}

/// The characters of a reader, after its byte order mark. The error of a failed read comes after the characters of the
/// bytes before it.
#[derive(Drop)]
pub struct DecodeIter<R> {
    reader: R,
    decoder: CharacterDecoder,
}

impl<R> Model for DecodeIter<R> {
    ghost Value = { Decoding R };

    ghost view = { λ it. record { reader = it.reader; undecoded = undecoded it.decoder } };
}

impl<R: CountedRead> DecodeIter<R> {
    /// Starts at the beginning of a reader, and reads nothing yet. Later calls allocate nothing.
    pub fn new(alloc: Global, reader: R, encoding: Encoding) -> Result<DecodeIter<R>, AllocError>
        ensures { IfOk result
            (λ it. it ≡ record { reader = reader; undecoded = fresh (encoding_of encoding) }) }
    {
        let bytes = ReadAhead::new(alloc)?;
        Ok(DecodeIter {
            reader,
            decoder: CharacterDecoder {
                encoding,
                is_decided: false,
                bytes,
                ending: Ending::More,
            },
        })
    }
}

impl<R: CountedRead> Iterator for DecodeIter<R> {
    type Item = Result<char, io::Error>;

    ghost next_gives = { λ old answer new.
        DecodesNext R.CountedRead old answer new × IsSameReader R.CountedRead old.reader new.reader };

    fn next(&mut self) -> Option<Result<char, io::Error>> {
        self.decoder.next_character(&mut self.reader)
    }
}
