// Iterates over the comments and pairs of a file.

ghost use Rattle.std.specs.Prelude.{◌≡◌, ◌<◌, [], IsOkAnd, OnSome};
ghost use Rattle.std.specs.Str.{chars};
ghost use Rattle.std.specs.Iterator.{at_most};
ghost use Rattle.properties_format.specs.Encoding.{windows_1252};
ghost use Rattle.properties_format.specs.ItemsToCome.{start};
ghost use Rattle.properties_text.specs.Encoding.{encoding_of};
ghost use Rattle.properties_lines.specs.LineReader.{lines_left};
ghost use Rattle.properties_items.specs.BorrowedItems.{borrowed_entry, found_entry, BorrowsPlain, IsFoundIn};
ghost use Rattle.java_properties.specs.PropertiesIter.{AdvanceGives, NextRefGives, Iteration, NextGives};

mod escapes;
pub(crate) mod items;
mod keys;
mod lines;
mod lookup;
mod read_into;

use crate::iter::items::ItemReader;
use counted_io::CountedRead;
pub use escapes::malformed_escapes;
pub use keys::key_lines;
pub use lines::{Stopped, read_lines};
pub use lookup::{map_of, value_of, value_with};
use properties_items::borrowed::LineRef;
use properties_items::error::PropertiesError;
use properties_items::found::Found;
use properties_items::line::Line;
use properties_text::encoding::Encoding;
use std::alloc::Global;
use std::marker::Model;

/// The comments and pairs of a file, in order, each with its line number.
///
/// An error is the last item. After an error, and after `None`, nothing more is read.
///
/// ```text
/// let mut input: &[u8] = b"# greetings\nhello = world";
/// for item in PropertiesIter::new(alloc, &mut input)? {
///     match item?.content() {
///         LineContent::KVPair(key, value) => println!(rt; "{key} is {value}")?,
///         LineContent::Comment(_) => {}
///     }
/// }
/// ```
#[derive(Drop)]
pub struct PropertiesIter<R> {
    pub(crate) reader: R,
    pub(crate) items: ItemReader,
}

impl<R> Model for PropertiesIter<R> {
    ghost Value = { Iteration R };

    ghost view = { λ it. record { reader = it.reader; state = it.items.state; line = it.items.line } };
}

impl<R: CountedRead> PropertiesIter<R> {
    /// Creates an iterator that reads windows-1252, unless a byte order mark selects another encoding. It reads nothing
    /// and allocates nothing until the first item is requested. Always returns `Ok`.
    pub fn new(alloc: Global, input: R) -> Result<PropertiesIter<R>, PropertiesError>
        ensures { IsOkAnd result
            (λ it. it ≡ record { reader = input; state = start windows_1252; line = [] }) }
    {
        PropertiesIter::new_with_encoding(alloc, input, Encoding::WINDOWS_1252)
    }

    /// Creates an iterator that reads this encoding, unless a byte order mark selects another one. It reads nothing and
    /// allocates nothing until the first item is requested. Always returns `Ok`.
    pub fn new_with_encoding(
        alloc: Global,
        input: R,
        encoding: Encoding,
    ) -> Result<PropertiesIter<R>, PropertiesError>
        ensures { IsOkAnd result
            (λ it. it ≡ record {
              reader = input;
              state = start (encoding_of encoding);
              line = [];
            }) }
    {
        Ok(PropertiesIter {
            reader: input,
            items: ItemReader::new(alloc, encoding),
        })
    }

    /// Returns the next item, borrowed until the next call, with the content that `next` would have returned; an error;
    /// or `None` at the end.
    ///
    /// Besides its input buffer, it allocates only for texts whose escapes must be resolved, and for lines whose text
    /// isn't in the input byte for byte. You can mix calls of `next_ref` and `next`.
    pub fn next_ref(&mut self) -> Option<Result<LineRef<'_>, PropertiesError>>
        ensures { NextRefGives R.CountedRead self.old result }
    {
        match self.advance()? {
            Ok(found) => Some(Ok(self.get(found))),
            Err(error) => Some(Err(error)),
        }
    }

    /// Advances to the next item, which [`get`](Self::get) then borrows; or returns an error, or `None` at the end.
    ///
    /// Together, the two calls do what `next_ref` does, for loops that are proved. The returned value borrows nothing,
    /// so a proof can still refer to the iterator's state. The logical line that the texts are cut out of is spelt as
    /// the input spells it.
    ///
    /// ```text
    /// while let Some(found) = items.advance() {
    ///     let line = items.get(found?);
    ///     println!(rt; "{}", line.line_number())?;
    /// }
    /// ```
    pub fn advance(&mut self) -> Option<Result<Found, PropertiesError>>
        ensures gives { AdvanceGives R.CountedRead self.old result self.new }
        ensures nearer { OnSome result (lines_left self.new.state < lines_left self.old.state) }
    {
        self.items.advance(&mut self.reader)
    }

    /// Returns the item that [`advance`](Self::advance) found, borrowed until the next call.
    pub fn get(&self, found: Found) -> LineRef<'_>
        requires { IsFoundIn self.now.line found }
        ensures item { borrowed_entry result ≡ found_entry self.now.line found }
        ensures borrowed { BorrowsPlain (chars self.now.line) result.content }
    {
        self.items.get(found)
    }

    /// Returns a reference to the reader, which is positioned after the bytes that were read so far.
    pub fn get_ref(&self) -> &R
        ensures { result.now ≡ self.now.reader }
    {
        &self.reader
    }

    /// Returns the reader, positioned after the bytes that were read so far. The iterator reads ahead, so the reader
    /// may be past the last item.
    pub fn into_inner(self) -> R
        ensures { result ≡ self.reader }
    {
        let PropertiesIter { reader, items: _ } = self;
        reader
    }
}

impl<R: CountedRead> Iterator for PropertiesIter<R> {
    type Item = Result<Line, PropertiesError>;

    ghost next_gives = { λ old answer new. NextGives R.CountedRead old answer new };

    ghost remaining = { λ it. at_most (lines_left it.state) };

    fn next(&mut self) -> Option<Result<Line, PropertiesError>> {
        self.items.next_item(&mut self.reader)
    }
}
