// Reads items one after another from a reader that is passed to each call.

ghost use Rattle.std.specs.Prelude.{◌≡◌, ◌<◌, None, [], OnSome};
ghost use Rattle.std.specs.Str.{chars};
ghost use Rattle.counted_io.specs.Streams.{IsSameReader};
ghost use Rattle.properties_format.specs.ItemsToCome.{start};
ghost use Rattle.properties_text.specs.Encoding.{encoding_of};
ghost use Rattle.properties_lines.specs.LineReader.{lines_left};
ghost use Rattle.properties_lines.specs.LineJoiner.{LineState};
ghost use Rattle.properties_items.specs.BorrowedItems.{borrowed_entry, found_entry, BorrowsPlain, IsFoundIn};
ghost use Rattle.java_properties.specs.PropertiesIter.{AdvancesTo, GivesItem};
ghost use Rattle.java_properties.specs.Private.GivenItems.{as_text, iteration_of, Owns};

use counted_io::CountedRead;
use properties_items::borrowed::LineRef;
use properties_items::error::{PropertiesError, make};
use properties_items::found::{Found, cut_item, find_escaped, find_plain, own_item};
use properties_items::line::Line;
use properties_lines::joiner::LineJoiner;
use properties_text::encoding::Encoding;
use std::alloc::Global;
use std::marker::Model;

/// The state between two items.
#[derive(Drop)]
pub struct ItemReader {
    pub(crate) lines: LineJoiner,
    alloc: Global,
}

impl Model for ItemReader {
    ghost Value = { LineState };

    ghost view = { λ s. as_text s.lines.at };

    ghost invariant = { λ s. s.lines.error ≡ None };
}

impl ItemReader {
    /// Returns the state at the start of an input. Allocates nothing.
    #[tactic(auto, using(crate::proofs::Items::keeping))]
    pub fn new(alloc: Global, encoding: Encoding) -> ItemReader
        ensures { result ≡ record { state = start (encoding_of encoding); line = [] } }
    {
        ItemReader {
            lines: LineJoiner::new(alloc, encoding),
            alloc,
        }
    }

    /// Advances to the next item and returns what was found; an error; or `None` at the end.
    pub fn advance<R: CountedRead>(
        &mut self,
        reader: &mut R,
    ) -> Option<Result<Found, PropertiesError>>
        ensures finds { AdvancesTo R.CountedRead (iteration_of self.old reader.old) result
            (iteration_of self.new reader.new) }
        ensures same_reader { IsSameReader R.CountedRead reader.old reader.new }
        ensures nearer { OnSome result (lines_left self.new.state < lines_left self.old.state) }
    {
        while let Some(number) = self.lines.next_text(reader) {
            let line = self.lines.line();
            if !self.lines.has_backslash() {
                if let Some(item) = find_plain(number, line) {
                    return Some(Ok(item));
                }
                continue;
            }
            match find_escaped(self.alloc, number, line) {
                Ok(Some(item)) => return Some(Ok(item)),
                Ok(None) => {}
                Err(error) => {
                    self.lines.end();
                    return Some(Err(make::unresolved(number, error)));
                }
            }
        }
        let error = self.lines.finish().err()?;
        Some(Err(PropertiesError::from(error)))
    }

    /// Returns the item that was found last.
    pub fn get(&self, found: Found) -> LineRef<'_>
        requires { IsFoundIn self.now.line found }
        ensures item { borrowed_entry result ≡ found_entry self.now.line found }
        ensures borrowed { BorrowsPlain (chars self.now.line) result.content }
    {
        let line = self.line_of(&found);
        cut_item(found, line)
    }

    /// Returns the next item with owned texts; an error; or `None` at the end.
    pub fn next_item<R: CountedRead>(
        &mut self,
        reader: &mut R,
    ) -> Option<Result<Line, PropertiesError>>
        ensures gives { GivesItem R.CountedRead self.old.state reader.old result self.new.state reader.new }
        ensures same_reader { IsSameReader R.CountedRead reader.old reader.new }
        ensures nearer { OnSome result (lines_left self.new.state < lines_left self.old.state) }
    {
        match self.advance(reader)? {
            Ok(found) => Some(self.own(found)),
            Err(error) => Some(Err(error)),
        }
    }

    // Returns the item that was found last, with owned texts. If there is no memory for them, the reading ends.
    fn own(&mut self, found: Found) -> Result<Line, PropertiesError>
        requires { IsFoundIn self.old.line found }
        ensures { Owns self.old found result self.new }
    {
        let line = self.line_of(&found);
        let line = own_item(self.alloc, found, line);
        if line.is_err() {
            self.lines.end()
        }
        Ok(line?)
    }

    // Returns the line that this item was found in.
    #[tactic(auto, using(crate::proofs::Items::shown_lines))]
    fn line_of(&self, found: &Found) -> &str
        requires { IsFoundIn self.now.line found.now }
        ensures { result.now ≡ self.now.line }
    {
        self.lines.line()
    }
}
