//! Joins any natural lines into logical lines.

ghost use Rattle.std.specs.Prelude.{◌≡◌, true, false};
ghost use Rattle.std.specs.Iterator.{count_unless, IsFinite};
ghost use Rattle.single_lines.specs.Joining.{GivesLogicalLine, JoinsEach, MayGoOn, TakesAfter};

use crate::join::{addition, is_comment_line, is_open};
use crate::natural::NaturalLine;
use properties_lines::error::LineError;

/// A logical line, with the number of its first natural line.
#[derive(Drop)]
pub struct LogicalLine(pub usize, pub String);

/// The logical lines of natural lines, up to an error. If the natural lines end while a line is open, it is the last
/// line.
#[derive(Drop)]
pub struct LogicalLines<I> {
    lines: I,
    is_done: bool,
}

impl<I: Iterator<Item = Result<NaturalLine, LineError>>> LogicalLines<I> {
    /// Joins these lines. Requests none of them yet.
    pub fn new(lines: I) -> LogicalLines<I>
        ensures start { result ≡ record { lines = lines; is_done = false } }
        ensures joins { JoinsEach I.next_gives result }
    {
        LogicalLines {
            lines,
            is_done: false,
        }
    }

    // Returns the logical line that begins with this natural line. Lines come after it only if its last natural line is
    // found.
    fn join(&mut self, first: NaturalLine) -> Result<LogicalLine, LineError>
        requires can { I.can_next self.old.lines }
        requires finite { IsFinite (I.remaining self.old.lines) }
        requires done { self.old.is_done ≡ true }
        ensures takes { TakesAfter I.next_gives first self.old.lines result self.new }
        ensures goes_on { MayGoOn I.can_next I.remaining self.old.lines self.new }
    {
        let NaturalLine(number, mut text) = first;
        if is_comment_line(text.as_str()) || !is_open(text.as_str()) {
            self.is_done = false;
            return Ok(LogicalLine(number, text));
        }
        text.pop();
        while let Some(line) = self.lines.next() {
            let NaturalLine(_, next) = line?;
            text.push_str(addition(next.as_str()))?;
            if !is_open(next.as_str()) {
                self.is_done = false;
                return Ok(LogicalLine(number, text));
            }
        }
        Ok(LogicalLine(number, text))
    }
}

impl<I: Iterator<Item = Result<NaturalLine, LineError>>> Iterator for LogicalLines<I> {
    type Item = Result<LogicalLine, LineError>;

    ghost can_next = { λ s. s.is_done ≡ false → I.can_next s.lines × IsFinite (I.remaining s.lines) };

    ghost next_gives = { GivesLogicalLine I.next_gives };

    ghost remaining = { λ s. count_unless s.is_done (I.remaining s.lines) };

    fn next(&mut self) -> Option<Result<LogicalLine, LineError>> {
        if self.is_done {
            return None;
        }
        self.is_done = true;
        match self.lines.next()? {
            Ok(first) => Some(self.join(first)),
            Err(error) => Some(Err(error)),
        }
    }
}
