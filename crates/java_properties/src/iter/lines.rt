// Reads all items of an input.

ghost use Rattle.std.specs.Prelude.{◌≡◌};
ghost use Rattle.counted_io.specs.Streams.{IsSameReader};
ghost use Rattle.java_properties.specs.ReadLines.{ReadsLines};
ghost use Rattle.properties_text.specs.Encoding.{encoding_of};

use crate::iter::items::ItemReader;
use counted_io::CountedRead;
use properties_items::error::PropertiesError;
use properties_items::line::Line;
use properties_text::encoding::Encoding;
use std::alloc::Global;
use std::error::Error;
use std::fmt;

/// Why a reading ended early, and the items before the error.
///
/// If memory or line numbers ran out, they are the input's first items, but the contract doesn't say how many.
///
/// It prints as the error.
#[derive(Debug, Drop)]
pub struct Stopped {
    /// The items before the error.
    pub lines: Vec<Line>,
    /// The error.
    pub error: PropertiesError,
}

impl From<Stopped> for PropertiesError {
    ghost from_gives = { λ stopped error. error ≡ stopped.error };

    fn from(stopped: Stopped) -> PropertiesError {
        stopped.error
    }
}

impl fmt::Display for Stopped {
    ghost use Rattle.properties_items.specs.DisplayTexts.{error_display};

    ghost output = { λ stopped. error_display stopped.error };

    fn fmt<W: fmt::Write>(&self, f: &mut fmt::Formatter<W>) -> fmt::Result {
        write!(f, "{}", self.error)
    }
}

impl Error for Stopped {}

/// Reads an input to its end and returns all its items: each comment and each pair, with its line number.
///
/// A byte order mark at the front overrides the encoding.
///
/// ```text
/// let mut input: &[u8] = b"# greetings\nhello = world";
/// match read_lines(alloc, &mut input, Encoding::UTF_8) {
///     Ok(lines) => println!(rt; "{}", lines.len())?,
///     Err(stopped) => println!(rt; "{}", stopped.error)?,
/// }
/// ```
pub fn read_lines<R: CountedRead>(
    alloc: Global,
    input: &mut R,
    encoding: Encoding,
) -> Result<Vec<Line>, Stopped>
    ensures reads { ReadsLines R.CountedRead (encoding_of encoding) input.old result input.new }
    ensures same_reader { IsSameReader R.CountedRead input.old input.new }
{
    let mut items = ItemReader::new(alloc, encoding);
    let mut lines = Vec::new(alloc);
    while let Some(item) = items.next_item(input) {
        match item {
            Ok(line) => {
                if let Err(error) = lines.push(line) {
                    let error = PropertiesError::from(error);
                    return Err(Stopped { lines, error });
                }
            }
            Err(error) => return Err(Stopped { lines, error }),
        }
    }
    Ok(lines)
}
