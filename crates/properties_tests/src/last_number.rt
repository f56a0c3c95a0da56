//! Readers and writers that have no number left for a line. No run has so many lines, so what they answer is proved.

ghost use Rattle.std.specs.Prelude.{◌≡◌, true, IfSome};
ghost use Rattle.std.specs.Str.{chars};
ghost use Rattle.properties_format.specs.Writing.{is_accepted, pair_call};
ghost use Rattle.properties_tests.specs.LastNumber.{HasOneLineLeft, HasNoLineLeft, IsLastNumber, StopsForNumber, FindsNothing};
ghost use Rattle.properties_tests.specs.LastNumber.{HasNoNumberLeft, IsRefusedForNumber, StillFlushes};

use counted_io::{CountedRead, CountedWrite};
use java_properties::{PropertiesError, PropertiesWriter};
use properties_lines::reader::LineReader;

/// Finds the next line and returns its number. The last number is `usize::MAX`. After it, unless the input ended, the
/// kept error is `TooManyLines`, and nothing is read. After that, there is nothing.
pub fn find_line<R: CountedRead>(lines: &mut LineReader, reader: &mut R) -> Option<usize>
    ensures last { HasOneLineLeft lines.old.state →
        IfSome result (λ number. IsLastNumber number lines.new.state) }
    ensures stops { HasNoLineLeft lines.old.state →
        StopsForNumber reader.old result lines.new reader.new }
    ensures stays { lines.old.state.is_done ≡ true →
        FindsNothing lines.old reader.old result lines.new reader.new }
{
    if lines.find_line(reader) {
        Some(lines.number())
    } else {
        None
    }
}

/// Writes a pair, which the settings may refuse before its number is looked at.
pub fn write_pair<W: CountedWrite>(
    writer: &mut PropertiesWriter<W>,
    key: &str,
    value: &str,
) -> Result<(), PropertiesError>
    ensures { let call = pair_call (chars key.now) (chars value.now) in
        is_accepted writer.old.settings call ≡ true → HasNoNumberLeft writer.old →
        IsRefusedForNumber writer.old result writer.new }
{
    writer.write(key, value)
}

/// Writes a comment.
pub fn write_comment<W: CountedWrite>(
    writer: &mut PropertiesWriter<W>,
    text: &str,
) -> Result<(), PropertiesError>
    ensures { HasNoNumberLeft writer.old → IsRefusedForNumber writer.old result writer.new }
{
    writer.write_comment(text)
}

/// Flushes the sink.
pub fn flush<W: CountedWrite>(writer: &mut PropertiesWriter<W>) -> Result<(), PropertiesError>
    ensures { HasNoNumberLeft writer.old → StillFlushes W.CountedWrite writer.old result writer.new }
{
    writer.flush()
}
