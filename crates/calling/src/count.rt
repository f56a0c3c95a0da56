// A function over any reader, with a contract of its own that follows from the library's clauses.

ghost use Rattle.std.specs.Prelude.{IfErr, IfOk};
ghost use Rattle.counted_io.specs.Streams.{IsSameReader};
ghost use Rattle.properties_text.specs.Encoding.{encoding_of};
ghost use Rattle.java_properties.specs.ReadLines.{StopsReading};
ghost use Rattle.calling.specs.Results.{CountsItems};

use counted_io::CountedRead;
use java_properties::{Encoding, PropertiesError, read_lines};
use std::alloc::Global;

/// How many comments and pairs an input has.
pub fn count_items<R: CountedRead>(
    alloc: Global,
    input: &mut R,
    encoding: Encoding,
) -> Result<usize, PropertiesError>
    ensures counts { IfOk result (λ count. CountsItems R.CountedRead (encoding_of encoding) input.old count input.new) }
    ensures stops { IfErr result (λ error. StopsReading R.CountedRead (encoding_of encoding) input.old error input.new) }
    ensures same_reader { IsSameReader R.CountedRead input.old input.new }
{
    match read_lines(alloc, input, encoding) {
        Ok(lines) => Ok(lines.len()),
        Err(stopped) => Err(stopped.error),
    }
}

#[cfg(test)]
mod tests {
    use super::*;
    use crate::same::same;
    use counted_io::{ScriptedReader, Tail};
    use std::io::ErrorKind;
    use std::test::Fail;

    #[test]
    fn counts_items(rt: HostRuntime) -> Result<(), Fail> {
        let mut input: &[u8] = b"# x\na = \\\n  1\n\nb";
        let count = count_items(rt.alloc(), &mut input, Encoding::UTF_8)?;
        same(&rt, count, 3);
        let mut broken = ScriptedReader::new(Vec::new(rt.alloc()), Tail::Fault(ErrorKind::Other));
        let answer = count_items(rt.alloc(), &mut broken, Encoding::UTF_8);
        same(&rt, (answer.is_err(), broken.faults()), (true, 1));
        Ok(())
    }
}
