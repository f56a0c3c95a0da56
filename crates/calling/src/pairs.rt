// The pairs of a file alone, with a contract that follows from that of `filter`.

ghost use Rattle.std.specs.Prelude.{IfOk};
ghost use Rattle.counted_io.specs.Streams.{IsSameReader};
ghost use Rattle.properties_text.specs.Encoding.{encoding_of};
ghost use Rattle.calling.specs.Results.{HoldsPairs};

use counted_io::{Counted, CountedRead};
use java_properties::{Encoding, PropertiesError};
use properties_tools::filter::filter;
use std::alloc::Global;

/// The pairs of an input, one per line, without its comments and its layout.
pub fn pairs_alone<R: CountedRead>(
    alloc: Global,
    input: &mut R,
    encoding: Encoding,
) -> Result<Vec<u8>, PropertiesError>
    ensures holds { IfOk result (λ bytes. HoldsPairs R.CountedRead (encoding_of encoding) input.old bytes.items input.new) }
    ensures same_reader { IsSameReader R.CountedRead input.old input.new }
{
    let mut output = Counted::new(Vec::new(alloc));
    filter(alloc, input, &mut output, encoding)?;
    let bytes = output.into_inner();
    Ok(bytes)
}

#[cfg(test)]
mod tests {
    use super::*;
    use crate::same::same;
    use counted_io::{ScriptedReader, Tail};
    use std::io::ErrorKind;
    use std::test::Fail;

    #[test]
    fn keeps_the_pairs(rt: HostRuntime) -> Result<(), Fail> {
        let wanted = b"port=80\nhost=localhost\n".as_slice();
        let laid_out = b"# the front door\nport : 80\n\nhost = \\\n    localhost".as_slice();
        for file in [laid_out, wanted] {
            let mut input = file;
            let bytes = pairs_alone(rt.alloc(), &mut input, Encoding::UTF_8)?;
            same(&rt, bytes.as_slice(), wanted);
        }
        Ok(())
    }

    #[test]
    fn keeps_nothing_of_a_broken_input(rt: HostRuntime) {
        let mut broken = ScriptedReader::new(Vec::new(rt.alloc()), Tail::Fault(ErrorKind::Other));
        let answer = pairs_alone(rt.alloc(), &mut broken, Encoding::UTF_8);
        same(&rt, (answer.is_err(), broken.faults()), (true, 1));
    }
}
