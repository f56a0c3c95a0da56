// Compares lists of pairs by the bytes that they are written as. Reading inverts writing, so different lists have
// different bytes.

ghost use Rattle.calling.specs.Results.{ComparesPairs};

use counted_io::CountedWrite;
use java_properties::{PropertiesWriter, laws};

/// Whether two lists of pairs are equal, by their bytes: each is what this writer writes for a list that it accepts, if
/// no line was written before.
pub fn are_same_pairs<W: CountedWrite>(
    writer: &PropertiesWriter<W>,
    first: &[u8],
    second: &[u8],
) -> bool
    ensures { ComparesPairs writer.now first.now second.now result }
{
    laws::settings_are_good(writer);
    laws::reading_inverts_writing();
    first == second
}

#[cfg(test)]
mod tests {
    use super::*;
    use crate::same::same;
    use counted_io::Counted;
    use java_properties::Encoding;
    use std::alloc::Global;
    use std::test::Fail;

    type BytesWriter = PropertiesWriter<Counted<Vec<u8>>>;

    fn writer(alloc: Global) -> Result<BytesWriter, Fail> {
        let sink = Counted::new(Vec::new(alloc));
        Ok(PropertiesWriter::new_with_encoding(alloc, sink, Encoding::UTF_8)?)
    }

    fn written(alloc: Global, key: &str, value: &str) -> Result<Vec<u8>, Fail> {
        let mut writer = writer(alloc)?;
        writer.write(key, value)?;
        Ok(writer.into_inner().into_inner())
    }

    #[test]
    fn tells_pairs_apart(rt: HostRuntime) -> Result<(), Fail> {
        let writer = writer(rt.alloc())?;
        let first = written(rt.alloc(), "a=", "b")?;
        let second = written(rt.alloc(), "a", "=b")?;
        for (other, wanted) in [(first.as_slice(), true), (second.as_slice(), false)] {
            let is_same = are_same_pairs(&writer, first.as_slice(), other);
            same(&rt, is_same, wanted);
        }
        Ok(())
    }
}
