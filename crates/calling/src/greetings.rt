// Reads some lines, and writes some.

use counted_io::Counted;
use java_properties::{Encoding, LineContent, PropertiesError, PropertiesWriter, read_lines};
use std::alloc::Global;

/// Prints each pair under the number of its line.
pub fn print_pairs(rt: &impl Print, alloc: Global) -> Result<(), PropertiesError> {
    let mut input: &[u8] = b"# greetings\nhello = \\\n  world";
    match read_lines(alloc, &mut input, Encoding::UTF_8) {
        Ok(lines) => {
            for line in &lines {
                if let LineContent::KVPair(key, value) = line.content() {
                    println!(rt; "{}: {key} is {value}", line.line_number())?;
                }
            }
        }
        // The items before the error are in `stopped.lines`.
        Err(stopped) => println!(rt; "{}", stopped.error)?,
    }
    Ok(())
}

/// The bytes of a comment and a pair, one line each.
pub fn written(alloc: Global) -> Result<Vec<u8>, PropertiesError> {
    let output = Counted::new(Vec::new(alloc));
    let mut writer = PropertiesWriter::new_with_encoding(alloc, output, Encoding::UTF_8)?;
    writer.write_comment("for the front page")?;
    writer.write("greeting", "hello world")?;
    writer.finish()?;
    Ok(writer.into_inner().into_inner())
}

#[cfg(test)]
mod tests {
    use super::*;
    use crate::same::same;
    use std::test::Fail;

    #[test]
    fn writes_a_comment_and_a_pair(rt: HostRuntime) -> Result<(), Fail> {
        print_pairs(&rt, rt.alloc())?;
        let bytes = written(rt.alloc())?;
        let wanted: &[u8] = b"# for the front page\ngreeting=hello\\ world\n";
        same(&rt, bytes.as_slice(), wanted);
        Ok(())
    }
}
