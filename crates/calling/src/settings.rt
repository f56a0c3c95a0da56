// Settings as a map: read, changed and written again.

use counted_io::{Counted, CountedRead, CountedWrite};
use java_properties::{Encoding, PropertiesError, read, read_sorted, write, write_sorted};
use std::alloc::Global;
use std::fs::File;
use std::io::BufWriter;
use std::rt::Files;

/// Puts a value under a key of settings in UTF-8, and writes all of them, by their keys.
pub fn put<R: CountedRead, W: CountedWrite>(
    alloc: Global,
    input: &mut R,
    key: &str,
    value: &str,
    output: &mut W,
) -> Result<(), PropertiesError> {
    let mut settings = read_sorted(alloc, input, Encoding::UTF_8)?;
    settings.insert(
        String::from_str(alloc, key)?,
        String::from_str(alloc, value)?,
    )?;
    write_sorted(alloc, output, &settings, Encoding::UTF_8)
}

/// Puts a value into settings that it reads and writes with the two calls of the Rust crate: in a `HashMap`, and in
/// windows-1252.
pub fn put_windows_1252<R: CountedRead, W: CountedWrite>(
    alloc: Global,
    input: &mut R,
    key: &str,
    value: &str,
    output: &mut W,
) -> Result<(), PropertiesError> {
    let mut settings = read(alloc, input)?;
    settings.insert(
        String::from_str(alloc, key)?,
        String::from_str(alloc, value)?,
    )?;
    write(alloc, output, &settings)
}

/// Puts a value into the settings of one file, and writes them to another.
pub fn put_in_file<R: Files + AllocGlobal>(
    rt: &R,
    from: &str,
    key: &str,
    value: &str,
    to: &str,
) -> Result<(), PropertiesError> {
    let alloc = rt.alloc();
    // The reader has a buffer of its own. A writer sends each line by itself, so a file wants a `BufWriter`.
    let mut input = Counted::new(File::open(rt, from)?);
    let mut output = Counted::new(BufWriter::new(alloc, File::create(rt, to)?)?);
    put(alloc, &mut input, key, value, &mut output)
}

#[cfg(test)]
mod tests {
    use super::*;
    use crate::same::same;
    use std::test::Fail;

    #[test]
    fn puts_a_value(rt: HostRuntime) -> Result<(), Fail> {
        let file: &[u8] = b"# settings\nport = 80\nhost = here";
        let wanted: &[u8] = b"host=here\nport=8080\n";
        let mut input = file;
        let mut output = Counted::new(Vec::new(rt.alloc()));
        put(rt.alloc(), &mut input, "port", "8080", &mut output)?;
        same(&rt, output.into_inner().as_slice(), wanted);
        let mut input = file;
        let mut output = Counted::new(Vec::new(rt.alloc()));
        put_windows_1252(rt.alloc(), &mut input, "port", "8080", &mut output)?;
        same(&rt, output.into_inner().as_slice(), wanted);
        Ok(())
    }

    #[test]
    fn a_file_that_is_not_there_is_an_error(rt: HostRuntime) {
        let answer = put_in_file(&rt, "no/such", "a", "b", "no/other");
        same(&rt, answer.is_err(), true);
    }
}
