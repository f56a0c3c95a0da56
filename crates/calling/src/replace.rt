//! A file on disk that is edited, and replaced whole or not at all.

use counted_io::Counted;
use java_properties::{Encoding, PropertiesError, read_source, set_key, write_source};
use std::alloc::Global;
use std::fs::{self, File, OpenFile};
use std::rt::Files;

/// Sets a key of a file in UTF-8.
pub fn set_in_file(
    rt: &impl Files,
    alloc: Global,
    path: &str,
    key: &str,
    value: &str,
) -> Result<(), PropertiesError> {
    let mut input = Counted::new(File::open(rt, path)?);
    let source = read_source(alloc, &mut input, Encoding::UTF_8)?;
    let edited = set_key(alloc, source.as_slice(), Encoding::UTF_8, key, value)?;
    replace(rt, alloc, path, edited.as_slice())
}

/// Replaces the bytes of a file. They go to a new file beside it, which then takes its name: whoever opens the file sees
/// the old bytes or the new ones, and never a part.
pub fn replace(
    rt: &impl Files,
    alloc: Global,
    path: &str,
    bytes: &[u8],
) -> Result<(), PropertiesError> {
    let beside = format!(in alloc; "{path}.new")?;
    // Fails if there is such a file already, so no other file is overwritten.
    let mut output = Counted::new(File::create_new(rt, beside.as_str())?);
    write_source(&mut output, bytes)?;
    output.into_inner().sync_all()?;
    fs::rename(rt, beside.as_str(), path)?;
    Ok(())
}

#[cfg(test)]
mod tests {
    use super::*;
    use crate::same::same;
    use std::io::{Read, Write};
    use std::test::Fail;

    #[test]
    fn sets_a_key_of_a_file(rt: HostRuntime) -> Result<(), Fail> {
        let alloc = rt.alloc();
        let path = "todrenval_calling_replace.properties";
        File::create(&rt, path)?.write_all(b"# ports\nport = 80\n")?;
        set_in_file(&rt, alloc, path, "port", "8080")?;
        let mut found = Vec::new(alloc);
        File::open(&rt, path)?.read_to_end(&mut found)?;
        fs::remove_file(&rt, path)?;
        same(&rt, found.as_slice(), b"# ports\nport=8080\n".as_slice());
        Ok(())
    }
}
