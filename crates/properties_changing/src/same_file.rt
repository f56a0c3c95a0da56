// Names of the same file.

use std::fs::{self, Metadata};
use std::io::{self, ErrorKind};
use std::os::unix::fs::MetadataExt;

// The file that standard output is open on, whatever its name is now.
const OUTPUT: &str = "/proc/self/fd/1";

/// The file that standard input is open on.
pub const INPUT: &str = "/proc/self/fd/0";

/// Fails if standard output is the regular file of this name, which is to be read. A shell has emptied such a file for
/// `> FILE`. A file that can't be looked at is not refused.
///
/// ```text
/// refuse_output(&rt, "app.properties")?;
/// let file = File::open(&rt, "app.properties")?;
/// ```
pub fn refuse_output(rt: &HostRuntime, path: &str) -> io::Result<()> {
    if is_output(rt, path) {
        return Err(io::Error::new(ErrorKind::InvalidInput, "is also standard output"));
    }
    Ok(())
}

fn is_output(rt: &HostRuntime, path: &str) -> bool {
    match fs::metadata(rt, OUTPUT) {
        Ok(output) if output.is_file() => match fs::metadata(rt, path) {
            Ok(input) => is_same_file(&input, &output),
            Err(_) => false,
        },
        _ => false,
    }
}

pub(crate) fn is_same_file(one: &Metadata, other: &Metadata) -> bool {
    one.dev() == other.dev() && one.ino() == other.ino()
}
