// The keys of a source.

use crate::same::same;
use java_properties::{Encoding, key_lines};
use std::test::Fail;

#[test]
fn keys_are_found_past_malformed_lines(rt: HostRuntime) -> Result<(), Fail> {
    let source: &[u8] = b"# C:\\users\na=1\nb\\\n c=2\na=\\u12\n\\u0061=3\n!x\n\na";
    // The number of each pair's line, its key, and the line that has the key first.
    let wanted = [(2, "a", 2), (3, "bc", 3), (6, "a", 2), (9, "a", 2)];
    let keys = key_lines(rt.alloc(), source, Encoding::UTF_8)?;
    same(&rt, keys.len(), wanted.len());
    for (key, wanted) in keys.iter().zip(wanted) {
        let found = (key.line_number, key.key.as_str(), key.first_line_number);
        same(&rt, found, wanted);
    }
    Ok(())
}
