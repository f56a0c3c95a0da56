// A search that copies nothing but what it finds.

use counted_io::CountedRead;
use java_properties::{ContentRef, Encoding, PropertiesError, PropertiesIter};
use std::alloc::Global;

/// The first value of a key.
pub fn find<R: CountedRead>(
    alloc: Global,
    input: &mut R,
    wanted: &str,
) -> Result<Option<String>, PropertiesError> {
    let mut items = PropertiesIter::new_with_encoding(alloc, input, Encoding::UTF_8)?;
    for _ in 0..u64::MAX {
        let Some(item) = items.next_ref() else {
            break;
        };
        let line = item?;
        if let ContentRef::KVPair(key, value) = line.content() {
            if key.as_str() == wanted {
                return Ok(Some(String::from_str(alloc, value.as_str())?));
            }
        }
    }
    Ok(None)
}

#[cfg(test)]
mod tests {
    use super::*;
    use crate::same::same;
    use std::test::Fail;

    #[test]
    fn finds_a_value(rt: HostRuntime) -> Result<(), Fail> {
        let mut input: &[u8] = b"# port = 1\nhost = here\nport = 8080\nport = 9090\n";
        let found = find(rt.alloc(), &mut input, "port")?;
        same(&rt, found.as_deref(), Some("8080"));
        Ok(())
    }
}
