// A program that brings the settings file of an earlier version to the names of this one.

use java_properties::{Document, Encoding, PropertiesError};
use std::alloc::{AllocError, Global};

/// The file with the names of this version: `server.port` is called `port`, and keys that begin with `debug.` are gone.
/// Where `retries` has no value, it gets one. Comments and all other lines stay.
pub fn migrate(alloc: Global, file: &[u8]) -> Result<Vec<u8>, PropertiesError> {
    let mut document = Document::parse(alloc, file, Encoding::UTF_8)?;
    rename(alloc, &mut document, "server.port", "port")?;
    remove_all(alloc, &mut document, "debug.")?;
    if document.get("retries").is_none() {
        document.put("retries", "3")?;
    }
    Ok(document.to_bytes()?)
}

// Puts the value of a key, if it has one, under another key.
fn rename(alloc: Global, document: &mut Document, from: &str, to: &str) -> Result<(), AllocError> {
    let Some(value) = document.get(from) else {
        return Ok(());
    };
    // `put` changes the document, which the value borrows from.
    let value = String::from_str(alloc, value)?;
    document.put(to, value.as_str())?;
    document.remove(from);
    Ok(())
}

// Removes the keys that begin with a prefix.
fn remove_all(alloc: Global, document: &mut Document, prefix: &str) -> Result<(), AllocError> {
    // `remove` changes the document, which the keys borrow from.
    let mut found = Vec::new(alloc);
    for key in &document.keys()? {
        if key.starts_with(prefix) {
            found.push(String::from_str(alloc, key)?)?;
        }
    }
    for key in &found {
        document.remove(key.as_str());
    }
    Ok(())
}

#[cfg(test)]
mod tests {
    use super::*;
    use crate::same::same;
    use std::test::Fail;

    #[test]
    fn brings_a_file_to_new_names(rt: HostRuntime) -> Result<(), Fail> {
        let wanted = b"# ours\n\nhost = a\nport=80\nretries=3\n".as_slice();
        let old = b"# ours\nserver.port : 80\n\ndebug.log=yes\nhost = a\ndebug.ui=no\n".as_slice();
        for file in [old, wanted] {
            let migrated = migrate(rt.alloc(), file)?;
            same(&rt, migrated.as_slice(), wanted);
        }
        Ok(())
    }
}
