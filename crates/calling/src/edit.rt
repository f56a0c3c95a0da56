// Editors that change settings in a file's bytes, and keep its comments.

use java_properties::{
    Comments, Edit, Encoding, PropertiesError, SourceOptions, edit_all, edit_with, set_key,
    set_value,
};
use std::alloc::{AllocError, Global};
use std::collections::BTreeMap;

/// The file with this port. Comments, blank lines and the order of the pairs stay.
pub fn set_port(alloc: Global, file: &[u8], port: u16) -> Result<Vec<u8>, PropertiesError> {
    let text = format!(in alloc; "{port}")?;
    set_key(alloc, file, Encoding::UTF_8, "port", text.as_str())
}

/// The file with this URL. Its line keeps its indent and its separator, so it looks as it did.
pub fn set_url(alloc: Global, file: &[u8], url: &str) -> Result<Vec<u8>, PropertiesError> {
    set_value(alloc, file, Encoding::UTF_8, "url", url)
}

/// The file with every setting of a map: those that it has are replaced, others come last, in order.
pub fn set_all(
    alloc: Global,
    file: &[u8],
    settings: &BTreeMap<String, String>,
) -> Result<Vec<u8>, PropertiesError> {
    let edits = edits_from(alloc, settings)?;
    edit_all(alloc, file, Encoding::UTF_8, edits.as_slice())
}

/// The same for a file that Java reads by `load` of an `InputStream`: new texts are ASCII, and a comment may hold a `\`.
pub fn set_for_java(
    alloc: Global,
    file: &[u8],
    settings: &BTreeMap<String, String>,
) -> Result<Vec<u8>, PropertiesError> {
    let options = SourceOptions {
        ascii_only: true,
        comments: Comments::PassedOver,
        ..SourceOptions::new(Encoding::WINDOWS_1252)
    };
    let edits = edits_from(alloc, settings)?;
    edit_with(alloc, file, options, edits.as_slice())
}

fn edits_from(alloc: Global, settings: &BTreeMap<String, String>) -> Result<Vec<Edit>, AllocError> {
    let mut edits = Vec::new(alloc);
    for (key, value) in settings {
        edits.push(Edit::Put(key.clone()?, value.clone()?))?;
    }
    Ok(edits)
}

#[cfg(test)]
mod tests {
    use super::*;
    use crate::same::same;
    use std::test::Fail;

    #[test]
    fn sets_a_port_and_a_url(rt: HostRuntime) -> Result<(), Fail> {
        let file = b"# the front door\r\nport : 80\r\n\r\nhost = a\r\n".as_slice();
        let edited = set_port(rt.alloc(), file, 8080)?;
        let wanted = b"# the front door\r\nport=8080\r\n\r\nhost = a\r\n".as_slice();
        same(&rt, edited.as_slice(), wanted);
        let file = b"# the back end\n  url : x\n".as_slice();
        let edited = set_url(rt.alloc(), file, "https://a:1")?;
        let wanted = b"# the back end\n  url : https://a:1\n".as_slice();
        same(&rt, edited.as_slice(), wanted);
        Ok(())
    }

    #[test]
    fn sets_what_a_map_has(rt: HostRuntime) -> Result<(), Fail> {
        let settings = settings(rt.alloc())?;
        let file = b"# both\nhost = a\n! and\nport = 80".as_slice();
        let edited = set_all(rt.alloc(), file, &settings)?;
        let wanted = b"# both\nhost=b\n! and\nport=8080\ndoor=d\nuser=c\n".as_slice();
        same(&rt, edited.as_slice(), wanted);
        Ok(())
    }

    #[test]
    fn sets_for_java(rt: HostRuntime) -> Result<(), Fail> {
        let mut settings = BTreeMap::new(rt.alloc());
        let owner = String::from_str(rt.alloc(), "J\u{fc}rgen")?;
        settings.insert(String::from_str(rt.alloc(), "owner")?, owner)?;
        let file = b"# C:\\users\nowner=\n".as_slice();
        let edited = set_for_java(rt.alloc(), file, &settings)?;
        let wanted = b"# C:\\users\nowner=J\\u00fcrgen\n".as_slice();
        same(&rt, edited.as_slice(), wanted);
        Ok(())
    }

    fn settings(alloc: Global) -> Result<BTreeMap<String, String>, Fail> {
        let mut settings = BTreeMap::new(alloc);
        for (key, value) in [
            ("user", "c"),
            ("port", "8080"),
            ("host", "b"),
            ("door", "d"),
        ] {
            settings.insert(
                String::from_str(alloc, key)?,
                String::from_str(alloc, value)?,
            )?;
        }
        Ok(settings)
    }
}
