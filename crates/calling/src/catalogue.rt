// The messages of a program, in a language and in general.

use counted_io::CountedRead;
use java_properties::{Encoding, LineContent, PropertiesError, PropertiesIter};
use std::alloc::Global;
use std::collections::BTreeMap;

/// Messages by their keys.
#[derive(Drop)]
pub struct Catalogue {
    messages: BTreeMap<String, String>,
}

impl Catalogue {
    /// No messages yet.
    pub fn new(alloc: Global) -> Catalogue {
        Catalogue {
            messages: BTreeMap::new(alloc),
        }
    }

    /// Adds the messages of a file in UTF-8. They take the place of those with the same keys.
    pub fn add<R: CountedRead>(
        &mut self,
        alloc: Global,
        input: &mut R,
    ) -> Result<(), PropertiesError> {
        for item in PropertiesIter::new_with_encoding(alloc, input, Encoding::UTF_8)? {
            if let LineContent::KVPair(key, message) = item?.consume_content() {
                let _ = self.messages.insert(key, message)?;
            }
        }
        Ok(())
    }

    /// Returns the message of this key, or the key if it has none.
    pub fn message<'a>(&'a self, key: &'a str) -> &'a str {
        match self.messages.get(key) {
            Some(message) => message.as_str(),
            None => key,
        }
    }
}

#[cfg(test)]
mod tests {
    use super::*;
    use crate::same::same;
    use std::test::Fail;

    #[test]
    fn falls_back_to_the_general_message(rt: HostRuntime) -> Result<(), Fail> {
        let mut catalogue = Catalogue::new(rt.alloc());
        let general = b"hello = Hello\nbye = Good bye\n".as_slice();
        let german = "# nur die Begrüßung\nhello = Grüß Gott\n".as_bytes();
        for file in [general, german] {
            let mut input = file;
            catalogue.add(rt.alloc(), &mut input)?;
        }
        for (key, message) in [
            ("hello", "Grüß Gott"),
            ("bye", "Good bye"),
            ("thanks", "thanks"),
        ] {
            same(&rt, catalogue.message(key), message);
        }
        Ok(())
    }
}
