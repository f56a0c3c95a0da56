// One value, looked up in bytes.

use java_properties::{Encoding, PropertiesError, value_of};
use std::alloc::Global;

/// The port in a source in UTF-8: the default if no pair has the key, and `None` if its value is no port.
pub fn port(alloc: Global, source: &[u8], default: u16) -> Result<Option<u16>, PropertiesError> {
    match value_of(alloc, source, Encoding::UTF_8, "port")? {
        Some(value) => Ok(value.as_str().parse().ok()),
        None => Ok(Some(default)),
    }
}

#[cfg(test)]
mod tests {
    use super::*;
    use crate::same::same;
    use std::test::Fail;

    #[test]
    fn looks_up_a_port(rt: HostRuntime) -> Result<(), Fail> {
        let rows: [(&[u8], Option<u16>); 4] = [
            (b"host = a\n", Some(80)),
            (b"port = 1\nhost = a\nport : 8080", Some(8080)),
            (b"port = 80a\n", None),
            (b"\xff\xfep\0o\0r\0t\0 \x009\0", Some(9)),
        ];
        for (source, wanted) in rows {
            same(&rt, port(rt.alloc(), source, 80)?, wanted);
        }
        Ok(())
    }
}
