// Typed settings with defaults, where a bad value names its file and its line.

use counted_io::{Counted, CountedRead};
use java_properties::{Encoding, LineContent, PropertiesError, PropertiesIter};
use std::alloc::{AllocError, Global};
use std::fs::File;
use std::rt::Files;

/// The settings of a server.
#[derive(Debug, Drop)]
pub struct Server {
    pub host: String,
    pub port: u16,
}

/// Why there are no settings. The numbers are those of lines.
#[derive(Debug, Drop)]
pub enum LoadError {
    Unreadable(PropertiesError),
    UnknownKey(usize),
    BadPort(usize),
}

impl From<PropertiesError> for LoadError {
    fn from(error: PropertiesError) -> LoadError {
        LoadError::Unreadable(error)
    }
}

impl LoadError {
    /// The error as a message about the file of this name.
    pub fn message(&self, alloc: Global, name: &str) -> Result<String, AllocError> {
        match self {
            LoadError::UnknownKey(number) => format!(in alloc; "{name}:{number}: unknown key"),
            LoadError::BadPort(number) => format!(in alloc; "{name}:{number}: port is no number"),
            LoadError::Unreadable(error) => format!(in alloc; "{}", error.at(name)),
        }
    }
}

/// Reads UTF-8. A missing key keeps its default, and a repeated key has its last value.
pub fn load<R: CountedRead>(alloc: Global, input: &mut R) -> Result<Server, LoadError> {
    let mut server = default_server(alloc).map_err(PropertiesError::from)?;
    for item in PropertiesIter::new_with_encoding(alloc, input, Encoding::UTF_8)? {
        let line = item?;
        let number = line.line_number();
        if let LineContent::KVPair(key, value) = line.consume_content() {
            match key.as_str() {
                "host" => server.host = value,
                "port" => match value.as_str().parse::<u16>() {
                    Ok(port) => server.port = port,
                    Err(_) => return Err(LoadError::BadPort(number)),
                },
                _ => return Err(LoadError::UnknownKey(number)),
            }
        }
    }
    Ok(server)
}

/// Reads the settings of a file.
pub fn load_file(rt: &impl Files, alloc: Global, path: &str) -> Result<Server, LoadError> {
    let file = File::open(rt, path).map_err(PropertiesError::from)?;
    load(alloc, &mut Counted::new(file))
}

fn default_server(alloc: Global) -> Result<Server, AllocError> {
    Ok(Server {
        host: String::from_str(alloc, "localhost")?,
        port: 80,
    })
}

#[cfg(test)]
mod tests {
    use super::*;
    use crate::same::same;
    use std::process::Abort;
    use std::test::Fail;

    #[test]
    fn loads_settings(rt: HostRuntime) -> Result<(), Fail> {
        let mut input: &[u8] = b"# the front end\nport : 8080\n";
        let server = load(rt.alloc(), &mut input)?;
        same(
            &rt,
            (server.host.as_str(), server.port),
            ("localhost", 8080),
        );
        Ok(())
    }

    #[test]
    fn names_file_and_line(rt: HostRuntime) -> Result<(), Fail> {
        let rows: [(&[u8], &str); 3] = [
            (b"host = a\n\nport = many\n", "s:3: port is no number"),
            (b"hots = a\n", "s:1: unknown key"),
            (
                b"\nhost = \\u00\n",
                "s:2: Malformed \\uxxxx encoding: not enough digits.",
            ),
        ];
        for (bytes, wanted) in rows {
            let mut input = bytes;
            let answer = load(rt.alloc(), &mut input);
            check_message(&rt, rt.alloc(), answer, wanted)?;
        }
        let answer = load_file(&rt, rt.alloc(), "no/such.properties");
        same(&rt, answer.is_err(), true);
        Ok(())
    }

    fn check_message(
        rt: &impl Abort,
        alloc: Global,
        answer: Result<Server, LoadError>,
        wanted: &str,
    ) -> Result<(), Fail> {
        match answer {
            Ok(_) => panic!(*rt; "settings were loaded"),
            Err(error) => same(rt, error.message(alloc, "s")?.as_str(), wanted),
        }
        Ok(())
    }
}
