// A linter that prints `file:line: message`.

use java_properties::{Encoding, PropertiesError, key_lines, malformed_escapes};
use std::alloc::Global;
use std::fs::File;
use std::io;
use std::io::Read;
use std::rt::Files;

/// What is wrong with a file of this name: the first malformed escape of each line, and each repeated key.
pub fn lint(alloc: Global, name: &str, source: &[u8]) -> Result<Vec<String>, PropertiesError> {
    let mut messages = Vec::new(alloc);
    for escape in &malformed_escapes(alloc, source, Encoding::UTF_8)? {
        let (number, kind) = (escape.line_number, escape.kind);
        let place = if escape.in_comment {
            " (in a comment)"
        } else {
            ""
        };
        messages.push(format!(in alloc; "{name}:{number}: {kind}{place}")?)?;
    }
    for key in &key_lines(alloc, source, Encoding::UTF_8)? {
        let (number, first) = (key.line_number, key.first_line_number);
        if first != number {
            let message = format!(in alloc; "{name}:{number}: this key is in line {first} too")?;
            messages.push(message)?;
        }
    }
    Ok(messages)
}

/// Prints what is wrong with a file, or why it can't be read.
pub fn lint_file(
    rt: &(impl Files + Print),
    alloc: Global,
    path: &str,
) -> Result<(), PropertiesError> {
    let mut source = Vec::new(alloc);
    match read_file(rt, path, &mut source) {
        Ok(()) => {
            for message in lint(alloc, path, &source)? {
                println!(rt; "{message}")?;
            }
        }
        Err(error) => println!(rt; "{path}: {error}")?,
    }
    Ok(())
}

fn read_file(rt: &impl Files, path: &str, source: &mut Vec<u8>) -> Result<(), io::Error> {
    File::open(rt, path)?.read_to_end(source)?;
    Ok(())
}

#[cfg(test)]
mod tests {
    use super::*;
    use crate::same::same;
    use std::process::Abort;
    use std::test::Fail;

    #[test]
    fn finds_what_is_wrong(rt: HostRuntime) -> Result<(), Fail> {
        check_lint(
            &rt,
            rt.alloc(),
            b"# C:\\users\na = 1\nb = 2\na : 3\nc = \\uzzzz\nd = \\\n  \\ud83d\na = 4\n",
            &[
                "my.properties:1: Malformed \\uxxxx encoding: not hex. (in a comment)",
                "my.properties:5: Malformed \\uxxxx encoding: not hex.",
                "my.properties:6: Malformed \\uxxxx encoding: invalid character.",
                "my.properties:4: this key is in line 2 too",
                "my.properties:8: this key is in line 2 too",
            ],
        )?;
        check_lint(
            &rt,
            rt.alloc(),
            b"a = 1\nb = 2\na : 3\nc = \\u12",
            &[
                "my.properties:4: Malformed \\uxxxx encoding: not enough digits.",
                "my.properties:3: this key is in line 1 too",
            ],
        )?;
        lint_file(&rt, rt.alloc(), "no/such.properties")?;
        Ok(())
    }

    fn check_lint(
        rt: &impl Abort,
        alloc: Global,
        source: &[u8],
        wanted: &[&str],
    ) -> Result<(), Fail> {
        let messages = lint(alloc, "my.properties", source)?;
        same(rt, messages.len(), wanted.len());
        for (message, text) in messages.iter().zip(wanted) {
            same(rt, message.as_str(), *text);
        }
        Ok(())
    }
}
