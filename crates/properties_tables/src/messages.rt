// Prints lines on an error stream.

ghost use Rattle.std.specs.Prelude.{IfSome, Some};
ghost use Rattle.counted_io.specs.Streams.{IsSameSink};
ghost use Rattle.java_properties.specs.DisplayTexts.{error_display};
ghost use Rattle.properties_tables.specs.Messages.{escaped, HasPrintedLine, PrintsLineIfMemory};

use counted_io::{CountedWrite, send};
use java_properties::PropertiesError;
use std::alloc::Global;
use std::fmt::{self, Write};

/// Prints a line on `errors` and flushes it. What can't be printed is dropped, because there is nowhere left to print
/// it.
///
/// ```text
/// let mut errors = Counted::new(Vec::new(alloc));
/// print_line(&mut errors, "no such key\n");
/// ```
pub fn print_line<E: CountedWrite>(errors: &mut E, line: &str)
    ensures prints { HasPrintedLine E.CountedWrite errors.old line.now errors.new }
    ensures same_sink { IsSameSink E.CountedWrite errors.old errors.new }
{
    let _ = send(errors, line.as_bytes());
    let _ = errors.flush_counted();
}

/// Prints the text of an error on `errors` as a line, if there is memory for the line, and flushes it. What can't be
/// printed is dropped.
///
/// ```text
/// let mut errors = Counted::new(Vec::new(alloc));
/// let error = PropertiesError::from(io::Error::from(ErrorKind::NotFound));
/// print_error(alloc, &mut errors, error);
/// ```
pub fn print_error<E: CountedWrite>(alloc: Global, errors: &mut E, error: PropertiesError)
    ensures prints { IfSome (error_display error) (λ text. PrintsLineIfMemory E.CountedWrite errors.old text errors.new) }
    ensures same_sink { IsSameSink E.CountedWrite errors.old errors.new }
{
    if let Ok(line) = format!(in alloc; "{error}\n") {
        print_line(errors, line.as_str());
    }
}

/// A text in a message: its control characters are printed as escapes, as in `\u{1b}`, so that a name can neither
/// control the terminal nor begin a line.
///
/// ```text
/// format!(in alloc; "{}", Escaped("a\nb"))?; // `a\u{a}b`
/// ```
#[derive(Clone, Copy, Debug)]
pub struct Escaped<'a>(pub &'a str);

impl fmt::Display for Escaped<'_> {
    ghost output = { λ text. Some (escaped text.0.now) };

    fn fmt<W: fmt::Write>(&self, f: &mut fmt::Formatter<W>) -> fmt::Result {
        for character in self.0.chars() {
            if character.is_control() {
                write!(f, "\\u{{{:x}}}", character as u32)?;
            } else {
                f.write_char(character)?;
            }
        }
        Ok(())
    }
}
