// Arguments as a shell takes them.

use properties_tools::messages::Escaped;
use std::fmt;

/// An argument, in quotes if a shell would divide it, or read it in another way.
#[derive(Clone, Copy)]
pub(crate) struct Quoted<'a>(pub &'a str);

impl fmt::Display for Quoted<'_> {
    fn fmt<W: fmt::Write>(&self, f: &mut fmt::Formatter<W>) -> fmt::Result {
        if !self.0.is_empty() && self.0.bytes().all(is_plain) {
            return write!(f, "{}", Escaped(self.0));
        }
        f.write_str("\"")?;
        for part in self.0.split_inclusive(['"', '\\', '$', '`']) {
            let front = part.trim_end_matches(['"', '\\', '$', '`']);
            let last = part.strip_prefix(front).unwrap_or("");
            let backslash = if last.is_empty() { "" } else { "\\" };
            write!(f, "{}{backslash}{last}", Escaped(front))?;
        }
        f.write_str("\"")
    }
}

// Returns whether a byte stands for itself outside of quotes.
fn is_plain(byte: u8) -> bool {
    byte.is_ascii_alphanumeric() || byte >= 0x80 || b"_@%+=:,./-".contains(&byte)
}
