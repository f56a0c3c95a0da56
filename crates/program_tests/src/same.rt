// What tests compare by. Each assertion is proved where it stands, so that all share this one.

use std::fmt::{self, Debug, Formatter, Write};
use std::process::Abort;

/// Fails the test, and names the row of its table, counted from 1, unless both are the same.
pub fn same<T: PartialEq + Debug + Copy>(rt: &impl Abort, row: usize, found: T, wanted: T) {
    assert_eq!(*rt; found, wanted, "row {row}");
}

/// Bytes that a test which fails prints as a text.
#[derive(Clone, Copy, PartialEq)]
pub struct Bytes<'a>(pub &'a [u8]);

impl Debug for Bytes<'_> {
    fn fmt<W: Write>(&self, f: &mut Formatter<W>) -> fmt::Result {
        for byte in self.0 {
            write!(f, "{}", byte.escape_ascii())?;
        }
        Ok(())
    }
}
