// What an error says, in parts that tests compare.

use java_properties::{Cause, ErrorKind, PropertiesError};
use std::io;

/// The kind, the line number, and the kind of the stream's own error.
pub type Failure = (ErrorKind, Option<usize>, Option<io::ErrorKind>);

pub fn failure_of(error: &PropertiesError) -> Failure {
    let fault = match error.cause() {
        Cause::Io(fault) => Some(fault.kind()),
        Cause::None | Cause::NotHex => None,
    };
    (error.kind(), error.line_number(), fault)
}
