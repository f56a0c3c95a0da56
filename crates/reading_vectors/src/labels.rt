// Labels of encodings.

use java_properties::Encoding;
use vector_notation::notation::{Halt, Row, text};
use vector_notation::outcome::Outcome;

/// Whether a text is a label of the encoding.
pub fn check_label(row: Row<'_>, outcome: &mut Outcome) -> Result<(), Halt> {
    let [clause] = row.clauses else {
        return Err(Halt::Unreadable);
    };
    let label = text(clause.bytes()?)?;
    let came = if Encoding::for_label(label) == Some(row.encoding) {
        "yes"
    } else {
        "no"
    };
    outcome.compare("as a label", came)?;
    Ok(())
}
