// A source, and what it is converted to.

use java_properties::{Repertoire, Spelling, convert};
use vector_notation::items::error_text;
use vector_notation::notation::{Halt, Row, quoted};
use vector_notation::outcome::Outcome;

/// The source is converted as the clause after it says: `to ascii`, or `readable to utf-8`.
pub fn check_converting(row: Row<'_>, outcome: &mut Outcome) -> Result<(), Halt> {
    let (source, [to]) = row.source()? else {
        return Err(Halt::Unreadable);
    };
    let (word, []) = to.parts() else {
        return Err(Halt::Unreadable);
    };
    let (target, spelling) = conversion(word).ok_or(Halt::Unreadable)?;
    let came = match convert(row.alloc, source.bytes, row.encoding, target, spelling) {
        Ok(bytes) => quoted(row.alloc, bytes.as_slice())?,
        Err(error) => error_text(row.alloc, &error)?,
    };
    outcome.compare("converted", &came)?;
    Ok(())
}

fn conversion(word: &str) -> Option<(Repertoire, Spelling)> {
    match word.strip_prefix("readable ") {
        Some(word) => Some((target_of(word)?, Spelling::Readable)),
        None => Some((target_of(word)?, Spelling::Kept)),
    }
}

fn target_of(word: &str) -> Option<Repertoire> {
    match word {
        "to windows-1252" => Some(Repertoire::Windows1252),
        "to utf-8" => Some(Repertoire::Utf8),
        "to ascii" => Some(Repertoire::Ascii),
        _ => None,
    }
}
