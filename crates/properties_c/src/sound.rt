// Sources that aren't text.

ghost use Rattle.std.specs.Prelude.{◌≡◌};
ghost use Rattle.properties_text.specs.Encoding.{encoding_of};
ghost use Rattle.properties_c.specs.Inputs.{TellsUnsound};
ghost use Rattle.properties_c.specs.Private.Results.{unsound_line};

use java_properties::Encoding;
use properties_tables::error::Failure;
use properties_tables::sound::refuse_bytes;

/// Returns the first line for which a strict call refuses a source, as `propedit` does.
pub fn refused_line(strict: bool, source: &[u8], encoding: Encoding) -> Option<usize>
    ensures { TellsUnsound strict (encoding_of encoding) source.now result }
{
    if !strict {
        return None;
    }
    match refuse_bytes(source, encoding) {
        Ok(()) => None,
        Err(failure) => line_of(&failure),
    }
}

// Returns the line of a failure, if it is one for the bytes of a source.
fn line_of(failure: &Failure) -> Option<usize>
    ensures { result ≡ unsound_line failure.now }
{
    match failure {
        Failure::Utf32Mark => Some(1),
        Failure::HoldsZero(number)
        | Failure::NotUtf8(number)
        | Failure::NotUtf8ByMark(number)
        | Failure::NotUtf16(number) => Some(*number),
        _ => None,
    }
}
