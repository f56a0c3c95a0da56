// The export that numbers the labels of encodings.

ghost use Rattle.properties_c.specs.Inputs.{NumbersLabel};

use crate::encoding::{number_of, text_of};
use java_properties::Encoding;

// The number of no encoding.
const NO_ENCODING: u32 = 255;

/// Returns the number of the encoding that a label means in the WHATWG Encoding Standard, or 255.
#[unsafe(no_mangle)]
pub extern "C" fn todrenval_encoding(label: &[u8]) -> u32
    ensures { NumbersLabel label.now result }
{
    let Some(label) = text_of(label) else {
        return NO_ENCODING;
    };
    match Encoding::for_label(label) {
        Some(encoding) => number_of(encoding),
        None => NO_ENCODING,
    }
}
