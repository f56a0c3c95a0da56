// The pairs of a source that is refused for its bytes, or for a malformed escape in a pair.

ghost use Rattle.std.specs.Prelude.{◌≡◌, ◌∷◌, [], None};
ghost use Rattle.properties_text.specs.Encoding.{encoding_of};
ghost use Rattle.properties_tables.specs.Private.Sought.{or_else};
ghost use Rattle.properties_tables.specs.Private.Fold.{TakesSound, TookSound};
ghost use Rattle.properties_tables.specs.Sources.{first_in_pair};

use crate::error::Failure;
use crate::fold::{Taker, take_all};
use crate::sound::refuse_bytes;
use java_properties::{Encoding, MalformedEscape};
use std::alloc::{AllocError, Global};

/// Has a taker take each pair of a source. The source is refused for its bytes, or for a malformed escape in a pair.
pub fn take_sound<T: Taker>(
    alloc: Global,
    source: &[u8],
    encoding: Encoding,
    taker: T,
) -> Result<T, Failure>
    requires { T.took taker [] taker }
    ensures { TakesSound T.took taker (encoding_of encoding) source.now result }
{
    refuse_bytes(source, encoding)?;
    let none = Refusing {
        taker,
        malformed: None,
    };
    let taken = take_all(alloc, source, encoding, none)?;
    match taken.malformed {
        Some(escape) => Err(Failure::Malformed(escape)),
        None => Ok(taken.taker),
    }
}

// A taker, and the first malformed escape of a pair.
#[derive(Drop)]
pub(crate) struct Refusing<T> {
    pub taker: T,
    pub malformed: Option<MalformedEscape>,
}

impl<T: Taker> Taker for Refusing<T> {
    ghost took = { λ first findings new. TookSound T.took first.taker findings new.taker new.malformed };

    #[inline(always)]
    fn pair(
        &mut self,
        alloc: Global,
        line_number: usize,
        key: &str,
        value: &str,
    ) -> Result<(), AllocError> {
        self.taker.pair(alloc, line_number, key, value)
    }

    fn malformed(
        &mut self,
        alloc: Global,
        escape: MalformedEscape,
        line: &str,
    ) -> Result<(), AllocError> {
        self.malformed = first_of(self.malformed, escape);
        self.taker.malformed(alloc, escape, line)
    }
}

/// Returns the first escape of a pair, given that of those before this one.
pub(crate) fn first_of(
    earlier: Option<MalformedEscape>,
    escape: MalformedEscape,
) -> Option<MalformedEscape>
    ensures { result ≡ or_else earlier (first_in_pair (escape ∷ [])) }
{
    match earlier {
        Some(first) => Some(first),
        None => {
            if escape.in_comment {
                None
            } else {
                Some(escape)
            }
        }
    }
}
