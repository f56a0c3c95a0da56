// The keys of a source.

ghost use Rattle.std.specs.Prelude.{◌≡◌, cond, IfOk};
ghost use Rattle.std.specs.Str.{chars};
ghost use Rattle.properties_format.specs.Text.{is_empty};
ghost use Rattle.properties_text.specs.Encoding.{encoding_of};
ghost use Rattle.properties_tools.specs.Propedit.Listing.{is_key_listed, listed_keys, Lists, PrintsAll};
ghost use Rattle.properties_tools.specs.Propedit.Texts.{ended};
ghost use Rattle.properties_tables.specs.Private.Table.{place_keys, places_in, HoldKeys};

use crate::propedit::answer::{Answer, push_ended};
use crate::propedit::request::Terminator;
use java_properties::Encoding;
use properties_tables::error::Failure;
use properties_tables::key_table::{Keys, keys_of_source};
use std::alloc::{AllocError, Global};

/// Returns the keys that begin with a prefix, each once and with the byte that ends it, in the order of their first
/// pairs. If there is none, and the prefix isn't empty, the status is 1.
///
/// It refuses a source for its bytes: the byte order mark of UTF-32, lines that are ill-formed in the encoding in
/// force, or U+0000 if UTF-8 is in force without a byte order mark. It refuses a malformed escape in a pair too.
///
/// ```text
/// let answer = list(alloc, b"b = 1\na = 2\nb = 3", Encoding::UTF_8, "", Terminator::LineFeed)?;
/// // The text is `b` and `a`, each ended by a line feed, and the status is 0.
/// ```
pub fn list(
    alloc: Global,
    source: &[u8],
    encoding: Encoding,
    prefix: &str,
    end: Terminator,
) -> Result<Answer, Failure>
    ensures { Lists (encoding_of encoding) source.now (chars prefix.now) end result }
{
    let keys = keys_of_source(alloc, source, encoding)?;
    Ok(listed(alloc, &keys, prefix, end)?)
}

// Returns the keys that are listed, and the status.
fn listed(alloc: Global, keys: &Keys, prefix: &str, end: Terminator) -> Result<Answer, AllocError>
    requires { HoldKeys keys.now }
    ensures { IfOk result (PrintsAll (chars prefix.now) (ended end) (listed_keys (chars prefix.now) (place_keys (places_in keys.now)))) }
{
    let mut text = Vec::new(alloc);
    for row in 0..keys.len() {
        let key = keys.key(row);
        if is_listed(key, prefix) {
            push_ended(&mut text, key, end)?;
        }
    }
    let status = if text.is_empty() {
        status_of_none(prefix)
    } else {
        0
    };
    Ok(Answer { text, status })
}

// Returns the status if no key begins with the prefix.
#[inline(always)]
pub(crate) fn status_of_none(prefix: &str) -> u8
    ensures { result ≡ cond (is_empty (chars prefix.now)) 0 1 }
{
    if prefix.is_empty() { 0 } else { 1 }
}

// Returns whether a key begins with the prefix.
#[inline(always)]
pub(crate) fn is_listed(key: &str, prefix: &str) -> bool
    ensures { result ≡ is_key_listed (chars prefix.now) (chars key.now) }
{
    key.starts_with(prefix)
}
