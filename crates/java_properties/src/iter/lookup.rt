// What the pairs of a source say: the value of a key, or of each key.

ghost use Rattle.std.specs.Prelude.{◌≡◌, ℕ, List, Option, Some, None, bytes_eq, IfOk, OnOk};
ghost use Rattle.std.specs.BTreeMap.{IsOrdered};
ghost use Rattle.std.specs.Map.{update};
ghost use Rattle.std.specs.Option.{option_map};
ghost use Rattle.std.specs.Str.{IsUtf8, chars};
ghost use Rattle.std.specs.String.{string_cmp};
ghost use Rattle.properties_text.specs.Encoding.{encoding_of};
ghost use Rattle.properties_format.specs.Items.{given};
ghost use Rattle.properties_items.specs.BorrowedItems.{IsFoundIn, found_content, outcome_pair};
ghost use Rattle.properties_items.specs.Texts.{characters, value_at};
ghost use Rattle.java_properties.specs.Findings.{TellsMap, TellsValue, TellsValueWith};
ghost use Rattle.java_properties.specs.Private.LineByLine.{TakesPairs, values_after};

use crate::maps::TextMap;
use properties_editing::SourceOptions;
use properties_items::error::{PropertiesError, make};
use properties_items::found::{Found, find_escaped, find_plain, pair_texts};
use properties_lines::joiner::LineJoiner;
use properties_text::encoding::Encoding;
use std::alloc::{AllocError, Global};
use std::collections::BTreeMap;

/// Reads a source and returns the value of a key: that of the last pair with the key, or `None` if no pair has it.
///
/// It makes no map. Besides an input buffer, it needs memory for the longest logical line and for the value. A byte
/// order mark at the front overrides the encoding. If the source has a malformed escape, also after the last pair with
/// the key, it returns that error. To look up several keys, use [`map_of`].
///
/// ```text
/// let source = b"# the front door\nport = 80\nhost = a\nport = 81";
/// let port = value_of(alloc, source, Encoding::UTF_8, "port")?;
/// assert_eq!(rt; port.as_deref(), Some("81"));
/// ```
pub fn value_of(
    alloc: Global,
    source: &[u8],
    encoding: Encoding,
    key: &str,
) -> Result<Option<String>, PropertiesError>
    ensures { TellsValue (encoding_of encoding) source.now (chars key.now) result }
{
    value_with(alloc, source, SourceOptions::new(encoding), key)
}

/// Returns the value of a key, as [`value_of`] does, with these options.
///
/// If comments are passed over, as in Java, only a malformed escape in a pair is an error.
///
/// ```text
/// let options = SourceOptions {
///     comments: Comments::PassedOver,
///     ..SourceOptions::new(Encoding::UTF_8)
/// };
/// let port = value_with(alloc, b"# C:\\users\nport = 80", options, "port")?;
/// assert_eq!(rt; port.as_deref(), Some("80"));
/// ```
pub fn value_with(
    alloc: Global,
    source: &[u8],
    options: SourceOptions,
    key: &str,
) -> Result<Option<String>, PropertiesError>
    ensures { TellsValueWith options source.now (chars key.now) result }
{
    let sought = take_pairs(alloc, source, options, Sought { key, value: None })?;
    Ok(sought.value)
}

/// Reads a source with these options and returns the value of each key, in the order of the keys.
///
/// If several pairs have the same key, the last one counts. If comments are read, it does what
/// [`read_sorted`](crate::read_sorted) does. If they are passed over, as in Java, only a malformed escape in a pair is
/// an error.
///
/// ```text
/// let options = SourceOptions {
///     comments: Comments::PassedOver,
///     ..SourceOptions::new(Encoding::UTF_8)
/// };
/// let map = map_of(alloc, b"# C:\\users\nport = 80\nhost = a", options)?;
/// assert_eq!(rt; map.get("port").map(|value| value.as_str()), Some("80"));
/// ```
pub fn map_of(
    alloc: Global,
    source: &[u8],
    options: SourceOptions,
) -> Result<BTreeMap<String, String>, PropertiesError>
    ensures tells { TellsMap options source.now result }
    ensures ascending { IfOk result (λ map. IsOrdered string_cmp map) }
{
    take_pairs(alloc, source, options, BTreeMap::new(alloc))
}

// What takes pairs, one after another.
trait PairTaker: Drop {
    // It was such a taker at first, and has what it keeps of the values that keys have by now.
    ghost has: { Self → Self → (List ℕ → Option (List ℕ)) → Type 0 };

    // Takes a pair.
    fn take(&mut self, alloc: Global, key: &str, value: &str) -> Result<(), AllocError>
        ensures { OnOk result ((first : Self) (values : List ℕ → Option (List ℕ))
            → has first self.old values
            → has first self.new (update bytes_eq values (chars key.now)
            (Some (chars value.now)))) };
}

// A key that is looked up, and its value.
#[derive(Drop)]
struct Sought<'a> {
    key: &'a str,
    value: Option<String>,
}

impl PairTaker for Sought<'_> {
    ghost has = { λ first now values. IsUtf8 first.key.now × (now.key ≡ first.key)
        × (option_map characters now.value ≡ values (chars first.key.now)) };

    #[inline(always)]
    fn take(&mut self, alloc: Global, key: &str, value: &str) -> Result<(), AllocError> {
        if key == self.key {
            self.value = None;
            self.value = Some(String::from_str(alloc, value)?);
        }
        Ok(())
    }
}

impl PairTaker for BTreeMap<String, String> {
    ghost has = { λ first now values. IsOrdered string_cmp now
        × ((key : List ℕ) → value_at now.entries key ≡ values key) };

    fn take(&mut self, alloc: Global, key: &str, value: &str) -> Result<(), AllocError> {
        let key = String::from_str(alloc, key)?;
        let value = String::from_str(alloc, value)?;
        self.put(key, value)?;
        Ok(())
    }
}

// Reads a source and has each of its pairs taken.
fn take_pairs<T: PairTaker>(
    alloc: Global,
    source: &[u8],
    options: SourceOptions,
    mut taker: T,
) -> Result<T, PropertiesError>
    requires { T.has taker taker (λ key. None) }
    ensures { TakesPairs (T.has taker)
        options.comments (encoding_of options.encoding) source.now result }
{
    let mut input = source;
    let mut lines = LineJoiner::new(alloc, options.encoding);
    while let Some(number) = lines.next_text(&mut input) {
        let line = lines.line();
        if options.comments.are_passed_over(line) {
            continue;
        }
        let found = if lines.has_backslash() {
            match find_escaped(alloc, number, line) {
                Ok(found) => found,
                Err(error) => return Err(make::unresolved(number, error)),
            }
        } else {
            find_plain(number, line)
        };
        let Some(found) = found else {
            continue;
        };
        take_found(alloc, &mut taker, &found, line)?;
    }
    lines.finish()?;
    Ok(taker)
}

// Has an item taken that was found in this line, if it is a pair.
#[inline(always)]
fn take_found<T: PairTaker>(
    alloc: Global,
    taker: &mut T,
    found: &Found,
    line: &str,
) -> Result<(), AllocError>
    requires { IsFoundIn line.now found.now }
    ensures { let pair = outcome_pair (given (found_content line.now found.now.content)) in
        OnOk result ((first : T) (values : List ℕ → Option (List ℕ)) → T.has first taker.old values
        → T.has first taker.new (values_after pair values)) }
{
    match pair_texts(found, line) {
        None => Ok(()),
        Some((key, value)) => taker.take(alloc, key, value),
    }
}
