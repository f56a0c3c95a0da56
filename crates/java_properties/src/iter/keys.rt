// The keys of a source, each with its line number.

ghost use Rattle.std.specs.Prelude.{IfOk, OnOk};
ghost use Rattle.std.specs.Str.{chars};
ghost use Rattle.std.specs.String.{string_cmp};
ghost use Rattle.std.specs.BTreeMap.{IsOrdered};
ghost use Rattle.properties_text.specs.Encoding.{encoding_of};
ghost use Rattle.properties_items.specs.Texts.{characters};
ghost use Rattle.java_properties.specs.Findings.{FindsKeysIn};
ghost use Rattle.java_properties.specs.Private.LineByLine.{AddsKeyLine, FindsLineKey, KeepsFirst, PushesKey};

use properties_items::error::{ErrorKind, PropertiesError, make};
use properties_items::findings::KeyLine;
use properties_items::found::{find_escaped, item_key};
use properties_lines::joiner::LineJoiner;
use properties_text::encoding::Encoding;
use properties_text::escape::UnescapeError;
use std::alloc::{AllocError, Global};
use std::collections::BTreeMap;

/// Returns the key of each pair of a source, in order. Pairs with a malformed escape are left out.
///
/// It fails only if memory runs out. A byte order mark at the front overrides the encoding.
///
/// ```text
/// let keys = key_lines(alloc, b"port = 80\nhost = a\nport = 81", Encoding::UTF_8)?;
/// // They are `port` in line 1, `host` in line 2, and `port` in line 3, which line 1 has first.
/// ```
pub fn key_lines(
    alloc: Global,
    source: &[u8],
    encoding: Encoding,
) -> Result<Vec<KeyLine>, PropertiesError>
    ensures { FindsKeysIn (encoding_of encoding) source.now result }
{
    let mut input = source;
    let mut lines = LineJoiner::new(alloc, encoding);
    let mut keys = Vec::new(alloc);
    let mut firsts = BTreeMap::new(alloc);
    while let Some(number) = lines.next_text(&mut input) {
        push_key(alloc, &mut keys, &mut firsts, number, lines.line())?;
    }
    lines.finish()?;
    Ok(keys)
}

// Appends the key of a logical line that begins in the line with this number, if it has one.
fn push_key(
    alloc: Global,
    keys: &mut Vec<KeyLine>,
    firsts: &mut BTreeMap<String, usize>,
    line_number: usize,
    line: &str,
) -> Result<(), PropertiesError>
    requires { IsOrdered string_cmp firsts.old }
    ensures pushes { PushesKey line_number (chars line.now) keys.old.items firsts.old.entries result
        keys.new.items firsts.new.entries }
    ensures ordered { IsOrdered string_cmp firsts.new }
{
    match key_in(alloc, line_number, line)? {
        Some(key) => Ok(add_key(keys, firsts, line_number, key)?),
        None => Ok(()),
    }
}

// Returns the key of a logical line if it is a pair without a malformed escape.
fn key_in(alloc: Global, line_number: usize, line: &str) -> Result<Option<String>, PropertiesError>
    ensures { FindsLineKey (chars line.now) result }
{
    match find_escaped(alloc, line_number, line) {
        Ok(Some(found)) => Ok(item_key(alloc, found, line)?),
        Ok(None) => Ok(None),
        Err(UnescapeError::Malformed(_)) => Ok(None),
        Err(UnescapeError::Memory) => Err(make::bare(ErrorKind::Memory)),
    }
}

// Appends a key, and records its line number if no earlier pair has the key.
fn add_key(
    keys: &mut Vec<KeyLine>,
    firsts: &mut BTreeMap<String, usize>,
    line_number: usize,
    key: String,
) -> Result<(), AllocError>
    requires { IsOrdered string_cmp firsts.old }
    ensures adds { OnOk result (AddsKeyLine line_number (characters key) keys.old.items keys.new.items
        firsts.old.entries firsts.new.entries) }
    ensures ordered { IsOrdered string_cmp firsts.new }
{
    let first_line_number = keep_first(firsts, line_number, &key)?;
    keys.push(KeyLine {
        line_number,
        key,
        first_line_number,
    })?;
    Ok(())
}

// Returns the line number that is recorded for a key. If there is none, records and returns this one.
fn keep_first(
    firsts: &mut BTreeMap<String, usize>,
    line_number: usize,
    key: &String,
) -> Result<usize, AllocError>
    requires { IsOrdered string_cmp firsts.old }
    ensures keeps { IfOk result
        (KeepsFirst line_number (characters key.now) firsts.old.entries firsts.new.entries) }
    ensures ordered { IsOrdered string_cmp firsts.new }
{
    if let Some(first) = firsts.get(key.as_str()) {
        return Ok(*first);
    }
    firsts.insert(key.clone()?, line_number)?;
    Ok(line_number)
}
