// The pairs and the malformed escapes of a source, taken one after another.

ghost use Rattle.std.specs.Prelude.{OnOk, List, []};
ghost use Rattle.std.specs.Str.{chars};
ghost use Rattle.properties_text.specs.Encoding.{encoding_of};
ghost use Rattle.properties_items.specs.BorrowedItems.{borrowed_content, IsNoItem};
ghost use Rattle.properties_tables.specs.Private.Fold.{content_finding, Finding, found_escape, found_pair, Takes, TakesAll, TakesLine, TakesSome, TookSome};

use java_properties::{ContentRef, Encoding, ErrorKind, LineRef, MalformedEscape, PropertiesError};
use properties_items::found::{cut_item, find_item};
use properties_lines::continuation::is_comment;
use properties_lines::joiner::LineJoiner;
use std::alloc::{AllocError, Global};

/// What takes the findings of a source, in the order of its lines.
pub trait Taker: Drop {
    /// What it is after it took these findings, in this order, given what it was before.
    ghost took: { Self → List Finding → Self → Type 0 };

    /// Takes a pair, which begins in the line with this number.
    fn pair(
        &mut self,
        alloc: Global,
        line_number: usize,
        key: &str,
        value: &str,
    ) -> Result<(), AllocError>
        requires { TookSome took self.old }
        ensures { OnOk result (Takes took self.old (found_pair line_number (chars key.now) (chars value.now)) self.new) };

    /// Takes the first malformed escape of a logical line, which is this one.
    fn malformed(
        &mut self,
        alloc: Global,
        escape: MalformedEscape,
        line: &str,
    ) -> Result<(), AllocError>
        requires { TookSome took self.old }
        ensures { OnOk result (Takes took self.old (found_escape escape (chars line.now)) self.new) };
}

/// Has a taker take each pair of a source, and the first malformed escape of each logical line. Fails only if memory
/// runs out.
pub fn take_all<T: Taker>(
    alloc: Global,
    source: &[u8],
    encoding: Encoding,
    mut taker: T,
) -> Result<T, PropertiesError>
    requires { T.took taker [] taker }
    ensures { TakesAll T.took taker (encoding_of encoding) source.now result }
{
    let mut input = source;
    let mut lines = LineJoiner::new(alloc, encoding);
    while let Some(number) = lines.next_text(&mut input) {
        take_line(alloc, &mut taker, number, lines.line())?;
    }
    lines.finish()?;
    Ok(taker)
}

// Has it take what a logical line is, if that is a pair or malformed.
#[inline(always)]
fn take_line<T: Taker>(
    alloc: Global,
    taker: &mut T,
    line_number: usize,
    line: &str,
) -> Result<(), PropertiesError>
    requires { TookSome T.took taker.old }
    ensures { TakesLine T.took line_number (chars line.now) taker.old result taker.new }
{
    match find_item(alloc, line_number, line) {
        Ok(Some(found)) => {
            let item = cut_item(found, line);
            Ok(take_item(alloc, taker, line_number, item)?)
        }
        Ok(None) => Ok(()),
        Err(error) => take_malformed(alloc, taker, line_number, line, error),
    }
}

// Has it take an item, if that is a pair.
#[inline(always)]
fn take_item<T: Taker>(
    alloc: Global,
    taker: &mut T,
    line_number: usize,
    item: LineRef<'_>,
) -> Result<(), AllocError>
    requires { TookSome T.took taker.old }
    ensures { OnOk result (TakesSome T.took taker.old (content_finding line_number (borrowed_content item.entry.content)) taker.new) }
{
    match item.content() {
        ContentRef::Comment(_) => Ok(()),
        ContentRef::KVPair(key, value) => {
            taker.pair(alloc, line_number, key.as_str(), value.as_str())
        }
    }
}

// Has it take the malformed escape of a logical line. Fails if memory ran out.
fn take_malformed<T: Taker>(
    alloc: Global,
    taker: &mut T,
    line_number: usize,
    line: &str,
    error: PropertiesError,
) -> Result<(), PropertiesError>
    requires some { TookSome T.took taker.old }
    requires none { IsNoItem line_number (chars line.now) error }
    ensures { TakesLine T.took line_number (chars line.now) taker.old result taker.new }
{
    match error.kind() {
        ErrorKind::Memory => Err(error),
        kind => {
            let escape = MalformedEscape {
                line_number,
                kind,
                in_comment: is_comment(line.as_bytes()),
            };
            Ok(taker.malformed(alloc, escape, line)?)
        }
    }
}
