// Reads sources from a reader and writes them to a sink.

ghost use Rattle.std.specs.Prelude.{◌≡◌, ◌<◌, [], length, false, Some, IfErr, IfOk};
ghost use Rattle.std.specs.Io.{ReadsAtMost};
ghost use Rattle.std.specs.Io.KnownBytes.{ReadConsumes};
ghost use Rattle.counted_io.specs.Faults.{CountsFault, ShowsEnd};
ghost use Rattle.counted_io.specs.Streams.{IsSameReader, IsSameSink};
ghost use Rattle.properties_text.specs.Encoding.{encoding_of};
ghost use Rattle.java_properties.specs.WholeSources.{IsErrorAtFault, ReadsAllItems, ReadsSource, WritesSource};

use crate::iter::items::ItemReader;
use counted_io::{CountedRead, CountedWrite, send};
use properties_items::error::{ErrorKind, PropertiesError, make};
use properties_text::encoding::Encoding;
use std::alloc::{AllocError, Global};
use std::io::{self, Read};

// The maximum number of bytes in one read.
const BLOCK: usize = 1 << 16;

/// Reads to the end of a reader and returns all its bytes: the source of an edit.
///
/// If a read fails, the error is the one that reading the items of this input would return: that of a malformed escape
/// before the failure, or else the I/O error with its line number. The encoding is used only for this. If memory runs
/// out while the items are read for that, it is the I/O error without a line number. So an I/O error with a line number
/// says that no logical line that ends before the failure has a malformed escape, and the kind `Memory` that no read
/// failed.
///
/// ```text
/// let source = read_source(alloc, &mut input, Encoding::UTF_8)?;
/// let edited = set_key(alloc, &source, Encoding::UTF_8, "port", "8080")?;
/// write_source(&mut output, &edited)?;
/// ```
pub fn read_source<R: CountedRead>(
    alloc: Global,
    reader: &mut R,
    encoding: Encoding,
) -> Result<Vec<u8>, PropertiesError>
    ensures reads { ReadsSource R.CountedRead (encoding_of encoding) reader.old result reader.new }
    ensures same_reader { IsSameReader R.CountedRead reader.old reader.new }
{
    let mut block = cleared(alloc, BLOCK)?;
    read_through(alloc, reader, encoding, &mut block)
}

fn cleared(alloc: Global, size: usize) -> Result<Vec<u8>, AllocError>
    ensures { IfOk result (λ block. length block.items ≡ size) }
{
    vec![in alloc; 0; size]
}

// Does what `read_source` does, with this block as the buffer for reads.
fn read_through<R: CountedRead>(
    alloc: Global,
    reader: &mut R,
    encoding: Encoding,
    block: &mut [u8],
) -> Result<Vec<u8>, PropertiesError>
    requires { 0 < length block.old }
    ensures reads { ReadsSource R.CountedRead (encoding_of encoding) reader.old result reader.new }
    ensures same_reader { IsSameReader R.CountedRead reader.old reader.new }
{
    let mut bytes = Vec::new(alloc);
    loop {
        match reader.read_counted(block) {
            Ok(0) => return Ok(bytes),
            Ok(count) => bytes.extend_from_slice(&block[..count])?,
            Err(fault) => return Err(error_at_fault(alloc, &bytes, encoding, fault)),
        }
    }
}

// The error of a read that failed after these bytes: the one at which reading their items stops.
fn error_at_fault(
    alloc: Global,
    bytes: &[u8],
    encoding: Encoding,
    fault: io::Error,
) -> PropertiesError
    ensures { IsErrorAtFault (encoding_of encoding) bytes.now fault result }
{
    let mut broken = Broken {
        left: bytes,
        faults: 0,
    };
    match read_all_items(alloc, &mut broken, encoding) {
        Ok(()) => unreachable!(),
        Err(error) => match error.kind() {
            ErrorKind::Memory => PropertiesError::from(fault),
            _ => make::caused_by(error, fault),
        },
    }
}

// Reads all items and drops them.
#[tactic(auto, using(crate::proofs::Readings::dropping))]
fn read_all_items<R: CountedRead>(
    alloc: Global,
    reader: &mut R,
    encoding: Encoding,
) -> Result<(), PropertiesError>
    ensures { ReadsAllItems R.CountedRead (encoding_of encoding) reader.old result reader.new }
{
    let mut items = ItemReader::new(alloc, encoding);
    while let Some(item) = items.next_item(reader) {
        let line = item?;
        drop(line);
    }
    Ok(())
}

// A reader that returns some bytes and then fails on every read.
#[derive(Drop)]
struct Broken<'a> {
    left: &'a [u8],
    faults: usize,
}

impl Read for Broken<'_> {
    ghost remaining = { λ r. Some r.left.now };

    fn read(&mut self, buf: &mut [u8]) -> io::Result<usize>
        ensures bound { ReadsAtMost result buf.new }
        ensures bytes { ReadConsumes (Some self.old.left.now) (Some self.new.left.now)
            result buf.new }
        ensures faults { CountsFault self.old.faults self.new.faults result }
        ensures ended { ShowsEnd false result buf.new }
        ensures spent { IfErr result (λ _. self.new.left.now ≡ []) }
    {
        if self.left.is_empty() {
            self.faults = self.faults.saturating_add(1);
            return Err(io::Error::from(io::ErrorKind::Other));
        }
        self.left.read(buf)
    }
}

impl CountedRead for Broken<'_> {
    ghost faults = { λ r. r.faults };

    ghost at_end = { λ _. false };

    ghost read_gives = { λ _ answer r. IfErr answer (λ _. r.left.now ≡ []) };

    fn read_counted(&mut self, buf: &mut [u8]) -> io::Result<usize> {
        self.read(buf)
    }
}

/// Writes all the bytes and flushes the sink.
///
/// The errors are those of a [`PropertiesWriter`](crate::PropertiesWriter), without a line number. If a write fails,
/// the sink has received a proper prefix of the bytes.
///
/// ```text
/// let mut output = Counted::new(Vec::new(alloc));
/// write_source(&mut output, b"port=8080\n")?;
/// ```
pub fn write_source<W: CountedWrite>(writer: &mut W, bytes: &[u8]) -> Result<(), PropertiesError>
    ensures writes { WritesSource W.CountedWrite writer.old bytes.now result writer.new }
    ensures same_sink { IsSameSink W.CountedWrite writer.old writer.new }
{
    if let Err(fault) = send(writer, bytes) {
        return Err(make::write_fault(None, fault));
    }
    writer.flush_counted()?;
    Ok(())
}
