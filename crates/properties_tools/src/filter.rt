// Copies the pairs of a reader to a sink.

ghost use Rattle.std.specs.Prelude.{◌≡◌, true, false};
ghost use Rattle.counted_io.specs.Streams.{IsSameReader, IsSameSink};
ghost use Rattle.properties_format.specs.ItemsToCome.{start};
ghost use Rattle.properties_text.specs.Encoding.{encoding_of};
ghost use Rattle.properties_tools.specs.Filter.{pair_writer, Filters, FiltersToAscii, Settles, form};

use counted_io::{CountedRead, CountedWrite};
use java_properties::{CopyError, Encoding, PropertiesError, PropertiesIter, PropertiesWriter};
use std::alloc::Global;

/// Reads the items of an input in this encoding, and writes each pair as one line in the output encoding of `encoding`.
/// Comments are dropped.
///
/// A byte order mark changes how the input is read, but never how the pairs are written. If the reading ends with an
/// error, the pairs before it have been written, and the sink is flushed once.
///
/// Filtering the output again, in the output encoding, changes no byte of it.
///
/// ```text
/// let mut input: &[u8] = b"# a comment\nb = 2\na";
/// let mut output = Counted::new(Vec::new(alloc));
/// filter(alloc, &mut input, &mut output, Encoding::WINDOWS_1252)?;
/// // The sink holds `b=2` and `a=`, each ended by a line feed.
/// ```
#[tactic(auto, using(crate::proofs::FilteredTwice::filters_settles))]
pub fn filter<R: CountedRead, W: CountedWrite>(
    alloc: Global,
    input: &mut R,
    writer: &mut W,
    encoding: Encoding,
) -> Result<(), PropertiesError>
    ensures filters { let e = encoding_of encoding in
        Filters R.CountedRead W.CountedWrite (form e false) input.old writer.old result input.new writer.new }
    ensures idempotent { let e = encoding_of encoding in
        Settles R.CountedRead W.CountedWrite e input.old writer.old result input.new writer.new }
    ensures same_reader { IsSameReader R.CountedRead input.old input.new }
    ensures same_sink { IsSameSink W.CountedWrite writer.old writer.new }
{
    filter_with(alloc, input, writer, encoding, false)
}

/// Does what [`filter`] does, and writes every character past U+007F as an escape, even if the output encoding has it.
///
/// The output contains ASCII only, and reads back the same in windows-1252 and in UTF-8.
///
/// ```text
/// let mut input: &[u8] = b"a=caf\xe9";
/// let mut output = Counted::new(Vec::new(alloc));
/// filter_ascii(alloc, &mut input, &mut output, Encoding::WINDOWS_1252)?;
/// // The sink holds `a=caf\u00e9` and a line feed.
/// ```
#[tactic(auto, using(crate::proofs::AsciiOnly::filters_ascii))]
pub fn filter_ascii<R: CountedRead, W: CountedWrite>(
    alloc: Global,
    input: &mut R,
    writer: &mut W,
    encoding: Encoding,
) -> Result<(), PropertiesError>
    ensures filters { let e = encoding_of encoding in
        Filters R.CountedRead W.CountedWrite (form e true) input.old writer.old result input.new writer.new }
    ensures ascii { let e = encoding_of encoding in
        FiltersToAscii R.CountedRead W.CountedWrite e input.old writer.old result input.new writer.new }
    ensures same_reader { IsSameReader R.CountedRead input.old input.new }
    ensures same_sink { IsSameSink W.CountedWrite writer.old writer.new }
{
    filter_with(alloc, input, writer, encoding, true)
}

/// Does what [`filter`] does or, if `ascii_only`, what [`filter_ascii`] does.
pub(crate) fn filter_with<R: CountedRead, W: CountedWrite>(
    alloc: Global,
    input: &mut R,
    writer: &mut W,
    encoding: Encoding,
    ascii_only: bool,
) -> Result<(), PropertiesError>
    ensures filters { let e = encoding_of encoding in
        Filters R.CountedRead W.CountedWrite (form e ascii_only)
        input.old writer.old result input.new writer.new }
    ensures same_reader { IsSameReader R.CountedRead input.old input.new }
    ensures same_sink { IsSameSink W.CountedWrite writer.old writer.new }
{
    let mut items = PropertiesIter::new_with_encoding(alloc, input, encoding)?;
    let mut lines = PropertiesWriter::new_with_encoding(alloc, writer, encoding)?;
    lines.set_ascii_only(ascii_only);
    let result = write_pairs(&mut items, &mut lines);
    // Proof only: both streams are given back as they are now.
    let _ = items.into_inner();
    let _ = lines.into_inner();
    result
}

// Both must be new and have the same encoding. The writer may be set to ASCII-only output.
fn write_pairs<R: CountedRead, W: CountedWrite>(
    items: &mut PropertiesIter<R>,
    lines: &mut PropertiesWriter<W>,
) -> Result<(), PropertiesError>
    requires reading { items.old.state ≡ start items.old.state.encoding }
    requires writing { let only = lines.old.settings.ascii_only in
        lines.old ≡ pair_writer (form items.old.state.encoding only) lines.old.sink }
    ensures filters { let e = items.old.state.encoding in
        let input = items.old.reader in
        let only = lines.old.settings.ascii_only in
        let output = lines.old.sink in
        Filters R.CountedRead W.CountedWrite (form e only)
        input output result items.new.reader lines.new.sink }
    ensures same_reader { IsSameReader R.CountedRead items.old.reader items.new.reader }
    ensures same_sink { IsSameSink W.CountedWrite lines.old.sink lines.new.sink }
{
    match lines.copy_pairs(items) {
        Ok(()) => lines.finish(),
        Err(CopyError::Read(error)) => {
            // The error of the reading is returned, whatever the flush returns.
            let _ = lines.flush();
            Err(error)
        }
        Err(CopyError::Write(error)) => Err(error),
    }
}
