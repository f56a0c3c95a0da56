// Reads and writes whole maps.

ghost use Rattle.std.specs.Prelude.{◌≡◌, [], IfOk, OnOk};
ghost use Rattle.std.specs.BTreeMap.{IsOrdered};
ghost use Rattle.std.specs.Global.{Global};
ghost use Rattle.std.specs.String.{string_cmp};
ghost use Rattle.counted_io.specs.Streams.{IsSameReader, IsSameSink};
ghost use Rattle.properties_format.specs.Encoding.{output_encoding, windows_1252};
ghost use Rattle.properties_text.specs.Encoding.{encoding_of, line_of};
ghost use Rattle.properties_items.specs.Texts.{characters, Entries};
ghost use Rattle.java_properties.specs.Maps.{texts_of, HasPut, ReadsEntries, ReadsMap, ReadsSorted, WritesPairs};
ghost use Rattle.java_properties.specs.Maps.{WritesMap, MapReadsBack};

use crate::iter::items::ItemReader;
use crate::writer::engine::{Content, Engine};
use counted_io::{CountedRead, CountedWrite};
use properties_items::error::PropertiesError;
use properties_items::line::LineContent;
use properties_text::encoding::{Encoding, LineEncoding};
use std::alloc::{AllocError, Global};
use std::collections::{BTreeMap, HashMap};

/// Reads an input in windows-1252 to its end and returns the value of each key.
///
/// If several pairs have the same key, the last one counts. A byte order mark at the front overrides the encoding. If
/// the input has an error, it returns the error and no map.
///
/// Without a byte order mark, UTF-8 characters past U+007F are read as other characters, and no error is returned.
/// Also, std's `HashMap` has a fixed seed: the author of a file can pick keys that all collide, and reading then takes
/// time that grows with the square of their number. For other encodings and for untrusted files, use [`read_sorted`].
///
/// ```text
/// let mut input: &[u8] = b"# greetings\nhello = world";
/// let map = read(alloc, &mut input)?;
/// assert_eq!(rt; map.get("hello").map(|value| value.as_str()), Some("world"));
/// ```
pub fn read<R: CountedRead>(
    alloc: Global,
    input: &mut R,
) -> Result<HashMap<String, String>, PropertiesError>
    ensures reads { ReadsMap R.CountedRead input.old result input.new }
    ensures same_reader { IsSameReader R.CountedRead input.old input.new }
{
    read_map(alloc, input, Encoding::WINDOWS_1252, HashMap::new(alloc))
}

/// Reads an input in this encoding to its end and returns the value of each key, in the order of the keys.
///
/// It does what [`read`] does, for any encoding, and its map stays fast whatever the keys are: use it for untrusted
/// files. If several pairs have the same key, the last one counts. A byte order mark at the front overrides the
/// encoding. If the input has an error, it returns the error and no map.
///
/// ```text
/// let mut input: &[u8] = b"hello = world\ncafe = caf\xc3\xa9";
/// let map = read_sorted(alloc, &mut input, Encoding::UTF_8)?;
/// assert_eq!(rt; map.get("cafe").map(|value| value.as_str()), Some("caf\u{e9}"));
/// ```
pub fn read_sorted<R: CountedRead>(
    alloc: Global,
    input: &mut R,
    encoding: Encoding,
) -> Result<BTreeMap<String, String>, PropertiesError>
    ensures reads { ReadsSorted R.CountedRead (encoding_of encoding) input.old result input.new }
    ensures ascending { IfOk result (λ map. IsOrdered string_cmp map) }
    ensures same_reader { IsSameReader R.CountedRead input.old input.new }
{
    read_map(alloc, input, encoding, BTreeMap::new(alloc))
}

// A map of texts, sorted or not.
pub(crate) trait TextMap: Drop {
    // Its keys and values, in the order in which it holds them.
    ghost entries: { Self → Entries Global Global };

    // Whether its keys ascend, if it is a sorted map.
    ghost is_ordered: { Self → Type 0 };

    // Puts a value at a key.
    fn put(&mut self, key: String, value: String) -> Result<(), AllocError>
        ensures puts { OnOk result (HasPut (entries self.old) (characters key) (characters value)
            (entries self.new)) }
        ensures ordered { is_ordered self.new };
}

impl TextMap for HashMap<String, String> {
    ghost entries = { λ map. map.entries };

    ghost is_ordered = { λ map. Unit {0} };

    #[tactic(auto, using(crate::proofs::TextMaps::puts))]
    fn put(&mut self, key: String, value: String) -> Result<(), AllocError> {
        HashMap::insert(self, key, value)?;
        Ok(())
    }
}

impl TextMap for BTreeMap<String, String> {
    ghost entries = { λ map. map.entries };

    ghost is_ordered = { λ map. IsOrdered string_cmp map };

    #[tactic(auto, using(crate::proofs::TextMaps::puts))]
    fn put(&mut self, key: String, value: String) -> Result<(), AllocError> {
        BTreeMap::insert(self, key, value)?;
        Ok(())
    }
}

// Reads an input to its end and puts the value of each pair into an empty map.
fn read_map<M: TextMap, R: CountedRead>(
    alloc: Global,
    input: &mut R,
    encoding: Encoding,
    mut map: M,
) -> Result<M, PropertiesError>
    requires empty { M.entries map ≡ [] }
    requires ordered { M.is_ordered map }
    ensures reads { ReadsEntries R.CountedRead (encoding_of encoding) M.entries input.old result input.new }
    ensures ordered { IfOk result M.is_ordered }
    ensures same_reader { IsSameReader R.CountedRead input.old input.new }
{
    let mut items = ItemReader::new(alloc, encoding);
    while let Some(item) = items.next_item(input) {
        let line = item?;
        let LineContent::KVPair(key, value) = line.consume_content() else {
            continue;
        };
        map.put(key, value)?;
    }
    Ok(map)
}

/// Writes each entry of a map as one line, in windows-1252 and with the settings of a new writer, and flushes the sink.
///
/// The keys are in ascending order of their UTF-8 bytes. What is written reads back as the same map. For other
/// encodings, use [`write_sorted`].
///
/// ```text
/// let mut output = Counted::new(Vec::new(alloc));
/// write(alloc, &mut output, &map)?;
/// // The sink holds `hello=world` and a line feed.
/// ```
pub fn write<W: CountedWrite>(
    alloc: Global,
    writer: &mut W,
    map: &HashMap<String, String>,
) -> Result<(), PropertiesError>
    ensures writes { let entries = map.now.entries in
        WritesMap W.CountedWrite windows_1252 entries writer.old result writer.new }
    ensures reads_back { let entries = map.now.entries in
        MapReadsBack W.CountedWrite windows_1252 entries writer.old result writer.new }
    ensures same_sink { IsSameSink W.CountedWrite writer.old writer.new }
{
    let mut pairs: Vec<(&String, &String)> = map.iter().collect(alloc)?;
    // No two keys are equal, so the values don't affect the order.
    pairs.sort_unstable();
    write_pairs(
        alloc,
        writer,
        &pairs,
        LineEncoding::from(Encoding::WINDOWS_1252),
    )
}

/// Writes each entry of a map as one line, in the output encoding of `encoding` and with the settings of a new writer,
/// and flushes the sink.
///
/// The output encoding is windows-1252 or UTF-8: UTF-16 can be read but is never written. What is written reads back,
/// in the output encoding, as the same map. A loop that writes the entries with a
/// [`PropertiesWriter`](crate::PropertiesWriter) writes the same lines; use such a loop if you also want comments.
///
/// ```text
/// let mut output = Counted::new(Vec::new(alloc));
/// write_sorted(alloc, &mut output, &map, Encoding::UTF_8)?;
/// // The sink holds `cafe=café`, `hello=world` and their line feeds.
/// ```
pub fn write_sorted<W: CountedWrite>(
    alloc: Global,
    writer: &mut W,
    map: &BTreeMap<String, String>,
    encoding: Encoding,
) -> Result<(), PropertiesError>
    ensures writes { let output = output_encoding (encoding_of encoding) in
        WritesMap W.CountedWrite output map.now.entries writer.old result writer.new }
    ensures reads_back { let output = output_encoding (encoding_of encoding) in
        MapReadsBack W.CountedWrite output map.now.entries writer.old result writer.new }
    ensures same_sink { IsSameSink W.CountedWrite writer.old writer.new }
{
    let pairs: Vec<(&String, &String)> = map.iter().collect(alloc)?;
    write_pairs(alloc, writer, &pairs, LineEncoding::from(encoding))
}

// Writes these pairs in order, with the settings of a new writer, and flushes the sink.
fn write_pairs<W: CountedWrite>(
    alloc: Global,
    writer: &mut W,
    pairs: &[(&String, &String)],
    encoding: LineEncoding,
) -> Result<(), PropertiesError>
    ensures writes { let texts = texts_of pairs.now in
        WritesPairs W.CountedWrite (line_of encoding) texts writer.old result writer.new }
    ensures same_sink { IsSameSink W.CountedWrite writer.old writer.new }
{
    let mut engine = Engine::new(alloc, encoding);
    for (key, value) in pairs {
        engine.write_line(writer, Content::KVPair(key.as_str(), value.as_str()))?;
    }
    engine.flush(writer)
}
