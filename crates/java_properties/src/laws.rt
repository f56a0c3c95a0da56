//! The three laws of the format, the laws of its edits and conversions, and a law of writers, for use in callers'
//! proofs.
//!
//! The functions do nothing: each states a law as its contract. The contracts of [`read_lines`](crate::read_lines) and
//! [`run_calls`](crate::run_calls) state the same of a single run.

ghost use Rattle.std.specs.Prelude.{ℕ, Bool, List};
ghost use Rattle.properties_format.specs.Encoding.{Encoding, IsPieces, IsDecoded, Repertoire};
ghost use Rattle.properties_format.specs.Lines.{InputEnd, Line, IsLines, IsGroups};
ghost use Rattle.properties_format.specs.Split.{IsSplit};
ghost use Rattle.properties_format.specs.Escapes.{IsMeaning};
ghost use Rattle.properties_format.specs.Settings.{Settings};
ghost use Rattle.properties_format.specs.Writing.{Call, Pair};
ghost use Rattle.properties_format.specs.Laws.{HasOne, HasOneReading, ReadingInvertsWriting, EqualBytesOfEqualPairs};
ghost use Rattle.properties_format.specs.Laws.{WritingAnewChangesNothing, MapIsReadBack, SplittingCommutes};
ghost use Rattle.properties_format.specs.Laws.{LineEndingsSeparatePieces};
ghost use Rattle.properties_format.specs.Converting.{ConvertingKeepsItems, ConvertingKeepsLogicalLines};
ghost use Rattle.properties_format.specs.Converting.{ConvertingKeepsEndings, ConvertsToOne, ConvertingGivesAscii};
ghost use Rattle.properties_format.specs.Converting.{ConvertingTwiceIsConvertingOnce, ReadableAnyway, KeptIsItself};
ghost use Rattle.properties_format.specs.Converting.{AsciiIsItself};
ghost use Rattle.java_properties.specs.ReadBack.{IsGoodWriter};

use crate::writer::PropertiesWriter;
pub use properties_editing::laws::editing;
pub use properties_renaming::laws::{commenting, renaming};

/// Reading is unique: what an input means exists and is unique, at each step and for each way in which the input ends.
///
/// Bytes have exactly one list of pieces and one decoded text. A text has one list of lines, and lines divide into
/// groups in one way. A joined line is a blank line, a comment or a pair, in one way. A text with escapes means one
/// text, or is malformed in one way.
///
/// ```text
/// laws::one_reading();
/// // A proof that comes after may take any two lists of items of the same bytes to be one.
/// ```
pub fn one_reading()
    ensures input { (e : Encoding) (bytes : List ℕ) (ending : InputEnd)
        → HasOneReading e bytes ending }
    ensures pieces { (e : Encoding) (bytes : List ℕ) → HasOne (IsPieces e bytes) }
    ensures text { (e : Encoding) (bytes : List ℕ) → HasOne (IsDecoded e bytes) }
    ensures lines { (text : List ℕ) → HasOne (IsLines text) }
    ensures groups { (lines : List Line) (ending : InputEnd) → HasOne (IsGroups lines ending) }
    ensures split { (line : List ℕ) → HasOne (IsSplit line) }
    ensures meaning { (text : List ℕ) → HasOne (IsMeaning text) }
{}

/// Reading inverts writing. If no line was written before, what a writer's calls write has exactly one item for each
/// line: each pair unchanged, and each comment as the part of its prefix after the comment sign followed by its text,
/// without the blanks at the ends.
///
/// With the same settings, two lists of pairs write equal bytes if and only if they are equal. Reading pairs and
/// writing them again changes no byte. If no two pairs have the same key, their map has exactly these pairs.
///
/// ```text
/// laws::reading_inverts_writing();
/// // Proofs that come after may use that what `run_calls` wrote has exactly the items of its calls.
/// ```
pub fn reading_inverts_writing()
    ensures items { (e : Encoding) (s : Settings) (calls : List Call)
        → ReadingInvertsWriting e s calls }
    ensures equal { (e : Encoding) (s : Settings) (ps qs : List Pair)
        → EqualBytesOfEqualPairs e s ps qs }
    ensures anew { (e : Encoding) (s : Settings) (ps : List Pair)
        → WritingAnewChangesNothing e s ps }
    ensures map { (e : Encoding) (s : Settings) (ps : List Pair) → MapIsReadBack e s ps }
{}

/// A writer is good, as every writer is: its encoding is one that can be written, and its settings are good.
///
/// [`reading_inverts_writing`] is about good settings, so with both laws a proof can apply it to this writer.
///
/// ```text
/// laws::settings_are_good(&writer);
/// laws::reading_inverts_writing();
/// // A proof that comes after may take lists of pairs to be equal that this writer writes as equal bytes.
/// ```
pub fn settings_are_good<W>(writer: &PropertiesWriter<W>)
    ensures { IsGoodWriter writer.now }
{
    writer.engine.settings.are_always_good();
}

/// Splitting commutes with decoding, in every encoding: the lines of the bytes, each decoded separately, are the lines
/// of the decoded text. This includes broken sequences and lone surrogates.
///
/// It follows from one fact: a CR or LF where a unit may begin separates the pieces before it from the pieces after it.
///
/// ```text
/// laws::splitting_commutes_with_decoding();
/// // A proof that comes after may decode an input line by line.
/// ```
pub fn splitting_commutes_with_decoding()
    ensures lines { (e : Encoding) (bytes : List ℕ) → SplittingCommutes e bytes }
    ensures parts { (e : Encoding) (before : List ℕ) (c : ℕ) (after : List ℕ)
        → LineEndingsSeparatePieces e before c after }
{}

/// Converting keeps items, logical lines and line endings. The result of a conversion, read in its own encoding, has
/// the items of the source: the same comments and pairs in lines with the same numbers.
///
/// Items end at a malformed escape, but the logical lines behind it are the same too. A malformed escape stays one in
/// its line, and only the way in which it is malformed can change. The result has as many lines as the source, with the
/// same line endings.
///
/// ```text
/// laws::converting_keeps_items();
/// // A proof that comes after may take what `convert` returned to have the items of the source.
/// ```
pub fn converting_keeps_items()
    ensures items { (e : Encoding) (to : Repertoire) (readable : Bool) (source : List ℕ)
        (ending : InputEnd) → ConvertingKeepsItems e to readable source ending }
    ensures lines { (e : Encoding) (to : Repertoire) (readable : Bool) (source : List ℕ)
        (ending : InputEnd) → ConvertingKeepsLogicalLines e to readable source ending }
    ensures endings { (e : Encoding) (to : Repertoire) (readable : Bool) (source : List ℕ)
        → ConvertingKeepsEndings e to readable source }
{}

/// Each source has exactly one result. With ASCII as the target, every byte of it is ASCII, and it has the same items in
/// windows-1252 and in UTF-8.
///
/// A second conversion of the same kind changes no byte. A source that is converted in any way and then made readable in
/// UTF-8 gives what the source itself gives.
///
/// If spellings are kept, a conversion changes no byte of a well-formed source that is in the target's encoding and has
/// no byte order mark, and none of an ASCII source.
///
/// ```text
/// laws::converting_gives_one();
/// // A proof that comes after may take a source that was converted twice to be one that was converted once.
/// ```
pub fn converting_gives_one()
    ensures one { (e : Encoding) (to : Repertoire) (readable : Bool) (source : List ℕ)
        → ConvertsToOne e to readable source }
    ensures ascii { (e to : Encoding) (readable : Bool) (source : List ℕ)
        → ConvertingGivesAscii e to readable source }
    ensures twice { (e : Encoding) (to : Repertoire) (readable : Bool) (source : List ℕ)
        → ConvertingTwiceIsConvertingOnce e to readable source }
    ensures anyway { (e : Encoding) (to : Repertoire) (readable : Bool) (source : List ℕ)
        → ReadableAnyway e to readable source }
    ensures kept { (e : Encoding) (source : List ℕ) → KeptIsItself e source }
    ensures kept_ascii { (e : Encoding) (to : Repertoire) (source : List ℕ)
        → AsciiIsItself e to source }
{}
