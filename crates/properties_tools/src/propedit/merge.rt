// A merge: the edits by which the pairs of a file are set, and the change that they are.

ghost use Rattle.std.specs.Prelude.{◌≡◌, ◌∷◌, ◌++◌, [], map, IfOk, OnOk};
ghost use Rattle.std.specs.Str.{chars};
ghost use Rattle.properties_format.specs.Edits.{set_value};
ghost use Rattle.counted_io.specs.Streams.{IsSameReader, IsSameSink};
ghost use Rattle.java_properties.specs.Editing.{edits_in};
ghost use Rattle.properties_text.specs.Encoding.{encoding_of};
ghost use Rattle.properties_tools.specs.Private.Merging.{TakesText};
ghost use Rattle.properties_tables.specs.Private.Table.{rows_of, IsTable};
ghost use Rattle.properties_tools.specs.Propedit.Merge.{merged, set_of, ReadsMerge, ReadsPairs, SetsAll, SetsRows, SetsTexts};

use crate::propedit::answers::name;
use crate::propedit::exit_status;
use crate::propedit::request::{Command, Destination, Form, Job, Merge};
use counted_io::{CountedRead, CountedWrite};
use java_properties::{Edit, Encoding, read_source};
use properties_changing::request::{Change, FileChange};
use properties_tables::error::{Failure, TextFlaw};
use properties_tables::table::{Table, table_of};
use std::alloc::{AllocError, Global};
use std::str;

/// What a merge comes to once its pairs are known: a change of a source or of a file.
#[derive(Drop)]
pub enum Merged {
    /// The source is printed after the change.
    Printed(Job),
    /// The file is changed in place.
    InPlace(FileChange),
}

/// Reads the pairs of a merge to their end, and returns the change that sets them. If they can't be read or are
/// refused, a line on `errors` says why, and the error is the exit status.
///
/// ```text
/// let mut pairs: &[u8] = b"port = 8080\n";
/// match read_merge(alloc, asked, &mut pairs, &mut sinks.errors) {
///     Ok(Merged::Printed(job)) => run(alloc, &job, &[], &mut input, &mut sinks),
///     Ok(Merged::InPlace(file)) => edit_file(&rt, alloc, &file, &mut sinks.errors),
///     Err(status) => status,
/// }
/// ```
pub fn read_merge<R: CountedRead, E: CountedWrite>(
    alloc: Global,
    asked: Merge,
    pairs: &mut R,
    errors: &mut E,
) -> Result<Merged, u8>
    ensures reads { ReadsMerge R.CountedRead E.CountedWrite asked
        pairs.old errors.old result pairs.new errors.new }
    ensures same_reader { IsSameReader R.CountedRead pairs.old pairs.new }
    ensures same_error_sink { IsSameSink E.CountedWrite errors.old errors.new }
{
    match read_pairs(alloc, &asked, pairs) {
        Ok(list) => Ok(with_edits(asked, list)),
        Err(failure) => Err(exit_status(alloc, errors, name(&asked.pairs), Err(failure))),
    }
}

// Reads the pairs of a merge to their end, and returns the edits that set them.
fn read_pairs<R: CountedRead>(
    alloc: Global,
    asked: &Merge,
    pairs: &mut R,
) -> Result<Vec<Edit>, Failure>
    ensures reads { ReadsPairs R.CountedRead asked.now pairs.old result pairs.new }
    ensures same_reader { IsSameReader R.CountedRead pairs.old pairs.new }
{
    let file = read_source(alloc, pairs, asked.encoding)?;
    edits_of(alloc, &file, asked.encoding, asked.form)
}

// Returns the change that makes these edits as a merge asks for.
fn with_edits(asked: Merge, list: Vec<Edit>) -> Merged
    ensures { result ≡ merged asked list }
{
    let Merge {
        encoding,
        mut edits,
        destination,
        ..
    } = asked;
    let latin_1 = edits.latin_1;
    edits.list = list;
    let change = Change::Edits(edits);
    match destination {
        Destination::Printed(source) => Merged::Printed(Job {
            encoding,
            latin_1,
            source,
            command: Command::Change(change),
            note: None,
        }),
        Destination::InPlace(path, missing, verbose) => Merged::InPlace(FileChange {
            path,
            encoding,
            change,
            missing,
            verbose,
        }),
    }
}

/// Returns the edits that set each pair of a file, in its order.
///
/// Of a properties file each key is set once, to its last value. It is refused as `list` refuses it. Texts are refused
/// if they aren't UTF-8, if no zero byte comes after the last, or if a key has no value.
///
/// ```text
/// let edits = edits_of(alloc, b"b = 1\na = 2\nb = 3", Encoding::UTF_8, Form::Properties)?;
/// // They set `b` to `3`, and `a` to `2`.
/// let edits = edits_of(alloc, b"key\0 a\\tb\0", Encoding::UTF_8, Form::Texts)?;
/// // It sets `key` to a blank, `a`, a backslash and `tb`.
/// ```
pub fn edits_of(
    alloc: Global,
    file: &[u8],
    encoding: Encoding,
    form: Form,
) -> Result<Vec<Edit>, Failure>
    ensures { SetsAll form (encoding_of encoding) file.now result }
{
    match form {
        Form::Properties => edits_of_pairs(alloc, file, encoding),
        Form::Texts => edits_of_texts(alloc, file),
    }
}

// Returns the edits that set each key of a properties file to its last value.
fn edits_of_pairs(alloc: Global, file: &[u8], encoding: Encoding) -> Result<Vec<Edit>, Failure>
    ensures { SetsRows (encoding_of encoding) file.now result }
{
    let table = table_of(alloc, file, encoding)?;
    Ok(edits_of_rows(alloc, &table)?)
}

// Returns the edits that set the key of each row to its value.
fn edits_of_rows(alloc: Global, table: &Table) -> Result<Vec<Edit>, AllocError>
    requires { IsTable table.now }
    ensures { IfOk result (λ edits. edits_in edits.items ≡ map set_of (rows_of table.now)) }
{
    let mut edits = Vec::new(alloc);
    for row in 0..table.len() {
        push(alloc, &mut edits, table.key(row), table.value(row))?;
    }
    Ok(edits)
}

// Returns the edits that texts ask for, keys and values by turns.
fn edits_of_texts(alloc: Global, file: &[u8]) -> Result<Vec<Edit>, Failure>
    ensures { SetsTexts file.now result }
{
    let Ok(mut rest) = str::from_utf8(file) else {
        return Err(Failure::from(TextFlaw::NotUtf8));
    };
    let mut edits = Vec::new(alloc);
    while !rest.is_empty() {
        let (key, after_key) = next_text(rest)?;
        let (value, others) = next_text(after_key)?;
        push(alloc, &mut edits, key, value)?;
        rest = others;
    }
    Ok(edits)
}

// Returns the text up to the first zero byte, and what comes after that.
fn next_text(rest: &str) -> Result<(&str, &str), TextFlaw>
    ensures { TakesText rest.now result }
{
    match rest.split_once('\0') {
        Some((text, others)) => Ok((text, others)),
        None => {
            if rest.is_empty() {
                Err(TextFlaw::NoValue)
            } else {
                Err(TextFlaw::NotEnded)
            }
        }
    }
}

// Appends the edit that sets a key to a value.
fn push(alloc: Global, edits: &mut Vec<Edit>, key: &str, value: &str) -> Result<(), AllocError>
    ensures { OnOk result (edits_in edits.new.items ≡ edits_in edits.old.items ++ set_value (chars key.now) (chars value.now) ∷ []) }
{
    let key = String::from_str(alloc, key)?;
    let value = String::from_str(alloc, value)?;
    edits.push(Edit::SetValue(key, value))?;
    Ok(())
}
