// What differs between two sources.

ghost use Rattle.std.specs.Prelude.{◌≡◌, ◌++◌, ◌||◌, if◌then◌else◌, ℕ, List, string_bytes, IfOk, OnOk};
ghost use Rattle.std.specs.List.{flat_map};
ghost use Rattle.std.specs.Str.{chars};
ghost use Rattle.counted_io.specs.Streams.{IsSameReader, IsSameSink};
ghost use Rattle.properties_text.specs.Encoding.{encoding_of};
ghost use Rattle.properties_text.specs.declared.print.Repertoire.TheVariants.{Ascii, Utf8};
ghost use Rattle.properties_tools.specs.Propedit.{report_status};
ghost use Rattle.properties_tools.specs.Propedit.Diff.{Compares, Diffs, PrintsDiff, RunsDiff};
ghost use Rattle.properties_tools.specs.Propedit.Differences.{changed, came, difference_lines, gone, has_late_control, is_late_control, line_front, pair_line, row_line, Difference};
ghost use Rattle.properties_tools.specs.Private.Differing.{differences, of_new, of_old, row_at, CanBeCompared, DiffsEach, IsSide};
ghost use Rattle.properties_tables.specs.Private.Table.{rows_of};

use crate::propedit::answer::Answer;
use crate::propedit::answers::name;
use crate::propedit::diff_json::diff_json;
use crate::propedit::exit_status;
use crate::propedit::hint::note_misread;
use crate::propedit::named::NamedSource;
use crate::propedit::request::Comparison;
use crate::propedit::streams::Sinks;
use counted_io::{CountedRead, CountedWrite};
use java_properties::{Encoding, PropertiesError, read_source, write_source};
use properties_checking::request::Report;
use properties_tables::error::{Failure, STANDARD_OUTPUT};
use properties_tables::messages::Escaped;
use properties_tables::table::{Table, table_of};
use properties_text::print::{LineBuffer, PairLayout, Repertoire, print_readable_texts};
use std::alloc::{AllocError, Global};

/// Why two sources aren't compared, or what differs isn't printed.
#[derive(Debug, Drop)]
pub enum DiffFailure {
    /// The old source can't be read or is refused, or memory ran out.
    Old(Failure),
    /// The new source can't be read or is refused, or memory ran out.
    New(Failure),
    /// The answer can't be written.
    Output(PropertiesError),
}

/// Reads two sources to their ends, prints what differs between them, and returns the exit status.
///
/// The status is that of the answer, as [`diff`] gives it, or 2 at a failure; a line on `errors` then says why. If a
/// source can't be read or is refused, nothing is printed on `output`. Both are read before one is refused.
///
/// ```text
/// let mut old: &[u8] = b"a = 1\nb = 2\n";
/// let mut new: &[u8] = b"a = 1\nb = 3\n";
/// let mut sinks = Sinks {
///     output: Counted::new(Vec::new(alloc)),
///     errors: Counted::new(Vec::new(alloc)),
/// };
/// // For the arguments `diff old new` the status is 1, and the output holds two lines:
/// // old:2: -b=2
/// // new:2: +b=3
/// run_diff(alloc, &sources, &mut old, &mut new, &mut sinks);
/// ```
pub fn run_diff<R: CountedRead, S: CountedRead, W: CountedWrite, E: CountedWrite>(
    alloc: Global,
    sources: &Comparison,
    old: &mut R,
    new: &mut S,
    sinks: &mut Sinks<W, E>,
) -> u8
    ensures runs { RunsDiff R.CountedRead S.CountedRead W.CountedWrite E.CountedWrite sources.now
        old.old new.old sinks.old.output sinks.old.errors result old.new new.new sinks.new.output sinks.new.errors }
    ensures same_old { IsSameReader R.CountedRead old.old old.new }
    ensures same_new { IsSameReader S.CountedRead new.old new.new }
    ensures same_sink { IsSameSink W.CountedWrite sinks.old.output sinks.new.output }
    ensures same_error_sink { IsSameSink E.CountedWrite sinks.old.errors sinks.new.errors }
{
    let (output, errors) = (&mut sinks.output, &mut sinks.errors);
    let (old_name, new_name) = (name(&sources.old), name(&sources.new));
    let old = match read_source(alloc, old, sources.encoding) {
        Ok(bytes) => bytes,
        Err(error) => return exit_status(alloc, errors, old_name, Err(Failure::Input(error))),
    };
    let new = match read_source(alloc, new, sources.encoding) {
        Ok(bytes) => bytes,
        Err(error) => return exit_status(alloc, errors, new_name, Err(Failure::Input(error))),
    };
    note_misread(alloc, errors, sources.latin_1, old_name, &old);
    note_misread(alloc, errors, sources.latin_1, new_name, &new);
    match print_diff(alloc, sources, &old, &new, output) {
        Ok(status) => status,
        Err(DiffFailure::Old(failure)) => exit_status(alloc, errors, old_name, Err(failure)),
        Err(DiffFailure::New(failure)) => exit_status(alloc, errors, new_name, Err(failure)),
        Err(DiffFailure::Output(error)) => {
            exit_status(alloc, errors, STANDARD_OUTPUT, Err(Failure::Output(error)))
        }
    }
}

// Prints what differs between two sources, and returns the status.
fn print_diff<W: CountedWrite>(
    alloc: Global,
    sources: &Comparison,
    old: &[u8],
    new: &[u8],
    output: &mut W,
) -> Result<u8, DiffFailure>
    ensures prints { PrintsDiff W.CountedWrite sources.now old.now new.now output.old result output.new }
    ensures same_sink { IsSameSink W.CountedWrite output.old output.new }
{
    let answer = compared(alloc, sources, old, new)?;
    match write_source(output, &answer.text) {
        Ok(()) => Ok(answer.status),
        Err(error) => Err(DiffFailure::Output(error)),
    }
}

// Returns what differs between the sources of a request.
fn compared(
    alloc: Global,
    sources: &Comparison,
    old: &[u8],
    new: &[u8],
) -> Result<Answer, DiffFailure>
    ensures { Compares sources.now old.now new.now result }
{
    let encoding = sources.encoding;
    match sources.report {
        Report::Lines => {
            let old = NamedSource {
                name: name(&sources.old),
                bytes: old,
            };
            let new = NamedSource {
                name: name(&sources.new),
                bytes: new,
            };
            diff(alloc, old, new, encoding)
        }
        Report::Json => diff_json(alloc, old, new, encoding),
    }
}

/// Returns what differs between two sources: the keys that don't have the same value in both. The status is 1 if
/// anything does.
///
/// A pair that went is printed as `NAME:LINE: -PAIR`, one that came as `NAME:LINE: +PAIR`, and one with another value as
/// both. The line is that of the last pair with the key, and the pair is one line of a properties file in UTF-8, with a
/// readable value, or in ASCII if it has a control character past U+007F. First come the keys of the old source, in its
/// order, and then those that only the new one has.
///
/// Comments, layout, spelling, order and pairs that a later one overrules don't count. Each source is refused as `list`
/// refuses it, the old one first.
///
/// ```text
/// let old = NamedSource { name: "old.properties", bytes: b"a = 1\nb = 2" };
/// let new = NamedSource { name: "new.properties", bytes: b"c = 3\na: 1" };
/// let answer = diff(alloc, old, new, Encoding::UTF_8)?;
/// // old.properties:2: -b=2
/// // new.properties:1: +c=3
/// ```
pub fn diff(
    alloc: Global,
    old: NamedSource<'_>,
    new: NamedSource<'_>,
    encoding: Encoding,
) -> Result<Answer, DiffFailure>
    ensures { Diffs old.entry.name.now new.entry.name.now (encoding_of encoding) old.entry.bytes.now new.entry.bytes.now result }
{
    let form = NamedLines {
        old_name: old.name,
        new_name: new.name,
    };
    diff_in(alloc, &form, old.bytes, new.bytes, encoding)
}

/// Compares two sources, and prints what differs in this form. The status is 1 if anything is printed.
pub(crate) fn diff_in<F: DiffForm>(
    alloc: Global,
    form: &F,
    old: &[u8],
    new: &[u8],
    encoding: Encoding,
) -> Result<Answer, DiffFailure>
    ensures { DiffsEach (F.printed form.now) (encoding_of encoding) old.now new.now result }
{
    let olds = match table_of(alloc, old, encoding) {
        Ok(table) => table,
        Err(failure) => return Err(DiffFailure::Old(failure)),
    };
    let news = match table_of(alloc, new, encoding) {
        Ok(table) => table,
        Err(failure) => return Err(DiffFailure::New(failure)),
    };
    match lines(alloc, form, &olds, &news) {
        Ok(text) => Ok(Answer {
            status: status_of(&text),
            text,
        }),
        Err(error) => Err(DiffFailure::Old(Failure::from(error))),
    }
}

// Returns the status of what is printed: 1 if that is anything.
fn status_of(text: &[u8]) -> u8
    ensures { result ≡ report_status text.now }
{
    if text.is_empty() { 0 } else { 1 }
}

// Returns the lines of what differs between two tables.
fn lines<F: DiffForm>(
    alloc: Global,
    form: &F,
    olds: &Table,
    news: &Table,
) -> Result<Vec<u8>, AllocError>
    requires old { CanBeCompared olds.now }
    requires new { CanBeCompared news.now }
    ensures { let between = differences (rows_of olds.now) (rows_of news.now) in
        IfOk result (λ text. text.items ≡ flat_map (F.printed form.now) between) }
{
    let mut text = Vec::new(alloc);
    push_old(alloc, form, &mut text, olds, news)?;
    push_new(alloc, form, &mut text, olds, news)?;
    Ok(text)
}

// Appends what is printed of the keys of the old table.
fn push_old<F: DiffForm>(
    alloc: Global,
    form: &F,
    text: &mut Vec<u8>,
    olds: &Table,
    news: &Table,
) -> Result<(), AllocError>
    requires old { CanBeCompared olds.now }
    requires new { CanBeCompared news.now }
    ensures { let gone = flat_map (of_old (rows_of news.now)) (rows_of olds.now) in
        OnOk result (text.new.items ≡ text.old.items ++ flat_map (F.printed form.now) gone) }
{
    for row in 0..olds.len() {
        push_became(alloc, form, text, Side { table: olds, row }, news)?;
    }
    Ok(())
}

// Appends what is printed of the keys that only the new table has.
fn push_new<F: DiffForm>(
    alloc: Global,
    form: &F,
    text: &mut Vec<u8>,
    olds: &Table,
    news: &Table,
) -> Result<(), AllocError>
    requires old { CanBeCompared olds.now }
    requires new { CanBeCompared news.now }
    ensures { let came = flat_map (of_new (rows_of olds.now)) (rows_of news.now) in
        OnOk result (text.new.items ≡ text.old.items ++ flat_map (F.printed form.now) came) }
{
    for row in 0..news.len() {
        push_came(alloc, form, text, olds, Side { table: news, row })?;
    }
    Ok(())
}

// Appends what is printed of what became of a row of the old table.
#[inline(always)]
fn push_became<F: DiffForm>(
    alloc: Global,
    form: &F,
    text: &mut Vec<u8>,
    old: Side<'_>,
    news: &Table,
) -> Result<(), AllocError>
    requires old { IsSide old }
    requires new { CanBeCompared news.now }
    ensures { let became = of_old (rows_of news.now) (row_at old.entry) in
        OnOk result (text.new.items ≡ text.old.items ++ flat_map (F.printed form.now) became) }
{
    let Some(row) = news.find(old.key()) else {
        return form.gone(alloc, text, old);
    };
    let new = Side { table: news, row };
    if old.value() == new.value() {
        return Ok(());
    }
    form.changed(alloc, text, old, new)
}

// Appends what is printed of a row of the new table, if the old one hasn't its key.
#[inline(always)]
fn push_came<F: DiffForm>(
    alloc: Global,
    form: &F,
    text: &mut Vec<u8>,
    olds: &Table,
    new: Side<'_>,
) -> Result<(), AllocError>
    requires old { CanBeCompared olds.now }
    requires new { IsSide new }
    ensures { let came = of_new (rows_of olds.now) (row_at new.entry) in
        OnOk result (text.new.items ≡ text.old.items ++ flat_map (F.printed form.now) came) }
{
    match olds.find(new.key()) {
        Some(_) => Ok(()),
        None => form.came(alloc, text, new),
    }
}

/// A row of a table.
#[derive(Clone, Copy)]
pub(crate) struct Side<'a> {
    /// The table.
    pub table: &'a Table,
    /// The number of the row.
    pub row: usize,
}

impl Side<'_> {
    /// Returns its key.
    #[inline(always)]
    pub fn key(&self) -> &str
        requires { IsSide self.now }
        ensures { chars result.now ≡ (row_at self.now).key }
    {
        self.table.key(self.row)
    }

    /// Returns its value.
    #[inline(always)]
    pub fn value(&self) -> &str
        requires { IsSide self.now }
        ensures { chars result.now ≡ (row_at self.now).value }
    {
        self.table.value(self.row)
    }

    /// Returns the line in which the last pair with the key begins.
    #[inline(always)]
    pub fn line(&self) -> usize
        requires { IsSide self.now }
        ensures { result ≡ (row_at self.now).last }
    {
        self.table.last_line(self.row)
    }
}

/// How what differs is printed.
pub(crate) trait DiffForm {
    /// What is printed of a difference.
    ghost printed: { Self → Difference → List ℕ };

    /// Appends what is printed of a row of the old source whose key the new one doesn't have.
    fn gone(&self, alloc: Global, text: &mut Vec<u8>, old: Side<'_>) -> Result<(), AllocError>
        requires { IsSide old }
        ensures { OnOk result (text.new.items ≡ text.old.items ++ printed self.now (gone (row_at old.entry))) };

    /// Appends what is printed of a row of the new source whose key the old one doesn't have.
    fn came(&self, alloc: Global, text: &mut Vec<u8>, new: Side<'_>) -> Result<(), AllocError>
        requires { IsSide new }
        ensures { OnOk result (text.new.items ≡ text.old.items ++ printed self.now (came (row_at new.entry))) };

    /// Appends what is printed of two rows that have the same key and other values.
    fn changed(
        &self,
        alloc: Global,
        text: &mut Vec<u8>,
        old: Side<'_>,
        new: Side<'_>,
    ) -> Result<(), AllocError>
        requires { IsSide old × IsSide new }
        ensures { OnOk result (text.new.items ≡ text.old.items ++ printed self.now (changed (row_at old.entry) (row_at new.entry))) };
}

// Lines, each with the name of its source.
#[derive(Clone, Copy)]
struct NamedLines<'a> {
    old_name: &'a str,
    new_name: &'a str,
}

impl DiffForm for NamedLines<'_> {
    ghost printed = { λ names. difference_lines names.old_name.now names.new_name.now };

    fn gone(&self, alloc: Global, text: &mut Vec<u8>, old: Side<'_>) -> Result<(), AllocError> {
        push_row(alloc, text, self.old_name, "-", old)
    }

    fn came(&self, alloc: Global, text: &mut Vec<u8>, new: Side<'_>) -> Result<(), AllocError> {
        push_row(alloc, text, self.new_name, "+", new)
    }

    fn changed(
        &self,
        alloc: Global,
        text: &mut Vec<u8>,
        old: Side<'_>,
        new: Side<'_>,
    ) -> Result<(), AllocError> {
        push_row(alloc, text, self.old_name, "-", old)?;
        push_row(alloc, text, self.new_name, "+", new)?;
        Ok(())
    }
}

// Appends the line of a row: the name of its source, the number of its last line, this sign, and its pair.
#[inline(never)]
fn push_row(
    alloc: Global,
    text: &mut Vec<u8>,
    name: &str,
    sign: &str,
    side: Side<'_>,
) -> Result<(), AllocError>
    requires { IsSide side }
    ensures { OnOk result (text.new.items ≡ text.old.items ++ row_line name.now sign.now (row_at side.entry)) }
{
    let front = front(alloc, name, side.line(), sign)?;
    let mut pair = LineBuffer::new(alloc);
    push_pair(&mut pair, side.key(), side.value())?;
    text.extend_from_slice(front.as_bytes())?;
    text.extend_from_slice(pair.as_slice())
}

fn front(alloc: Global, name: &str, number: usize, sign: &str) -> Result<String, AllocError>
    ensures { IfOk result (λ text. string_bytes text ≡ line_front name.now number sign.now) }
{
    let name = Escaped(name);
    format!(in alloc; "{name}:{number}: {sign}")
}

// Appends a pair as the first line of a properties file in UTF-8, with a readable value, but in ASCII if it has a control
// character past U+007F, which a terminal may obey.
fn push_pair(line: &mut LineBuffer, key: &str, value: &str) -> Result<(), AllocError>
    ensures { OnOk result (line.new ≡ line.old ++ pair_line (chars key.now) (chars value.now)) }
{
    let repertoire = repertoire_for(key, value);
    let layout = PairLayout {
        repertoire,
        first: true,
        separator: "=",
        ending: "\n",
    };
    print_readable_texts(line, layout, key, value)
}

fn repertoire_for(key: &str, value: &str) -> Repertoire
    ensures { let late = has_late_control (chars key.now) || has_late_control (chars value.now) in
        result ≡ (if late then Ascii else Utf8) }
{
    if has_late_control(key) || has_late_control(value) {
        Repertoire::Ascii
    } else {
        Repertoire::Utf8
    }
}

// Returns whether a text has a control character past U+007F.
fn has_late_control(text: &str) -> bool
    ensures { result ≡ has_late_control (chars text.now) }
{
    for character in text.chars() {
        if is_late_control(character) {
            return true;
        }
    }
    false
}

fn is_late_control(character: char) -> bool
    ensures { result ≡ is_late_control character }
{
    character.is_control() && !character.is_ascii()
}
