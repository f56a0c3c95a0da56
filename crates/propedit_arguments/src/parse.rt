// Parses the command line, and prints errors, help and the version.

ghost use Rattle.std.specs.Prelude.{◌≡◌};
ghost use Rattle.counted_io.specs.Streams.{IsSameSink};

use crate::command_line::{
    CommandName, CommandRow, Help, HelpOf, OptionName, Version, command_meant, command_named,
    target_named,
};
use crate::doubts::{note_on_edits, note_on_option, note_on_prefix};
use crate::edits::{AskedEdit, edits_in};
use crate::kinds::ignored_in;
use crate::meant::KEY_ENDS;
use crate::mistake::{Hint, Mistake, NoRequest};
use crate::options::{Options, STANDARD_INPUT, options_in, source_named};
use crate::typed::{Stray, is_option_of};
use counted_io::CountedWrite;
use java_properties::{Edit, NewComment, Rename};
use properties_tools::propedit::kinds::Ignored;
use properties_tools::propedit::request::{
    Allowed, Change, Check, CheckedFiles, Command, Comparison, Conversion, Destination, Edits,
    FileChange, FileEdit, Job, Merge, NewComments, Note, Removal, Renaming, Request, Source, Step,
    Steps,
};
use properties_tools::propedit::{print_out_of_memory, print_text, print_usage_error};
use std::alloc::{AllocError, Global};

/// Returns what the arguments after the program's name ask for.
///
/// The error is a mistake in the arguments, that memory ran out, or a request for help or the version; `explain` prints
/// it.
///
/// ```text
/// match asked_for(alloc, &words) {
///     Ok(request) => answer(&request),
///     Err(error) => explain(alloc, error, &mut output, &mut errors),
/// }
/// ```
pub fn asked_for<'a>(alloc: Global, words: &'a [String]) -> Result<Request, NoRequest<'a>> {
    let (mut options, words) = options_in(alloc, words)?;
    let [name, words_after @ ..] = words else {
        return Err(NoRequest::Wrong(no_command(&options)));
    };
    let Some(row) = command_named(name.as_str()) else {
        let meant = hint(&options, name.as_str(), words_after);
        return Err(NoRequest::Wrong(match name.as_str() {
            "--" => Mistake::DashesFirst(meant),
            word => Mistake::UnknownCommand(word, meant),
        }));
    };
    let rest = options.add_after(row, words_after)?;
    options.refuse_useless(row)?;
    if rest.len() < words_after.len() {
        refuse_option_for_key(row, rest)?;
    }
    match row.command {
        CommandName::Get => Ok(get(alloc, row, &options, rest)?),
        CommandName::List => Ok(list(alloc, row, &options, rest)?),
        CommandName::Comment => Ok(comment(alloc, row, &options, rest)?),
        CommandName::Check => Ok(check(alloc, row, &options, rest)?),
        CommandName::Diff => Ok(diff(alloc, row, &options, rest)?),
        CommandName::Set | CommandName::Remove | CommandName::Rename | CommandName::SetComment => {
            refuse_split_name(row, rest)?;
            Ok(edit(alloc, row, &options, rest)?)
        }
        CommandName::Merge => Ok(merge(alloc, row, &options, rest)?),
        CommandName::Convert => Ok(convert(alloc, row, &options, rest)?),
        CommandName::Help => Err(help(row, &options, rest)),
    }
}

// Returns the edits that a command and the arguments after its options ask for. The mistake says what stands around an
// edit that is wrong, or an argument that is no edit.
fn edits_among<'a>(
    alloc: Global,
    row: &'static CommandRow,
    options: &Options<'a>,
    words: &'a [String],
) -> Result<Vec<AskedEdit>, Mistake<'a>> {
    match edits_in(alloc, row.name, words) {
        Err(mistake) => Err(mistake.among(Stray::of(row, options, words))),
        result => result,
    }
}

// Fails if a command has options and no key, or an edit of two texts one text after them: one of the options may be meant as the key.
fn refuse_option_for_key<'a>(
    row: &'static CommandRow,
    words: &'a [String],
) -> Result<(), Mistake<'a>> {
    match (row.first_argument(), words) {
        (Some("key"), []) => Err(Mistake::OptionForKey(row)),
        (_, [key]) if row.takes_two_texts() && !key.contains(KEY_ENDS) && key.as_str() != "--" => {
            Err(Mistake::OptionForKeyOf(key.as_str(), row))
        }
        _ => Ok(()),
    }
}

// Fails if `set comment` stands before two arguments that are no edit: `set-comment` may be meant.
fn refuse_split_name<'a>(row: &'static CommandRow, words: &'a [String]) -> Result<(), Mistake<'a>> {
    let [first, _, last] = words else {
        return Ok(());
    };
    let is_split = row.command == CommandName::Set && first.as_str() == "comment";
    if is_split && command_named(last.as_str()).is_none() {
        return Err(Mistake::SetThenComment);
    }
    Ok(())
}

/// Prints why the arguments ask for nothing, and returns the exit status: help and the version on `output`, and a
/// mistake, with the usage, on `errors`, with status 2. What can't be printed on `errors` is dropped.
///
/// ```text
/// if let Err(error) = asked_for(alloc, &words) {
///     return explain(alloc, error, &mut output, &mut errors);
/// }
/// ```
pub fn explain<W: CountedWrite, E: CountedWrite>(
    alloc: Global,
    error: NoRequest<'_>,
    output: &mut W,
    errors: &mut E,
) -> u8
    ensures same_sink { IsSameSink W.CountedWrite output.old output.new }
    ensures same_error_sink { IsSameSink E.CountedWrite errors.old errors.new }
{
    let text = match error {
        NoRequest::Help(None) => format!(in alloc; "{Help}"),
        NoRequest::Help(Some(row)) => format!(in alloc; "{}", HelpOf(row)),
        NoRequest::Version => format!(in alloc; "{Version}"),
        NoRequest::Wrong(mistake) => return explain_mistake(alloc, mistake, errors),
    };
    match text {
        Ok(text) => print_text(alloc, text.as_str(), output, errors),
        Err(_) => print_out_of_memory(errors),
    }
}

/// Prints on `errors` what is wrong with the arguments, and the usage, and returns the status for that, 2.
pub fn explain_mistake<E: CountedWrite>(alloc: Global, mistake: Mistake<'_>, errors: &mut E) -> u8
    ensures status { result ≡ 2 }
    ensures same_error_sink { IsSameSink E.CountedWrite errors.old errors.new }
{
    if let Mistake::Memory = mistake {
        return print_out_of_memory(errors);
    }
    let usage = mistake.usage();
    match format!(in alloc;
        "propedit: {mistake}\n\n{usage}For more information, try 'propedit --help'.\n"
    ) {
        Ok(text) => print_usage_error(errors, text.as_str()),
        Err(_) => print_out_of_memory(errors),
    }
}

fn no_command<'a>(options: &Options<'a>) -> Mistake<'a> {
    match options.command_taken() {
        Some((option, row)) => Mistake::CommandTaken(option, row),
        None => Mistake::NoCommand,
    }
}

// Returns what may be meant by an argument in the place of a command, after these options and before these arguments.
fn hint(options: &Options<'_>, word: &str, rest: &[String]) -> Hint {
    if let Some(row) = command_meant(word) {
        return Hint::Meant(row.name);
    }
    if let Some((option, row)) = options.command_taken() {
        return Hint::Taken(option, row);
    }
    match word {
        "version" | "Version" | "VERSION" => Hint::Meant("--version"),
        "json" | "to-json" => Hint::Meant("list --json"),
        "sort" | "fmt" | "format" | "cp" | "copy" => Hint::Never,
        _ => file_hint(rest),
    }
}

// Returns that a file may be meant by the argument before these, if the first of them is a command.
fn file_hint(rest: &[String]) -> Hint {
    let [next, ..] = rest else {
        return Hint::Alone;
    };
    match command_named(next.as_str()) {
        Some(row) if row.options.contains(&OptionName::File) => Hint::File(row),
        _ => Hint::Nothing,
    }
}

/// Returns the arguments before a first `--`, and those after it.
pub(crate) fn around_dashes(words: &[String]) -> (&[String], &[String]) {
    match words.iter().position(|word| word.as_str() == "--") {
        Some(at) => (
            words.get(..at).unwrap_or(&[]),
            words.get(at.saturating_add(1)..).unwrap_or(&[]),
        ),
        None => (words, &[]),
    }
}

fn copies(alloc: Global, before: &[String], after: &[String]) -> Result<Vec<String>, AllocError> {
    let mut texts = Vec::new(alloc);
    for word in before.iter().chain(after) {
        texts.push(word.clone()?)?;
    }
    Ok(texts)
}

fn get<'a>(
    alloc: Global,
    row: &'static CommandRow,
    options: &Options<'a>,
    words: &'a [String],
) -> Result<Request, Mistake<'a>> {
    let (before, after) = around_dashes(words);
    let keys = copies(alloc, before, after)?;
    if keys.is_empty() {
        return Err(Mistake::NoKey(row.name));
    }
    let default = match options.value(OptionName::Default) {
        Some(value) => Some(String::from_str(alloc, value)?),
        None => None,
    };
    let note = note_on_option(alloc, row, before)?;
    options.job(alloc, row, Command::Get(keys, default, options.end()), note)
}

fn comment<'a>(
    alloc: Global,
    row: &'static CommandRow,
    options: &Options<'a>,
    words: &'a [String],
) -> Result<Request, Mistake<'a>> {
    let Some(key) = only_word(row, words)? else {
        return Err(Mistake::NoKey(row.name));
    };
    let key = String::from_str(alloc, key)?;
    options.job(alloc, row, Command::Comment(key), None)
}

fn list<'a>(
    alloc: Global,
    row: &'static CommandRow,
    options: &Options<'a>,
    words: &'a [String],
) -> Result<Request, Mistake<'a>> {
    let prefix = String::from_str(alloc, only_word(row, words)?.unwrap_or(""))?;
    let command = if options.has(OptionName::Json) {
        Command::ListJson(prefix)
    } else if options.has(OptionName::Values) {
        Command::ListValues(prefix, options.end())
    } else {
        Command::List(prefix, options.end())
    };
    let note = match words {
        [prefix] if options.value(OptionName::File) != Some(STANDARD_INPUT) => {
            note_on_prefix(alloc, prefix)?
        }
        _ => None,
    };
    options.job(alloc, row, command, note)
}

// Returns the argument after a command that takes one at most. A first `--` is dropped.
fn only_word<'a>(
    row: &'static CommandRow,
    words: &'a [String],
) -> Result<Option<&'a str>, Mistake<'a>> {
    let (before, after) = around_dashes(words);
    let mut given = before.iter().chain(after);
    let Some(first) = given.next() else {
        return Ok(None);
    };
    let first = first.as_str();
    match given.next() {
        None => Ok(Some(first)),
        Some(word) if is_option_of(word.as_str(), row) => {
            Err(Mistake::OptionAfter(word.as_str(), row))
        }
        Some(word) => Err(Mistake::Surplus(word.as_str(), row)),
    }
}

// Returns the argument after a command that takes exactly one.
fn required_word<'a>(
    row: &'static CommandRow,
    words: &'a [String],
) -> Result<&'a str, Mistake<'a>> {
    match only_word(row, words)? {
        Some(word) => Ok(word),
        None => Err(Mistake::NoWord(row)),
    }
}

fn check<'a>(
    alloc: Global,
    row: &'static CommandRow,
    options: &Options<'a>,
    words: &'a [String],
) -> Result<Request, Mistake<'a>> {
    let (before, after) = around_dashes(words);
    refuse_late(row, before)?;
    let mut paths = copies(alloc, before, after)?;
    let check = check_with(row, options)?;
    let base = options.value(OptionName::Base);
    if !paths.is_empty() {
        options.refuse_file(row)?;
    } else if base.is_none() {
        return options.job(alloc, row, Command::Check(check), None);
    } else if let Some(path) = options.value(OptionName::File) {
        paths.push(String::from_str(alloc, path)?)?;
    } else {
        return Err(Mistake::NothingToCheck(row));
    }
    refuse_inputs(row, base, &paths)?;
    Ok(Request::CheckFiles(CheckedFiles {
        encoding: options.encoding(row)?,
        check,
        base: base_beside(alloc, base, &mut paths)?,
        paths,
    }))
}

// Fails if what looks like an option of a command stands among files, of which there may be any number.
fn refuse_late<'a>(row: &'static CommandRow, words: &'a [String]) -> Result<(), Mistake<'a>> {
    match words.iter().find(|word| is_option_of(word.as_str(), row)) {
        Some(word) => Err(Mistake::OptionAfter(word.as_str(), row)),
        None => Ok(()),
    }
}

// Fails if standard input is named twice among files and their base.
fn refuse_inputs<'a>(
    row: &'static CommandRow,
    base: Option<&str>,
    paths: &[String],
) -> Result<(), Mistake<'a>> {
    let mut is_named = matches!(base, Some(STANDARD_INPUT));
    for path in paths {
        let is_input = path.as_str() == STANDARD_INPUT;
        if is_input && is_named {
            return Err(Mistake::OneInput(row));
        }
        is_named = is_named || is_input;
    }
    Ok(())
}

// Returns the source that the name of a base names, and leaves that name out of the files: a base is checked anyway.
fn base_beside(
    alloc: Global,
    base: Option<&str>,
    paths: &mut Vec<String>,
) -> Result<Option<Source>, AllocError> {
    let Some(base) = base else {
        return Ok(None);
    };
    paths.retain(|path| path.as_str() != base);
    Ok(Some(source_named(alloc, base)?))
}

// Returns how the options have a source checked.
fn check_with<'a>(row: &'static CommandRow, options: &Options<'a>) -> Result<Check, Mistake<'a>> {
    let ignored = match options.value(OptionName::Ignore) {
        Some(names) => ignored_in(names, row)?,
        None => Ignored::NONE,
    };
    Ok(Check {
        allowed: if options.has(OptionName::Ascii) {
            Allowed::Ascii
        } else if options.is_latin_1() {
            Allowed::Latin1
        } else {
            Allowed::All
        },
        ignored: Ignored {
            escape_in_comment: options.has(OptionName::Pairs),
            ..ignored
        },
        quiet: options.has(OptionName::Quiet),
        report: options.report(),
    })
}

fn diff<'a>(
    alloc: Global,
    row: &'static CommandRow,
    options: &Options<'a>,
    words: &'a [String],
) -> Result<Request, Mistake<'a>> {
    let (before, after) = around_dashes(words);
    let mut given = before.iter().chain(after);
    let (Some(old), Some(new)) = (given.next(), given.next()) else {
        return Err(Mistake::FewFiles(row));
    };
    if let Some(surplus) = given.next() {
        let late = [new, surplus]
            .into_iter()
            .find(|word| is_option_of(word.as_str(), row));
        return Err(match late {
            Some(word) => Mistake::OptionAfter(word.as_str(), row),
            None => Mistake::Surplus(surplus.as_str(), row),
        });
    }
    if old.as_str() == STANDARD_INPUT && new.as_str() == STANDARD_INPUT {
        return Err(Mistake::OneInput(row));
    }
    Ok(Request::Diff(Comparison {
        encoding: options.encoding(row)?,
        latin_1: options.is_latin_1(),
        old: source_named(alloc, old.as_str())?,
        new: source_named(alloc, new.as_str())?,
        report: options.report(),
    }))
}

fn edit<'a>(
    alloc: Global,
    row: &'static CommandRow,
    options: &Options<'a>,
    words: &'a [String],
) -> Result<Request, Mistake<'a>> {
    let list = edits_among(alloc, row, options, words)?;
    if !list.iter().any(puts_text) {
        options.refuse_for_text(row)?;
    }
    if !list.iter().any(removes_key) {
        options.refuse_for_removal(row)?;
    }
    let note = if words.iter().any(|word| word.as_str() == "--") {
        None
    } else {
        note_on_edits(alloc, options.name(), &list)?
    };
    let asked = change_by(alloc, options, list)?;
    change(alloc, row, options, asked, note)
}

// Returns the change that edits are. Edits of one kind are one step as long as none of another kind comes between them.
fn change_by(
    alloc: Global,
    options: &Options<'_>,
    list: Vec<AskedEdit>,
) -> Result<Change, AllocError> {
    let mut steps = Vec::new(alloc);
    for asked in list {
        add_edit(alloc, options, &mut steps, asked)?;
    }
    if steps.is_empty() {
        return Ok(Change::Edits(edits_with(options, Vec::new(alloc))));
    }
    let first = steps.remove(0);
    match first {
        Step::Edits(edits) if steps.is_empty() => Ok(Change::Edits(edits)),
        first => Ok(Change::Steps(Steps {
            first,
            others: steps,
        })),
    }
}

// Adds an edit to the last step, if that has edits of its kind, or else as a step of its own.
fn add_edit(
    alloc: Global,
    options: &Options<'_>,
    steps: &mut Vec<Step>,
    asked: AskedEdit,
) -> Result<(), AllocError> {
    match (asked, steps.last_mut()) {
        (AskedEdit::Edit(Edit::Remove(key)), Some(Step::Removal(removal))) => {
            removal.keys.push(key)?;
        }
        (AskedEdit::Edit(Edit::Remove(key)), _) if options.has(OptionName::WithComment) => {
            steps.push(Step::Removal(Removal {
                keys: vec![in alloc; key]?,
                absent: options.absent(),
            }))?;
        }
        (AskedEdit::Edit(edit), Some(Step::Edits(edits))) => edits.list.push(edit)?,
        (AskedEdit::Edit(edit), _) => {
            let list = vec![in alloc; edit]?;
            steps.push(Step::Edits(edits_with(options, list)))?;
        }
        (AskedEdit::Rename(old, new), Some(Step::Renaming(renaming))) => {
            renaming.list.push(Rename { old, new })?;
        }
        (AskedEdit::Rename(old, new), _) => {
            let list = vec![in alloc; Rename { old, new }]?;
            steps.push(Step::Renaming(renaming_with(options, list)))?;
        }
        (AskedEdit::SetComment(key, text), Some(Step::NewComments(comments))) => {
            comments.list.push(NewComment { key, text })?;
        }
        (AskedEdit::SetComment(key, text), _) => {
            let list = vec![in alloc; NewComment { key, text }]?;
            steps.push(Step::NewComments(comments_with(options, list)))?;
        }
    }
    Ok(())
}

// Returns edits that are made as the options say.
fn edits_with(options: &Options<'_>, list: Vec<Edit>) -> Edits {
    Edits {
        list,
        ascii_only: options.has(OptionName::Ascii),
        latin_1: options.is_latin_1(),
        absent: options.absent(),
    }
}

// Returns renames that are made as the options say.
fn renaming_with(options: &Options<'_>, list: Vec<Rename>) -> Renaming {
    Renaming {
        list,
        ascii_only: options.has(OptionName::Ascii),
        latin_1: options.is_latin_1(),
    }
}

// Returns comments that are set as the options say.
fn comments_with(options: &Options<'_>, list: Vec<NewComment>) -> NewComments {
    NewComments {
        list,
        ascii_only: options.has(OptionName::Ascii),
        latin_1: options.is_latin_1(),
    }
}

fn puts_text(asked: &AskedEdit) -> bool {
    !removes_key(asked)
}

fn removes_key(asked: &AskedEdit) -> bool {
    matches!(asked, AskedEdit::Edit(Edit::Remove(_)))
}

fn merge<'a>(
    alloc: Global,
    row: &'static CommandRow,
    options: &Options<'a>,
    words: &'a [String],
) -> Result<Request, Mistake<'a>> {
    let pairs = source_named(alloc, required_word(row, words)?)?;
    let destination = options.destination(alloc)?;
    match (&pairs, &destination) {
        (Source::Dash, Destination::Printed(Source::StandardInput | Source::Dash)) => {
            Err(Mistake::InputTwice(row))
        }
        _ => Ok(Request::Merge(Merge {
            pairs,
            form: options.form(),
            is_judged: !options.has(OptionName::Null) && !is_after_dashes(words),
            encoding: options.encoding(row)?,
            edits: edits_with(options, Vec::new(alloc)),
            destination,
        })),
    }
}

// Returns whether `--` says that the argument after it is meant as it is.
fn is_after_dashes(words: &[String]) -> bool {
    matches!(words, [first, ..] if first.as_str() == "--")
}

fn convert<'a>(
    alloc: Global,
    row: &'static CommandRow,
    options: &Options<'a>,
    words: &'a [String],
) -> Result<Request, Mistake<'a>> {
    let word = required_word(row, words)?;
    let Some(target) = target_named(word) else {
        return Err(Mistake::NoTarget(word, row));
    };
    let conversion = Conversion {
        target,
        spelling: options.spelling(),
    };
    change(alloc, row, options, Change::Conversion(conversion), None)
}

// Returns the request for help on the command that the arguments name, or for all help, or what is wrong with them.
fn help<'a>(row: &'static CommandRow, options: &Options<'a>, words: &'a [String]) -> NoRequest<'a> {
    match only_word(row, words) {
        Ok(None) => NoRequest::Help(None),
        Ok(Some(name)) => match command_named(name) {
            Some(row) => NoRequest::Help(Some(row)),
            None => NoRequest::Wrong(Mistake::UnknownCommand(name, hint(options, name, &[]))),
        },
        Err(mistake) => NoRequest::Wrong(mistake),
    }
}

// Returns the request for a change of the source that the options name, or of the file to change in place, with a note.
fn change<'a>(
    alloc: Global,
    row: &'static CommandRow,
    options: &Options<'a>,
    change: Change,
    note: Option<Note>,
) -> Result<Request, Mistake<'a>> {
    let encoding = options.encoding(row)?;
    // A conversion mends what would be said.
    let latin_1 = options.is_latin_1() && !matches!(change, Change::Conversion(_));
    match options.destination(alloc)? {
        Destination::Printed(source) => Ok(Request::Job(Job {
            encoding,
            latin_1,
            source,
            command: Command::Change(change),
            note,
        })),
        Destination::InPlace(path, missing, verbose) => {
            let file = FileChange {
                path,
                encoding,
                change,
                missing,
                verbose,
            };
            Ok(Request::EditFile(FileEdit {
                file,
                latin_1,
                note,
            }))
        }
    }
}
