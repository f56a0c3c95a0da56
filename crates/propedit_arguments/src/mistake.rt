// Why arguments ask for nothing.

use crate::command_line::{CommandName, CommandRow, OptionName, TypedOption, Usage, command_named};
use crate::kinds::show_no_kind;
use crate::labels::{TARGETS, show_ascii_encoding, show_no_target, show_unknown_encoding};
use crate::meant::Shown;
use crate::other_format::{OtherFormat, show_other_format};
use crate::shell::Quoted;
use crate::typed::Stray;
use crate::wrong_edits::{
    show_no_edit, show_odd, show_odd_name, show_one_text, show_option_for_key_of,
    show_two_assignments,
};
use crate::wrong_options::{
    show_not_with, show_option_after, show_option_for_key, show_taken, show_two_files,
    show_unknown_option,
};
use properties_tools::messages::Escaped;
use std::alloc::{AllocError, AllocFailed};
use std::fmt;

/// Why arguments ask for nothing.
#[derive(Clone, Copy, Debug)]
pub enum NoRequest<'a> {
    /// They ask for help, or for that on a command.
    Help(Option<&'static CommandRow>),
    /// They ask for the version.
    Version,
    Wrong(Mistake<'a>),
}

impl<'a> From<Mistake<'a>> for NoRequest<'a> {
    fn from(mistake: Mistake<'a>) -> Self {
        NoRequest::Wrong(mistake)
    }
}

impl From<AllocError> for NoRequest<'_> {
    fn from(_: AllocError) -> Self {
        NoRequest::Wrong(Mistake::Memory)
    }
}

impl<T: Drop> From<AllocFailed<T>> for NoRequest<'_> {
    fn from(_: AllocFailed<T>) -> Self {
        NoRequest::Wrong(Mistake::Memory)
    }
}

impl<'a> NoRequest<'a> {
    /// Returns the arguments that may be files by mistake, each with the error if it is one.
    pub fn if_files(self) -> [Option<(&'a str, NoRequest<'a>)>; 2] {
        match self {
            NoRequest::Wrong(Mistake::NoEdit(word, Some(stray))) if stray.option().is_none() => [
                if_file(word, stray.with_last_file()),
                if_file(word, stray.with_first_file()),
            ],
            NoRequest::Wrong(Mistake::UnknownCommand(word, Hint::Alone)) => {
                let mistake = Mistake::UnknownCommand(word, Hint::ListFile);
                [Some((word, NoRequest::Wrong(mistake))), None]
            }
            _ => [None, None],
        }
    }
}

// Returns the argument that is taken for a file around one that is no edit, and the error if it is one.
fn if_file<'a>(word: &'a str, stray: Option<Stray<'a>>) -> Option<(&'a str, NoRequest<'a>)> {
    let stray = stray?;
    Some((
        stray.file?,
        NoRequest::Wrong(Mistake::NoEdit(word, Some(stray))),
    ))
}

/// What may be meant by an argument that is no command.
#[derive(Clone, Copy, Debug)]
pub enum Hint {
    Nothing,
    /// Nothing, but it is the only argument, and may be a file.
    Alone,
    /// A file, whose keys may be listed.
    ListFile,
    /// These words.
    Meant(&'static str),
    /// What no command does.
    Never,
    /// A file, before this command.
    File(&'static CommandRow),
    /// An argument of this command, whose name this option took as its value.
    Taken(TypedOption, &'static CommandRow),
}

/// What is wrong with arguments, or that memory ran out.
#[derive(Clone, Copy, Debug)]
pub enum Mistake<'a> {
    /// The bytes of this argument aren't UTF-8.
    NotUtf8(&'a [u8]),
    NoCommand,
    /// There is no command but this one, which this option took as its value.
    CommandTaken(TypedOption, &'static CommandRow),
    /// There is no command before `--`.
    DashesFirst(Hint),
    /// No command has this name.
    UnknownCommand(&'a str, Hint),
    /// This argument is no option, or none of the command before it.
    UnknownOption(&'a str, Option<&'static CommandRow>),
    /// This option, which may stand after this command, requires a value.
    NoOptionValue(TypedOption, Option<&'static CommandRow>),
    /// This option, which may stand after this command, has a value, and takes none.
    OptionValue(TypedOption, Option<&'static CommandRow>),
    /// This option, which may stand after this command, is given twice.
    Twice(TypedOption, Option<&'static CommandRow>),
    /// This command has no use for this option.
    NotWith(TypedOption, &'static CommandRow),
    /// No edit puts in a text, and this option has a use for nothing else.
    NothingToPut(TypedOption, &'static CommandRow),
    /// No edit removes a key, and this option has a use for nothing else.
    NothingToRemove(TypedOption, &'static CommandRow),
    /// These two options exclude each other.
    Both(TypedOption, TypedOption, &'static CommandRow),
    /// A file is given by this option, and others after this command.
    TwoFiles(TypedOption, &'static CommandRow),
    /// No file is edited in place, and this option has a use for nothing else.
    NothingInPlace(TypedOption, &'static CommandRow),
    /// Standard input is to be changed in place, by this option.
    NoFileInPlace(TypedOption, &'static CommandRow),
    /// No encoding has this label, which is given for this command.
    NoEncoding(&'a str, &'static CommandRow),
    /// This label, which is given for this command, means ASCII, which is read as windows-1252.
    AsciiEncoding(&'a str, &'static CommandRow),
    /// No kind that this command can leave out has this name.
    NoKind(&'a str, &'static CommandRow),
    /// No conversion is to this encoding.
    NoTarget(&'a str, &'static CommandRow),
    /// This command requires an encoding to convert to, or a file of pairs.
    NoWord(&'static CommandRow),
    /// Standard input is to be both what is changed, and what has the pairs of this command.
    InputTwice(&'static CommandRow),
    /// This command requires two files.
    FewFiles(&'static CommandRow),
    /// Both files of this command are standard input.
    OneInput(&'static CommandRow),
    /// This command has a base, and no file to check with it.
    NothingToCheck(&'static CommandRow),
    /// After the argument of this command comes what looks like an option.
    OptionAfter(&'a str, &'static CommandRow),
    /// This command has no use for this argument.
    Surplus(&'a str, &'static CommandRow),
    /// This argument, which stands there, is no edit.
    NoEdit(&'a str, Option<Stray<'a>>),
    /// This edit has no key.
    NoKey(&'static str),
    /// The setting of this key, which stands there, has no value.
    NoValue(&'a str, Option<Stray<'a>>),
    /// The renaming of this key, which stands there, has no new key.
    NoNewKey(&'a str, Option<Stray<'a>>),
    /// The comment of this key has no text.
    NoText(&'a str),
    /// These arguments begin with `set` and `comment`, and one command may be meant.
    SetThenComment,
    /// This command has options and no key, which may be meant by an option.
    OptionForKey(&'static CommandRow),
    /// This edit has options and one text, where two are required: the key may be meant by an option.
    OptionForKeyOf(&'a str, &'static CommandRow),
    /// This key of `get` is the name of a file, and a default would hide it.
    FileAsKey(&'a str),
    /// The file of this path, or standard input, was to be merged, and is in this format.
    OtherFormat(Option<&'a str>, OtherFormat),
    /// The key and the value of a setting, which stands there, both look like NAME=TEXT.
    TwoAssignments(&'a str, &'a str, Option<Stray<'a>>),
    /// The key of a setting, which has this value and stands there, is empty, or ends in what ends a key in a file.
    OddKey(&'a str, &'a str, Option<Stray<'a>>),
    /// The same of the new name of this key.
    OddName(&'a str, &'a str, Option<Stray<'a>>),
    /// Memory ran out.
    Memory,
}

impl<'a> Mistake<'a> {
    /// Returns the mistake with the arguments around it, if it is one of an edit.
    pub(crate) fn among(self, stray: Stray<'a>) -> Mistake<'a> {
        let stray = Some(stray);
        match self {
            Mistake::NoEdit(word, _) => Mistake::NoEdit(word, stray),
            Mistake::NoValue(key, _) => Mistake::NoValue(key, stray),
            Mistake::NoNewKey(key, _) => Mistake::NoNewKey(key, stray),
            Mistake::TwoAssignments(key, value, _) => Mistake::TwoAssignments(key, value, stray),
            Mistake::OddKey(key, value, _) => Mistake::OddKey(key, value, stray),
            Mistake::OddName(old, new, _) => Mistake::OddName(old, new, stray),
            other => other,
        }
    }

    /// Returns the usage to print under it: that of the command that was meant, if it tells.
    pub(crate) fn usage(self) -> Usage {
        match self {
            Mistake::UnknownCommand(_, hint) | Mistake::DashesFirst(hint) => hint.usage(),
            Mistake::CommandTaken(_, row)
            | Mistake::UnknownOption(_, Some(row))
            | Mistake::NoOptionValue(_, Some(row))
            | Mistake::OptionValue(_, Some(row))
            | Mistake::Twice(_, Some(row))
            | Mistake::OptionForKey(row)
            | Mistake::OptionForKeyOf(_, row)
            | Mistake::NotWith(_, row)
            | Mistake::NothingToPut(_, row)
            | Mistake::NothingToRemove(_, row)
            | Mistake::Both(_, _, row)
            | Mistake::TwoFiles(_, row)
            | Mistake::NothingInPlace(_, row)
            | Mistake::NoFileInPlace(_, row)
            | Mistake::NoEncoding(_, row)
            | Mistake::AsciiEncoding(_, row)
            | Mistake::NoKind(_, row)
            | Mistake::NoTarget(_, row)
            | Mistake::NoWord(row)
            | Mistake::InputTwice(row)
            | Mistake::FewFiles(row)
            | Mistake::OneInput(row)
            | Mistake::NothingToCheck(row)
            | Mistake::OptionAfter(_, row)
            | Mistake::Surplus(_, row) => Usage::Of(row),
            Mistake::NoKey(name) => usage_of(name),
            Mistake::NoValue(_, _) | Mistake::TwoAssignments(_, _, _) | Mistake::OddKey(_, _, _) =>
                { usage_of("set") }
            Mistake::NoNewKey(_, _) | Mistake::OddName(_, _, _) => usage_of("rename"),
            Mistake::NoText(_) | Mistake::SetThenComment => usage_of("set-comment"),
            Mistake::FileAsKey(_) => usage_of("get"),
            Mistake::OtherFormat(_, _) => usage_of("merge"),
            Mistake::NoEdit(_, _) => Usage::Edits,
            _ => Usage::All,
        }
    }
}

impl Hint {
    fn usage(self) -> Usage {
        match self {
            Hint::File(row) | Hint::Taken(_, row) => Usage::Of(row),
            Hint::ListFile => usage_of("list"),
            Hint::Meant(words) => usage_of(words.split_once(' ').map_or(words, |words| words.0)),
            Hint::Nothing | Hint::Alone | Hint::Never => Usage::All,
        }
    }
}

fn usage_of(name: &str) -> Usage {
    match command_named(name) {
        Some(row) => Usage::Of(row),
        None => Usage::All,
    }
}

impl From<AllocError> for Mistake<'_> {
    ghost use Rattle.std.specs.Prelude.{◌≡◌};
    ghost use Rattle.propedit_arguments.specs.declared.mistake.Mistake.TheVariants.{Memory};

    ghost from_gives = { λ _ mistake. mistake ≡ Memory };

    fn from(_: AllocError) -> Self {
        Mistake::Memory
    }
}

impl<T: Drop> From<AllocFailed<T>> for Mistake<'_> {
    ghost use Rattle.std.specs.Prelude.{◌≡◌};
    ghost use Rattle.propedit_arguments.specs.declared.mistake.Mistake.TheVariants.{Memory};

    ghost from_gives = { λ _ mistake. mistake ≡ Memory };

    fn from(_: AllocFailed<T>) -> Self {
        Mistake::Memory
    }
}

/// Bytes in a message that are not UTF-8: those that are no text are printed as in `\xff`, and all others as an
/// `Escaped` text.
#[derive(Clone, Copy)]
pub(crate) struct EscapedBytes<'a>(pub &'a [u8]);

impl fmt::Display for EscapedBytes<'_> {
    fn fmt<W: fmt::Write>(&self, f: &mut fmt::Formatter<W>) -> fmt::Result {
        for chunk in self.0.utf8_chunks() {
            write!(f, "{}", Escaped(chunk.valid()))?;
            for byte in chunk.invalid() {
                write!(f, "\\x{byte:02x}")?;
            }
        }
        Ok(())
    }
}

impl fmt::Display for Mistake<'_> {
    fn fmt<W: fmt::Write>(&self, f: &mut fmt::Formatter<W>) -> fmt::Result {
        match *self {
            Mistake::NotUtf8(bytes) => {
                write!(f, "the argument '{}' is not UTF-8", EscapedBytes(bytes))
            }
            Mistake::NoCommand => f.write_str("no command"),
            Mistake::CommandTaken(option, row) => {
                f.write_str("no command")?;
                show_taken(f, option, row.name)
            }
            Mistake::UnknownCommand(word, hint) => show_unknown_command(f, word, hint),
            Mistake::DashesFirst(_) => f.write_str("unexpected '--' before the command"),
            Mistake::UnknownOption(word, command) => show_unknown_option(f, word, command),
            Mistake::NoOptionValue(option, _) => {
                let value = option.row.value;
                write!(f, "the option '{option}' requires a {value}")
            }
            Mistake::OptionValue(option, _) => write!(f, "the option '{option}' takes no value"),
            Mistake::Twice(option, _) => write!(f, "the option '{option}' is given twice"),
            Mistake::NotWith(option, row) => show_not_with(f, option, row),
            Mistake::NothingToPut(option, _) => {
                write!(
                    f,
                    "the option '{option}' requires a 'set', 'rename' or 'set-comment'"
                )
            }
            Mistake::NothingToRemove(option, _) => {
                write!(f, "the option '{option}' requires a 'remove'")
            }
            Mistake::Both(one, other, _) => {
                write!(f, "the option '{one}' cannot be used with '{other}'")
            }
            Mistake::TwoFiles(option, row) => show_two_files(f, option, row),
            Mistake::NothingInPlace(option, _) => {
                write!(f, "the option '{option}' requires '-i FILE'")
            }
            Mistake::NoFileInPlace(option, _) => write!(
                f,
                "the option '{option}' requires a file, but '-' is standard input; './-' names a file"
            ),
            Mistake::NoEncoding(label, _) => show_unknown_encoding(f, label),
            Mistake::AsciiEncoding(label, _) => show_ascii_encoding(f, label),
            Mistake::NoKind(name, _) => show_no_kind(f, name),
            Mistake::NoTarget(word, _) => show_no_target(f, word),
            Mistake::NoWord(row) => show_no_word(f, row),
            Mistake::InputTwice(row) => show_input_twice(f, row),
            Mistake::FewFiles(row) => write!(f, "'{}' requires two files: {}", row.name, row.words),
            Mistake::OneInput(row) => show_one_input(f, row),
            Mistake::NothingToCheck(row) => show_nothing_to_check(f, row),
            Mistake::OptionAfter(word, row) => show_option_after(f, word, row),
            Mistake::Surplus(word, row) => show_surplus(f, word, row),
            Mistake::NoEdit(word, stray) => show_no_edit(f, word, stray),
            Mistake::NoKey(name) => write!(f, "'{name}' requires a KEY"),
            Mistake::NoValue(key, stray) => show_one_text(f, "set", key, stray),
            Mistake::NoNewKey(key, stray) => show_one_text(f, "rename", key, stray),
            Mistake::NoText(key) => show_one_text(f, "set-comment", key, None),
            Mistake::SetThenComment => f.write_str("'set comment': did you mean 'set-comment'?"),
            Mistake::OptionForKey(row) => show_option_for_key(f, row),
            Mistake::OptionForKeyOf(key, row) => show_option_for_key_of(f, key, row),
            Mistake::FileAsKey(name) => show_file_as_key(f, name),
            Mistake::OtherFormat(path, format) => show_other_format(f, path, format),
            Mistake::TwoAssignments(key, value, stray) => {
                show_two_assignments(f, key, value, stray)
            }
            Mistake::OddKey(key, value, stray) => {
                show_odd(f, key, Shown("set", key, Some(value)), stray)
            }
            Mistake::OddName(old, new, stray) => show_odd_name(f, old, new, stray),
            Mistake::Memory => f.write_str("Out of memory."),
        }
    }
}

// Prints that an argument is no command, and what may be meant.
fn show_unknown_command<W: fmt::Write>(
    f: &mut fmt::Formatter<W>,
    word: &str,
    hint: Hint,
) -> fmt::Result {
    let shown = Escaped(word);
    if let Hint::ListFile = hint {
        let name = Quoted(word);
        return write!(f, "'{shown}' is a file; did you mean 'list -f {name}'?");
    }
    write!(f, "unknown command '{shown}'")?;
    match hint {
        Hint::Nothing | Hint::Alone | Hint::ListFile => Ok(()),
        Hint::Meant(words) => show_meant(f, "", words),
        Hint::Never => f.write_str("; propedit cannot sort, format or copy"),
        Hint::File(row) if row.is_edit() => {
            write!(f, "; a file is named as in '-i {shown} {}'", row.name)
        }
        Hint::File(row) => write!(f, "; a file is named as in '-f {shown} {}'", row.name),
        Hint::Taken(option, row) => show_taken(f, option, row.name),
    }
}

/// Prints which name may be meant, after these dashes.
pub(crate) fn show_meant<W: fmt::Write>(
    f: &mut fmt::Formatter<W>,
    dashes: &str,
    name: &str,
) -> fmt::Result {
    write!(f, "; did you mean '{dashes}{name}'?")
}

// Prints that standard input can't have the pairs too, and how the file to change is named.
fn show_input_twice<W: fmt::Write>(
    f: &mut fmt::Formatter<W>,
    row: &'static CommandRow,
) -> fmt::Result {
    let name = row.name;
    write!(
        f,
        "'{name} -' reads standard input; '-f FILE' or '-i FILE' names the file to change"
    )
}

// Prints that a base needs a file to check with it.
fn show_nothing_to_check<W: fmt::Write>(
    f: &mut fmt::Formatter<W>,
    row: &'static CommandRow,
) -> fmt::Result {
    let name = row.name;
    write!(
        f,
        "'{name} --base FILE' requires a FILE to check; '-' is standard input"
    )
}

// Prints that standard input can't be both files, and how a file of its name is named.
fn show_one_input<W: fmt::Write>(
    f: &mut fmt::Formatter<W>,
    row: &'static CommandRow,
) -> fmt::Result {
    let name = row.name;
    write!(
        f,
        "at most one file of '{name}' can be standard input, '-'; './-' names a file"
    )
}

// Prints that a command has no use for an argument, and how a file is named.
fn show_surplus<W: fmt::Write>(
    f: &mut fmt::Formatter<W>,
    word: &str,
    row: &'static CommandRow,
) -> fmt::Result {
    write!(
        f,
        "unexpected '{}': '{}' takes {}",
        Escaped(word),
        row.name,
        row.arguments()
    )?;
    if row.options.contains(&OptionName::File) {
        f.write_str("; '-f FILE' names a file")?;
    }
    Ok(())
}

// Prints that a key is the name of a file, and how to read that file.
fn show_file_as_key<W: fmt::Write>(f: &mut fmt::Formatter<W>, name: &str) -> fmt::Result {
    let name = Escaped(name);
    write!(
        f,
        "the KEY '{name}' is the name of a file; '-f {name}' reads it, and '-f -' standard input"
    )
}

// Prints that a command has no argument, and what it may be.
fn show_no_word<W: fmt::Write>(f: &mut fmt::Formatter<W>, row: &'static CommandRow) -> fmt::Result {
    match row.command {
        CommandName::Convert => write!(f, "'{}' requires an ENCODING: {TARGETS}", row.name),
        _ => write!(f, "'{}' requires a {}", row.name, row.words),
    }
}
