// Messages about options.

use crate::command_line::{
    CommandName, CommandRow, OptionName, TypedOption, allowed, name_in, option_in, option_meant,
};
use crate::mistake::show_meant;
use properties_tools::messages::Escaped;
use std::fmt;

/// Prints that an option took a command as its value.
pub(crate) fn show_taken<W: fmt::Write>(
    f: &mut fmt::Formatter<W>,
    option: TypedOption,
    command: &str,
) -> fmt::Result {
    write!(f, "; the option '{option}' took '{command}' as its value")
}

/// Prints that an argument is no option, or none of this command, and what may be meant.
pub(crate) fn show_unknown_option<W: fmt::Write>(
    f: &mut fmt::Formatter<W>,
    word: &str,
    command: Option<&'static CommandRow>,
) -> fmt::Result {
    let option = option_in(word, command);
    match (word.starts_with("--"), command, allowed(option, command)) {
        (true, _, _) => write!(f, "unknown option '{}'", Escaped(name_in(word)))?,
        (false, Some(_), None) => write!(f, "unknown option '{}'", Escaped(word))?,
        _ => write!(f, "unknown option in '{}'", Escaped(word))?,
    }
    if let Some(row) = command {
        write!(f, " of '{}'", row.name)?;
        show_dashes(f, row)?;
        if let Some(option) = option {
            show_reading(f, option.option, row)?;
        }
    }
    match (option_meant(word, command), command) {
        (Some(row), _) => show_meant(f, "--", row.long),
        (None, Some(row)) => show_other(f, name_in(word), row),
        (None, None) => Ok(()),
    }
}

// Prints what else may be meant by a long option that this command doesn't take.
fn show_other<W: fmt::Write>(
    f: &mut fmt::Formatter<W>,
    word: &str,
    row: &'static CommandRow,
) -> fmt::Result {
    match (row.command, word) {
        // What sets a comment is a command of its own.
        (CommandName::Comment, "--set") | (CommandName::Set, "--comment") => {
            show_meant(f, "", "set-comment")
        }
        (CommandName::Remove, "--comment" | "--comments") => show_meant(f, "--", "with-comment"),
        _ => Ok(()),
    }
}

/// Prints how the first argument of a command is given if it looks like an option.
pub(crate) fn show_dashes<W: fmt::Write>(
    f: &mut fmt::Formatter<W>,
    row: &'static CommandRow,
) -> fmt::Result {
    match row.first_argument() {
        Some(what) => write!(f, "; a {what} that begins with a dash comes after '--'"),
        None => Ok(()),
    }
}

/// Prints that a command has no use for an option, and how a file is read that was to be edited.
pub(crate) fn show_not_with<W: fmt::Write>(
    f: &mut fmt::Formatter<W>,
    option: TypedOption,
    row: &'static CommandRow,
) -> fmt::Result {
    write!(
        f,
        "the option '{option}' cannot be used with '{}'",
        row.name
    )?;
    show_reading(f, option.row.option, row)
}

/// Prints that files after a command exclude this option.
pub(crate) fn show_two_files<W: fmt::Write>(
    f: &mut fmt::Formatter<W>,
    option: TypedOption,
    row: &'static CommandRow,
) -> fmt::Result {
    let name = row.name;
    write!(
        f,
        "the option '{option}' cannot be used with '{name} FILE ..'"
    )
}

/// Prints where an option belongs that comes too late.
pub(crate) fn show_option_after<W: fmt::Write>(
    f: &mut fmt::Formatter<W>,
    word: &str,
    row: &'static CommandRow,
) -> fmt::Result {
    let word = Escaped(word);
    let name = row.name;
    write!(
        f,
        "unexpected '{word}': options of '{name}' come before the first argument"
    )
}

// Prints how a command reads a file that this option would edit.
fn show_reading<W: fmt::Write>(
    f: &mut fmt::Formatter<W>,
    option: OptionName,
    row: &'static CommandRow,
) -> fmt::Result {
    if option == OptionName::InPlace && row.options.contains(&OptionName::File) {
        return f.write_str("; '-f FILE' reads a file");
    }
    Ok(())
}

/// Prints that a command has no key, and how to write one that was taken for an option.
pub(crate) fn show_option_for_key<W: fmt::Write>(
    f: &mut fmt::Formatter<W>,
    row: &'static CommandRow,
) -> fmt::Result {
    write!(f, "'{}' requires a KEY", row.name)?;
    show_dashes(f, row)
}
