// Messages about arguments that are no edits.

use crate::command_line::{CommandName, CommandRow, command_meant};
use crate::edits::is_odd;
use crate::meant::{KEY_ENDS, Shown, is_sign, is_text};
use crate::mistake::show_meant;
use crate::shell::Quoted;
use crate::typed::{Before, Stray, TypedEdit};
use crate::wrong_options::show_dashes;
use properties_tools::messages::Escaped;
use std::fmt;

/// Prints that an argument is no edit, and what may be meant, or what else is wrong around it.
pub(crate) fn show_no_edit<'a, W: fmt::Write>(
    f: &mut fmt::Formatter<W>,
    word: &'a str,
    stray: Option<Stray<'a>>,
) -> fmt::Result {
    match (command_meant(word), stray) {
        (Some(row), _) if row.is_edit() => {
            write!(f, "unknown edit '{}'", Escaped(word))?;
            show_meant(f, "", row.name)
        }
        (None, Some(stray)) if word != "--" => show_stray(f, word, stray),
        (Some(row), Some(stray)) if row.name != word => show_stray(f, word, stray),
        _ => show_any(f, word),
    }
}

// Prints what may be wrong where nothing tells.
fn show_any<W: fmt::Write>(f: &mut fmt::Formatter<W>, word: &str) -> fmt::Result {
    write!(
        f,
        "unknown edit '{}': each edit begins with set, remove, rename or set-comment, \
        options come before the first KEY, and a text of several words needs quotes",
        Escaped(word)
    )
}

// Prints what may be meant by an argument after an edit.
fn show_stray<'a, W: fmt::Write>(
    f: &mut fmt::Formatter<W>,
    word: &'a str,
    stray: Stray<'a>,
) -> fmt::Result {
    let (edit, name) = (stray.edit, stray.edit.row.name);
    if let Some(file) = stray.file {
        return show_file(f, word, file, stray);
    }
    if stray.has_control() {
        return show_any(f, word);
    }
    if let Some(key) = key_before_dashes(edit) {
        let (before, key, text) = (Before(stray), Quoted(key), Quoted(word));
        let meant = "'--' goes before the KEY; did you mean";
        return write!(f, "{meant} '{before}{name} -- {key} {text}'?");
    }
    if let Some(option) = stray.option() {
        let (option, first) = (Escaped(option), Escaped(stray.first()));
        return write!(f, "'{option}' is an option; write it before '{first}'");
    }
    match edit.texts {
        [_, sign] if is_sign(sign.as_str()) && !stray.meant().is_whole() => show_any(f, word),
        [key, sign] if name == "set" && is_sign(sign.as_str()) => {
            let key = Escaped(key.as_str());
            write!(
                f,
                "the VALUE of 'set {key}' is '{sign}'; did you mean '{stray}'?"
            )
        }
        _ if has_no_text(edit) => show_any(f, word),
        [_] => {
            let word = Escaped(word);
            write!(f, "unknown edit '{word}'; did you mean '{stray}'?")
        }
        [_, text] if name != "rename" => show_quotes(f, text.as_str(), stray),
        _ => show_any(f, word),
    }
}

// Returns the key of an edit if `--` comes after it, and then one argument.
fn key_before_dashes<'a>(edit: TypedEdit<'a>) -> Option<&'a str> {
    match (edit.texts, edit.after) {
        ([key, dashes], [_]) if dashes.as_str() == "--" && !edit.is_literal => Some(key.as_str()),
        _ => None,
    }
}

// Returns whether the text of an edit, or an argument after it, is hardly one, or its key. A key that ends in a comma is
// one of a list.
fn has_no_text(edit: TypedEdit<'_>) -> bool {
    let is_no_key = |key: &String| {
        key.ends_with(',') || !edit.is_literal && (key.contains(KEY_ENDS) || !is_text(key))
    };
    let mut texts = edit.texts.iter().skip(1).chain(edit.run());
    !texts.all(is_text) || edit.texts.iter().take(1).any(is_no_key)
}

// Prints how the file is named that an argument is.
fn show_file<'a, W: fmt::Write>(
    f: &mut fmt::Formatter<W>,
    word: &'a str,
    file: &'a str,
    stray: Stray<'a>,
) -> fmt::Result {
    match stray.named {
        None if stray.words.is_empty() => {
            show_any(f, word)?;
            return write!(f, "; '-i {}' names the file", Quoted(file));
        }
        None => write!(f, "'{}' is a file", Escaped(file))?,
        Some(suffix) if suffix.starts_with('.') && file != word && !stray.words.is_empty() => {
            let suffix = Escaped(suffix);
            write!(f, "the FILE of '-i' is '{suffix}', and no copy is made")?;
        }
        Some(_) => return show_any(f, word),
    }
    write!(f, "; did you mean '{stray}'?")
}

// Prints that a text of several words needs quotes, or how several keys are set.
fn show_quotes<'a, W: fmt::Write>(
    f: &mut fmt::Formatter<W>,
    text: &'a str,
    stray: Stray<'a>,
) -> fmt::Result {
    let words = stray.edit.run();
    let is_set = stray.edit.row.command == CommandName::Set;
    let put = match words {
        [other, ..] if is_set && stray.is_run_meant() => {
            let other = Escaped(other.as_str());
            write!(f, "unknown edit '{other}'; did you mean '{stray}', or ")?;
            "?"
        }
        [other, ..] if is_set && !words.iter().all(is_plain) => return show_any(f, other.as_str()),
        [other, ..] => {
            write!(f, "unknown edit '{}'; put ", Escaped(other.as_str()))?;
            ""
        }
        [] => "",
    };
    write!(f, "quotes around '{}", Escaped(text))?;
    for word in words {
        write!(f, " {}", Escaped(word.as_str()))?;
    }
    write!(f, "'{put}")
}

// Returns whether an argument has no sign of a setting.
fn is_plain(word: &String) -> bool {
    !word.contains('=') && !is_odd(word.as_str())
}

/// Prints that an edit of a key has no second text, and how to write a key that was taken for an option.
pub(crate) fn show_option_for_key_of<W: fmt::Write>(
    f: &mut fmt::Formatter<W>,
    key: &str,
    row: &'static CommandRow,
) -> fmt::Result {
    show_one_text(f, row.name, key, None)?;
    show_dashes(f, row)
}

/// Prints that an edit of a key has no second text, and the edits that are meant if it is joined to the key.
pub(crate) fn show_one_text<W: fmt::Write>(
    f: &mut fmt::Formatter<W>,
    name: &str,
    key: &str,
    stray: Option<Stray<'_>>,
) -> fmt::Result {
    let missing = match name {
        "rename" => "new KEY",
        "set-comment" => "TEXT",
        _ => "VALUE",
    };
    write!(f, "'{name} {}' requires a {missing}", Escaped(key))?;
    match stray {
        Some(stray) if stray.meant().is_whole() => write!(f, "; did you mean '{stray}'?"),
        _ => Ok(()),
    }
}

/// Prints that a key is odd, which edits may be meant, and those for the key itself, unless a sign comes after it.
pub(crate) fn show_odd<W: fmt::Write>(
    f: &mut fmt::Formatter<W>,
    key: &str,
    itself: Shown<'_>,
    stray: Option<Stray<'_>>,
) -> fmt::Result {
    show_end(f, key)?;
    let Some(stray) = stray.filter(|stray| !stray.has_control()) else {
        return Ok(());
    };
    let is_mended = stray.mended().is_some();
    if is_mended {
        write!(f, "; use '{stray}'")?;
    }
    if is_mended && itself.2.is_some_and(is_sign) {
        return Ok(());
    }
    let or = if is_mended { ", or" } else { ";" };
    let (shown, before, rest) = (Escaped(key), Before(stray), stray.rest());
    write!(
        f,
        "{or} for the key '{shown}' itself, write '{before}{itself}{rest}'"
    )
}

// Prints in what a key ends.
fn show_end<W: fmt::Write>(f: &mut fmt::Formatter<W>, key: &str) -> fmt::Result {
    let shown = Escaped(key);
    match key.chars().next_back() {
        None => f.write_str("the KEY is empty"),
        Some(sign) if matches!(sign, '=' | ':') => {
            write!(f, "the KEY '{shown}' ends in '{sign}'")
        }
        Some(_) => write!(f, "the KEY '{shown}' ends in a blank"),
    }
}

/// Prints that the new name of a key is odd, and which edits may be meant.
pub(crate) fn show_odd_name<W: fmt::Write>(
    f: &mut fmt::Formatter<W>,
    old: &str,
    new: &str,
    stray: Option<Stray<'_>>,
) -> fmt::Result {
    match stray {
        Some(stray) if is_sign(new) && stray.mended().is_some() && !stray.has_control() => {
            let old = Escaped(old);
            write!(
                f,
                "the new KEY of 'rename {old}' is '{new}'; did you mean '{stray}'?"
            )
        }
        _ => show_odd(f, new, Shown("rename", old, Some(new)), stray),
    }
}

/// Prints that a key and a value look like two settings, how to write these, and how to write the key.
pub(crate) fn show_two_assignments<W: fmt::Write>(
    f: &mut fmt::Formatter<W>,
    key: &str,
    value: &str,
    stray: Option<Stray<'_>>,
) -> fmt::Result {
    write!(f, "'set {} {}'", Escaped(key), Escaped(value))?;
    let Some(stray) = stray.filter(|stray| !stray.has_control()) else {
        return f.write_str(": each key is set by 'set KEY VALUE'");
    };
    let itself = Shown("set", key, Some(value));
    let (key, before, rest) = (Escaped(key), Before(stray), stray.rest());
    if stray.mended().is_some() {
        write!(f, ": did you mean '{stray}'? For")?;
    } else {
        f.write_str(": for")?;
    }
    write!(f, " the key '{key}', write '{before}{itself}{rest}'")
}
