// The edits that arguments are meant for, as hints show them.

use crate::command_line::{CommandName, CommandRow};
use crate::edits::{is_assignment, is_odd};
use crate::shell::Quoted;
use crate::typed::{TypedEdit, edit_named};
use std::fmt;

/// What ends a key in a file.
pub(crate) const KEY_ENDS: [char; 5] = [' ', '\t', '\x0c', '=', ':'];

/// An edit as it is typed: its command, and its texts, with `--` before them if they would be refused without.
#[derive(Clone, Copy)]
pub(crate) struct Shown<'a>(pub &'a str, pub &'a str, pub Option<&'a str>);

impl fmt::Display for Shown<'_> {
    fn fmt<W: fmt::Write>(&self, f: &mut fmt::Formatter<W>) -> fmt::Result {
        write!(f, "{} {}", self.0, Texts(*self))
    }
}

// The texts of an edit.
#[derive(Clone, Copy)]
struct Texts<'a>(Shown<'a>);

impl fmt::Display for Texts<'_> {
    fn fmt<W: fmt::Write>(&self, f: &mut fmt::Formatter<W>) -> fmt::Result {
        let Shown(command, key, text) = self.0;
        let writes = match text {
            Some(new) if command == "rename" => new,
            _ => key,
        };
        let is_refused = key.starts_with('-') || key.contains('=') || is_odd(writes);
        let dashes = if is_refused { "-- " } else { "" };
        write!(f, "{dashes}{}", Quoted(key))?;
        match text {
            Some(text) => write!(f, " {}", Quoted(text)),
            None => Ok(()),
        }
    }
}

/// Edits that arguments are meant for. It is printed as the arguments after the first command, with ` ..` for those
/// that tell no edit.
#[derive(Clone, Copy)]
pub(crate) struct Meant<'a> {
    row: &'static CommandRow,
    words: &'a [String],
    // Whether the command isn't typed: it is that of the edit before.
    is_implied: bool,
}

impl<'a> Meant<'a> {
    /// Returns the edits that a command and the arguments after its options are meant for.
    pub(crate) fn by(row: &'static CommandRow, words: &'a [String]) -> Meant<'a> {
        Meant {
            row,
            words,
            is_implied: false,
        }
    }

    // Returns the edits that the arguments after an edit of this command are meant for.
    fn after(row: &'static CommandRow, words: &'a [String]) -> Meant<'a> {
        let next = words.first().and_then(|word| edit_named(word.as_str()));
        match (next, words) {
            (Some(row), [_, others @ ..]) => Meant::by(row, others),
            _ => Meant {
                row,
                words,
                is_implied: true,
            },
        }
    }

    /// Returns whether there are none.
    pub(crate) fn is_none(self) -> bool {
        self.is_implied && self.words.is_empty()
    }

    /// Returns whether each argument is one of an edit, and may be shown.
    pub(crate) fn is_whole(self) -> bool {
        if self.words.iter().any(has_control) {
            return false;
        }
        let mut meant = self;
        // There are no more edits than arguments.
        for _ in self.words {
            let Some((_, others)) = meant.first() else {
                break;
            };
            meant = others;
        }
        meant.is_none()
    }

    /// Returns the first edit, if its arguments tell it, and those after it.
    pub(crate) fn first(self) -> Option<(Shown<'a>, Meant<'a>)> {
        let (shown, rest) = match self.words {
            [text, others @ ..] if self.begins_joined() => {
                let (key, value) = text.split_once('=')?;
                (Shown(self.row.name, key_before(key)?, Some(value)), others)
            }
            [key, ..] if self.is_implied && !self.may_follow(key) => return None,
            _ => self.typed()?,
        };
        Some((shown, Meant::after(self.row, rest)))
    }

    // Returns whether the first argument is a setting by itself, NAME=TEXT.
    fn begins_joined(self) -> bool {
        let [word, others @ ..] = self.words else {
            return false;
        };
        let is_joined = |word: &String| is_assignment(word.as_str());
        let is_last = !others.first().is_some_and(is_text);
        let is_alone = self.is_implied && (is_last || !word.ends_with('='));
        self.row.command == CommandName::Set
            && is_joined(word)
            && (is_alone || others.first().is_some_and(is_joined))
    }

    // Returns whether an argument may be a key whose command isn't typed.
    fn may_follow(self, key: &str) -> bool {
        let is_set = self.row.command == CommandName::Set;
        let is_plain = !is_set || !key.trim_end_matches(KEY_ENDS).contains('=');
        (is_set || self.row.command == CommandName::Remove)
            && self.words.iter().take(self.row.texts()).all(is_text)
            && is_plain
    }

    // Returns the edit whose texts the arguments begin with, and those after them.
    fn typed(self) -> Option<(Shown<'a>, &'a [String])> {
        let edit = TypedEdit::first(self.row, self.words);
        let name = self.row.name;
        match (edit.texts, edit.after) {
            ([text], []) if self.row.takes_two_texts() => {
                Some((pair_in(name, text.as_str())?, &[]))
            }
            ([key], others) => Some((Shown(name, key.as_str(), None), others)),
            ([key, sign], [text, others @ ..])
                if is_sign(sign.as_str())
                    && !edit.is_literal
                    && edit_named(text.as_str()).is_none() => {
                Some((mended(name, key.as_str(), text.as_str())?, others))
            }
            ([key, text], others) if edit.is_literal => {
                Some((Shown(name, key.as_str(), Some(text.as_str())), others))
            }
            ([key, text], others) => Some((mended(name, key.as_str(), text.as_str())?, others)),
            _ => None,
        }
    }
}

impl fmt::Display for Meant<'_> {
    fn fmt<W: fmt::Write>(&self, f: &mut fmt::Formatter<W>) -> fmt::Result {
        let mut meant = *self;
        let mut is_first = true;
        // There are no more edits than arguments.
        for _ in self.words {
            let Some((shown, others)) = meant.first() else {
                break;
            };
            if is_first {
                write!(f, " {}", Texts(shown))?;
            } else {
                write!(f, " {shown}")?;
            }
            (meant, is_first) = (others, false);
        }
        f.write_str(if meant.is_none() { "" } else { " .." })
    }
}

/// Returns whether an argument is hardly an option, a command or nothing.
pub(crate) fn is_text(word: &String) -> bool {
    !word.is_empty() && !word.starts_with('-') && edit_named(word.as_str()).is_none()
}

/// Returns whether an argument has a control character, which no hint can show.
pub(crate) fn has_control(word: &String) -> bool {
    word.chars().any(|character| character.is_control())
}

/// Returns whether a text is what stands between a key and its value in a file.
pub(crate) fn is_sign(text: &str) -> bool {
    matches!(text, "=" | ":")
}

// Returns the edit that is meant by these texts, without what ends a key that it writes.
fn mended<'a>(name: &'static str, key: &'a str, text: &'a str) -> Option<Shown<'a>> {
    match name {
        "set" if is_odd(key) && is_sign(text) => None,
        "set" => Some(Shown(name, key_of(key)?, Some(text))),
        "rename" => Some(Shown(name, key, Some(key_of(text)?))),
        _ => Some(Shown(name, key, Some(text))),
    }
}

// Returns the key that is meant by one that may end in what ends it in a file.
fn key_of(key: &str) -> Option<&str> {
    if is_odd(key) {
        key_before(key)
    } else {
        Some(key)
    }
}

// Returns a key without what ends it, unless it is empty then, or ends in a backslash, to which that may belong.
fn key_before(key: &str) -> Option<&str> {
    let key = key.trim_end_matches(KEY_ENDS);
    if key.is_empty() || key.ends_with('\\') {
        return None;
    }
    Some(key)
}

// Returns the edit that is meant by a text in the form of a pair of a file.
fn pair_in<'a>(name: &'static str, text: &'a str) -> Option<Shown<'a>> {
    let text = text.trim_ascii();
    let (key, rest) = text.split_at(text.find(KEY_ENDS)?);
    let rest = rest.trim_ascii_start();
    let value = rest
        .strip_prefix(['=', ':'])
        .unwrap_or(rest)
        .trim_ascii_start();
    if value.is_empty() && name == "rename" || name == "set-comment" {
        return None;
    }
    Some(Shown(name, key_before(key)?, Some(value)))
}
