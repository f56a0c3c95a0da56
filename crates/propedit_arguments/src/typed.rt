// The edits of a command line as they are typed, and what follows them.

use crate::command_line::{CommandName, CommandRow, OptionName, command_named, option_in};
use crate::edits::{refuse_odd_name, refuse_slips};
use crate::meant::{Meant, Shown, has_control, is_sign};
use crate::options::Options;
use crate::shell::Quoted;
use std::fmt;

/// An edit as it is typed.
#[derive(Clone, Copy, Debug)]
pub struct TypedEdit<'a> {
    pub row: &'static CommandRow,
    /// All arguments after its command.
    pub words: &'a [String],
    /// Whether `--` comes before its texts.
    pub is_literal: bool,
    /// Its texts, as far as they are there.
    pub texts: &'a [String],
    /// The arguments after it.
    pub after: &'a [String],
}

impl<'a> TypedEdit<'a> {
    /// Returns the edit of this command that the arguments after it begin with.
    pub(crate) fn first(row: &'static CommandRow, words: &'a [String]) -> TypedEdit<'a> {
        let (is_literal, given) = match words {
            [first, others @ ..] if first.as_str() == "--" => (true, others),
            _ => (false, words),
        };
        let count = given.len().min(row.texts());
        TypedEdit {
            row,
            words,
            is_literal,
            texts: given.get(..count).unwrap_or(&[]),
            after: given.get(count..).unwrap_or(&[]),
        }
    }

    // Returns the last of the edits that begin with it, or the first that is refused.
    fn last(self) -> TypedEdit<'a> {
        let mut edit = self;
        // There are no more edits than arguments.
        for _ in self.after {
            let [word, others @ ..] = edit.after else {
                break;
            };
            if edit.is_refused() {
                break;
            }
            let Some(row) = edit_named(word.as_str()) else {
                break;
            };
            edit = TypedEdit::first(row, others);
        }
        edit
    }

    // Returns whether its texts are refused.
    fn is_refused(self) -> bool {
        match self.row.command {
            _ if self.is_literal => false,
            CommandName::Set => refuse_slips(self.texts).is_err(),
            CommandName::Rename => refuse_odd_name(self.texts).is_err(),
            _ => false,
        }
    }

    /// Returns the arguments after it up to the next edit, or to an option.
    pub(crate) fn run(self) -> &'a [String] {
        let end = self.after.iter().position(|word| {
            edit_named(word.as_str()).is_some() || is_option_of(word.as_str(), self.row)
        });
        self.after
            .get(..end.unwrap_or(self.after.len()))
            .unwrap_or(&[])
    }
}

pub(crate) fn edit_named(word: &str) -> Option<&'static CommandRow> {
    command_named(word).filter(|row| row.is_edit())
}

/// The arguments around an edit that is wrong, or around one that is no edit.
#[derive(Clone, Copy, Debug)]
pub struct Stray<'a> {
    /// The command.
    pub row: &'static CommandRow,
    /// All arguments after its options, except the one that is known to be a file. It is empty if no edits are meant by
    /// them.
    pub words: &'a [String],
    /// The wrong edit, or the one before the argument.
    pub edit: TypedEdit<'a>,
    /// The file that an option names.
    pub named: Option<&'a str>,
    /// The argument that is known to be a file.
    pub file: Option<&'a str>,
}

impl<'a> Stray<'a> {
    pub(crate) fn of(
        row: &'static CommandRow,
        options: &Options<'a>,
        words: &'a [String],
    ) -> Stray<'a> {
        Stray {
            row,
            words,
            edit: TypedEdit::first(row, words).last(),
            named: options
                .value(OptionName::InPlace)
                .or(options.value(OptionName::File)),
            file: None,
        }
    }

    /// Returns the first argument.
    pub(crate) fn first(self) -> &'a str {
        self.words.first().map_or("", |word| word.as_str())
    }

    /// Returns whether an argument has a control character.
    pub(crate) fn has_control(self) -> bool {
        self.words.iter().any(has_control)
    }

    /// Returns the edits that all arguments are meant for.
    pub(crate) fn meant(self) -> Meant<'a> {
        Meant::by(self.row, self.words)
    }

    /// Returns the edit that is meant by the wrong one, if it tells, and those after it.
    pub(crate) fn mended(self) -> Option<(Shown<'a>, Meant<'a>)> {
        Meant::by(self.edit.row, self.edit.words).first()
    }

    /// Returns whether the wrong edit and the arguments up to the next one are edits by themselves.
    pub(crate) fn is_run_meant(self) -> bool {
        let left = self.edit.after.len().saturating_sub(self.edit.run().len());
        let count = self.edit.words.len().saturating_sub(left);
        Meant::by(self.edit.row, self.edit.words.get(..count).unwrap_or(&[])).is_whole()
    }

    /// Returns what stands in a hint for the arguments after the edit.
    pub(crate) fn rest(self) -> &'static str {
        if self.edit.after.is_empty() {
            ""
        } else {
            " .."
        }
    }

    /// Returns the same for a file that is the first argument, unless it is a key with a sign after it.
    pub(crate) fn with_first_file(self) -> Option<Stray<'a>> {
        match self.words {
            [_, sign, ..] if is_sign(sign.as_str()) => None,
            [file, others @ ..] => Some(self.with_file(file, others)),
            [] => None,
        }
    }

    /// Returns the same for a file that is the last argument, if edits are meant by the others.
    pub(crate) fn with_last_file(self) -> Option<Stray<'a>> {
        match self.words {
            [others @ .., file] => {
                Some(self.with_file(file, others)).filter(|stray| !stray.words.is_empty())
            }
            [] => None,
        }
    }

    fn with_file(self, file: &'a String, others: &'a [String]) -> Stray<'a> {
        let is_option = others.first().is_some_and(|word| word.starts_with('-'));
        let is_whole = !is_option && Meant::by(self.row, others).is_whole();
        Stray {
            words: if is_whole { others } else { &[] },
            file: Some(file.as_str()),
            ..self
        }
    }

    /// Returns an argument of the last edit or after it that is an option of the command.
    pub(crate) fn option(self) -> Option<&'a str> {
        let texts = if self.edit.is_literal {
            &[]
        } else {
            self.edit.texts
        };
        let mut words = texts.iter().chain(self.edit.after.first());
        let word = words.find(|word| is_option_of(word.as_str(), self.row))?;
        Some(word.as_str())
    }
}

/// The edits that are meant, with the argument that is known to be a file as an option.
impl fmt::Display for Stray<'_> {
    fn fmt<W: fmt::Write>(&self, f: &mut fmt::Formatter<W>) -> fmt::Result {
        f.write_str(self.row.name)?;
        if let Some(file) = self.file {
            write!(f, " -i {}", Quoted(file))?;
        }
        write!(f, "{}", self.meant())
    }
}

/// The edits before a wrong one, as they are typed, with a blank after them.
#[derive(Clone, Copy)]
pub(crate) struct Before<'a>(pub Stray<'a>);

impl fmt::Display for Before<'_> {
    fn fmt<W: fmt::Write>(&self, f: &mut fmt::Formatter<W>) -> fmt::Result {
        let Stray {
            row,
            words,
            edit,
            ..
        } = self.0;
        let before = words.len().saturating_sub(edit.words.len());
        // The last is the command of the wrong edit.
        let [words @ .., _] = words.get(..before).unwrap_or(&[]) else {
            return Ok(());
        };
        write!(f, "{} ", row.name)?;
        for word in words {
            write!(f, "{} ", Quoted(word.as_str()))?;
        }
        Ok(())
    }
}

/// Returns whether an argument would be an option of a command that has some.
pub(crate) fn is_option_of(word: &str, row: &'static CommandRow) -> bool {
    match option_in(word, Some(row)) {
        Some(option) => !row.options.is_empty() && row.takes(option.option),
        None => false,
    }
}
