// The options before a command, and those after it.

use crate::command_line::{
    CommandRow, OptionName, TypedOption, allowed, command_named, is_latin_1, option_in, option_of,
};
use crate::labels::means_ascii;
use crate::mistake::{Mistake, NoRequest};
use java_properties::{Encoding, Spelling};
use properties_tools::propedit::request::{
    AbsentKeys, Command, Destination, Form, Job, Missing, Note, Report, Request, Source, Terminator,
};
use std::alloc::{AllocError, Global};

/// The FILE that is standard input.
pub const STANDARD_INPUT: &str = "-";

/// What messages call standard input.
pub(crate) const INPUT: &str = "standard input";

/// The options that are given, each once.
#[derive(Drop)]
pub struct Options<'a> {
    given: Vec<Given<'a>>,
    // The command, once it is read.
    command: Option<&'static CommandRow>,
}

// An option, and its value, which is empty if it takes none.
#[derive(Clone, Copy)]
struct Given<'a> {
    option: TypedOption,
    value: &'a str,
}

/// Returns the options that the arguments begin with, and the arguments after them.
pub fn options_in<'a>(
    alloc: Global,
    words: &'a [String],
) -> Result<(Options<'a>, &'a [String]), NoRequest<'a>> {
    let mut options = Options {
        given: Vec::new(alloc),
        command: None,
    };
    let others = options.add_all(words)?;
    Ok((options, others))
}

// Returns whether an argument is an option where one may stand: it begins with a dash, and is neither `-` nor `--`.
fn is_option(word: &str) -> bool {
    word.starts_with('-') && word != "-" && word != "--"
}

/// Returns the source that a FILE names.
pub fn source_named(alloc: Global, path: &str) -> Result<Source, AllocError> {
    match path {
        STANDARD_INPUT => Ok(Source::Dash),
        _ => Ok(Source::File(String::from_str(alloc, path)?)),
    }
}

impl<'a> Options<'a> {
    /// Adds the options that the arguments after a command begin with, and returns the arguments after them. One that
    /// the command doesn't take is refused, since it may be meant as its first argument.
    pub fn add_after(
        &mut self,
        command: &'static CommandRow,
        words: &'a [String],
    ) -> Result<&'a [String], NoRequest<'a>> {
        self.command = Some(command);
        for given in &mut self.given {
            given.option = given.option.of(command);
        }
        self.add_all(words)
    }

    // Adds the options that the arguments begin with, and returns the arguments after them. The value of an option is
    // the rest of its argument, or else the whole next one, whatever that is.
    fn add_all(&mut self, words: &'a [String]) -> Result<&'a [String], NoRequest<'a>> {
        let mut without_value = None;
        for (at, word) in words.iter().enumerate() {
            let word = word.as_str();
            if let Some(option) = without_value {
                self.add(option, word)?;
                without_value = None;
            } else if is_option(word) {
                without_value = self.add_word(word)?;
            } else {
                return Ok(words.get(at..).unwrap_or(&[]));
            }
        }
        match without_value {
            Some(option) => Err(NoRequest::Wrong(Mistake::NoOptionValue(option, self.command))),
            None => Ok(&[]),
        }
    }

    // Adds the options of an argument, and returns the last of them if its value is the next argument.
    fn add_word(&mut self, word: &'a str) -> Result<Option<TypedOption>, NoRequest<'a>> {
        if word.starts_with("--") {
            self.add_long(word)
        } else {
            self.add_letters(word)
        }
    }

    fn add_long(&mut self, word: &'a str) -> Result<Option<TypedOption>, NoRequest<'a>> {
        let Some(row) = allowed(option_in(word, self.command), self.command) else {
            return Err(NoRequest::Wrong(Mistake::UnknownOption(word, self.command)));
        };
        let option = TypedOption { row, letter: None };
        match word.split_once('=') {
            Some((_, value)) if row.takes_value() => self.add(option, value)?,
            Some(_) => {
                return Err(NoRequest::Wrong(Mistake::OptionValue(option, self.command)));
            }
            None if row.takes_value() => return Ok(Some(option)),
            None => self.add(option, "")?,
        }
        Ok(None)
    }

    fn add_letters(&mut self, word: &'a str) -> Result<Option<TypedOption>, NoRequest<'a>> {
        for (at, letter) in word.char_indices().skip(1) {
            let Some(row) = allowed(option_of(letter, self.command), self.command) else {
                return Err(NoRequest::Wrong(Mistake::UnknownOption(word, self.command)));
            };
            let option = TypedOption {
                row,
                letter: Some(letter),
            };
            if !row.takes_value() {
                self.add(option, "")?;
                continue;
            }
            let value = word.get(at.saturating_add(1)..).unwrap_or("");
            if value.is_empty() {
                return Ok(Some(option));
            }
            self.add(option, value.strip_prefix('=').unwrap_or(value))?;
            return Ok(None);
        }
        Ok(None)
    }

    fn add(&mut self, option: TypedOption, value: &'a str) -> Result<(), NoRequest<'a>> {
        match option.row.option {
            OptionName::Help => return Err(NoRequest::Help(self.command)),
            OptionName::Version => return Err(NoRequest::Version),
            OptionName::File | OptionName::InPlace | OptionName::Base | OptionName::Ignore
                if value.is_empty() => {
                return Err(NoRequest::Wrong(Mistake::NoOptionValue(option, self.command)));
            }
            _ => {}
        }
        if self.given.iter().any(|given| given.option.is_same(option)) {
            return Err(NoRequest::Wrong(Mistake::Twice(option, self.command)));
        }
        self.given.push(Given { option, value })?;
        Ok(())
    }

    fn find(&self, option: OptionName) -> Option<Given<'a>> {
        self.given
            .iter()
            .find(|given| given.option.row.option == option)
            .copied()
    }

    /// Returns an option whose value is the name of a command, and that name: the command may be meant.
    pub fn command_taken(&self) -> Option<(TypedOption, &'static CommandRow)> {
        self.given
            .iter()
            .find_map(|given| Some((given.option, command_named(given.value)?)))
    }

    /// Returns whether an option is given.
    pub fn has(&self, option: OptionName) -> bool {
        self.find(option).is_some()
    }

    /// Returns the value of an option, if it is given.
    pub fn value(&self, option: OptionName) -> Option<&'a str> {
        self.find(option).map(|given| given.value)
    }

    /// Fails if an option is given that the command has no use for, or two that can't be used together.
    pub fn refuse_useless(&self, command: &'static CommandRow) -> Result<(), Mistake<'a>> {
        for given in &self.given {
            if !command.options.contains(&given.option.row.option) {
                return Err(Mistake::NotWith(given.option, command));
            }
        }
        self.refuse_both(OptionName::File, OptionName::InPlace, command)?;
        self.refuse_alone(OptionName::Create, command)?;
        self.refuse_alone(OptionName::Verbose, command)?;
        self.refuse_both(OptionName::Existing, OptionName::Create, command)?;
        self.refuse_both(OptionName::Existing, OptionName::Known, command)?;
        self.refuse_both(OptionName::Known, OptionName::Create, command)?;
        self.refuse_both(OptionName::Json, OptionName::Values, command)?;
        self.refuse_both(OptionName::Json, OptionName::Null, command)?;
        match self.find(OptionName::InPlace) {
            Some(given) if given.value == STANDARD_INPUT => {
                Err(Mistake::NoFileInPlace(given.option, command))
            }
            _ => Ok(()),
        }
    }

    // Fails if an option is given that has a use only with a file that is edited in place, and none is.
    fn refuse_alone(
        &self,
        option: OptionName,
        command: &'static CommandRow,
    ) -> Result<(), Mistake<'a>> {
        match self.find(option) {
            Some(given) if !self.has(OptionName::InPlace) => {
                Err(Mistake::NothingInPlace(given.option, command))
            }
            _ => Ok(()),
        }
    }

    fn refuse_both(
        &self,
        one: OptionName,
        other: OptionName,
        command: &'static CommandRow,
    ) -> Result<(), Mistake<'a>> {
        match (self.find(one), self.find(other)) {
            (Some(one), Some(other)) => Err(Mistake::Both(one.option, other.option, command)),
            _ => Ok(()),
        }
    }

    /// Fails if a file to read is given, for a check of files that are named after it.
    pub fn refuse_file(&self, command: &'static CommandRow) -> Result<(), Mistake<'a>> {
        match self.find(OptionName::File) {
            Some(given) => Err(Mistake::TwoFiles(given.option, command)),
            None => Ok(()),
        }
    }

    /// Fails if ASCII is asked for, for edits that put in no text.
    pub fn refuse_for_text(&self, command: &'static CommandRow) -> Result<(), Mistake<'a>> {
        match self.find(OptionName::Ascii) {
            Some(given) => Err(Mistake::NothingToPut(given.option, command)),
            None => Ok(()),
        }
    }

    /// Fails if comments are to be removed with their pairs, for edits that remove none.
    pub fn refuse_for_removal(&self, command: &'static CommandRow) -> Result<(), Mistake<'a>> {
        match self.find(OptionName::WithComment) {
            Some(given) => Err(Mistake::NothingToRemove(given.option, command)),
            None => Ok(()),
        }
    }

    /// Returns the encoding whose label is given, or UTF-8 if none is. A label that means ASCII is refused: the
    /// standard reads ASCII as windows-1252, which takes any bytes.
    pub fn encoding(&self, command: &'static CommandRow) -> Result<Encoding, Mistake<'a>> {
        match self.value(OptionName::Encoding) {
            Some(label) if means_ascii(label) => Err(Mistake::AsciiEncoding(label, command)),
            Some(label) => match Encoding::for_label(label) {
                Some(encoding) => Ok(encoding),
                None => Err(Mistake::NoEncoding(label, command)),
            },
            None => Ok(Encoding::UTF_8),
        }
    }

    /// Returns whether the encoding is given by a label of ISO 8859-1, as which Java reads a stream of bytes.
    pub fn is_latin_1(&self) -> bool {
        match self.value(OptionName::Encoding) {
            Some(label) => is_latin_1(label),
            None => false,
        }
    }

    /// Returns what is done if the FILE of `-i` is missing. With `--create` it is made.
    pub fn missing(&self) -> Missing {
        if self.has(OptionName::Create) {
            Missing::Create
        } else {
            Missing::Refuse
        }
    }

    /// Returns what ends each text that is printed. With `-z` it is a zero byte.
    pub fn end(&self) -> Terminator {
        if self.has(OptionName::Null) {
            Terminator::Nul
        } else {
            Terminator::LineFeed
        }
    }

    /// Returns how a conversion spells characters. With `-r` it is readable.
    pub fn spelling(&self) -> Spelling {
        if self.has(OptionName::Readable) {
            Spelling::Readable
        } else {
            Spelling::Kept
        }
    }

    /// Returns what is done with edits of a key that no pair of the source has. With `-x` they are refused, and with
    /// `--known` they are left out.
    pub fn absent(&self) -> AbsentKeys {
        if self.has(OptionName::Existing) {
            AbsentKeys::Refused
        } else if self.has(OptionName::Known) {
            AbsentKeys::LeftOut
        } else {
            AbsentKeys::Added
        }
    }

    /// Returns how the pairs of a merge are written. With `-z` they are texts.
    pub fn form(&self) -> Form {
        if self.has(OptionName::Null) {
            Form::Texts
        } else {
            Form::Properties
        }
    }

    /// Returns how what differs, or what is wrong, is printed. With `--json` it is JSON.
    pub fn report(&self) -> Report {
        if self.has(OptionName::Json) {
            Report::Json
        } else {
            Report::Lines
        }
    }

    /// Returns the source that the options name.
    pub fn source(&self, alloc: Global) -> Result<Source, AllocError> {
        match self.value(OptionName::File) {
            None => Ok(Source::StandardInput),
            Some(path) => source_named(alloc, path),
        }
    }

    /// Returns the name of the file that is edited or read, as messages have it.
    pub fn name(&self) -> &'a str {
        match self
            .value(OptionName::InPlace)
            .or(self.value(OptionName::File))
        {
            Some(STANDARD_INPUT) | None => INPUT,
            Some(path) => path,
        }
    }

    /// Returns the request for a command over that source, with a note.
    pub fn job(
        &self,
        alloc: Global,
        row: &'static CommandRow,
        command: Command,
        note: Option<Note>,
    ) -> Result<Request, Mistake<'a>> {
        let source = self.source(alloc)?;
        Ok(Request::Job(Job {
            encoding: self.encoding(row)?,
            latin_1: self.is_latin_1() && !matches!(command, Command::Check(_)),
            source,
            command,
            note,
        }))
    }

    /// Returns where a changed source goes.
    pub fn destination(&self, alloc: Global) -> Result<Destination, AllocError> {
        match self.value(OptionName::InPlace) {
            Some(path) => Ok(Destination::InPlace(
                String::from_str(alloc, path)?,
                self.missing(),
                self.has(OptionName::Verbose),
            )),
            None => Ok(Destination::Printed(self.source(alloc)?)),
        }
    }
}
