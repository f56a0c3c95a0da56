// The commands and options of `propedit`: the arguments that each takes, and what usage and help say of it.

use crate::kinds::KINDS;
use java_properties::Repertoire;
use std::fmt;

const VERSION: &str = "1.28.0";

/// A command.
#[derive(Clone, Copy, Debug, PartialEq, Eq)]
pub enum CommandName {
    Get,
    List,
    Comment,
    Check,
    Diff,
    Set,
    Remove,
    Rename,
    SetComment,
    Merge,
    Convert,
    Help,
}

/// A row of the table of commands.
#[derive(Clone, Copy, Debug)]
pub struct CommandRow {
    pub command: CommandName,
    pub name: &'static str,
    /// The arguments after it, as the usage shows them.
    pub words: &'static str,
    pub help: &'static str,
    /// The options that it has a use for.
    pub options: &'static [OptionName],
    /// What people write for its name.
    pub other_names: &'static [&'static str],
    /// Two examples, as its page shows them.
    pub examples: &'static str,
    /// What its exit statuses mean.
    pub statuses: &'static str,
}

/// An option.
#[derive(Clone, Copy, Debug, PartialEq, Eq)]
pub enum OptionName {
    File,
    InPlace,
    Create,
    Encoding,
    Default,
    Null,
    Values,
    Json,
    Ascii,
    Existing,
    WithComment,
    Known,
    Base,
    Pairs,
    Ignore,
    Quiet,
    Verbose,
    Readable,
    Help,
    Version,
}

/// A row of the table of options.
#[derive(Clone, Copy, Debug)]
pub struct OptionRow {
    pub option: OptionName,
    pub short: Option<char>,
    pub long: &'static str,
    /// What its value is called, or nothing if it takes none.
    pub value: &'static str,
    pub help: &'static str,
}

pub const COMMANDS: &[CommandRow] = &[
    CommandRow {
        command: CommandName::Get,
        name: "get",
        words: "KEY ..",
        help: "Prints the value of each key",
        options: &[
            OptionName::File,
            OptionName::Encoding,
            OptionName::Default,
            OptionName::Null,
        ],
        other_names: &["show", "print", "read", "has", "exists", "contains"],
        examples: "propedit get -f app.properties port\n  \
            propedit get -d 80 -- \"$key\" < app.properties",
        statuses: "0 each KEY was found, or -d is given; 1 one was not; 2 an error",
    },
    CommandRow {
        command: CommandName::List,
        name: "list",
        words: "[PREFIX]",
        help: "Prints each key once, or those that begin with PREFIX",
        options: &[
            OptionName::File,
            OptionName::Encoding,
            OptionName::Null,
            OptionName::Values,
            OptionName::Json,
        ],
        other_names: &["ls", "keys", "find", "grep", "search", "count"],
        examples: "propedit list -f app.properties server.\n  \
            propedit list -v < app.properties",
        statuses: "0 printed; 1 no key begins with PREFIX; 2 an error",
    },
    CommandRow {
        command: CommandName::Comment,
        name: "comment",
        words: "KEY",
        help: "Prints the comment lines directly above a KEY",
        options: &[OptionName::File, OptionName::Encoding],
        other_names: &["describe"],
        examples: "propedit comment -f app.properties port\n  \
            propedit comment -- \"$key\" < app.properties",
        statuses: "0 a pair has KEY; 1 none has; 2 an error",
    },
    CommandRow {
        command: CommandName::Check,
        name: "check",
        words: "[FILE ..]",
        help: "Reports ill-formed lines, bad escapes, repeated keys",
        options: &[
            OptionName::File,
            OptionName::Encoding,
            OptionName::Ascii,
            OptionName::Base,
            OptionName::Pairs,
            OptionName::Ignore,
            OptionName::Quiet,
            OptionName::Json,
        ],
        other_names: &["lint", "validate", "verify", "test"],
        examples: "propedit check -a -- *.properties\n  \
            propedit check --base app.properties app_de.properties",
        statuses: "0 nothing was found; 1 something was; 2 an error",
    },
    CommandRow {
        command: CommandName::Diff,
        name: "diff",
        words: "OLD NEW",
        help: "Prints which values differ between two files",
        options: &[OptionName::Encoding, OptionName::Json],
        other_names: &["compare", "cmp"],
        examples: "propedit diff old.properties new.properties\n  \
            propedit diff -e latin1 - \"$file\" < old.properties",
        statuses: "0 nothing differs; 1 something does; 2 an error",
    },
    CommandRow {
        command: CommandName::Set,
        name: "set",
        words: "KEY VALUE",
        help: "Sets a value, keeps its line's layout; edits may follow",
        options: EDIT_OPTIONS,
        other_names: &[
            "put", "add", "append", "edit", "change", "update", "replace",
        ],
        examples: "propedit set -i app.properties port 8080\n  \
            propedit set -x -i app.properties -- \"$key\" \"$value\"",
        statuses: "0 done; 1 no pair has a KEY, and -x is given; 2 an error",
    },
    CommandRow {
        command: CommandName::Remove,
        name: "remove",
        words: "KEY",
        help: "Removes a key; edits may follow",
        options: EDIT_OPTIONS,
        other_names: &["delete", "del", "rm", "unset"],
        examples: "propedit remove --with-comment -i app.properties port\n  \
            propedit remove port set server.port 8080 < app.properties",
        statuses: "0 done; 1 no pair has a KEY, and -x is given; 2 an error.\n\
            The option -a requires a 'set', 'rename' or 'set-comment'",
    },
    CommandRow {
        command: CommandName::Rename,
        name: "rename",
        words: "OLD NEW",
        help: "Renames a key where it stands; edits may follow",
        options: EDIT_OPTIONS,
        other_names: &["mv", "move", "rekey"],
        examples: "propedit rename -i app.properties login.user user.name\n  \
            propedit rename a b rename b c < app.properties",
        statuses: "0 done; 1 no pair has OLD, or one has NEW; 2 an error",
    },
    CommandRow {
        command: CommandName::SetComment,
        name: "set-comment",
        words: "KEY TEXT",
        help: "Sets the comment lines above a KEY; edits may follow",
        options: EDIT_OPTIONS,
        other_names: &["comment-set", "annotate"],
        examples: "propedit set-comment -i app.properties port 'the front door'\n  \
            propedit set-comment port '' set port 80 < app.properties",
        statuses: "0 done; 1 no pair has KEY; 2 an error",
    },
    CommandRow {
        command: CommandName::Merge,
        name: "merge",
        words: "FILE",
        help: "Sets each pair of FILE; '-' is standard input",
        options: &[
            OptionName::File,
            OptionName::InPlace,
            OptionName::Create,
            OptionName::Encoding,
            OptionName::Null,
            OptionName::Ascii,
            OptionName::Existing,
            OptionName::Known,
            OptionName::Verbose,
        ],
        other_names: &["import", "apply", "overlay", "join"],
        examples: "propedit merge -i app.properties other.properties\n  \
            printf 'pass\\0%s\\0' \"$pass\" | propedit merge -z -i app.properties -",
        statuses: "0 done; 1 no pair has a key of FILE, and -x is given; 2 an error",
    },
    CommandRow {
        command: CommandName::Convert,
        name: "convert",
        words: "ENCODING",
        help: "Converts to utf-8, iso-8859-1, windows-1252 or ascii",
        options: &[
            OptionName::File,
            OptionName::InPlace,
            OptionName::Encoding,
            OptionName::Readable,
        ],
        other_names: &["recode", "encode", "native2ascii"],
        examples: "propedit convert -i app.properties ascii\n  \
            propedit convert -e latin1 utf-8 < old.properties",
        statuses: "0 done; 2 an error",
    },
    CommandRow {
        command: CommandName::Help,
        name: "help",
        words: "[COMMAND]",
        help: "Prints the commands, or the page of one of them",
        options: &[],
        other_names: &["man", "usage"],
        examples: "propedit help\n  propedit help set",
        statuses: "0 printed; 2 an error",
    },
];

const EDIT_OPTIONS: &[OptionName] = &[
    OptionName::File,
    OptionName::InPlace,
    OptionName::Create,
    OptionName::Encoding,
    OptionName::Ascii,
    OptionName::Existing,
    OptionName::WithComment,
    OptionName::Verbose,
];

const OPTIONS: &[OptionRow] = &[
    OptionRow {
        option: OptionName::File,
        short: Some('f'),
        long: "file",
        value: "FILE",
        help: "Reads FILE instead of standard input",
    },
    OptionRow {
        option: OptionName::InPlace,
        short: Some('i'),
        long: "in-place",
        value: "FILE",
        help: "Changes FILE in place (edits, merge and convert)",
    },
    OptionRow {
        option: OptionName::Create,
        short: None,
        long: "create",
        value: "",
        help: "Makes the FILE of -i if it is missing",
    },
    OptionRow {
        option: OptionName::Encoding,
        short: Some('e'),
        long: "encoding",
        value: "NAME",
        help: "utf-8 (default), iso-8859-1, windows-1252, utf-16le/be",
    },
    OptionRow {
        option: OptionName::Default,
        short: Some('d'),
        long: "default",
        value: "VALUE",
        help: "What get prints if no pair has a KEY, with status 0",
    },
    OptionRow {
        option: OptionName::Null,
        short: Some('z'),
        long: "null",
        value: "",
        help: "A zero byte ends each text of get, list and merge's FILE",
    },
    OptionRow {
        option: OptionName::Values,
        short: Some('v'),
        long: "values",
        value: "",
        help: "Has list print KEY=VALUE; with -z, KEY and VALUE",
    },
    OptionRow {
        option: OptionName::Json,
        short: None,
        long: "json",
        value: "",
        help: "Has list, check and diff print JSON",
    },
    OptionRow {
        option: OptionName::Ascii,
        short: Some('a'),
        long: "ascii",
        value: "",
        help: "Has edits write only ASCII, and check report all else",
    },
    OptionRow {
        option: OptionName::Existing,
        short: Some('x'),
        long: "existing",
        value: "",
        help: "Refuses edits of a KEY that no pair has, with status 1",
    },
    OptionRow {
        option: OptionName::WithComment,
        short: None,
        long: "with-comment",
        value: "",
        help: "Has remove take the comment lines above a pair too",
    },
    OptionRow {
        option: OptionName::Known,
        short: None,
        long: "known",
        value: "",
        help: "Has merge leave out keys that no pair has",
    },
    OptionRow {
        option: OptionName::Base,
        short: None,
        long: "base",
        value: "FILE",
        help: "Has check compare the keys with those of FILE",
    },
    OptionRow {
        option: OptionName::Pairs,
        short: None,
        long: "pairs",
        value: "",
        help: "Has check pass over bad escapes in comments",
    },
    OptionRow {
        option: OptionName::Ignore,
        short: None,
        long: "ignore",
        value: "KIND",
        help: "Has check leave out findings of KIND[,KIND ..]",
    },
    OptionRow {
        option: OptionName::Quiet,
        short: Some('q'),
        long: "quiet",
        value: "",
        help: "Has check print nothing: the status tells",
    },
    OptionRow {
        option: OptionName::Verbose,
        short: Some('v'),
        long: "verbose",
        value: "",
        help: "With -i, says on standard error what changed",
    },
    OptionRow {
        option: OptionName::Readable,
        short: Some('r'),
        long: "readable",
        value: "",
        help: "Has convert write characters in place of escapes",
    },
    OptionRow {
        option: OptionName::Help,
        short: Some('h'),
        long: "help",
        value: "",
        help: "Prints this",
    },
    OptionRow {
        option: OptionName::Version,
        short: Some('V'),
        long: "version",
        value: "",
        help: "Prints the version",
    },
];

const EDITED_ENCODINGS: &str = "utf-8 (default), iso-8859-1, windows-1252";

const ABOUT: &str = "Reads, checks, compares, edits and converts Java properties files";

const NOTES: &str = "Options come before or after the command, but before its first argument.\n\
    A first argument that begins with a dash comes after '--', as in 'get -- -Xmx'.\n\
    A byte order mark overrides -e, which also takes other labels, such as latin1.\n\
    Reads standard input and prints on standard output, unless -f or -i is given.\n\
    Status: 0 done or found, 1 not found, or found by check or diff, 2 an error.\n";

/// Returns the row of the command of this name.
pub fn command_named(name: &str) -> Option<&'static CommandRow> {
    COMMANDS.iter().find(|row| row.name == name)
}

/// Returns the row of the command that may be meant by an argument that names none: it is another word for it, or its
/// name in capitals, or misspelt by one letter.
pub fn command_meant(word: &str) -> Option<&'static CommandRow> {
    let is_other = |row: &&CommandRow| {
        row.name.eq_ignore_ascii_case(word) || row.other_names.contains(&word)
    };
    let is_misspelt = |row: &&CommandRow| is_misspelt(row.name.as_bytes(), word.as_bytes());
    match COMMANDS.iter().find(is_other) {
        Some(row) => Some(row),
        None => COMMANDS.iter().find(is_misspelt),
    }
}

// Returns whether one letter that is swapped with the next, lost, added or changed makes the word of the name.
fn is_misspelt(name: &[u8], word: &[u8]) -> bool {
    let is_same = |(one, other): &(&u8, &u8)| one == other;
    let front = name.iter().zip(word).take_while(is_same).count();
    match (
        name.get(front..).unwrap_or(&[]),
        word.get(front..).unwrap_or(&[]),
    ) {
        ([_, name @ ..], word) if name == word => true,
        (name, [_, word @ ..]) if name == word => true,
        ([_, name @ ..], [_, word @ ..]) if name == word => true,
        ([a, b, name @ ..], [c, d, word @ ..]) => a == d && b == c && name == word,
        _ => false,
    }
}

/// Returns the row of the option with this letter. If it is that of several, it is the one that the command takes, or
/// the first.
pub fn option_of(letter: char, command: Option<&'static CommandRow>) -> Option<&'static OptionRow> {
    let first = OPTIONS.iter().find(|row| row.short == Some(letter));
    let Some(command) = command else {
        return first;
    };
    OPTIONS
        .iter()
        .find(|row| row.short == Some(letter) && command.takes(row.option))
        .or(first)
}

/// Returns the row of the option that an argument begins with, before a command or after it.
pub fn option_in(word: &str, command: Option<&'static CommandRow>) -> Option<&'static OptionRow> {
    match word.strip_prefix("--") {
        Some(long) => OPTIONS.iter().find(|row| row.long == name_in(long)),
        None => option_of(word.strip_prefix('-')?.chars().next()?, command),
    }
}

/// Returns what stands before a first `=`.
pub fn name_in(word: &str) -> &str {
    match word.split_once('=') {
        Some((name, _)) => name,
        None => word,
    }
}

/// Returns the row of the option that may be meant by a long name that none has. After a command it is one that this
/// command takes.
pub fn option_meant(
    word: &str,
    command: Option<&'static CommandRow>,
) -> Option<&'static OptionRow> {
    let long = name_in(word.strip_prefix("--")?);
    let meant = OPTIONS.iter().find(|row| is_continued(row.long, long));
    allowed(meant, command)
}

/// Returns a row, unless it is that of an option after a command that doesn't take it.
pub fn allowed(
    row: Option<&'static OptionRow>,
    command: Option<&'static CommandRow>,
) -> Option<&'static OptionRow> {
    match (row, command) {
        (Some(row), Some(command)) if !command.takes(row.option) => None,
        _ => row,
    }
}

// The labels by which the standard means ISO 8859-1, though it reads them as windows-1252.
const LATIN_1_LABELS: &[&str] = &[
    "cp819",
    "csisolatin1",
    "ibm819",
    "iso-8859-1",
    "iso-ir-100",
    "iso8859-1",
    "iso88591",
    "iso_8859-1",
    "iso_8859-1:1987",
    "l1",
    "latin1",
];

/// Returns whether this label of windows-1252, in any case, is one of ISO 8859-1.
pub fn is_latin_1(label: &str) -> bool {
    LATIN_1_LABELS
        .iter()
        .any(|row| row.eq_ignore_ascii_case(label.trim_ascii()))
}

const TARGETS: &[(&str, Repertoire)] = &[
    ("utf-8", Repertoire::Utf8),
    ("iso-8859-1", Repertoire::Latin1),
    ("windows-1252", Repertoire::Windows1252),
    ("ascii", Repertoire::Ascii),
];

/// Returns what a conversion to the encoding of this name, in any case, writes.
pub fn target_named(name: &str) -> Option<Repertoire> {
    for (target, repertoire) in TARGETS {
        if target.eq_ignore_ascii_case(name) {
            return Some(*repertoire);
        }
    }
    None
}

/// Returns whether one of the words begins with the other, and neither is empty.
pub(crate) fn is_continued(name: &str, word: &str) -> bool {
    !word.is_empty() && (name.starts_with(word) || word.starts_with(name))
}

impl CommandRow {
    /// Returns whether an option may stand after it.
    pub(crate) fn takes(&self, option: OptionName) -> bool {
        match option {
            OptionName::Help | OptionName::Version => true,
            _ => self.options.contains(&option),
        }
    }

    // Returns the help of an option. Edits and `comment` don't support UTF-16.
    fn help_of(&self, row: &OptionRow) -> &'static str {
        match (row.option, self.command) {
            (OptionName::Encoding, CommandName::Comment | CommandName::Merge) => EDITED_ENCODINGS,
            (OptionName::Encoding, _) if self.is_edit() => EDITED_ENCODINGS,
            _ => row.help,
        }
    }

    /// Returns what its first argument is, if it may begin with a dash.
    pub(crate) fn first_argument(&self) -> Option<&'static str> {
        match self.command {
            CommandName::Get
            | CommandName::Comment
            | CommandName::Set
            | CommandName::Remove
            | CommandName::Rename
            | CommandName::SetComment => Some("key"),
            CommandName::List => Some("prefix"),
            CommandName::Check | CommandName::Diff | CommandName::Merge => Some("file"),
            CommandName::Convert | CommandName::Help => None,
        }
    }

    /// Returns how many arguments it takes, in words, if it takes a few at most.
    pub(crate) fn arguments(&self) -> &'static str {
        match self.command {
            CommandName::Diff => "two arguments",
            _ => "one argument",
        }
    }

    /// Returns whether it edits.
    pub(crate) fn is_edit(&self) -> bool {
        self.command == CommandName::Remove || self.takes_two_texts()
    }

    /// Returns how many texts it has as an edit.
    pub(crate) fn texts(&self) -> usize {
        if self.takes_two_texts() { 2 } else { 1 }
    }

    /// Returns whether it is an edit of two texts.
    pub(crate) fn takes_two_texts(&self) -> bool {
        matches!(
            self.command,
            CommandName::Set | CommandName::Rename | CommandName::SetComment
        )
    }
}

impl OptionRow {
    /// Returns whether a value belongs to it.
    pub(crate) fn takes_value(&self) -> bool {
        !self.value.is_empty()
    }
}

/// An option as it was typed.
#[derive(Clone, Copy, Debug)]
pub struct TypedOption {
    pub row: &'static OptionRow,
    /// The letter, or `None` if the long name was typed.
    pub letter: Option<char>,
}

impl TypedOption {
    /// Returns the option that it is before this command: a letter may be that of several.
    pub(crate) fn of(self, command: &'static CommandRow) -> TypedOption {
        let meant = match self.letter {
            Some(letter) => option_of(letter, Some(command)),
            None => None,
        };
        TypedOption {
            row: meant.unwrap_or(self.row),
            letter: self.letter,
        }
    }

    /// Returns whether both are one option. A letter may be that of several.
    pub(crate) fn is_same(self, other: TypedOption) -> bool {
        let is_typed = self.letter.is_some() || other.letter.is_some();
        self.row.option == other.row.option || is_typed && self.row.short == other.row.short
    }
}

// Prints the option as messages name it: as it was typed, with what its value is called.
impl fmt::Display for TypedOption {
    fn fmt<W: fmt::Write>(&self, f: &mut fmt::Formatter<W>) -> fmt::Result {
        match self.letter {
            Some(letter) => write!(f, "-{letter}")?,
            None => write!(f, "--{}", self.row.long)?,
        }
        if self.row.takes_value() {
            write!(f, " {}", self.row.value)?;
        }
        Ok(())
    }
}

/// What a usage shows.
#[derive(Clone, Copy, Debug)]
pub enum Usage {
    /// All commands, each with its arguments.
    All,
    /// A command with its arguments.
    Of(&'static CommandRow),
    /// The commands that edit.
    Edits,
}

impl fmt::Display for Usage {
    fn fmt<W: fmt::Write>(&self, f: &mut fmt::Formatter<W>) -> fmt::Result {
        match self {
            Usage::Of(row) => show_usage(f, "Usage:", row),
            Usage::Edits => show_usages(f, true),
            Usage::All => show_usages(f, false),
        }
    }
}

// Prints how each command is written, or each edit.
fn show_usages<W: fmt::Write>(f: &mut fmt::Formatter<W>, edits_only: bool) -> fmt::Result {
    let mut title = "Usage:";
    for row in COMMANDS {
        if !edits_only || row.is_edit() {
            show_usage(f, title, row)?;
            title = "      ";
        }
    }
    Ok(())
}

// Prints after this title how a command is written.
fn show_usage<W: fmt::Write>(
    f: &mut fmt::Formatter<W>,
    title: &str,
    row: &CommandRow,
) -> fmt::Result {
    let options = if row.options.is_empty() {
        ""
    } else {
        "[OPTION ..] "
    };
    let more = if row.is_edit() { MORE_EDITS } else { "" };
    write!(
        f,
        "{title} propedit {} {options}{}{more}\n",
        row.name, row.words
    )
}

const MORE_EDITS: &str = " [EDIT ..]";

const EDITS: &str =
    "An EDIT is set KEY VALUE, remove KEY, rename OLD NEW or set-comment KEY TEXT.\n";

/// What `--help` prints.
#[derive(Clone, Copy)]
pub struct Help;

// Where its second column begins.
const COLUMN: usize = 23;

impl fmt::Display for Help {
    fn fmt<W: fmt::Write>(&self, f: &mut fmt::Formatter<W>) -> fmt::Result {
        write!(
            f,
            "{ABOUT}\n\nUsage: propedit COMMAND [OPTION ..] [ARGUMENT ..]\n\nCommands:\n"
        )?;
        for row in COMMANDS {
            write!(f, "  {} {}", row.name, row.words)?;
            let width = row.name.len().saturating_add(row.words.len());
            show_help(f, width.saturating_add(3), row.help)?;
        }
        f.write_str("\nOptions:\n")?;
        for row in OPTIONS {
            show_option(f, row, row.help)?;
        }
        write!(f, "\n{NOTES}")
    }
}

/// What `help` prints of a command: its page.
#[derive(Clone, Copy)]
pub struct HelpOf(pub &'static CommandRow);

impl fmt::Display for HelpOf {
    fn fmt<W: fmt::Write>(&self, f: &mut fmt::Formatter<W>) -> fmt::Result {
        let command = self.0;
        write!(f, "{}\n\n{}", command.help, Usage::Of(command))?;
        if command.is_edit() {
            f.write_str(EDITS)?;
        }
        f.write_str("\nOptions:\n")?;
        for row in OPTIONS {
            if command.takes(row.option) {
                show_option(f, row, command.help_of(row))?;
            }
        }
        if command.takes(OptionName::Ignore) {
            write!(f, "\n{KINDS}")?;
        }
        write!(
            f,
            "\nExamples:\n  {}\n\nStatus: {}.\n",
            command.examples, command.statuses
        )
    }
}

fn show_option<W: fmt::Write>(
    f: &mut fmt::Formatter<W>,
    row: &OptionRow,
    help: &str,
) -> fmt::Result {
    match row.short {
        Some(letter) => write!(f, "  -{letter}, ")?,
        None => f.write_str("      ")?,
    }
    write!(f, "--{} {}", row.long, row.value)?;
    let width = row.long.len().saturating_add(row.value.len());
    show_help(f, width.saturating_add(9), help)
}

// Prints the help of a row in the second column, after so many characters.
fn show_help<W: fmt::Write>(f: &mut fmt::Formatter<W>, width: usize, help: &str) -> fmt::Result {
    for _ in width..COLUMN {
        f.write_str(" ")?;
    }
    write!(f, " {help}\n")
}

/// What `--version` prints.
#[derive(Clone, Copy)]
pub struct Version;

impl fmt::Display for Version {
    fn fmt<W: fmt::Write>(&self, f: &mut fmt::Formatter<W>) -> fmt::Result {
        write!(f, "propedit {VERSION}\n")
    }
}
