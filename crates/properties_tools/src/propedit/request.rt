// What the arguments of `propedit` ask for.

use crate::propedit::against::Base;
use java_properties::Encoding;
pub use properties_changing::request::{
    AbsentKeys, Change, Conversion, Edits, FileChange, Missing, NewComments, Removal, Renaming,
    Step, Steps,
};
pub use properties_checking::request::{Allowed, Check, Report};

/// What the arguments ask for.
#[derive(Drop)]
pub enum Request {
    /// A command whose answer is printed.
    Job(Job),
    /// A check of each of these files.
    CheckFiles(CheckedFiles),
    /// A change of a file in place.
    EditFile(FileEdit),
    /// A change by the pairs of another file.
    Merge(Merge),
    /// A comparison of two sources.
    Diff(Comparison),
}

/// A command, and what it is done to.
#[derive(Drop)]
pub struct Job {
    /// The encoding of the source. A byte order mark overrides it.
    pub encoding: Encoding,
    /// Whether Java reads the source as ISO 8859-1, and a line says where it reads it differently.
    pub latin_1: bool,
    /// Where its source is read from.
    pub source: Source,
    /// What is to be done.
    pub command: Command,
    /// What is printed with the answer, if the source bears it out.
    pub note: Option<Note>,
}

/// A change of a file in place, and what is said of the file as it was.
#[derive(Drop)]
pub struct FileEdit {
    pub file: FileChange,
    /// Whether Java reads it as ISO 8859-1, and a line says where it reads it differently.
    pub latin_1: bool,
    /// What is printed after the change, if the file bears it out.
    pub note: Option<Note>,
}

/// Files that are checked one after another.
#[derive(Drop)]
pub struct CheckedFiles {
    /// The encoding of each. A byte order mark overrides it.
    pub encoding: Encoding,
    /// How they are checked.
    pub check: Check,
    /// The file whose keys theirs are compared with.
    pub base: Option<Source>,
    /// Their names, without that of the base. There is one at least, or a base.
    pub paths: Vec<String>,
}

/// A base, which is checked before the files whose keys are compared with its own.
#[derive(Drop)]
pub struct CheckedBase {
    /// Where it is read from.
    pub source: Source,
    /// Its encoding. A byte order mark overrides it.
    pub encoding: Encoding,
    /// How it is checked.
    pub check: Check,
}

/// Two sources that are compared. At most one of them is standard input.
#[derive(Drop)]
pub struct Comparison {
    /// The encoding of each. A byte order mark overrides it.
    pub encoding: Encoding,
    /// Whether Java reads each as ISO 8859-1.
    pub latin_1: bool,
    /// Where the first is read from.
    pub old: Source,
    /// Where the second is read from.
    pub new: Source,
    /// Whether the differences are lines or objects.
    pub report: Report,
}

/// Pairs that are read from a file, and set in a source.
#[derive(Drop)]
pub struct Merge {
    /// Where the pairs come from. It is named.
    pub pairs: Source,
    /// How they are written there.
    pub form: Form,
    /// Whether a file that looks like one in another format is refused.
    pub is_judged: bool,
    /// The encoding of both. A byte order mark overrides it.
    pub encoding: Encoding,
    /// How the pairs are set. There are no edits yet.
    pub edits: Edits,
    /// What they are set in.
    pub destination: Destination,
}

/// How pairs are written.
#[derive(Clone, Copy, Debug, PartialEq, Eq)]
pub enum Form {
    /// As a properties file. Of each key its last value counts.
    Properties,
    /// As texts in UTF-8, keys and values by turns, each with a zero byte after it.
    Texts,
}

/// Where a changed source goes.
#[derive(Drop)]
pub enum Destination {
    /// The source is read from here, and printed after the change.
    Printed(Source),
    /// The file of this name is changed in place, with what is done if there is none, and whether a line says how its
    /// pairs changed.
    InPlace(String, Missing, bool),
}

/// Where the bytes come from.
#[derive(Drop)]
pub enum Source {
    /// Standard input, since no file is named.
    StandardInput,
    /// Standard input, which is named `-`.
    Dash,
    /// The file of this name.
    File(String),
}

/// What is to be done.
#[derive(Drop)]
pub enum Command {
    /// Print the value of each of these keys, or this default if no pair has it. There is one key at least.
    Get(Vec<String>, Option<String>, Terminator),
    /// Print the keys that begin with this prefix, each once, in the order of the file.
    List(String, Terminator),
    /// Print these keys, each with its last value.
    ListValues(String, Terminator),
    /// Print them as one JSON object.
    ListJson(String),
    /// Print the comment of this key.
    Comment(String),
    /// Find what is wrong.
    Check(Check),
    /// Find what is wrong, and which keys only the source or only this base has.
    CheckAgainst(Check, Base),
    /// Print the source after this change.
    Change(Change),
}

/// A line about an argument that may mean something else.
#[derive(Drop)]
pub struct Note {
    pub doubt: Doubt,
    pub line: String,
}

/// An argument that may mean something else.
#[derive(Drop)]
pub enum Doubt {
    /// This KEY, and those that may be meant by it.
    Key(String, Vec<String>),
    /// This PREFIX, and what may be meant by it.
    Prefix(String, String),
    /// A VALUE, if this is the name of a file, or in any case.
    Value(Option<String>),
}

/// What ends a text that is printed.
#[derive(Clone, Copy, Debug, PartialEq, Eq)]
pub enum Terminator {
    LineFeed,
    Nul,
}
