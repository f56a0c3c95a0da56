// What a change is asked for.

use java_properties::{Edit, Encoding, NewComment, Rename, Repertoire, Spelling};

/// A file that is changed in place.
#[derive(Drop)]
pub struct FileChange {
    pub path: String,
    /// The encoding of the file. A byte order mark overrides it.
    pub encoding: Encoding,
    pub change: Change,
    /// What is done if there is no such file.
    pub missing: Missing,
    /// Whether a line says how its pairs changed.
    pub verbose: bool,
}

/// A change of a source.
#[derive(Drop)]
pub enum Change {
    /// Make these edits.
    Edits(Edits),
    /// Make these steps in turn.
    Steps(Steps),
    /// Convert it.
    Conversion(Conversion),
}

/// Steps of a change. Each is made to what the one before it left.
#[derive(Drop)]
pub struct Steps {
    pub first: Step,
    pub others: Vec<Step>,
}

/// A step of a change.
#[derive(Drop)]
pub enum Step {
    /// Make these edits.
    Edits(Edits),
    /// Remove keys with their comments.
    Removal(Removal),
    /// Rename keys.
    Renaming(Renaming),
    /// Set comments of keys.
    NewComments(NewComments),
}

/// Keys that are renamed where they stand, and how the new ones are written.
#[derive(Drop)]
pub struct Renaming {
    /// They are renamed in order.
    pub list: Vec<Rename>,
    /// Whether the new keys are ASCII-only.
    pub ascii_only: bool,
    /// Whether they have only characters whose bytes ISO 8859-1 reads alike.
    pub latin_1: bool,
}

/// Edits, and how they are written.
#[derive(Drop)]
pub struct Edits {
    /// They are made in order. Each sets a value or removes a key.
    pub list: Vec<Edit>,
    /// Whether what they put in is ASCII-only.
    pub ascii_only: bool,
    /// Whether it has only characters whose bytes ISO 8859-1 reads alike.
    pub latin_1: bool,
    /// What is done with those of a key that no pair of the source has.
    pub absent: AbsentKeys,
}

/// What is done with edits of a key that no pair of the source has.
#[derive(Clone, Copy, Debug, PartialEq, Eq)]
pub enum AbsentKeys {
    /// They are made: a key that is set is added.
    Added,
    /// All edits are refused.
    Refused,
    /// They are left out.
    LeftOut,
}

/// A conversion, which keeps all but the encoding and the spelling of characters.
#[derive(Clone, Copy, Debug, PartialEq, Eq)]
pub struct Conversion {
    /// The characters that are written as they are. All others are written as escapes.
    pub target: Repertoire,
    /// Whether those that are spelt as escapes become characters.
    pub spelling: Spelling,
}

/// What is done if a file that is to be changed is missing.
#[derive(Clone, Copy, Debug, PartialEq, Eq)]
pub enum Missing {
    /// It is an error.
    Refuse,
    /// The file is taken as empty, and made.
    Create,
}

/// Keys that are removed, with the comment lines directly above each of their pairs.
#[derive(Drop)]
pub struct Removal {
    pub keys: Vec<String>,
    /// What is done if no pair of the source has one of them. Unless that is refused, such a key changes nothing.
    pub absent: AbsentKeys,
}

/// Keys whose comments are set, and how the comments are written.
#[derive(Drop)]
pub struct NewComments {
    /// Of several for one key, the last one counts.
    pub list: Vec<NewComment>,
    /// Whether what is put in is ASCII-only.
    pub ascii_only: bool,
    /// Whether it has only characters whose bytes ISO 8859-1 reads alike.
    pub latin_1: bool,
}
