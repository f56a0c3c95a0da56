// Renames many keys of a source, and keeps every other byte.

ghost use Rattle.std.specs.Prelude.{◌≡◌, ◌≢◌, ◌<◌, ◌≤◌, false, List, length, IfErr, IfOk, OnOk};
ghost use Rattle.std.specs.Str.{chars};
ghost use Rattle.properties_editing.specs.Editing.{asked_for};
ghost use Rattle.properties_renaming.specs.Renames.{NewName, RenamesKeys, name_in, names_in, new_name};
ghost use Rattle.properties_format.specs.Computed.Items.{outcome_of};
ghost use Rattle.properties_renaming.specs.Private.Keyed.{value_at, value_of};
ghost use Rattle.properties_items.specs.Errors.{IsBareError};
ghost use Rattle.properties_items.specs.declared.error.ErrorKind.TheVariants as kind;
ghost use Rattle.properties_renaming.specs.Private.Renames.{AddsNames, AreRolesOf, HasRoles, IsInEditableEncoding, Passes, RenamesInTurn, RenamesSome, TellsFirstRefused, TellsMakeable, TellsRefusal, asks, error_at, first_last, last_in};

use crate::copied::{Copied, copy_of};
use crate::keyed::{found_in, give_value, keep_value, key_in, value_at};
use crate::renaming::{NewKey, RenameError, put_key, repertoire_for};
use properties_editing::{SourceOptions, View, edit_with};
use properties_items::error::PropertiesError;
use std::alloc::{AllocError, Global};
use std::collections::BTreeMap;
use std::error::Error;
use std::fmt;

/// A key, and the key that it becomes.
#[derive(Debug, Drop)]
pub struct Rename {
    /// The key that pairs have.
    pub old: String,
    /// The key that they get.
    pub new: String,
}

/// Why [`rename_keys`] renamed nothing, [`set_comments`](crate::set_comments) set nothing, or
/// [`edit_keys`](crate::edit_keys) edited nothing. Renames, comments and edits are counted from 0.
#[derive(Debug, Drop)]
pub enum RenamesError {
    /// The source can't be edited, or memory ran out.
    Source(PropertiesError),
    /// No pair has the old key of the rename with this index, or the key of the comment with this index, in what those
    /// before it left.
    NoKey(usize),
    /// A pair has the new key of the rename with this index already. The second number is the line of the first such pair,
    /// in what those before it left.
    KeyTaken(usize, usize),
}

impl From<PropertiesError> for RenamesError {
    ghost use Rattle.properties_renaming.specs.declared.renames.RenamesError.TheVariants.{Source};

    ghost from_gives = { λ error from. from ≡ Source error };

    fn from(error: PropertiesError) -> RenamesError {
        RenamesError::Source(error)
    }
}

impl fmt::Display for RenamesError {
    fn fmt<W: fmt::Write>(&self, f: &mut fmt::Formatter<W>) -> fmt::Result {
        match self {
            RenamesError::Source(error) => write!(f, "{error}"),
            RenamesError::NoKey(index) => write!(f, "no pair has the key (index = {index})"),
            RenamesError::KeyTaken(index, number) => {
                write!(
                    f,
                    "the new key is there already (index = {index}, line_number = {number})"
                )
            }
        }
    }
}

impl Error for RenamesError {}

/// Returns the source with keys renamed where they stand, one rename after another: each as [`rename_key`] renames in
/// what those before it left.
///
/// The source is read once to check it, and once for all renames, even if some rename the same pairs again (`a` to `b`,
/// then `b` to `c`). A rename to the empty name takes a pass of its own, and the renames before it and after it take one
/// each. A refused rename costs up to two more passes.
///
/// Fails as [`rename_key`] does, and then nothing is renamed. The error tells which rename was refused.
///
/// [`rename_key`]: crate::rename_key
///
/// ```text
/// let renames = [Rename { old: host, new: server }, Rename { old: port, new: server_port }];
/// let renamed = rename_keys(alloc, b"host = a\nport = 80\n", options, &renames)?;
/// // It is `server = a` and `server_port = 80`, each with a line feed.
/// ```
pub fn rename_keys(
    alloc: Global,
    source: &[u8],
    options: SourceOptions,
    renames: &[Rename],
) -> Result<Vec<u8>, RenamesError>
    ensures { RenamesKeys options source.now (names_in renames.now) result }
{
    // Refuses a source that an edit would refuse.
    edit_with(alloc, source, options, &[])?;
    rename_in_turn(alloc, source, options, renames)
}

// Makes renames in turn, a run of them in each pass.
fn rename_in_turn(
    alloc: Global,
    source: &[u8],
    options: SourceOptions,
    renames: &[Rename],
) -> Result<Vec<u8>, RenamesError>
    requires { IsInEditableEncoding options source.now }
    ensures { RenamesInTurn options source.now (names_in renames.now) result }
{
    let mut left = copy_of(alloc, source)?;
    let mut index = 0;
    while index < renames.len() {
        match rename_some(alloc, &left, options, &renames[index..]) {
            Ok(Run { bytes, count }) => {
                left = bytes;
                index += count;
            }
            Err(error) => return Err(error_at(index, error)),
        }
    }
    Ok(left)
}

// Returns the error of the rename with this index.
fn error_at(index: usize, error: RenameError) -> RenamesError
    ensures { result ≡ error_at index error }
{
    match error {
        RenameError::Source(error) => RenamesError::Source(error),
        RenameError::NoKey => RenamesError::NoKey(index),
        RenameError::KeyTaken(number) => RenamesError::KeyTaken(index, number),
    }
}

// A source after the first renames of a list, and how many these are.
#[derive(Drop)]
pub(crate) struct Run {
    pub(crate) bytes: Vec<u8>,
    pub(crate) count: usize,
}

// Makes the first rename of a list, and those after it that the same pass can make.
pub(crate) fn rename_some(
    alloc: Global,
    source: &[u8],
    options: SourceOptions,
    renames: &[Rename],
) -> Result<Run, RenameError>
    requires read { IsInEditableEncoding options source.now }
    requires some { 0 < length renames.now }
    ensures { RenamesSome options source.now renames.now result }
{
    let run = &renames[..run_size(alloc, renames)?];
    let Roles { names, is_makeable } = roles_of(alloc, run)?;
    // `run_size` gives no run that one pass can't make, but this isn't proved.
    if !is_makeable && run.len() > 1 {
        return rename_some(alloc, source, options, &run[..1]);
    }
    let Pass { bytes, lines } = rename_by_roles(alloc, source, options, run, &names)?;
    match first_refused(&names, &lines, run) {
        None => Ok(Run {
            bytes,
            count: run.len(),
        }),
        Some((0, error)) => Err(error),
        Some((index, _)) => rename_some(alloc, source, options, &run[..index]),
    }
}

// What a pass makes of a source, and the line of the first pair with each name of its renames, if there is one.
#[derive(Drop)]
struct Pass {
    bytes: Vec<u8>,
    lines: BTreeMap<String, usize>,
}

// Makes renames in one pass, given the roles of their names.
fn rename_by_roles(
    alloc: Global,
    source: &[u8],
    options: SourceOptions,
    renames: &[Rename],
    roles: &BTreeMap<String, Role>,
) -> Result<Pass, PropertiesError>
    requires { AreRolesOf (names_in renames.now) (names_in renames.now) roles.now.entries }
    ensures { Passes (asked_for options) source.now (names_in renames.now) result }
{
    let mut view = View::open(alloc, source, options.encoding)?;
    let repertoire = repertoire_for(options, view.encoding());
    let mut copied = Copied::new(alloc, source)?;
    let mut lines = BTreeMap::new(alloc);
    let mut first = true;
    while let Some(group) = view.next()? {
        let role = role_of(alloc, roles, renames, view.line())?;
        if role.is_some() {
            keep_value(alloc, &mut lines, view.line(), group.line_number)?;
        }
        if let Some(last) = last_in(role) {
            let key = NewKey {
                repertoire,
                first,
                text: &renames[last].new,
            };
            put_key(alloc, &mut copied, &view, group, key)?;
        }
        first = false;
    }
    let bytes = copied.finish()?;
    Ok(Pass { bytes, lines })
}

// Returns the role of a logical line's key, if the line is a pair and its key has one.
fn role_of(
    alloc: Global,
    roles: &BTreeMap<String, Role>,
    renames: &[Rename],
    line: &str,
) -> Result<Option<Role>, AllocError>
    requires { AreRolesOf (names_in renames.now) (names_in renames.now) roles.now.entries }
    ensures { IfOk result (λ role.
        role ≡ value_of roles.now.entries (outcome_of (chars line.now))) }
{
    let found = found_in(alloc, line)?;
    match key_in(&found, line) {
        Some(key) => Ok(role_at(roles, renames, key)),
        None => Ok(None),
    }
}

// Returns the role of a key, if it has one. For a single rename, comparing its two names is faster than a search.
fn role_at(roles: &BTreeMap<String, Role>, renames: &[Rename], key: &str) -> Option<Role>
    requires { AreRolesOf (names_in renames.now) (names_in renames.now) roles.now.entries }
    ensures { result ≡ value_at roles.now.entries (chars key.now) }
{
    if renames.len() == 1 && !is_named(&renames[0], key) {
        return None;
    }
    value_at(roles, key)
}

// Returns whether a key is one of the names of a rename.
fn is_named(rename: &Rename, key: &str) -> bool
    ensures { result ≡ false →
        (chars key.now ≢ (name_in rename.now).old) × (chars key.now ≢ (name_in rename.now).new) }
{
    key == rename.old.as_str() || key == rename.new.as_str()
}

// Returns the index of the first rename that a source with these pairs refuses, and why it does.
fn first_refused(
    roles: &BTreeMap<String, Role>,
    lines: &BTreeMap<String, usize>,
    renames: &[Rename],
) -> Option<(usize, RenameError)>
    requires { AreRolesOf (names_in renames.now) (names_in renames.now) roles.now.entries }
    ensures { TellsFirstRefused (names_in renames.now) lines.now.entries result }
{
    for (index, rename) in renames.iter().enumerate() {
        if let Some(error) = refusal(roles, lines, &rename.old, &rename.new) {
            return Some((index, error));
        }
    }
    None
}

// Returns why a source with these pairs refuses a rename, if it does.
fn refusal(
    roles: &BTreeMap<String, Role>,
    lines: &BTreeMap<String, usize>,
    old: &str,
    new: &str,
) -> Option<RenameError>
    ensures { (names : List NewName) → AreRolesOf names names roles.now.entries →
        TellsRefusal names lines.now.entries (new_name (chars old.now) (chars new.now)) result }
{
    if asks(value_at(roles, old), true) && value_at(lines, old).is_none() {
        return Some(RenameError::NoKey);
    }
    if !asks(value_at(roles, new), false) {
        return None;
    }
    let number = value_at(lines, new)?;
    Some(RenameError::KeyTaken(number))
}

// What the renames of a list have to do with the pairs of a source that have a name.
#[derive(Clone, Copy)]
struct Role {
    // Whether there has to be such a pair. Otherwise there must be none.
    is_needed: bool,
    // The index of the rename that gives such a pair its last name, if it gets another.
    last: Option<usize>,
}

// The roles of the names in a list, and whether one pass can make all of its renames.
#[derive(Drop)]
struct Roles {
    names: BTreeMap<String, Role>,
    is_makeable: bool,
}

// Returns how many of the first renames one pass can make, as far as their names tell: up to one that gives the empty name,
// renames a key that no pair has any more, or gives one that pairs have by then. It is at least one.
fn run_size(alloc: Global, renames: &[Rename]) -> Result<usize, PropertiesError>
    requires { 0 < length renames.now }
    ensures some { IfOk result (λ size. (0 < size) × (size ≤ length renames.now)) }
    ensures memory { IfErr result (IsBareError kind.Memory) }
{
    let mut is_there: BTreeMap<&str, bool> = BTreeMap::new(alloc);
    for (index, rename) in renames.iter().enumerate() {
        let old = rename.old.as_str();
        let new = rename.new.as_str();
        let is_gone = is_there.get(old) == Some(&false);
        let is_taken = old != new && (new.is_empty() || is_there.get(new) == Some(&true));
        if is_gone || is_taken {
            return Ok(index.max(1));
        }
        is_there.insert(old, false)?;
        is_there.insert(new, true)?;
    }
    Ok(renames.len())
}

// Returns the roles of the names in a list. Its last rename comes first, since the role of a key depends on the one of its
// new name.
fn roles_of(alloc: Global, renames: &[Rename]) -> Result<Roles, PropertiesError>
    ensures are { IfOk result (HasRoles (names_in renames.now)) }
    ensures memory { IfErr result (IsBareError kind.Memory) }
{
    let mut names = BTreeMap::new(alloc);
    let mut is_makeable = true;
    let mut index = renames.len();
    while index > 0 {
        index -= 1;
        let Rename { old, new } = &renames[index];
        is_makeable = is_makeable && is_first_makeable(&names, old, new);
        add_names(alloc, &mut names, index, old, new)?;
    }
    Ok(Roles { names, is_makeable })
}

// Returns whether the pass that makes the renames after a rename, which have these roles, can make it before them.
fn is_first_makeable(roles: &BTreeMap<String, Role>, old: &str, new: &str) -> bool
    ensures { TellsMakeable roles.now.entries (new_name (chars old.now) (chars new.now)) result }
{
    if old == new {
        return !asks(value_at(roles, old), false);
    }
    if new.is_empty() || asks(value_at(roles, old), true) {
        return false;
    }
    !asks(value_at(roles, new), false)
}

// Gives both names of a rename their roles, given those of the renames after it.
fn add_names(
    alloc: Global,
    roles: &mut BTreeMap<String, Role>,
    index: usize,
    old: &str,
    new: &str,
) -> Result<(), AllocError>
    ensures { OnOk result (AddsNames roles.old.entries index
        (new_name (chars old.now) (chars new.now)) roles.new.entries) }
{
    let later = last_in(value_at(roles, new));
    let free = Role {
        is_needed: false,
        last: later,
    };
    let needed = Role {
        is_needed: true,
        last: first_last(old == new, index, later),
    };
    give_value(alloc, roles, new, free)?;
    give_value(alloc, roles, old, needed)?;
    Ok(())
}

// Returns the index of the rename that gives the pairs with the old key of a rename their last name, given the one for its
// new key among those after it.
fn first_last(is_kept: bool, index: usize, later: Option<usize>) -> Option<usize>
    ensures { result ≡ first_last is_kept index later }
{
    if is_kept {
        return later;
    }
    Some(later.unwrap_or(index))
}

// Returns whether a pair has to have a name with this role, or whether none may.
fn asks(role: Option<Role>, is_needed: bool) -> bool
    ensures { result ≡ asks role is_needed }
{
    match role {
        Some(role) => role.is_needed == is_needed,
        None => false,
    }
}

// Returns the index of the rename that gives the pairs with a name of this role their last name, if one does.
fn last_in(role: Option<Role>) -> Option<usize>
    ensures { result ≡ last_in role }
{
    match role {
        Some(role) => role.last,
        None => None,
    }
}
