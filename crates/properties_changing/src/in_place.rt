//! Files that are edited in place, whole or not at all.

ghost use Rattle.std.specs.Prelude.{◌≡◌, ◌⊎◌, ◌++◌, true, false, codes, string_bytes, if◌then◌else◌, IfErr, IfOk};
ghost use Rattle.std.specs.Option.{is_some};
ghost use Rattle.counted_io.specs.Streams.{IsSameSink};
ghost use Rattle.std.specs.Path.{path_bytes};
ghost use Rattle.properties_text.specs.Encoding.{encoding_of};
ghost use Rattle.properties_changing.specs.InPlace.{problem_display, replace_display, IsChangeLine, IsProblemLine, PrintsChange, PrintsEditError, PrintsProblem, PrintsRefusal};
ghost use Rattle.properties_changing.specs.Private.InPlace.{folder_of, unsynced, EditsBytes, IsCountFailure, IsEditError, IsPresenceAfter, IsRenameProblem, SaysOfSome};

use crate::change::replacement;
use crate::counts::count_changes;
use crate::request::{FileChange, Missing};
use crate::same_file::{is_same_file, refuse_output};
use counted_io::CountedWrite;
use java_properties::Encoding;
use properties_tables::error::{FAILED, Failure, NO_MEMORY, SystemError, print_failure};
use properties_tables::messages::{Escaped, print_line};
use std::alloc::{AllocError, Global};
use std::error::Error;
use std::fmt;
use std::fs::{self, File, Metadata, OpenOptions};
use std::io::{self, ErrorKind, Read, Write};
use std::os::unix::fs::{MetadataExt, OpenOptionsExt, fchown};
use std::os::unix::io::AsFd;
use std::path::Path;

// How many bytes of a file are compared at once.
const BLOCK: usize = 1 << 16;

/// Changes a file in place, and returns the exit status: 0, or 2 after an error, which is printed on `errors` as a
/// line. It is 1 if that error is a key to edit which no pair of the file has, or a new key which one has.
///
/// The file is replaced whole, or stays as it is. Nothing is written if no byte changes. A missing file that
/// may be created counts as empty. If the change is verbose and the status is 0, a line on `errors` says how many pairs
/// changed, or that no byte did. What can't be printed is dropped.
///
/// ```text
/// // If the request is to remove a key of a file:
/// edit_file(&rt, alloc, &file, &mut errors); // 0
/// ```
pub fn edit_file<E: CountedWrite>(
    rt: &HostRuntime,
    alloc: Global,
    file: &FileChange,
    errors: &mut E,
) -> u8
    ensures status { (result ≡ 0) ⊎ ((result ≡ 1) ⊎ (result ≡ 2)) }
    ensures quiet { result ≡ 0 → file.now.verbose ≡ false → errors.new ≡ errors.old }
    ensures says { result ≡ 0 → file.now.verbose ≡ true →
        PrintsChange E.CountedWrite errors.old (string_bytes file.now.path) (encoding_of file.now.encoding) file.now.change errors.new }
    ensures refused { result ≡ 1 →
        PrintsRefusal E.CountedWrite errors.old (string_bytes file.now.path) (encoding_of file.now.encoding) file.now.change errors.new }
    ensures prints { result ≡ 2 → PrintsEditError E.CountedWrite errors.old (string_bytes file.now.path) errors.new }
    ensures same_sink { IsSameSink E.CountedWrite errors.old errors.new }
{
    let path = file.path.as_str();
    match replace_edited(rt, alloc, file) {
        Ok(Some(line)) => {
            print_line(errors, line.as_str());
            0
        }
        Ok(None) => 0,
        Err(EditError::NotEdited(failure)) => {
            print_failure(alloc, errors, path, &failure);
            failure.status()
        }
        Err(EditError::NotReplaced(error)) => print_replace_error(alloc, errors, path, &error),
    }
}

// Why a file is not edited in place.
#[derive(Drop)]
enum EditError {
    NotEdited(Failure),
    NotReplaced(ReplaceError),
}

// Replaces the file, and returns the line that says how it changed, if that is asked for.
fn replace_edited(
    rt: &HostRuntime,
    alloc: Global,
    file: &FileChange,
) -> Result<Option<String>, EditError>
    ensures fails { IfErr result (IsEditError (encoding_of file.now.encoding) file.now.change) }
    ensures says { IfOk result (SaysOfSome file.now) }
{
    let target = match Target::read(rt, alloc, file.path.as_str(), file.missing) {
        Ok(target) => target,
        Err(error) => return Err(EditError::NotEdited(Failure::from(error))),
    };
    let (bytes, said) = match edited(alloc, target.bytes(), file) {
        Ok(made) => made,
        Err(failure) => return Err(EditError::NotEdited(failure)),
    };
    match bytes {
        Some(bytes) => match target.replace(rt, bytes.as_slice()) {
            Ok(()) => Ok(said),
            Err(error) => Err(EditError::NotReplaced(error)),
        },
        None => Ok(said),
    }
}

// Returns the new bytes of a file, if they differ, and that line.
fn edited(
    alloc: Global,
    source: &[u8],
    file: &FileChange,
) -> Result<(Option<Vec<u8>>, Option<String>), Failure>
    ensures { EditsBytes file.now source.now result }
{
    let bytes = replacement(alloc, source, file.encoding, &file.change)?;
    if file.verbose {
        let line = change_line(alloc, file.path.as_str(), source, &bytes, file.encoding)?;
        return Ok((bytes, Some(line)));
    }
    Ok((bytes, None))
}

// Returns the line that says how the pairs of a file changed, or that nothing did.
fn change_line(
    alloc: Global,
    path: &str,
    source: &[u8],
    bytes: &Option<Vec<u8>>,
    encoding: Encoding,
) -> Result<String, Failure>
    ensures line { IfOk result (λ line. IsChangeLine path.now (encoding_of encoding) source.now bytes.now (string_bytes line)) }
    ensures fails { IfErr result (IsCountFailure (encoding_of encoding)) }
{
    let path = Escaped(path);
    match bytes {
        Some(bytes) => {
            let counts = count_changes(alloc, source, bytes, encoding)?;
            Ok(format!(in alloc; "{path}: {counts}\n")?)
        }
        None => Ok(format!(in alloc; "{path}: unchanged\n")?),
    }
}

// Prints why a file is not replaced, or that memory ran out, and returns the exit status of failures.
fn print_replace_error<E: CountedWrite>(
    alloc: Global,
    errors: &mut E,
    path: &str,
    error: &ReplaceError,
) -> u8
    ensures status { result ≡ 2 }
    ensures prints { PrintsProblem E.CountedWrite errors.old path.now error.now errors.new }
    ensures same_sink { IsSameSink E.CountedWrite errors.old errors.new }
{
    match problem_line(alloc, path, error) {
        Ok(line) => print_line(errors, line.as_str()),
        Err(_) => print_line(errors, NO_MEMORY),
    }
    FAILED
}

// Returns the line to print.
#[tactic(auto, using(properties_tables::proofs::FailureMessages::plain_line))]
fn problem_line(alloc: Global, path: &str, error: &ReplaceError) -> Result<String, AllocError>
    ensures { IfOk result (λ line. IsProblemLine path.now error.now (string_bytes line)) }
{
    let path = Escaped(path);
    let problem = format!(in alloc; "{error}")?;
    format!(in alloc; "propedit: {path}: {problem}\n")
}

/// A file that was read, and whose bytes can be replaced.
///
/// ```text
/// let target = Target::read(&rt, alloc, "app.properties", Missing::Refuse)?;
/// let edited = set_key(alloc, target.bytes(), Encoding::UTF_8, "port", "8080")?;
/// target.replace(&rt, edited.as_slice())?;
/// ```
#[derive(Drop)]
pub struct Target {
    path: String,
    // The name of the temporary file, which takes its place.
    temporary: String,
    // `None` if there was no file.
    snapshot: Option<Snapshot>,
}

// A file as it was read.
#[derive(Drop)]
struct Snapshot {
    metadata: Metadata,
    bytes: Vec<u8>,
}

impl Target {
    /// Reads a regular file, or the target of a symbolic link. A missing file that may be created has no bytes. A file
    /// that is standard output too is refused, since a shell has emptied it for `> FILE`.
    pub fn read(
        rt: &HostRuntime,
        alloc: Global,
        path: &str,
        missing: Missing,
    ) -> io::Result<Target> {
        // Nothing can be made at an empty path.
        if missing == Missing::Create && !path.is_empty() && is_missing(rt, path)? {
            return Target::of(alloc, String::from_str(alloc, path)?, None);
        }
        let path = resolve(rt, alloc, path)?;
        refuse_output(rt, path.as_str())?;
        let snapshot = take_snapshot(rt, alloc, path.as_str())?;
        Target::of(alloc, path, Some(snapshot))
    }

    fn of(alloc: Global, path: String, snapshot: Option<Snapshot>) -> io::Result<Target>
        ensures { IfOk result (λ target. (string_bytes target.temporary ≡ string_bytes path ++ codes ".propedit")
            × (target.path ≡ path) × (target.snapshot ≡ snapshot)) }
    {
        let temporary = format!(in alloc; "{path}.propedit")?;
        Ok(Target {
            path,
            temporary,
            snapshot,
        })
    }

    /// Returns the bytes that were read.
    pub fn bytes(&self) -> &[u8] {
        match &self.snapshot {
            Some(snapshot) => snapshot.bytes.as_slice(),
            None => &[],
        }
    }

    /// Replaces the file by these bytes, whole or not at all. Its owner, its group and its mode stay.
    ///
    /// They go to a temporary file beside it, named as it is with `.propedit` after it, which then takes its name.
    /// Whoever opens the file has the old bytes or the new ones, and never a part. Where there was no file, a file that
    /// came in between stays, and the call fails. After success the bytes and the name are on the disk, as far as the
    /// file system can tell.
    pub fn replace(self, rt: &HostRuntime, bytes: &[u8]) -> Result<(), ReplaceError> {
        let file = match create(rt, self.temporary.as_str(), self.creation_mode()) {
            Ok(file) => file,
            Err(error) if error.kind() == ErrorKind::AlreadyExists => {
                return Err(self.into_error(Problem::Held, Presence::Absent));
            }
            Err(error) => {
                return Err(self.into_error(Problem::NotCreated(error), Presence::Absent));
            }
        };
        let created = match file.metadata() {
            Ok(created) => created,
            Err(error) => {
                // Without its metadata, only its name tells which file it is.
                let presence = remove_by_name(rt, self.temporary.as_str());
                return Err(self.into_error(Problem::Inaccessible(error), presence));
            }
        };
        if let Err(problem) = self.put_in_place(rt, file, &created, bytes) {
            let presence = self.remove_temporary(rt, &created);
            return Err(self.into_error(problem, presence));
        }
        // A rename takes the temporary name away, and a hard link doesn't.
        if self.snapshot.is_none() {
            match self.remove_temporary(rt, &created) {
                Presence::Absent => {}
                presence => return Err(self.into_error(Problem::Made, presence)),
            }
        }
        match sync_folder(rt, self.path.as_str()) {
            Ok(()) => Ok(()),
            Err(error) => {
                let problem = self.unsynced(error);
                Err(self.into_error(problem, Presence::Absent))
            }
        }
    }

    fn put_in_place(
        &self,
        rt: &HostRuntime,
        file: File,
        created: &Metadata,
        bytes: &[u8],
    ) -> Result<(), Problem> {
        self.fill(file, created, bytes)?;
        if let Some(snapshot) = &self.snapshot {
            self.check_unchanged(rt, snapshot)?;
        }
        self.check_present(rt, created)?;
        match self.snapshot {
            Some(_) => self.rename(rt),
            None => self.link(rt),
        }
    }

    fn rename(&self, rt: &HostRuntime) -> Result<(), Problem> {
        match fs::rename(rt, self.temporary.as_str(), self.path.as_str()) {
            Ok(()) => Ok(()),
            Err(error) => Err(rename_problem(error)),
        }
    }

    // Gives the temporary file its second name. Unlike a rename, it replaces no file that came in between.
    fn link(&self, rt: &HostRuntime) -> Result<(), Problem> {
        match fs::hard_link(rt, self.temporary.as_str(), self.path.as_str()) {
            Ok(()) => Ok(()),
            Err(error) if error.kind() == ErrorKind::AlreadyExists => Err(Problem::Appeared),
            Err(error) => Err(Problem::NotLinked(error)),
        }
    }

    // Returns the mode to create the file with. A new file gets the mode that the system gives it. One that replaces a
    // file may be read by nobody else until it has that file's mode.
    fn creation_mode(&self) -> u32
        ensures { result ≡ (if is_some self.now.snapshot then 384 else 438) }
    {
        match self.snapshot {
            Some(_) => 0o600,
            None => 0o666,
        }
    }

    // Writes the temporary file to the disk, with the attributes of the old one.
    fn fill(&self, mut file: File, created: &Metadata, bytes: &[u8]) -> Result<(), Problem> {
        if let Err(error) = file.write_all(bytes) {
            return Err(Problem::NotWritten(error));
        }
        if let Some(snapshot) = &self.snapshot {
            keep_attributes(&file, created, &snapshot.metadata)?;
        }
        match file.sync_all() {
            Ok(()) => Ok(()),
            Err(error) => Err(Problem::NotWritten(error)),
        }
    }

    // Fails unless the old file is still as it was read.
    fn check_unchanged(&self, rt: &HostRuntime, snapshot: &Snapshot) -> Result<(), Problem> {
        match is_unchanged(rt, self.path.as_str(), snapshot) {
            Ok(true) => Ok(()),
            Ok(false) => Err(Problem::Changed),
            Err(error) => Err(Problem::NotRead(error)),
        }
    }

    // Fails unless the temporary file is still the one that was created.
    fn check_present(&self, rt: &HostRuntime, created: &Metadata) -> Result<(), Problem> {
        match self.presence(rt, created) {
            Presence::Present => Ok(()),
            Presence::Absent => Err(Problem::Taken),
            Presence::Unknown(error) => Err(Problem::Inaccessible(error)),
        }
    }

    fn presence(&self, rt: &HostRuntime, created: &Metadata) -> Presence {
        match fs::symlink_metadata(rt, self.temporary.as_str()) {
            Ok(now) if is_same_file(&now, created) => Presence::Present,
            Ok(_) => Presence::Absent,
            Err(error) => presence_after(error),
        }
    }

    // Removes the temporary file, unless someone else has removed or replaced it. Returns whether it is left.
    fn remove_temporary(&self, rt: &HostRuntime, created: &Metadata) -> Presence {
        match self.presence(rt, created) {
            Presence::Present => match fs::remove_file(rt, self.temporary.as_str()) {
                Ok(()) => Presence::Absent,
                Err(_) => self.presence(rt, created),
            },
            presence => presence,
        }
    }

    fn unsynced(&self, error: io::Error) -> Problem
        ensures { result ≡ unsynced self.now.snapshot error }
    {
        match self.snapshot {
            Some(_) => Problem::ReplacedUnsynced(error),
            None => Problem::MadeUnsynced(error),
        }
    }

    fn into_error(self, problem: Problem, presence: Presence) -> ReplaceError
        ensures { result ≡ record { problem = problem; temporary = self.temporary; presence = presence } }
    {
        ReplaceError {
            problem,
            temporary: self.temporary,
            presence,
        }
    }
}

// Removes a file that can't be looked at. Returns whether it is left.
fn remove_by_name(rt: &HostRuntime, path: &str) -> Presence {
    match fs::remove_file(rt, path) {
        Ok(()) => Presence::Absent,
        Err(error) => presence_after(error),
    }
}

// Returns what this error tells of the file that was looked at, or was to be removed. Only that nothing has its name
// means that it is gone.
fn presence_after(error: io::Error) -> Presence
    ensures { IsPresenceAfter error result }
{
    if error.kind() == ErrorKind::NotFound {
        return Presence::Absent;
    }
    Presence::Unknown(error)
}

// Returns why a file can't be renamed.
fn rename_problem(error: io::Error) -> Problem
    ensures { IsRenameProblem error result }
{
    if error.kind() == ErrorKind::ResourceBusy {
        return Problem::Busy;
    }
    Problem::NotRenamed(error)
}

// Gives the temporary file the owner, the group and the mode of the old one, through the open file, since someone else
// may have put a link where it was created.
fn keep_attributes(file: &File, created: &Metadata, old: &Metadata) -> Result<(), Problem> {
    if created.uid() != old.uid() {
        if let Err(error) = fchown(file.as_fd(), Some(old.uid()), None) {
            return Err(Problem::Owner(error));
        }
    }
    if created.gid() != old.gid() {
        if let Err(error) = fchown(file.as_fd(), None, Some(old.gid())) {
            return Err(Problem::Group(error));
        }
    }
    // After these, since a change of owner takes some permissions away.
    match keep_mode(file, old) {
        Ok(()) => Ok(()),
        Err(error) => Err(Problem::Mode(error)),
    }
}

fn keep_mode(file: &File, old: &Metadata) -> io::Result<()> {
    file.set_permissions(old.permissions())?;
    // The system may leave a permission out and report no error.
    if file.metadata()?.mode() == old.mode() {
        return Ok(());
    }
    Err(io::Error::from(ErrorKind::PermissionDenied))
}

// Returns whether nothing has this name, not even a link whose target is missing.
fn is_missing(rt: &HostRuntime, path: &str) -> io::Result<bool> {
    match fs::symlink_metadata(rt, path) {
        Ok(_) => Ok(false),
        Err(error) if error.kind() == ErrorKind::NotFound => Ok(true),
        Err(error) => Err(error),
    }
}

// Returns the path of the target if it is a symbolic link, and the path itself otherwise.
fn resolve(rt: &HostRuntime, alloc: Global, path: &str) -> io::Result<String> {
    if !fs::symlink_metadata(rt, path)?.is_symlink() {
        return Ok(String::from_str(alloc, path)?);
    }
    match fs::canonicalize(rt, path) {
        Ok(target) => Ok(target.into_string()),
        Err(error) if error.kind() == ErrorKind::NotFound => {
            let words = "the target of this symbolic link is missing";
            Err(io::Error::new(ErrorKind::NotFound, words))
        }
        Err(error) => Err(error),
    }
}

fn take_snapshot(rt: &HostRuntime, alloc: Global, path: &str) -> io::Result<Snapshot> {
    let (mut file, metadata) = open_regular(rt, path)?;
    let mut bytes = Vec::new(alloc);
    file.read_to_end(&mut bytes)?;
    Ok(Snapshot { metadata, bytes })
}

// Opens a regular file. Its metadata are those of the open file, so they belong to the bytes that are read.
fn open_regular(rt: &HostRuntime, path: &str) -> io::Result<(File, Metadata)> {
    // Before it is opened too, since opening a pipe waits for a writer.
    check_regular(&fs::metadata(rt, path)?)?;
    let file = File::open(rt, path)?;
    let metadata = file.metadata()?;
    check_regular(&metadata)?;
    Ok((file, metadata))
}

fn check_regular(metadata: &Metadata) -> io::Result<()> {
    if metadata.is_file() {
        return Ok(());
    }
    Err(io::Error::new(ErrorKind::InvalidInput, "not a regular file"))
}

// Returns whether the file with this name is the one that was read, with the same bytes and attributes.
fn is_unchanged(rt: &HostRuntime, path: &str, before: &Snapshot) -> io::Result<bool> {
    let (mut file, new) = open_regular(rt, path)?;
    let old = &before.metadata;
    let has_same_attributes = is_same_file(old, &new)
        && old.uid() == new.uid()
        && old.gid() == new.gid()
        && old.mode() == new.mode();
    Ok(has_same_attributes && holds(&mut file, before.bytes.as_slice())?)
}

// Returns whether what is left of a file is these bytes. It compares a block at a time, so it takes no more memory for
// a large file.
fn holds(file: &mut File, bytes: &[u8]) -> io::Result<bool> {
    let mut block = [0u8; BLOCK];
    let mut rest = bytes;
    while !rest.is_empty() {
        let (expected, after) = rest.split_at(rest.len().min(BLOCK));
        let read = &mut block[..expected.len()];
        if !fills(file, read)? || *read != *expected {
            return Ok(false);
        }
        rest = after;
    }
    Ok(!fills(file, &mut block[..1])?)
}

// Reads until the block is full. Returns whether there are as many bytes.
fn fills(file: &mut File, block: &mut [u8]) -> io::Result<bool> {
    match file.read_exact(block) {
        Ok(()) => Ok(true),
        Err(error) if error.kind() == ErrorKind::UnexpectedEof => Ok(false),
        Err(error) => Err(error),
    }
}

// Syncs the folder of a file, so that its new name is on the disk. Some file systems can't, which is no failure.
fn sync_folder(rt: &HostRuntime, path: &str) -> io::Result<()> {
    match File::open(rt, folder_of(path))?.sync_all() {
        Ok(()) => Ok(()),
        Err(error) => match error.kind() {
            ErrorKind::InvalidInput | ErrorKind::Unsupported => Ok(()),
            _ => Err(error),
        },
    }
}

// Returns the folder that a file is in.
fn folder_of(path: &str) -> Path<'_>
    ensures { path_bytes result ≡ folder_of path.now }
{
    match Path::new(path).parent() {
        Some(folder) if !folder.as_str().is_empty() => folder,
        _ => Path::new("."),
    }
}

// Creates a file. Fails if anything has this name.
fn create(rt: &HostRuntime, path: &str, mode: u32) -> io::Result<File> {
    OpenOptions::new()
        .write(true)
        .create_new(true)
        .mode(mode)
        .open(rt, path)
}

/// Why a file was not replaced, or what failed after that.
///
/// It prints what failed, the error of the system, and the name of the temporary file if it is left, or may be.
#[derive(Debug, Drop)]
pub struct ReplaceError {
    problem: Problem,
    temporary: String,
    presence: Presence,
}

// Whether the temporary file has its name.
#[derive(Clone, Copy, Debug)]
enum Presence {
    // It is the file that was created.
    Present,
    // Nothing has this name, or another file.
    Absent,
    // The system can't tell.
    Unknown(io::Error),
}

// What failed.
#[derive(Debug, Drop)]
enum Problem {
    Held,
    NotCreated(io::Error),
    Inaccessible(io::Error),
    NotWritten(io::Error),
    Owner(io::Error),
    Group(io::Error),
    Mode(io::Error),
    NotRead(io::Error),
    Changed,
    Taken,
    NotRenamed(io::Error),
    Busy,
    NotLinked(io::Error),
    Appeared,
    Made,
    ReplacedUnsynced(io::Error),
    MadeUnsynced(io::Error),
}

impl Error for ReplaceError {}

impl fmt::Display for ReplaceError {
    ghost output = { replace_display };

    fn fmt<W: fmt::Write>(&self, f: &mut fmt::Formatter<W>) -> fmt::Result {
        let temporary = self.temporary.as_str();
        let failed = Failed {
            problem: &self.problem,
            temporary,
        };
        let left = Escaped(temporary);
        match self.presence {
            Presence::Present => write!(f, "{failed}; {left} is left"),
            Presence::Absent => write!(f, "{failed}"),
            Presence::Unknown(_) => write!(f, "{failed}; {left} may be left"),
        }
    }
}

// What failed, and the name of the temporary file.
#[derive(Clone, Copy)]
struct Failed<'a> {
    problem: &'a Problem,
    temporary: &'a str,
}

impl fmt::Display for Failed<'_> {
    ghost output = { λ failed. problem_display failed.temporary.now failed.problem.now };

    fn fmt<W: fmt::Write>(&self, f: &mut fmt::Formatter<W>) -> fmt::Result {
        let temporary = Escaped(self.temporary);
        match self.problem {
            Problem::Held => {
                write!(
                    f,
                    "{temporary} exists: another run is at work, or was killed; if none is, remove it"
                )
            }
            Problem::NotCreated(error) => write!(
                f,
                "cannot create {temporary}: {}",
                SystemError(error)
            ),
            Problem::Inaccessible(error) => write!(
                f,
                "cannot access {temporary}: {}",
                SystemError(error)
            ),
            Problem::NotWritten(error) => write!(
                f,
                "cannot write {temporary}: {}",
                SystemError(error)
            ),
            Problem::Owner(error) => write!(f, "cannot keep the owner: {}", SystemError(error)),
            Problem::Group(error) => write!(f, "cannot keep the group: {}", SystemError(error)),
            Problem::Mode(error) => write!(f, "cannot keep the mode: {}", SystemError(error)),
            Problem::NotRead(error) => write!(f, "cannot be read again: {}", SystemError(error)),
            Problem::Changed => f.write_str("changed while it was edited"),
            Problem::Taken => write!(f, "{temporary} was removed or replaced"),
            Problem::NotRenamed(error) => write!(
                f,
                "cannot rename {temporary}: {}",
                SystemError(error)
            ),
            Problem::Busy => f.write_str(
                "is a mount point or in use, so it cannot be replaced; edit a copy, and copy it back with cp",
            ),
            Problem::NotLinked(error) => {
                write!(
                    f,
                    "cannot make a hard link to {temporary}: {}",
                    SystemError(error)
                )
            }
            Problem::Appeared => f.write_str("was made by another program meanwhile"),
            Problem::Made => f.write_str("is made"),
            Problem::ReplacedUnsynced(error) => {
                write!(
                    f,
                    "is replaced, but its folder can't be synced: {}",
                    SystemError(error)
                )
            }
            Problem::MadeUnsynced(error) => {
                write!(
                    f,
                    "is made, but its folder can't be synced: {}",
                    SystemError(error)
                )
            }
        }
    }
}
