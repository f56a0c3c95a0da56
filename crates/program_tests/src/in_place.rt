// Files that are edited in place.

use crate::same::{Bytes, same};
use properties_tools::propedit::in_place::Target;
use properties_tools::propedit::request::Missing;
use std::fs::{self, File, Permissions};
use std::io::{self, Read, Write};
use std::os::unix::fs::{MetadataExt, PermissionsExt, symlink};
use std::process::Abort;
use std::test::Fail;

// The bytes of a file, and its permissions.
type State<'a> = (&'a [u8], u32);

fn set_mode(rt: &HostRuntime, path: &str, mode: u32) -> io::Result<()> {
    fs::set_permissions(rt, path, Permissions::from_mode(mode))
}

// Makes a file, unless a test that was cut off has left one.
fn make(rt: &HostRuntime, path: &str, (bytes, mode): State<'_>) -> io::Result<()> {
    let _ = fs::remove_file(rt, path);
    File::create_new(rt, path)?.write_all(bytes)?;
    set_mode(rt, path, mode)
}

fn content(rt: &HostRuntime, path: &str) -> io::Result<Vec<u8>> {
    let mut bytes = Vec::new(rt.alloc());
    File::open(rt, path)?.read_to_end(&mut bytes)?;
    Ok(bytes)
}

// What there is after a file was to be replaced: the text of the error, or nothing; the bytes that were read; those of
// the file, its permissions, and whether a new file is left beside it.
#[derive(Drop)]
struct Outcome {
    said: String,
    read: Vec<u8>,
    bytes: Vec<u8>,
    mode: u32,
    is_left: bool,
}

// Puts these bytes into a file that was read.
fn replace(rt: &HostRuntime, target: Target, path: &str, bytes: &[u8]) -> Result<Outcome, Fail> {
    let alloc = rt.alloc();
    let read = target.bytes().to_vec(alloc)?;
    let said = match target.replace(rt, bytes) {
        Ok(()) => String::new(alloc),
        Err(error) => format!(in alloc; "{error}")?,
    };
    let beside = format!(in alloc; "{path}.propedit")?;
    Ok(Outcome {
        said,
        read,
        bytes: content(rt, path)?,
        mode: fs::metadata(rt, path)?.permissions().mode() & 0o7777,
        is_left: fs::exists(rt, beside.as_str())?,
    })
}

// The text of the error, or nothing; the bytes that were read; and the state that the file is left in, alone.
type Wanted<'a> = (&'a str, &'a [u8], State<'a>);

fn check_outcome(abort: &impl Abort, row: usize, outcome: &Outcome, wanted: Wanted<'_>) {
    let found = (
        Bytes(outcome.read.as_slice()),
        outcome.said.as_str(),
        Bytes(outcome.bytes.as_slice()),
        outcome.mode,
        outcome.is_left,
    );
    let (said, read, (bytes, mode)) = wanted;
    let wanted = (Bytes(read), said, Bytes(bytes), mode, false);
    same(abort, row, found, wanted);
}

#[test]
fn a_replaced_file_keeps_its_permissions(rt: HostRuntime) -> Result<(), Fail> {
    let path = "kept.properties";
    let bytes = b"port = 80\n".as_slice();
    for (number, mode) in (1usize..).zip([0o600, 0o644, 0o664, 0o640]) {
        make(&rt, path, (bytes, mode))?;
        let target = Target::read(&rt, rt.alloc(), path, Missing::Refuse)?;
        let outcome = replace(&rt, target, path, b"port=8080\n")?;
        let wanted = ("", bytes, (b"port=8080\n".as_slice(), mode));
        check_outcome(&rt, number, &outcome, wanted);
    }
    fs::remove_file(&rt, path)?;
    Ok(())
}

const CHANGED: &str = "changed while it was edited";

// Reads a file in the first state, brings it into the second, and then puts other bytes into it.
fn change(rt: &HostRuntime, path: &str, read: State<'_>, now: State<'_>) -> Result<Outcome, Fail> {
    make(rt, path, read)?;
    let target = Target::read(rt, rt.alloc(), path, Missing::Refuse)?;
    let (bytes, mode) = now;
    File::create(rt, path)?.write_all(bytes)?;
    set_mode(rt, path, mode)?;
    replace(rt, target, path, b"a=2")
}

// The states that a file is in by the time that it is to be replaced.
const STATES: &[State<'static>] = &[(b"a=3", 0o644), (b"a=1", 0o600)];

#[test]
fn a_file_that_changed_meanwhile_stays(rt: HostRuntime) -> Result<(), Fail> {
    let path = "changed.properties";
    for (number, now) in (1usize..).zip(STATES) {
        let outcome = change(&rt, path, (b"a=1", 0o644), *now)?;
        check_outcome(&rt, number, &outcome, (CHANGED, b"a=1", *now));
    }
    fs::remove_file(&rt, path)?;
    Ok(())
}

fn large(rt: &HostRuntime, size: usize, last: u8) -> Result<Vec<u8>, Fail> {
    let mut bytes = Vec::new(rt.alloc());
    bytes.resize(size, b'#')?;
    bytes.push(last)?;
    Ok(bytes)
}

const BLOCK: usize = 1 << 16;

// How many bytes a file has before a last `#` when it is read, and then before this last one. What is compared ends
// before, at and after the end of a block.
const SIZES: &[(usize, usize, u8)] = &[
    (BLOCK - 1, BLOCK - 1, b'#'),
    (BLOCK - 1, BLOCK, b'#'),
    (BLOCK - 1, BLOCK - 1, b'!'),
    (BLOCK, BLOCK - 1, b'#'),
    (BLOCK, BLOCK, b'#'),
    (BLOCK, BLOCK, b'!'),
    (2 * BLOCK - 1, 2 * BLOCK - 1, b'#'),
    (2 * BLOCK - 1, BLOCK - 1, b'#'),
];

// It is replaced if it is the same.
#[test]
fn a_large_file_is_compared_to_its_end(rt: HostRuntime) -> Result<(), Fail> {
    let path = "large.properties";
    for (number, row) in (1usize..).zip(SIZES) {
        let (before, now, last) = *row;
        let read = large(&rt, before, b'#')?;
        let bytes = large(&rt, now, last)?;
        let (read, bytes) = (read.as_slice(), bytes.as_slice());
        let outcome = change(&rt, path, (read, 0o644), (bytes, 0o644))?;
        let wanted = if before == now && last == b'#' {
            ("", read, (b"a=2".as_slice(), 0o644))
        } else {
            (CHANGED, read, (bytes, 0o644))
        };
        check_outcome(&rt, number, &outcome, wanted);
    }
    fs::remove_file(&rt, path)?;
    Ok(())
}

// The link stays a link, and its target a file, which takes the bytes.
#[test]
fn the_target_of_a_link_is_replaced(rt: HostRuntime) -> Result<(), Fail> {
    let (path, link) = ("target.properties", "link.properties");
    make(&rt, path, (b"a=1", 0o644))?;
    let _ = fs::remove_file(&rt, link);
    symlink(&rt, path, link)?;
    let target = Target::read(&rt, rt.alloc(), link, Missing::Refuse)?;
    let outcome = replace(&rt, target, path, b"a=2")?;
    check_outcome(&rt, 1, &outcome, ("", b"a=1", (b"a=2", 0o644)));
    let is_link = fs::symlink_metadata(&rt, link)?.is_symlink();
    let is_file = fs::symlink_metadata(&rt, path)?.is_file();
    same(&rt, 1, (is_link, is_file), (true, true));
    fs::remove_file(&rt, link)?;
    fs::remove_file(&rt, path)?;
    Ok(())
}

#[test]
fn a_file_that_another_program_made_meanwhile_stays(rt: HostRuntime) -> Result<(), Fail> {
    let path = "appeared.properties";
    let _ = fs::remove_file(&rt, path);
    let target = Target::read(&rt, rt.alloc(), path, Missing::Create)?;
    make(&rt, path, (b"a=3", 0o644))?;
    let outcome = replace(&rt, target, path, b"a=2")?;
    let said = "was made by another program meanwhile";
    check_outcome(&rt, 1, &outcome, (said, b"", (b"a=3", 0o644)));
    fs::remove_file(&rt, path)?;
    Ok(())
}

#[test]
fn regular_files_alone_are_read(rt: HostRuntime) {
    let paths = ["no such file", "no such folder/a", ".", "/dev/null"];
    for (number, path) in (1usize..).zip(paths) {
        let is_refused = Target::read(&rt, rt.alloc(), path, Missing::Refuse).is_err();
        same(&rt, number, is_refused, true);
    }
}

#[test]
fn a_missing_file_is_made_under_one_name(rt: HostRuntime) -> Result<(), Fail> {
    let path = "made.properties";
    let _ = fs::remove_file(&rt, path);
    let target = Target::read(&rt, rt.alloc(), path, Missing::Create)?;
    let outcome = replace(&rt, target, path, b"a=1")?;
    let found = (outcome.said.as_str(), Bytes(outcome.bytes.as_slice()));
    same(&rt, 1, found, ("", Bytes(b"a=1")));
    same(&rt, 1, fs::metadata(&rt, path)?.nlink(), 1);
    fs::remove_file(&rt, path)?;
    Ok(())
}
