// The files in the directory that this program runs in.

use crate::row::{Content, Entry, Row};
use std::{fs, io};

/// Returns the names of all that is in the directory.
pub fn names_in(rt: &HostRuntime) -> io::Result<Vec<String>> {
    let mut names = Vec::new(rt.alloc());
    for entry in fs::read_dir(rt, ".")? {
        let entry = entry?;
        names.push(String::from_str(rt.alloc(), entry.file_name())?)?;
    }
    Ok(names)
}

/// Makes files and directories.
pub fn make(rt: &HostRuntime, entries: &[Entry]) -> io::Result<()> {
    for entry in entries {
        match &entry.content {
            Content::Folder => fs::create_dir(rt, entry.name.as_str())?,
            Content::Bytes(bytes) => fs::write(rt, entry.name.as_str(), bytes.as_slice())?,
        }
    }
    Ok(())
}

/// What a row leaves in the directory: its files, and the names of whatever else is there.
#[derive(Drop)]
pub struct Left {
    pub entries: Vec<Entry>,
    pub others: Vec<String>,
}

/// Returns what a row leaves, except what has the names in `kept`, and removes its files.
pub fn take(rt: &HostRuntime, kept: &[String], row: &Row) -> io::Result<Left> {
    let mut left = Left {
        entries: Vec::new(rt.alloc()),
        others: Vec::new(rt.alloc()),
    };
    for name in names_in(rt)? {
        if kept.contains(&name) {
            continue;
        }
        if row.has_file(name.as_str()) {
            let content = take_one(rt, name.as_str())?;
            left.entries.push(Entry { name, content })?;
        } else {
            left.others.push(name)?;
        }
    }
    Ok(left)
}

fn take_one(rt: &HostRuntime, name: &str) -> io::Result<Content> {
    if fs::metadata(rt, name)?.is_dir() {
        fs::remove_dir(rt, name)?;
        return Ok(Content::Folder);
    }
    let bytes = fs::read(rt, name)?;
    fs::remove_file(rt, name)?;
    Ok(Content::Bytes(bytes))
}
