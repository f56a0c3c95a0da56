//! Runs rows of `propedit` over its code: what a command line prints, and what it leaves of the files in its directory.
//! The head of `tests/try_rows.py`, which runs them on the built program, explains their form.
//!
//! The files of a row are made in the directory that this program runs in, and removed after it.
#![tactic(auto)]

mod folder;
mod parts;
mod row;
mod rows;
mod trial;

use folder::names_in;
use rows::check_rows;
use std::io;
use std::process::ExitCode;
use vector_notation::run::{TableNames, print_report, table, tables};

fn main(rt: HostRuntime) -> ExitCode {
    ExitCode::from(run_rows(&rt).unwrap_or(2))
}

// Runs the rows of the files that the arguments name, and returns the exit status.
fn run_rows(rt: &HostRuntime) -> io::Result<u8> {
    let kept = names_in(rt)?;
    let mut status = 0;
    let TableNames { pace: _pace, names } = tables(rt)?;
    for name in names {
        let Some(text) = table(rt, name.as_str())? else {
            status = 1;
            continue;
        };
        let report = check_rows(rt, &kept, text.as_str())?;
        if !print_report(rt, name.as_str(), &report)? {
            status = 1;
        }
    }
    Ok(status)
}
