// The tables that the arguments of a program name.

use crate::notation::Pace;
use crate::table::{Report, Rows, check_table};
use std::{env, fs, io};

/// The names of tables, and how they are run.
#[derive(Drop)]
pub struct TableNames {
    pub pace: Pace,
    pub names: Vec<String>,
}

/// Returns the tables that the arguments name. After the word `quick` they are run at a quick pace.
pub fn tables(rt: &HostRuntime) -> io::Result<TableNames> {
    let mut asked = TableNames {
        pace: Pace::Thorough,
        names: Vec::new(rt.alloc()),
    };
    for name in env::args(rt)?.skip(1) {
        if name.as_str() == "quick" {
            asked.pace = Pace::Quick;
        } else {
            asked.names.push(name)?;
        }
    }
    Ok(asked)
}

/// Returns the text of a table. If it can't be read, a line says why.
pub fn table(rt: &HostRuntime, name: &str) -> io::Result<Option<String>> {
    match fs::read_to_string(rt, name) {
        Ok(text) => Ok(Some(text)),
        Err(error) => {
            println!(rt; "{name}: {error}")?;
            Ok(None)
        }
    }
}

/// Prints how many rows of a table hold, and those that don't, and returns whether all do.
pub fn print_report(rt: &HostRuntime, name: &str, report: &Report) -> io::Result<bool> {
    if report.failures.is_empty() {
        println!(rt; "{name}: {} rows hold", report.rows)?;
        return Ok(true);
    }
    print!(rt;
        "{name}: not all of {} rows hold\n{}",
        report.rows, report.failures
    )?;
    Ok(false)
}

/// Runs each table, and returns the exit status: 1 if a row doesn't hold, or if a table can't be read or understood.
pub fn run_tables<K: Rows>(rt: &HostRuntime) -> io::Result<u8> {
    let mut status = 0;
    let TableNames { pace, names } = tables(rt)?;
    for name in names {
        let Some(text) = table(rt, name.as_str())? else {
            status = 1;
            continue;
        };
        let report = check_table::<K>(rt.alloc(), text.as_str(), pace)?;
        if !print_report(rt, name.as_str(), &report)? {
            status = 1;
        }
    }
    Ok(status)
}
