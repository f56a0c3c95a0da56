//! Reads the pairs of a properties file from standard input, and prints them on standard output, one per line.
#![tactic(auto)]

use counted_io::Counted;
use properties_tools::arguments::words;
use properties_tools::propfilter::{print_not_utf_8, run};
use std::env;
use std::io::{self, BufWriter};
use std::process::ExitCode;

// How many bytes are written at once.
const BLOCK: usize = 1 << 16;

fn main(rt: HostRuntime) -> ExitCode {
    ExitCode::from(status(&rt).unwrap_or(1))
}

// What `run` returns on the program's arguments and the standard streams.
fn status(rt: &HostRuntime) -> io::Result<u8> {
    let alloc = rt.alloc();
    let mut errors = Counted::new(rt.stderr());
    let Some(words) = words(alloc, env::args(rt))? else {
        return Ok(print_not_utf_8(&mut errors));
    };
    let mut input = Counted::new(rt.stdin());
    let mut output = Counted::new(BufWriter::with_capacity(alloc, BLOCK, rt.stdout())?);
    Ok(run(
        alloc,
        words.as_slice(),
        &mut input,
        &mut output,
        &mut errors,
    ))
}
