//! Reads, checks, compares, edits and converts properties files.
#![tactic(auto)]

use counted_io::{Counted, CountedWrite};
use propedit_running::{StandardInput, run_not_utf_8, run_words};
use properties_tools::arguments::words;
use properties_tools::propedit::print_out_of_memory;
use properties_tools::propedit::streams::Sinks;
use std::env;
use std::io::{self, BufWriter};
use std::process::ExitCode;

// How many bytes are written at once.
const BLOCK: usize = 1 << 16;

fn main(rt: HostRuntime) -> ExitCode {
    let mut errors = Counted::new(rt.stderr());
    let Ok(output) = BufWriter::with_capacity(rt.alloc(), BLOCK, rt.stdout()) else {
        return ExitCode::from(print_out_of_memory(&mut errors));
    };
    let mut sinks = Sinks {
        output: Counted::new(output),
        errors,
    };
    let status = match status(&rt, &mut sinks) {
        Ok(status) => status,
        Err(_) => print_out_of_memory(&mut sinks.errors),
    };
    ExitCode::from(status)
}

// Does what the arguments ask for. Fails only if there is no memory for them.
fn status<W: CountedWrite, E: CountedWrite>(
    rt: &HostRuntime,
    sinks: &mut Sinks<W, E>,
) -> io::Result<u8> {
    match words(rt.alloc(), env::args(rt))? {
        Some(words) => Ok(run_words(rt, StandardInput::Process, words.as_slice(), sinks)),
        None => Ok(run_not_utf_8(rt, sinks)?),
    }
}
