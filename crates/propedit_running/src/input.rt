// Sources, opened.

use counted_io::{Counted, CountedWrite};
use java_properties::{Encoding, read_source};
use properties_tools::propedit::answers::name;
use properties_tools::propedit::error::Failure;
use properties_tools::propedit::exit_status;
use properties_tools::propedit::request::Source;
use properties_tools::propedit::same_file::{INPUT, refuse_output};
use std::alloc::AllocError;
use std::fs::{self, File};
use std::io::{self, IsTerminal, Read, Stdin};

/// Where the bytes of standard input come from.
#[derive(Clone, Copy)]
pub enum StandardInput<'a> {
    /// From standard input of the process.
    Process,
    /// These are the bytes.
    Bytes(&'a [u8]),
}

impl StandardInput<'_> {
    /// Returns whether what is read from a source is typed at a terminal, and no option says that it is.
    pub(crate) fn is_typed(self, rt: &HostRuntime, source: &Source) -> bool {
        matches!(self, StandardInput::Process)
            && matches!(source, Source::StandardInput)
            && rt.stdin().is_terminal()
    }
}

/// The bytes of a source: those of standard input, or of a file.
#[derive(Drop)]
pub(crate) enum Input<'a> {
    Standard(Stdin),
    Bytes(&'a [u8]),
    File(File),
}

impl Read for Input<'_> {
    fn read(&mut self, buf: &mut [u8]) -> io::Result<usize> {
        match self {
            Input::Standard(input) => input.read(buf),
            Input::Bytes(bytes) => bytes.read(buf),
            Input::File(file) => file.read(buf),
        }
    }
}

// Opens a source, unless what is printed would go there.
fn opened<'a>(
    rt: &HostRuntime,
    standard: StandardInput<'a>,
    source: &Source,
) -> io::Result<Counted<Input<'a>>> {
    let input = match (source, standard) {
        (Source::File(path), _) => {
            refuse_output(rt, path.as_str())?;
            Input::File(File::open(rt, path.as_str())?)
        }
        (_, StandardInput::Process) => {
            refuse_output(rt, INPUT)?;
            Input::Standard(rt.stdin())
        }
        (_, StandardInput::Bytes(bytes)) => Input::Bytes(bytes),
    };
    Ok(Counted::new(input))
}

/// Opens a source. If it can't be opened, a line says why, and the error is the status.
pub(crate) fn opened_or_explain<'a, E: CountedWrite>(
    rt: &HostRuntime,
    standard: StandardInput<'a>,
    source: &Source,
    errors: &mut E,
) -> Result<Counted<Input<'a>>, u8> {
    match opened(rt, standard, source) {
        Ok(opened) => Ok(opened),
        Err(error) => {
            let failed = Err(Failure::from(error));
            Err(exit_status(rt.alloc(), errors, name(source), failed))
        }
    }
}

/// Reads a source to its end. If it can't be read, a line says why, and the error is the status.
pub(crate) fn read_or_explain<E: CountedWrite>(
    rt: &HostRuntime,
    source: &Source,
    encoding: Encoding,
    input: &mut Counted<Input<'_>>,
    errors: &mut E,
) -> Result<Vec<u8>, u8> {
    match read_source(rt.alloc(), input, encoding) {
        Ok(bytes) => Ok(bytes),
        Err(error) => {
            let failed = Err(Failure::from(error));
            Err(exit_status(rt.alloc(), errors, name(source), failed))
        }
    }
}

/// Returns the names that files have.
pub(crate) fn files_among(rt: &HostRuntime, names: &[String]) -> Result<Vec<String>, AllocError> {
    let mut files = Vec::new(rt.alloc());
    for name in names {
        if is_file(rt, name.as_str()) {
            files.push(name.clone()?)?;
        }
    }
    Ok(files)
}

pub(crate) fn is_file(rt: &HostRuntime, name: &str) -> bool {
    fs::metadata(rt, name).is_ok_and(|metadata| metadata.is_file())
}

pub(crate) fn is_directory(rt: &HostRuntime, source: &Source) -> bool {
    match source {
        Source::File(path) => {
            fs::metadata(rt, path.as_str()).is_ok_and(|metadata| metadata.is_dir())
        }
        Source::StandardInput | Source::Dash => false,
    }
}
