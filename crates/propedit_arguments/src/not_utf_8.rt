// Arguments that are not UTF-8, which can't be had as texts.

ghost use Rattle.std.specs.Prelude.{◌≡◌};
ghost use Rattle.counted_io.specs.Streams.{IsSameSink};

use crate::mistake::{EscapedBytes, Mistake};
use crate::parse::explain_mistake;
use crate::shell::Quoted;
use counted_io::CountedWrite;
use properties_tools::messages::Escaped;
use properties_tools::propedit::{print_out_of_memory, print_usage_error};
use std::alloc::{AllocError, Global};
use std::env::Env;
use std::str;

// The length of the longest argument that the system passes on.
const LONGEST: usize = 1 << 17;

/// Prints on `errors` which argument is not UTF-8, and the usage, and returns the exit status of wrong arguments, 2.
/// What can't be printed is dropped.
///
/// ```text
/// if words(alloc, env::args(&rt))?.is_none() {
///     explain_not_utf_8(&rt, alloc, &mut errors);
/// }
/// ```
pub fn explain_not_utf_8<R: Env, E: CountedWrite>(rt: &R, alloc: Global, errors: &mut E) -> u8
    ensures status { result ≡ 2 }
    ensures same_error_sink { IsSameSink E.CountedWrite errors.old errors.new }
{
    let Ok(mut bytes) = vec![in alloc; 0u8; LONGEST] else {
        return print_out_of_memory(errors);
    };
    let mistake = Mistake::NotUtf8(first_not_utf_8(rt, &mut bytes));
    explain_mistake(alloc, mistake, errors)
}

// The mark after an argument that is not UTF-8. No argument has it.
const MARK: char = '\0';

/// Returns the arguments after the program's name. One that is not UTF-8 is marked at its end, so that the value of an
/// option is marked too, and its bytes stand as messages print them.
///
/// ```text
/// let words = marked_words(&rt, alloc)?;
/// if let Ok(Request::CheckFiles(files)) = asked_for(alloc, &words) {
///     // Of a path that is marked, `name_of_marked` gives the name.
/// }
/// ```
pub fn marked_words<R: Env>(rt: &R, alloc: Global) -> Result<Vec<String>, AllocError> {
    let mut bytes = vec![in alloc; 0u8; LONGEST]?;
    let mut words = Vec::new(alloc);
    for number in 1..usize::MAX {
        let Ok(length) = rt.arg(number, &mut bytes) else {
            break;
        };
        words.push(marked(alloc, &bytes[..length])?)?;
    }
    Ok(words)
}

fn marked(alloc: Global, bytes: &[u8]) -> Result<String, AllocError> {
    match str::from_utf8(bytes) {
        Ok(word) => String::from_str(alloc, word),
        Err(_) => format!(in alloc; "{}{MARK}", EscapedBytes(bytes)),
    }
}

/// Returns what stands for an argument that is not UTF-8, or `None` for any other.
pub fn name_of_marked(word: &str) -> Option<&str> {
    word.strip_suffix(MARK)
}

/// Prints on `errors` that the name of a file is not UTF-8, and returns the exit status of failures, 2. What can't be
/// printed is dropped.
pub fn explain_name<E: CountedWrite>(alloc: Global, name: &str, errors: &mut E) -> u8
    ensures status { result ≡ 2 }
    ensures same_error_sink { IsSameSink E.CountedWrite errors.old errors.new }
{
    match format!(in alloc; "propedit: {name}: this name is not UTF-8\n") {
        Ok(text) => print_usage_error(errors, text.as_str()),
        Err(_) => print_out_of_memory(errors),
    }
}

/// Prints on `errors` that a file to check is a directory, and how the files in it are checked, and returns the exit
/// status of failures, 2. What can't be printed is dropped.
pub fn explain_directory<E: CountedWrite>(alloc: Global, name: &str, errors: &mut E) -> u8
    ensures status { result ≡ 2 }
    ensures same_error_sink { IsSameSink E.CountedWrite errors.old errors.new }
{
    let front = if name.starts_with('-') { "./" } else { "" };
    match format!(in alloc;
        "propedit: {}: is a directory; use: find {front}{} -name '*.properties' -exec propedit check {{}} +\n",
        Escaped(name),
        Quoted(name)
    ) {
        Ok(text) => print_usage_error(errors, text.as_str()),
        Err(_) => print_out_of_memory(errors),
    }
}

// Returns the first argument that is not UTF-8. The program's name counts as one.
fn first_not_utf_8<'a, R: Env>(rt: &R, bytes: &'a mut [u8]) -> &'a [u8] {
    for number in 0..usize::MAX {
        let Ok(length) = rt.arg(number, bytes) else {
            break;
        };
        if str::from_utf8(&bytes[..length]).is_err() {
            return &bytes[..length];
        }
    }
    &[]
}
