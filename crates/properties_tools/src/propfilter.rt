// The program `propfilter`, over any streams.

ghost use Rattle.std.specs.Prelude.{◌≡◌, ◌∷◌, [], map, string_bytes};
ghost use Rattle.std.specs.Option.{option_map};
ghost use Rattle.counted_io.specs.Streams.{IsSameReader, IsSameSink};
ghost use Rattle.properties_tables.specs.Messages.{printed_line, HasPrintedLine};
ghost use Rattle.properties_tools.specs.Propfilter.{asked_of, not_utf_8, usage, IsAsked, IsNamedWith, RunsFilter};

use crate::filter::filter_with;
use counted_io::{CountedRead, CountedWrite};
use java_properties::Encoding;
use properties_tables::messages::{print_error, print_line};
use std::alloc::Global;

const USAGE: &str = "usage: propfilter [windows-1252|utf-8|utf-16le|utf-16be [ascii]]\n";

const NOT_UTF_8: &str = "propfilter: an argument is not UTF-8\n";

// What the arguments ask for.
#[derive(Clone, Copy)]
struct Asked {
    encoding: Encoding,
    ascii_only: bool,
}

/// Filters `input` to `output` in the encoding that the arguments name, and returns the exit status: 0, or 1 after an
/// error, whose text is printed as a line on `errors`.
///
/// Without arguments, the encoding is windows-1252. The second argument `ascii` asks for ASCII-only output. With any
/// other arguments, it prints the usage on `errors`, returns 2 and reads nothing. What can't be printed on `errors` is
/// dropped.
///
/// ```text
/// let mut input: &[u8] = b"b = 2";
/// let mut output = Counted::new(Vec::new(alloc));
/// let mut errors = Counted::new(Vec::new(alloc));
/// propfilter::run(alloc, &[], &mut input, &mut output, &mut errors); // 0, and the output holds `b=2`
/// ```
pub fn run<R: CountedRead, W: CountedWrite, E: CountedWrite>(
    alloc: Global,
    arguments: &[String],
    input: &mut R,
    output: &mut W,
    errors: &mut E,
) -> u8
    ensures runs { let names = map string_bytes arguments.now in
        RunsFilter R.CountedRead W.CountedWrite E.CountedWrite names
        input.old output.old errors.old result input.new output.new errors.new }
    ensures same_reader { IsSameReader R.CountedRead input.old input.new }
    ensures same_sink { IsSameSink W.CountedWrite output.old output.new }
    ensures same_error_sink { IsSameSink E.CountedWrite errors.old errors.new }
{
    let Some(asked) = asked_for(arguments) else {
        return print_usage(errors);
    };
    match filter_with(alloc, input, output, asked.encoding, asked.ascii_only) {
        Ok(()) => 0,
        Err(error) => {
            print_error(alloc, errors, error);
            1
        }
    }
}

/// Prints on `errors` that an argument isn't UTF-8, and returns the exit status of an error, 1.
///
/// Use it in a `main` that can't get its arguments as texts. What can't be printed is dropped.
///
/// ```text
/// let mut errors = Counted::new(Vec::new(alloc));
/// propfilter::print_not_utf_8(&mut errors); // 1, and one line is printed
/// ```
pub fn print_not_utf_8<E: CountedWrite>(errors: &mut E) -> u8
    ensures answer { result ≡ 1 }
    ensures prints { HasPrintedLine E.CountedWrite errors.old (printed_line not_utf_8) errors.new }
    ensures same_sink { IsSameSink E.CountedWrite errors.old errors.new }
{
    print_line(errors, NOT_UTF_8);
    1
}

// Prints the usage, and returns the exit status for invalid arguments.
fn print_usage<E: CountedWrite>(errors: &mut E) -> u8
    ensures answer { result ≡ 2 }
    ensures prints { HasPrintedLine E.CountedWrite errors.old (printed_line usage) errors.new }
    ensures same_sink { IsSameSink E.CountedWrite errors.old errors.new }
{
    print_line(errors, USAGE);
    2
}

#[tactic(auto, using(crate::proofs::FilterArguments::named_alone))]
fn asked_for(arguments: &[String]) -> Option<Asked>
    ensures { IsAsked (map string_bytes arguments.now) (option_map asked_of result) }
{
    match arguments {
        [] => Some(Asked {
            encoding: Encoding::WINDOWS_1252,
            ascii_only: false,
        }),
        [name] => asked_by_name(name.as_str(), false),
        [name, word] => asked_with_word(name.as_str(), word.as_str()),
        _ => None,
    }
}

#[tactic(auto, using(crate::proofs::FilterArguments::named_ascii))]
fn asked_with_word(name: &str, word: &str) -> Option<Asked>
    ensures { IsAsked (name.now ∷ word.now ∷ []) (option_map asked_of result) }
{
    match word {
        "ascii" => asked_by_name(name, true),
        _ => None,
    }
}

fn asked_by_name(name: &str, ascii_only: bool) -> Option<Asked>
    ensures { IsNamedWith name.now ascii_only (option_map asked_of result) }
{
    let encoding = Encoding::from_name(name)?;
    Some(Asked {
        encoding,
        ascii_only,
    })
}
