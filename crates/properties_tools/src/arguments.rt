// The arguments of a program.

ghost use Rattle.std.specs.Prelude.{◌≡◌, IfOk};
ghost use Rattle.std.specs.Vec.Iter.{into_iter_items};
ghost use Rattle.properties_tools.specs.Arguments.{after_first, TakesWords};

use std::alloc::{AllocError, Global};
use std::env::Args;
use std::io::{self, ErrorKind};

/// Returns the arguments after a program's name, from what `env::args` returned, or `None` if an argument isn't UTF-8.
///
/// ```text
/// let Some(words) = words(alloc, env::args(&rt))? else {
///     return Ok(());
/// };
/// ```
pub fn words(alloc: Global, arguments: io::Result<Args>) -> io::Result<Option<Vec<String>>>
    ensures takes { TakesWords arguments result }
{
    match arguments {
        Ok(arguments) => Ok(Some(words_after_name(alloc, arguments)?)),
        Err(error) if error.kind() == ErrorKind::InvalidData => Ok(None),
        Err(error) => Err(error),
    }
}

fn words_after_name(alloc: Global, mut arguments: Args) -> Result<Vec<String>, AllocError>
    ensures { IfOk result (λ words. words.items ≡ after_first (into_iter_items arguments)) }
{
    let _ = arguments.next();
    arguments.collect(alloc)
}
