// The comment of a key.

ghost use Rattle.std.specs.Prelude.{◌≡◌, map, IfOk};
ghost use Rattle.std.specs.Option.{option_map};
ghost use Rattle.std.specs.Str.{chars};
ghost use Rattle.java_properties.specs.Maps.{characters};
ghost use Rattle.properties_text.specs.Encoding.{encoding_of};
ghost use Rattle.properties_tools.specs.Propedit.Comment.{PrintsComment, ShowsComment};
ghost use Rattle.properties_tools.specs.Propedit.Texts.{ended_all};
ghost use Rattle.properties_tools.specs.declared.propedit.request.Terminator.TheVariants.{LineFeed};

use crate::propedit::answer::{Answer, push_ended};
use crate::propedit::request::Terminator;
use java_properties::{Encoding, comment_of};
use properties_tables::error::Failure;
use properties_tables::sound::{refuse_bytes, refuse_unsound};
use std::alloc::{AllocError, Global};

/// Returns the texts of the comment lines directly above the last pair with a key, as they are written, each ended by a
/// line feed. If no pair has the key, the status is 1.
///
/// It refuses a source for its bytes: the byte order mark of UTF-32, lines that are ill-formed in the encoding in
/// force, or U+0000 if UTF-8 is in force without a byte order mark. It refuses a malformed escape in a pair too, and
/// then UTF-16.
///
/// ```text
/// let answer = comment(alloc, b"# the front door\nport = 80\n", Encoding::UTF_8, "port")?;
/// // The text is `the front door` and a line feed, and the status is 0.
/// ```
pub fn comment(
    alloc: Global,
    source: &[u8],
    encoding: Encoding,
    key: &str,
) -> Result<Answer, Failure>
    ensures { ShowsComment (encoding_of encoding) source.now (chars key.now) result }
{
    refuse_bytes(source, encoding)?;
    match comment_of(alloc, source, encoding, key) {
        Ok(texts) => Ok(answer_of(alloc, texts)?),
        // A malformed escape comes before the encoding.
        Err(error) => {
            refuse_unsound(alloc, source, encoding)?;
            Err(Failure::from(error))
        }
    }
}

// Returns the texts, each ended by a line feed. The status is 1 if there are none, not even those of an empty comment.
fn answer_of(alloc: Global, texts: Option<Vec<String>>) -> Result<Answer, AllocError>
    ensures { IfOk result (PrintsComment (option_map (λ t. map characters t.items) texts)) }
{
    let Some(texts) = texts else {
        let text = Vec::new(alloc);
        return Ok(Answer { text, status: 1 });
    };
    let text = lines_of(alloc, &texts)?;
    Ok(Answer { text, status: 0 })
}

fn lines_of(alloc: Global, texts: &[String]) -> Result<Vec<u8>, AllocError>
    ensures { IfOk result (λ text. text.items ≡ ended_all LineFeed (map characters texts.now)) }
{
    let mut text = Vec::new(alloc);
    for line in texts {
        push_ended(&mut text, line.as_str(), Terminator::LineFeed)?;
    }
    Ok(text)
}
