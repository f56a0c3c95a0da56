// What a call about a key is asked for, and why it is refused.

ghost use Rattle.properties_c.specs.Private.KeyCalls.{AsksKey};

use crate::encoding::{Flags, encoding_numbered, flags_numbered, options_for, text_of};
use crate::sound::refused_line;
use crate::status::Status;
use java_properties::SourceOptions;

/// The text of a call that has none but its key.
pub const NO_TEXT: &[u8] = b"";

/// What C passes to a call about a key.
#[derive(Clone, Copy)]
pub struct KeyCall<'a> {
    /// The source.
    pub source: &'a [u8],
    /// The number of its encoding.
    pub encoding: u32,
    /// The number of the flags.
    pub flags: u32,
    /// The key, in UTF-8.
    pub key: &'a [u8],
    /// A new key or a comment, in UTF-8.
    pub text: &'a [u8],
}

/// What such a call asks for.
#[derive(Clone, Copy)]
pub struct AskedKey<'a> {
    /// What the library is asked for.
    pub options: SourceOptions,
    /// The key.
    pub key: &'a str,
    /// The new key or the comment.
    pub text: &'a str,
}

/// Why a call is refused.
#[derive(Clone, Copy)]
pub enum Refusal {
    /// A number or a text has this status.
    Arguments(Status),
    /// The line of this number isn't text.
    Source(usize),
}

impl<'a> KeyCall<'a> {
    /// Returns what is asked for, if the call takes each of its flags.
    pub fn asked(self, taken: Flags) -> Result<AskedKey<'a>, Refusal>
        ensures { AsksKey taken self.entry result }
    {
        let Some(encoding) = encoding_numbered(self.encoding) else {
            return Err(Refusal::Arguments(Status::UnknownEncoding));
        };
        let Some(flags) = flags_numbered(self.flags, taken) else {
            return Err(Refusal::Arguments(Status::UnknownFlags));
        };
        let Some(key) = text_of(self.key) else {
            return Err(Refusal::Arguments(Status::NotUtf8));
        };
        let Some(text) = text_of(self.text) else {
            return Err(Refusal::Arguments(Status::NotUtf8));
        };
        if let Some(number) = refused_line(flags.strict, self.source, encoding) {
            return Err(Refusal::Source(number));
        }
        Ok(AskedKey {
            options: options_for(encoding, flags),
            key,
            text,
        })
    }
}
