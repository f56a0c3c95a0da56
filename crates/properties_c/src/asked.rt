// What items are asked for, by the flags of a call.

ghost use Rattle.std.specs.Prelude.{◌≡◌};
ghost use Rattle.properties_c.specs.Inputs.{asked_at, are_taken, comments_in, pairs_in};
ghost use Rattle.properties_c.specs.Private.Results.{passes, reads};

/// How the texts of comments are given, or those of pairs.
#[derive(Clone, Copy)]
pub enum Texts {
    /// They are not.
    PassedOver,
    /// As they stand, with their escapes.
    Raw,
    /// With their escapes resolved.
    Read,
}

/// What items are asked for.
#[derive(Clone, Copy)]
pub struct Asked {
    /// How comments are given.
    pub comments: Texts,
    /// How keys and values are given.
    pub pairs: Texts,
    /// Whether bytes that aren't text are refused.
    pub is_strict: bool,
    /// Whether all groups are given, with the places of their parts.
    pub has_spans: bool,
    /// Whether the source goes on.
    pub is_part: bool,
}

/// Returns what the flags with this number ask for, if items take them.
pub fn asked_numbered(number: u32) -> Option<Asked>
    ensures { result ≡ asked_at number }
{
    if !takes(number) {
        return None;
    }
    Some(Asked {
        comments: comments_asked(number),
        pairs: pairs_asked(number),
        is_strict: number / 32 % 2 == 1,
        has_spans: number / 256 % 2 == 1,
        is_part: number / 512 == 1,
    })
}

fn takes(number: u32) -> bool
    ensures { result ≡ are_taken number }
{
    number < 1024
        && number % 4 == 0
        && number / 8 % 4 == 0
        && !(number / 4 % 2 == 1 && number / 64 % 2 == 1)
        && number / 256 != 3
}

fn comments_asked(number: u32) -> Texts
    ensures { result ≡ comments_in number }
{
    if number / 4 % 2 == 1 {
        Texts::Read
    } else if number / 64 % 2 == 1 || number / 256 % 2 == 1 {
        Texts::Raw
    } else {
        Texts::PassedOver
    }
}

fn pairs_asked(number: u32) -> Texts
    ensures { result ≡ pairs_in number }
{
    if number / 128 % 2 == 1 {
        Texts::Raw
    } else {
        Texts::Read
    }
}

/// Returns whether these texts are passed over.
#[inline(always)]
pub fn are_passed_over(texts: Texts) -> bool
    ensures { result ≡ passes texts }
{
    match texts {
        Texts::PassedOver => true,
        _ => false,
    }
}

/// Returns whether escapes of these texts are resolved.
#[inline(always)]
pub fn are_read(texts: Texts) -> bool
    ensures { result ≡ reads texts }
{
    match texts {
        Texts::Read => true,
        _ => false,
    }
}
