//! The kinds of characters that the format distinguishes. To test a byte, pass `char::from(byte)`: all of them are
//! ASCII.

ghost use Rattle.std.specs.Prelude.{◌≡◌};
ghost use Rattle.properties_format.specs.Text.{is_blank, is_comment_sign, is_separator, is_line_ending};

/// Returns whether the character is a space, a tab or a form feed. No other white space is a blank.
pub fn is_blank(character: char) -> bool
    ensures { result ≡ is_blank character }
{
    matches!(character, ' ' | '\t' | '\x0c')
}

/// Returns whether the character is `#` or `!`, which make a comment of a line that begins with them.
pub fn is_comment_sign(character: char) -> bool
    ensures { result ≡ is_comment_sign character }
{
    matches!(character, '#' | '!')
}

/// Returns whether the character is `=` or `:`, which can separate a key from its value, with or without blanks.
pub fn is_separator(character: char) -> bool
    ensures { result ≡ is_separator character }
{
    matches!(character, '=' | ':')
}

/// Returns whether the character is a CR or an LF, which end a line. A CR and an LF after it end it together.
pub fn is_line_ending(character: char) -> bool
    ensures { result ≡ is_line_ending character }
{
    matches!(character, '\n' | '\r')
}
