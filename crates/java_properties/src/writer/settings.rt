// The settings of a writer.

ghost use Rattle.std.specs.Prelude.{◌≡◌, ◌&&◌, not, true};
ghost use Rattle.std.specs.Str.{chars};
ghost use Rattle.properties_format.specs.Text.{is_blanks, is_empty};
ghost use Rattle.properties_format.specs.Settings.{default_settings};
ghost use Rattle.properties_format.specs.Computed.Settings.{is_good_prefix, is_good_separator};
ghost use Rattle.properties_format.specs.Writing.{AreGoodSettings};
ghost use Rattle.java_properties.specs.PropertiesWriter.{with_ending, with_ascii_only, with_readable, TakesPrefix};
ghost use Rattle.java_properties.specs.PropertiesWriter.{TakesSeparator};
ghost use Rattle.properties_items.specs.Line.{ending_of};

use properties_items::error::{PropertiesError, make};
use properties_items::line::LineEnding;
use properties_text::characters::{is_blank, is_comment_sign, is_line_ending, is_separator};
use properties_text::parse::are_blanks;
use std::alloc::Global;
use std::marker::Model;

/// The comment prefix, the separator between keys and values, the line ending, whether every character past U+007F is
/// escaped, and whether values are written as people write them. A text that is `None` has the default of a new writer.
#[derive(Drop)]
pub(crate) struct Settings {
    comment_prefix: Option<String>,
    kv_separator: Option<String>,
    // Whether the separator consists only of blanks.
    separator_is_blank: bool,
    line_ending: LineEnding,
    ascii_only: bool,
    readable: bool,
    alloc: Global,
}

impl Model for Settings {
    ghost use Rattle.properties_format.specs.Settings.{Settings};

    ghost Value = { Settings };

    ghost use Rattle.java_properties.specs.PropertiesWriter.{settings_of, AreGood};

    ghost view = { settings_of };

    ghost invariant = { AreGood };
}

impl Settings {
    /// Returns the settings of a new writer. Allocates nothing.
    pub fn new(alloc: Global) -> Settings
        ensures { result ≡ default_settings }
    {
        Settings {
            comment_prefix: None,
            kv_separator: None,
            separator_is_blank: false,
            line_ending: LineEnding::LF,
            ascii_only: false,
            readable: false,
            alloc,
        }
    }

    /// Proof only: prefix and separator are good.
    pub fn are_always_good(&self)
        ensures { AreGoodSettings self.now }
    {
        let _ = &self.line_ending;
    }

    /// Returns what comes before the text of a comment.
    pub fn comment_prefix(&self) -> &str
        ensures value { chars result.now ≡ self.now.comment_prefix }
        ensures good { is_good_prefix (chars result.now) ≡ true }
    {
        match &self.comment_prefix {
            Some(prefix) => prefix.as_str(),
            None => "# ",
        }
    }

    /// Returns what comes between a key and its value.
    pub fn kv_separator(&self) -> &str
        ensures value { chars result.now ≡ self.now.kv_separator }
        ensures good { is_good_separator (chars result.now) ≡ true }
    {
        match &self.kv_separator {
            Some(separator) => separator.as_str(),
            None => "=",
        }
    }

    /// Returns what ends a line.
    pub fn line_ending(&self) -> LineEnding
        ensures { ending_of result ≡ self.now.line_ending }
    {
        self.line_ending
    }

    /// Sets what comes before the text of a comment. Fails if the text isn't a valid prefix. The text is copied, also
    /// for the error.
    #[tactic(auto, using(crate::proofs::Settings::Tests::prefixes))]
    pub fn set_comment_prefix(&mut self, prefix: &str) -> Result<(), PropertiesError>
        ensures { TakesPrefix self.old (chars prefix.now) result self.new }
    {
        let copy = String::from_str(self.alloc, prefix)?;
        if !is_good_prefix(prefix) {
            return Err(make::bad_comment_prefix(copy));
        }
        self.comment_prefix = Some(copy);
        Ok(())
    }

    /// Sets what comes between a key and its value. Fails if the text isn't a valid separator. The text is copied, also
    /// for the error.
    #[tactic(auto, using(crate::proofs::Settings::Tests::separators))]
    pub fn set_kv_separator(&mut self, separator: &str) -> Result<(), PropertiesError>
        ensures { TakesSeparator self.old (chars separator.now) result self.new }
    {
        let copy = String::from_str(self.alloc, separator)?;
        if !is_good_separator(separator) {
            return Err(make::bad_kv_separator(copy));
        }
        self.kv_separator = Some(copy);
        self.separator_is_blank = are_blanks(separator);
        Ok(())
    }

    /// Returns whether a pair with this key can be written. If the separator consists only of blanks, the value of an
    /// empty key would be read as the key.
    #[tactic(auto, using(crate::proofs::Settings::Tests::emptiness))]
    pub fn takes_key(&self, key: &str) -> bool
        ensures { result ≡ not (is_empty (chars key.now) && is_blanks self.now.kv_separator) }
    {
        !key.is_empty() || !self.separator_is_blank
    }

    /// Sets what ends a line.
    pub fn set_line_ending(&mut self, line_ending: LineEnding)
        ensures { self.new ≡ with_ending self.old line_ending }
    {
        self.line_ending = line_ending;
    }

    /// Returns whether every character past U+007F is escaped.
    pub fn ascii_only(&self) -> bool
        ensures { result ≡ self.now.ascii_only }
    {
        self.ascii_only
    }

    /// Sets whether every character past U+007F is escaped.
    pub fn set_ascii_only(&mut self, on: bool)
        ensures { self.new ≡ with_ascii_only self.old on }
    {
        self.ascii_only = on;
    }

    /// Returns whether values are written as people write them.
    #[inline(always)]
    pub fn readable(&self) -> bool
        ensures { result ≡ self.now.readable }
    {
        self.readable
    }

    /// Sets whether values are written as people write them.
    pub fn set_readable(&mut self, on: bool)
        ensures { self.new ≡ with_readable self.old on }
    {
        self.readable = on;
    }
}

/// Returns whether the text is a valid comment prefix: optional blanks, a comment sign, then any text without line
/// endings.
pub(crate) fn is_good_prefix(text: &str) -> bool
    ensures { result ≡ is_good_prefix (chars text.now) }
{
    let mut signed = false;
    for character in text.chars() {
        if signed {
            if is_line_ending(character) {
                return false;
            }
        } else if is_comment_sign(character) {
            signed = true;
        } else if !is_blank(character) {
            return false;
        }
    }
    signed
}

/// Returns whether the text is a valid separator: one colon or equals sign with optional blanks around it, or one or
/// more blanks.
pub(crate) fn is_good_separator(text: &str) -> bool
    ensures { result ≡ is_good_separator (chars text.now) }
{
    let mut signed = false;
    for character in text.chars() {
        if is_separator(character) && !signed {
            signed = true;
        } else if !is_blank(character) {
            return false;
        }
    }
    !text.is_empty()
}
