// The kinds of what a check finds, and those that it leaves out.

ghost use Rattle.std.specs.Prelude.{◌≡◌};
ghost use Rattle.properties_checking.specs.Kinds.{is_ignored, kind_name};

/// A kind of what a check finds.
#[derive(Clone, Copy, Debug, PartialEq, Eq)]
pub enum Kind {
    /// U+0000, where UTF-8 is in force without a byte order mark.
    Zero,
    /// A line that is ill-formed in the encoding in force.
    IllFormed,
    /// A source in UTF-8 that is read as windows-1252.
    LooksLikeUtf8,
    /// A character that isn't ASCII, if only ASCII is allowed.
    NonAscii,
    /// A byte that ISO 8859-1 reads as another character.
    ReadOtherwise,
    /// The byte order mark of UTF-8 at the front.
    ByteOrderMark,
    /// That of UTF-32.
    Utf32Mark,
    /// U+FEFF inside.
    MarkInside,
    /// A backslash and blanks at the end of a line.
    BlankAfterBackslash,
    /// A backslash that continues nothing.
    BackslashAtEnd,
    /// A malformed escape in a pair.
    EscapeInPair,
    /// One in a comment.
    EscapeInComment,
    /// A pair that repeats a key.
    RepeatedKey,
    /// A key of the base that the source doesn't have.
    MissingKey,
    /// A key of the source that the base doesn't have.
    SurplusKey,
}

impl Kind {
    /// Returns its name in JSON. Malformed escapes have the same in pairs and in comments.
    pub fn name(self) -> &'static str
        ensures { result.now ≡ kind_name self }
    {
        match self {
            Kind::Zero => "zero",
            Kind::IllFormed => "ill-formed",
            Kind::LooksLikeUtf8 => "looks-like-utf-8",
            Kind::NonAscii => "non-ascii",
            Kind::ReadOtherwise => "read-otherwise",
            Kind::ByteOrderMark => "byte-order-mark",
            Kind::Utf32Mark => "utf-32-mark",
            Kind::MarkInside => "u-feff",
            Kind::BlankAfterBackslash => "blank-after-backslash",
            Kind::BackslashAtEnd => "backslash-at-end",
            Kind::EscapeInPair | Kind::EscapeInComment => "malformed-escape",
            Kind::RepeatedKey => "repeated-key",
            Kind::MissingKey => "missing-key",
            Kind::SurplusKey => "surplus-key",
        }
    }
}

/// The kinds that a check leaves out: those whose fields are true. Those for which an edit refuses a source can't be
/// left out, and have no field: U+0000, ill-formed lines, and malformed escapes in pairs.
#[derive(Clone, Copy, Debug, PartialEq, Eq)]
pub struct Ignored {
    pub looks_like_utf_8: bool,
    pub non_ascii: bool,
    pub read_otherwise: bool,
    pub byte_order_mark: bool,
    pub utf_32_mark: bool,
    pub mark_inside: bool,
    pub blank_after_backslash: bool,
    pub backslash_at_end: bool,
    /// No command but a check looks at escapes in comments.
    pub escape_in_comment: bool,
    pub repeated_key: bool,
    pub missing_key: bool,
    pub surplus_key: bool,
}

impl Ignored {
    /// No kind is left out.
    pub const NONE: Ignored = Ignored {
        looks_like_utf_8: false,
        non_ascii: false,
        read_otherwise: false,
        byte_order_mark: false,
        utf_32_mark: false,
        mark_inside: false,
        blank_after_backslash: false,
        backslash_at_end: false,
        escape_in_comment: false,
        repeated_key: false,
        missing_key: false,
        surplus_key: false,
    };

    /// Returns whether a kind is left out.
    ///
    /// ```text
    /// let ignored = Ignored { repeated_key: true, ..Ignored::NONE };
    /// ignored.contains(Kind::RepeatedKey); // true
    /// ignored.contains(Kind::IllFormed); // false
    /// ```
    pub fn contains(self, kind: Kind) -> bool
        ensures { result ≡ is_ignored self kind }
    {
        match kind {
            Kind::Zero | Kind::IllFormed | Kind::EscapeInPair => false,
            Kind::LooksLikeUtf8 => self.looks_like_utf_8,
            Kind::NonAscii => self.non_ascii,
            Kind::ReadOtherwise => self.read_otherwise,
            Kind::ByteOrderMark => self.byte_order_mark,
            Kind::Utf32Mark => self.utf_32_mark,
            Kind::MarkInside => self.mark_inside,
            Kind::BlankAfterBackslash => self.blank_after_backslash,
            Kind::BackslashAtEnd => self.backslash_at_end,
            Kind::EscapeInComment => self.escape_in_comment,
            Kind::RepeatedKey => self.repeated_key,
            Kind::MissingKey => self.missing_key,
            Kind::SurplusKey => self.surplus_key,
        }
    }
}
