// A source as its groups, one after another, with the places of their parts.

ghost use Rattle.std.specs.Prelude.{◌≡◌, ◌<◌, IfOk, OnSome, length};
ghost use Rattle.std.specs.Str.{chars};
ghost use Rattle.properties_text.specs.Encoding.{encoding_of};
ghost use Rattle.properties_editing.specs.Views.{AreOrdered, ArePlaces, GivesNext, IsRawKey, IsRawValue, OpensView, TellsFlaw, TellsIllFormed, viewed_line};

use crate::group::{Flaw, PartPlaces, ViewedGroup};
use crate::walk::{Walk, WalkedGroup};
use properties_items::error::{PropertiesError, make};
use properties_text::encoding::Encoding;
use std::alloc::{AllocError, Global};
use std::marker::Model;

/// A source as its groups, in order: blank lines, comments and pairs, each with its lines, its texts as they stand, and
/// the places of its parts. Together the groups are the source, but for a byte order mark. Use it in a program that
/// shows where something is, such as a linter or an editor that colours a file.
///
/// Nothing is refused but UTF-16: [`flaw`](View::flaw) says which escape is malformed, and
/// [`ill_formed_line`](View::ill_formed_line) which line isn't UTF-8. `line`, `raw_key`, `raw_value`, `places`, `flaw`
/// and `ill_formed_line` speak of the group that `next` returned last; before the first one, and after a `next` that
/// returned none or failed, of an empty group.
///
/// ```text
/// let mut view = View::open(alloc, b"# doors\nfront = 80\n", Encoding::UTF_8)?;
/// while let Some(group) = view.next()? {
///     let places = view.places()?;
///     println!(rt; "{}: {} at {}", group.line_number, view.raw_key(), places.key_start)?;
/// }
/// // It prints `1: # at 0` and `2: front at 8`.
/// ```
#[derive(Drop)]
pub struct View<'a> {
    walk: Walk<'a>,
    group: Option<WalkedGroup>,
}

impl<'a> Model for View<'a> {
    ghost use Rattle.properties_editing.specs.Views.{OpenView};

    ghost Value = { OpenView };

    ghost use Rattle.properties_editing.specs.Private.OpenViews.{open_view, IsView};

    ghost view = { open_view };

    ghost invariant = { IsView };
}

impl<'a> View<'a> {
    /// Starts before the first group of a source. A byte order mark selects the encoding, and without one the requested
    /// encoding applies.
    ///
    /// UTF-16 is refused with the error `Unsupported`, as edits refuse it.
    pub fn open(
        alloc: Global,
        source: &'a [u8],
        encoding: Encoding,
    ) -> Result<View<'a>, PropertiesError>
        ensures { OpensView (encoding_of encoding) source.now result }
    {
        let walk = Walk::open(alloc, source, encoding)?;
        Ok(View { walk, group: None })
    }

    /// Returns the encoding in force.
    pub fn encoding(&self) -> Encoding
        ensures { encoding_of result ≡ self.now.encoding }
    {
        self.walk.encoding()
    }

    /// Returns the next group, or `None` after the last one. Every group has bytes: an empty line after a last line
    /// ending is none.
    ///
    /// Fails only if memory runs out. Then another call tries the same group again.
    ///
    /// ```text
    /// let mut view = View::open(alloc, b"a = 1\n\nb = \\\n  2", Encoding::UTF_8)?;
    /// let mut kinds = Vec::new(alloc);
    /// while let Some(group) = view.next()? {
    ///     kinds.push((group.kind, group.line_number, group.line_count))?;
    /// }
    /// assert!(rt; kinds.as_slice() == [
    ///     (GroupKind::Pair, 1, 1),
    ///     (GroupKind::Blank, 2, 1),
    ///     (GroupKind::Pair, 3, 2),
    /// ].as_slice());
    /// ```
    pub fn next(&mut self) -> Result<Option<ViewedGroup>, AllocError>
        ensures gives { GivesNext self.old result self.new }
        ensures nearer { IfOk result (λ group. OnSome group (length self.new.to_come < length self.old.to_come)) }
    {
        self.group = None;
        let Some(group) = self.walk.next()? else {
            return Ok(None);
        };
        self.group = Some(group);
        Ok(Some(ViewedGroup {
            kind: group.parts.kind,
            line_number: group.group.number,
            line_count: self.walk.line_count(group),
            start: group.group.start,
            end: group.group.end,
            next: group.next,
        }))
    }

    /// Returns the logical line of the group: its lines joined, with escapes as they stand.
    ///
    /// ```text
    /// let mut view = View::open(alloc, b"key = \\u0041\\\n    B", Encoding::UTF_8)?;
    /// view.next()?;
    /// assert_eq!(rt; view.line(), "key = \\u0041B");
    /// ```
    pub fn line(&self) -> &str
        ensures { chars result.now ≡ viewed_line self.now }
    {
        match self.group {
            Some(group) => self.walk.line(group),
            None => "",
        }
    }

    /// Returns the key of a pair as it stands, with its escapes; the sign of a comment; or an empty text of a blank line.
    ///
    /// ```text
    /// let mut view = View::open(alloc, b"a\\ b = c", Encoding::UTF_8)?;
    /// view.next()?;
    /// assert_eq!(rt; view.raw_key(), "a\\ b");
    /// ```
    pub fn raw_key(&self) -> &str
        ensures { IsRawKey (viewed_line self.now) (chars result.now) }
    {
        match self.group {
            Some(group) => self.walk.raw_key(group),
            None => "",
        }
    }

    /// Returns the value of a pair as it stands, with its escapes; the text of a comment, without the blanks around it;
    /// or an empty text of a blank line.
    ///
    /// ```text
    /// let mut view = View::open(alloc, b"#  C:\\users \n", Encoding::UTF_8)?;
    /// view.next()?;
    /// assert_eq!(rt; view.raw_value(), "C:\\users");
    /// ```
    pub fn raw_value(&self) -> &str
        ensures { IsRawValue (viewed_line self.now) (chars result.now) }
    {
        match self.group {
            Some(group) => self.walk.raw_value(group),
            None => "",
        }
    }

    /// Returns where the parts of the group are in the source.
    ///
    /// ```text
    /// let mut view = View::open(alloc, b"  a = b\n", Encoding::UTF_8)?;
    /// view.next()?;
    /// let places = view.places()?;
    /// assert!(rt; (places.key_start, places.key_end) == (2, 3));
    /// assert!(rt; (places.value_start, places.value_end) == (6, 7));
    /// ```
    ///
    /// Fails only if memory runs out.
    pub fn places(&self) -> Result<PartPlaces, AllocError>
        ensures places { IfOk result (λ places. ArePlaces self.now places) }
        ensures ordered { IfOk result (λ places. AreOrdered self.now places) }
    {
        let Some(group) = self.group else {
            let end = self.walk.place();
            return Ok(PartPlaces {
                key_start: end,
                key_end: end,
                value_start: end,
                value_end: end,
            });
        };
        let places = self.walk.places(group)?;
        Ok(places)
    }

    /// Returns the first malformed escape of the group, if it has one: of its key, then of its value; or of the text of
    /// a comment, in which a program may ignore it, as Java does.
    ///
    /// ```text
    /// let mut view = View::open(alloc, b"a = \\\n  b \\u12", Encoding::UTF_8)?;
    /// view.next()?;
    /// if let Some(flaw) = view.flaw()? {
    ///     println!(rt; "{}:{}: {}", flaw.line_number, flaw.column, flaw.kind)?;
    /// }
    /// // It prints `2:5: Malformed \uxxxx encoding: not enough digits.`
    /// ```
    ///
    /// Fails only if memory runs out.
    pub fn flaw(&self) -> Result<Option<Flaw>, AllocError>
        ensures { IfOk result (λ flaw. TellsFlaw self.now flaw) }
    {
        let Some(group) = self.group else {
            return Ok(None);
        };
        match self.walk.flaw(group)? {
            Some(found) => Ok(Some(Flaw {
                kind: make::malformed_kind(found.how),
                place: found.place,
                line_number: found.number,
                column: found.column,
            })),
            None => Ok(None),
        }
    }

    /// Returns the number of the first natural line of the group whose bytes aren't well-formed UTF-8, if there is one.
    /// In windows-1252 there is none.
    ///
    /// ```text
    /// let mut view = View::open(alloc, b"a = \\\n  \xff", Encoding::UTF_8)?;
    /// view.next()?;
    /// assert!(rt; view.ill_formed_line()? == Some(2));
    /// ```
    ///
    /// Fails only if memory runs out.
    pub fn ill_formed_line(&self) -> Result<Option<usize>, AllocError>
        ensures { IfOk result (λ number. TellsIllFormed self.now number) }
    {
        let Some(group) = self.group else {
            return Ok(None);
        };
        let number = self.walk.ill_formed_line(group)?;
        Ok(number)
    }
}
