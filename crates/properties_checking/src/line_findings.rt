// What is wrong in the logical lines of a source.

ghost use Rattle.std.specs.Prelude.{◌≡◌, OnOk};
ghost use Rattle.std.specs.Str.{chars};
ghost use Rattle.properties_text.specs.Encoding.{encoding_of};
ghost use Rattle.properties_checking.specs.Check.{has_replacement};
ghost use Rattle.properties_checking.specs.Private.LineFindings.{NotesPair, FindsInLines, TookFindings};
ghost use Rattle.properties_tables.specs.Private.Table.{IsKeyTable};

use crate::check::{Finding, FindingKind};
use java_properties::{Encoding, MalformedEscape, PropertiesError};
use properties_tables::fold::{Taker, take_all};
use properties_tables::key_table::KeyTable;
use std::alloc::{AllocError, Global};

/// What is wrong in logical lines.
#[derive(Drop)]
pub(crate) struct LineFindings {
    /// The malformed escapes.
    pub escapes: Vec<MalformedEscape>,
    /// The pairs that repeat a key.
    pub repeats: Vec<Finding>,
    // The keys that came.
    pub keys: KeyTable,
    // Whether the source is well-formed.
    pub is_well_formed: bool,
}

/// Returns the malformed escapes of a source and the pairs that repeat a key, each in the order of the lines. Unless
/// the source is well-formed, a key with U+FFFD repeats no other.
pub(crate) fn line_findings(
    alloc: Global,
    source: &[u8],
    encoding: Encoding,
    is_well_formed: bool,
) -> Result<LineFindings, PropertiesError>
    ensures { FindsInLines (encoding_of encoding) is_well_formed source.now result }
{
    let none = LineFindings {
        escapes: Vec::new(alloc),
        repeats: Vec::new(alloc),
        keys: KeyTable::for_source(alloc, source.len())?,
        is_well_formed,
    };
    take_all(alloc, source, encoding, none)
}

impl Taker for LineFindings {
    ghost took = { TookFindings };

    #[tactic(auto, using(crate::proofs::LineFindings::taken))]
    #[inline(always)]
    fn pair(
        &mut self,
        alloc: Global,
        line_number: usize,
        key: &str,
        _value: &str,
    ) -> Result<(), AllocError> {
        self.add_key(alloc, line_number, key)
    }

    #[tactic(auto, using(crate::proofs::LineFindings::taken))]
    fn malformed(
        &mut self,
        _alloc: Global,
        escape: MalformedEscape,
        _line: &str,
    ) -> Result<(), AllocError> {
        Ok(self.escapes.push(escape)?)
    }
}

impl LineFindings {
    // Adds a key. If an earlier pair has it, that is a finding.
    #[inline(always)]
    fn add_key(&mut self, alloc: Global, line_number: usize, key: &str) -> Result<(), AllocError>
        requires { IsKeyTable self.old.keys }
        ensures adds { OnOk result (NotesPair self.old.is_well_formed line_number (chars key.now) self.old self.new) }
        ensures kept { self.new.escapes ≡ self.old.escapes }
        ensures setting { self.new.is_well_formed ≡ self.old.is_well_formed }
    {
        let row = self.keys.put(alloc, line_number, key)?;
        if self.keys.first_line(row) == line_number {
            return Ok(());
        }
        if !self.is_well_formed && may_stand_for_bytes(key) {
            return Ok(());
        }
        Ok(
            self.repeats.push(Finding {
                line_number,
                kind: FindingKind::Repeats(row),
            })?,
        )
    }
}

/// Returns whether ill-formed bytes may have been read as a character of a key.
pub fn may_stand_for_bytes(key: &str) -> bool
    ensures { result ≡ has_replacement (chars key.now) }
{
    for character in key.chars() {
        if character == '\u{fffd}' {
            return true;
        }
    }
    false
}
