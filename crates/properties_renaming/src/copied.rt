// The bytes of a source, copied with some of them replaced.

ghost use Rattle.std.specs.Prelude.{◌≡◌, ◌≤◌, ◌++◌, length, IfErr, IfOk, OnOk};
ghost use Rattle.properties_items.specs.Errors.{IsBareError};
ghost use Rattle.properties_items.specs.declared.error.ErrorKind.TheVariants as kind;
ghost use Rattle.properties_renaming.specs.Private.Copied.{IsNew, copied_to, IsReplacedIn};

use properties_items::error::PropertiesError;
use std::alloc::{AllocError, Global};

/// Returns a copy of a source.
pub(crate) fn copy_of(alloc: Global, source: &[u8]) -> Result<Vec<u8>, PropertiesError>
    ensures same { IfOk result (λ copy. copy.items ≡ source.now) }
    ensures memory { IfErr result (IsBareError kind.Memory) }
{
    let copy = source.to_vec(alloc)?;
    Ok(copy)
}

/// What was copied of a source so far, and put in.
#[derive(Drop)]
pub(crate) struct Copied<'a> {
    source: &'a [u8],
    bytes: Vec<u8>,
    // The place from which the source is still to be copied.
    done: usize,
}

impl<'a> Copied<'a> {
    /// Nothing was copied yet. There is room for the whole source.
    pub(crate) fn new(alloc: Global, source: &'a [u8]) -> Result<Copied<'a>, AllocError>
        ensures { IfOk result (IsNew source.now) }
    {
        Ok(Copied {
            source,
            bytes: Vec::with_capacity(alloc, source.len())?,
            done: 0,
        })
    }

    /// Returns the source.
    pub(crate) fn source(&self) -> &'a [u8]
        ensures { result.now ≡ self.now.source.now }
    {
        self.source
    }

    /// Copies the source up to one place, puts these bytes, and goes on from a later place.
    pub(crate) fn replace(
        &mut self,
        start: usize,
        end: usize,
        bytes: &[u8],
    ) -> Result<(), AllocError>
        requires done { self.old.done ≤ start }
        requires ordered { start ≤ end }
        requires within { end ≤ length self.old.source.now }
        ensures { OnOk result (IsReplacedIn self.old start end bytes.now self.new) }
    {
        self.bytes
            .extend_from_slice(&self.source[self.done..start])?;
        self.bytes.extend_from_slice(bytes)?;
        self.done = end;
        Ok(())
    }

    /// Copies the rest of the source, and returns all bytes.
    pub(crate) fn finish(self) -> Result<Vec<u8>, AllocError>
        requires { self.done ≤ length self.source.now }
        ensures { IfOk result (λ bytes.
            bytes.items ≡ copied_to self.entry (length self.entry.source.now)) }
    {
        let Copied {
            source,
            bytes: mut all,
            done,
        } = self;
        all.extend_from_slice(&source[done..])?;
        Ok(all)
    }
}
