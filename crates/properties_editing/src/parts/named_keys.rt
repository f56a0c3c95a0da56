// The keys whose pairs have parts of their own.

ghost use Rattle.std.specs.Prelude.{◌≡◌, ℕ, List, ◌^◌, ◌%◌, false, ◌++◌, ◌∷◌, [], length, IsOk, None, Some, OnErr, OnOk};
ghost use Rattle.std.specs.BTreeMap.{IsOrdered};
ghost use Rattle.std.specs.String.{string_cmp};
ghost use Rattle.std.specs.Str.{chars};
ghost use Rattle.properties_editing.specs.Private.BodyParts.{AddsPlace, AreMasked, AreUnplaced, HasPlaceAdded, NamesKey, MayHave, is_named, listed_places};
ghost use Rattle.properties_editing.specs.Private.ChangedParts.{AreKeysKept, HasNewValue, key_place, last_place};

use super::{KeyPlaces, NamedKeys, Places};
use std::alloc::{AllocError, Global};
use std::collections::BTreeMap;
use std::collections::btree_map::Entry;

impl KeyPlaces {
    // Adds a place behind the others.
    fn add(&mut self, alloc: Global, place: usize) -> Result<(), AllocError>
        ensures places { OnOk result (listed_places self.new ≡ listed_places self.old ++ place ∷ []) }
        ensures first { self.old.places ≡ None → IsOk result }
        ensures value { self.new.value ≡ self.old.value }
    {
        if let Some(places) = &mut self.places {
            places.earlier.push(places.last)?;
            places.last = place;
            return Ok(());
        }
        self.places = Some(Places {
            last: place,
            earlier: Vec::new(alloc),
        });
        Ok(())
    }

    /// Returns the place of the last pair.
    #[tactic(auto, using(crate::proofs::PartLists::last_pushed))]
    pub fn last_place(&self) -> Option<usize>
        ensures { result ≡ last_place (listed_places self.now) }
    {
        match &self.places {
            Some(places) => Some(places.last),
            None => None,
        }
    }
}

// Returns the bit of this length of a key.
#[inline(always)]
fn length_bit(size: usize) -> u64
    ensures { result ≡ 2 ^ (size % 64) }
{
    1 << (size as u64 % 64)
}

impl NamedKeys {
    /// All keys, or none yet.
    pub fn new(alloc: Global, all: bool) -> NamedKeys
        ensures unplaced { AreUnplaced result }
        ensures named { (key : List ℕ) → is_named result key ≡ all }
        ensures all { result.all ≡ all }
    {
        NamedKeys {
            all,
            places: BTreeMap::new(alloc),
            lengths: 0,
        }
    }

    /// Names a key, before a body is read.
    pub fn name(&mut self, alloc: Global, key: &str) -> Result<(), AllocError>
        requires unplaced { AreUnplaced self.old }
        requires some { self.old.all ≡ false }
        ensures { OnOk result (NamesKey (chars key.now) self.old self.new) }
    {
        let places = KeyPlaces {
            places: None,
            value: String::new(alloc),
        };
        self.places.insert(String::from_str(alloc, key)?, places)?;
        self.lengths |= length_bit(key.len());
        Ok(())
    }

    /// Returns whether a key of so many bytes may be named.
    #[inline(always)]
    pub fn may_have(&self, size: usize) -> bool
        ensures { MayHave self.now size result }
    {
        self.all || self.lengths & length_bit(size) != 0
    }

    /// Stores the place of a pair behind those of earlier ones, and returns whether its key is named. The value is
    /// stored if all are.
    pub fn add(
        &mut self,
        alloc: Global,
        key: &str,
        value: &str,
        place: usize,
    ) -> Result<bool, AllocError>
        requires ordered { IsOrdered string_cmp self.old.places }
        requires masked { AreMasked self.old }
        ensures { AddsPlace (chars key.now) (chars value.now) place self.old result self.new }
    {
        if self.all {
            self.add_any(alloc, key, value, place)?;
            return Ok(true);
        }
        if !self.may_have(key.len()) {
            return Ok(false);
        }
        let Some(places) = self.places.get_mut(key) else {
            return Ok(false);
        };
        places.add(alloc, place)?;
        Ok(true)
    }

    /// Stores the place of a pair behind those of earlier ones, and its value.
    pub fn add_any(
        &mut self,
        alloc: Global,
        key: &str,
        value: &str,
        place: usize,
    ) -> Result<(), AllocError>
        requires { IsOrdered string_cmp self.old.places }
        ensures added { OnOk result (HasPlaceAdded (chars key.now) (chars value.now) place self.old self.new) }
        ensures kept { OnErr result (key_place self.old (chars key.now) ≡ None → AreKeysKept self.old self.new) }
    {
        let key = String::from_str(alloc, key)?;
        let value = String::from_str(alloc, value)?;
        match self.places.entry(key)? {
            Entry::Occupied(entry) => {
                let places = entry.into_mut();
                places.add(alloc, place)?;
                places.value = value;
            }
            Entry::Vacant(entry) => {
                entry.insert(KeyPlaces {
                    places: Some(Places {
                        last: place,
                        earlier: Vec::new(alloc),
                    }),
                    value,
                });
            }
        }
        Ok(())
    }

    /// Gives the last pair with a key another value.
    pub fn set_value(&mut self, key: &str, value: String)
        requires { IsOrdered string_cmp self.old.places }
        ensures { HasNewValue (chars key.now) value self.old self.new }
    {
        if let Some(places) = self.places.get_mut(key) {
            places.value = value;
        }
    }
}
