// The keys of parts, in order.

ghost use Rattle.std.specs.Prelude.{◌≡◌, IfOk, slice_get};
ghost use Rattle.properties_editing.specs.Private.BodyParts.{listed_places};
ghost use Rattle.properties_editing.specs.Private.KeyOrder.{AreKeysAt, HasKeysOf, HavePlaces};

use super::{KeyPlaces, Parts};
use std::alloc::{AllocError, Global};

impl Parts {
    /// Returns the keys, each once, in the order of their first pairs.
    pub fn keys_in_order(&self, alloc: Global) -> Result<Vec<&str>, AllocError>
        requires { HavePlaces self.now }
        ensures { IfOk result (λ keys. HasKeysOf self.now keys.items) }
    {
        let firsts = self.keys_by_first_place(alloc)?;
        let mut keys = Vec::with_capacity(alloc, self.keys.places.len())?;
        for first in &firsts {
            if let Some(key) = first {
                keys.push(*key)?;
            }
        }
        Ok(keys)
    }

    // Returns for each place the key whose first pair is there, if there is one.
    fn keys_by_first_place(&self, alloc: Global) -> Result<Vec<Option<&str>>, AllocError>
        requires { HavePlaces self.now }
        ensures { IfOk result (λ firsts. AreKeysAt self.now.keys.places.entries firsts.items) }
    {
        let mut firsts = vec![in alloc; None; self.parts.len()]?;
        for (key, places) in &self.keys.places {
            if let Some(place) = places.first_place() {
                firsts[place] = Some(key.as_str());
            }
        }
        Ok(firsts)
    }
}

impl KeyPlaces {
    // Returns the place of the first pair.
    fn first_place(&self) -> Option<usize>
        ensures { result ≡ slice_get (listed_places self.now) 0 }
    {
        match &self.places {
            Some(places) => match places.earlier.first() {
                Some(place) => Some(*place),
                None => Some(places.last),
            },
            None => None,
        }
    }
}
