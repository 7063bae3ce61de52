//! Lists of the places of mounts, under keys.
ghost use Rattle.std.specs.Prelude.{◌≡◌, ◌++◌, ◌∷◌, [], IfOk, OnOk, if◌then◌else◌};
ghost use Rattle.vt_listing.specs.GroupsListed.{under};

use indexmap::IndexMap;
use std::alloc::{AllocError, Global};
use std::hash::Hash;
use vt_request::MountPlace;

/// Lists of places, each under a key: a peer group.
#[derive(Debug, Drop)]
pub(crate) struct PlacesBy<K: Eq + Hash> {
    lists: IndexMap<K, Vec<MountPlace>>,
}

impl<K: Eq + Hash + Drop> PlacesBy<K> {
    /// No places. It does not allocate.
    pub(crate) fn new(alloc: Global) -> Self
        ensures { (q : K) → under K.eq q result ≡ [] }
    {
        PlacesBy {
            lists: IndexMap::new(alloc),
        }
    }

    /// The places under a key, in the order in which they came.
    pub(crate) fn of(&self, alloc: Global, key: &K) -> Result<Vec<MountPlace>, AllocError>
        ensures { IfOk result (λ places. places.items ≡ under K.eq key.now self.now) }
    {
        let mut places = Vec::new(alloc);
        if let Some(list) = self.lists.get(key) {
            places.extend_from_slice(list)?;
        }
        Ok(places)
    }

    /// Adds a place to the end of the list under a key.
    pub(crate) fn push(&mut self, key: K, place: MountPlace) -> Result<(), AllocError>
        ensures { OnOk result ((q : K) → under K.eq q self.new
            ≡ (if K.eq q key then under K.eq q self.old ++ place ∷ [] else under K.eq q self.old)) }
    {
        if let Some(list) = self.lists.get_mut(&key) {
            list.push(place)?;
            return Ok(());
        }
        let mut list = Vec::new(*self.lists.allocator());
        list.push(place)?;
        self.lists.insert(key, list)?;
        Ok(())
    }
}
