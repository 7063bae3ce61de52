//! Lists under keys, each in the order of its elements.
ghost use Rattle.std.specs.Prelude.{◌≡◌, ◌+◌, ◌-◌, ◌<◌, [], Some, filter, if◌then◌else◌, is_some, not, position, true, OnErr, OnOk};
ghost use Rattle.std.specs.Map.{keys_of, lookup};
ghost use Rattle.vt_mount.specs.Listed.{reserved, listed};
ghost use Rattle.vt_mount.specs.Rising.{inserted, rises};

use crate::ascending::{Ascending, Ordered};
use indexmap::IndexMap;
use indexmap::map::Entry;
use std::alloc::{AllocError, Global};
use std::hash::Hash;

/// Lists, each under a key: mounts under a namespace or a mount, and what stands on an inode under that.
#[derive(Debug, Drop)]
pub(crate) struct ListsBy<K: Eq + Hash, T: Ordered> {
    lists: IndexMap<K, Ascending<T>>,
    // Where the list was that changed last: the next change is often one of the same list.
    recent: usize,
}

impl<K: Eq + Hash + Copy + Drop, T: Ordered> ListsBy<K, T> {
    /// No lists. It does not allocate.
    pub(crate) fn new(alloc: Global) -> Self
        ensures { (q : K) → listed K.eq q result ≡ [] }
    {
        ListsBy {
            lists: IndexMap::new(alloc),
            recent: 0,
        }
    }

    /// What is listed under a key.
    #[inline(always)]
    pub(crate) fn get(&self, key: &K) -> &[T]
        ensures value { result.now ≡ listed K.eq key.now self.now }
        ensures rising { rises T.before result.now ≡ true }
    {
        if self.lists.is_empty() {
            return &[];
        }
        match self.lists.get(key) {
            Some(list) => list.as_slice(),
            None => &[],
        }
    }

    /// What is listed under a key, of which the list is likely the one that changed last.
    pub(crate) fn get_again(&self, key: &K) -> &[T]
        ensures { result.now ≡ listed K.eq key.now self.now }
    {
        match self.lists.get_index(self.recent) {
            Some((recent, list)) if *key == *recent => list.as_slice(),
            _ => self.get(key),
        }
    }

    // Whether the list that changed last is the one under a key.
    fn is_recent(&self, key: &K) -> bool
        ensures { result ≡ true → position (K.eq key.now) (keys_of self.now.lists.entries) ≡ Some self.now.recent }
    {
        match self.lists.as_slice().get_index(self.recent) {
            Some((recent, _)) => *key == *recent,
            None => false,
        }
    }

    // Where the list under a key is, which is likely the one that changed last.
    fn place_of(&self, key: &K) -> Option<usize>
        ensures place { result ≡ position (K.eq key.now) (keys_of self.now.lists.entries) }
        ensures found { is_some result ≡ is_some (lookup (K.eq key.now) self.now.lists.entries) }
    {
        if self.is_recent(key) {
            return Some(self.recent);
        }
        self.lists.get_index_of(key)
    }

    /// Reserves room for one more under a key, beside the room that is reserved there already.
    pub(crate) fn reserve(&mut self, key: K) -> Result<(), AllocError>
        ensures same { (q : K) → listed K.eq q self.new ≡ listed K.eq q self.old }
        ensures ok { OnOk result ((q : K) → reserved K.eq q self.new
            ≡ (if K.eq q key then reserved K.eq q self.old + 1 else reserved K.eq q self.old)) }
    {
        let alloc = *self.lists.allocator();
        if let Some(list) = self.lists.get_mut(&key) {
            return list.reserve_one(alloc);
        }
        let mut list = Ascending::new();
        list.reserve_one(alloc)?;
        self.lists.insert(key, list)?;
        Ok(())
    }

    /// Adds one under a key, in order.
    pub(crate) fn add(&mut self, key: K, one: T) -> Result<(), AllocError>
        ensures ok { OnOk result ((q : K) → listed K.eq q self.new
            ≡ (if K.eq q key then inserted T.before one (listed K.eq q self.old) else listed K.eq q self.old)) }
        ensures err { OnErr result ((q : K) → listed K.eq q self.new ≡ listed K.eq q self.old) }
    {
        let alloc = *self.lists.allocator();
        match self.lists.entry(key)? {
            Entry::Occupied(entry) => entry.into_mut().add(alloc, one),
            Entry::Vacant(entry) => {
                entry.insert(Ascending::of(one));
                Ok(())
            }
        }
    }

    /// Adds one as `add` does, where the list is likely the one that changed last.
    pub(crate) fn add_again(&mut self, key: K, one: T) -> Result<(), AllocError>
        ensures ok { OnOk result ((q : K) → listed K.eq q self.new
            ≡ (if K.eq q key then inserted T.before one (listed K.eq q self.old) else listed K.eq q self.old)) }
        ensures err { OnErr result ((q : K) → listed K.eq q self.new ≡ listed K.eq q self.old) }
    {
        if self.is_recent(&key) {
            return self.add_at(self.recent, one);
        }
        self.recent = self.lists.len();
        self.add(key, one)
    }

    // Adds one to the list at a place.
    fn add_at(&mut self, place: usize, one: T) -> Result<(), AllocError>
        ensures ok { OnOk result ((key : K) → position (K.eq key) (keys_of self.old.lists.entries) ≡ Some place
            → (q : K) → listed K.eq q self.new
            ≡ (if K.eq q key then inserted T.before one (listed K.eq q self.old) else listed K.eq q self.old)) }
        ensures err { OnErr result ((key : K) → position (K.eq key) (keys_of self.old.lists.entries) ≡ Some place
            → (q : K) → listed K.eq q self.new ≡ listed K.eq q self.old) }
    {
        let alloc = *self.lists.allocator();
        let Some(list) = self.lists.get_index_mut(place) else {
            return Err(AllocError);
        };
        list.add(alloc, one)
    }

    /// Inserts one under a key, where room is reserved, in order. It does not allocate.
    pub(crate) fn put_in(&mut self, key: &K, one: T)
        requires { 0 < reserved K.eq key.now self.old }
        ensures inserted { (q : K) → listed K.eq q self.new
            ≡ (if K.eq q key.now then inserted T.before one (listed K.eq q self.old) else listed K.eq q self.old) }
        ensures reserved { (q : K) → reserved K.eq q self.new
            ≡ (if K.eq q key.now then reserved K.eq q self.old - 1 else reserved K.eq q self.old) }
    {
        if let Some(list) = self.lists.get_mut(key) {
            list.insert(one);
        }
    }

    /// Removes one from the list under a key, which stays even if it is empty. It does not allocate.
    pub(crate) fn take_out(&mut self, key: &K, one: T)
        ensures taken { (q : K) → listed K.eq q self.new
            ≡ (if K.eq q key.now then filter (λ other. not (T.eq other one)) (listed K.eq q self.old)
            else listed K.eq q self.old) }
        ensures reserved { (q : K) → reserved K.eq q self.new ≡ reserved K.eq q self.old }
    {
        if let Some(list) = self.lists.get_mut(key) {
            list.remove(one);
        }
    }

    /// Gives up the room that is reserved under a key. It does not allocate.
    pub(crate) fn release(&mut self, key: &K)
        ensures { (q : K) → listed K.eq q self.new ≡ listed K.eq q self.old }
    {
        self.give_up(key);
        self.drop_empty(key);
    }

    // Gives up the room that is reserved under a key. The list stays even if it is empty.
    fn give_up(&mut self, key: &K)
        ensures { (q : K) → listed K.eq q self.new ≡ listed K.eq q self.old }
    {
        if let Some(list) = self.lists.get_mut(key) {
            list.release();
        }
    }

    /// Drops the list under a key, if it is empty. It does not allocate.
    pub(crate) fn drop_empty(&mut self, key: &K)
        ensures { (q : K) → listed K.eq q self.new ≡ listed K.eq q self.old }
    {
        if self.get(key).is_empty() {
            self.lists.swap_remove(key);
        }
    }

    /// Removes one from the list under a key. It does not allocate.
    pub(crate) fn remove(&mut self, key: &K, one: T)
        ensures { (q : K) → listed K.eq q self.new
            ≡ (if K.eq q key.now then filter (λ other. not (T.eq other one)) (listed K.eq q self.old)
            else listed K.eq q self.old) }
    {
        if let Some(place) = self.lists.get_index_of(key) {
            self.remove_at(place, one);
        }
    }

    /// Removes one as `remove` does, where the list is likely the one that changed last.
    pub(crate) fn remove_again(&mut self, key: &K, one: T)
        ensures { (q : K) → listed K.eq q self.new
            ≡ (if K.eq q key.now then filter (λ other. not (T.eq other one)) (listed K.eq q self.old)
            else listed K.eq q self.old) }
    {
        if let Some(place) = self.place_of(key) {
            self.recent = place;
            self.remove_at(place, one);
        }
    }

    // Removes one from the list at a place, and drops the list if it gets empty.
    fn remove_at(&mut self, place: usize, one: T)
        ensures { (key : K) → position (K.eq key) (keys_of self.old.lists.entries) ≡ Some place
            → (q : K) → listed K.eq q self.new
            ≡ (if K.eq q key then filter (λ other. not (T.eq other one)) (listed K.eq q self.old)
            else listed K.eq q self.old) }
    {
        let Some(list) = self.lists.get_index_mut(place) else {
            return;
        };
        list.remove(one);
        if list.is_empty() {
            self.lists.swap_remove_index(place);
        }
    }
}
