//! A map by mounts or groups in which room can be reserved.
ghost use Rattle.std.specs.Prelude.{◌≡◌, ◌≤◌, ℕ, length, [], None, Some, OnOk, if◌then◌else◌, is_some, true};
ghost use Rattle.std.specs.BTreeMap.{insert_entry, is_at};
ghost use Rattle.std.specs.Map.{remove_entry};
ghost use Rattle.std.specs.Ordering.{nat_cmp};
ghost use Rattle.vt_group.specs.ByNumber.{IsAscending, has_room, value_at};

use crate::id::Id;
use indexmap::IndexMap;
use std::alloc::{AllocError, Global};
use std::marker::{Model, PhantomData};

/// Values by mounts or groups: contracts see them in the order of the keys' numbers. They are kept by hash, in no order.
/// Room can be reserved for a value, which then comes without an allocation.
#[derive(Debug, Drop)]
pub(crate) struct ByNumber<K, V> {
    // A number without a value is room for one.
    places: IndexMap<u64, Option<V>>,
    keys: PhantomData<K>,
}

impl<K, V> Model for ByNumber<K, V> {
    ghost use Rattle.std.specs.Map.{keys_of};
    ghost use Rattle.vt_group.specs.ByNumber.{Numbered, values_of};

    ghost Value = { Numbered V };

    ghost view = { λ m. record { entries = values_of m.places.entries; room = keys_of m.places.entries } };
}

impl<K: Id, V: Copy + Clone + Drop> ByNumber<K, V> {
    /// No values. It does not allocate.
    pub(crate) fn new(alloc: Global) -> Self
        ensures entries { result.entries ≡ [] }
        ensures ordered { IsAscending result }
    {
        ByNumber {
            places: IndexMap::new(alloc),
            keys: PhantomData,
        }
    }

    /// The value of a key.
    #[inline]
    pub(crate) fn get(&self, key: K) -> Option<V>
        ensures { result ≡ value_at self.now (K.number key) }
    {
        match self.places.get(&key.number()) {
            Some(value) => *value,
            None => None,
        }
    }

    /// Whether a key has a value.
    #[inline]
    pub(crate) fn has(&self, key: K) -> bool
        ensures { result ≡ is_some (value_at self.now (K.number key)) }
    {
        self.get(key).is_some()
    }

    /// No fewer than there are values.
    pub(crate) fn len(&self) -> usize
        ensures { length self.now.entries ≤ result }
    {
        self.places.len()
    }

    /// Reserves room for the value of a key. No value changes.
    pub(crate) fn reserve(&mut self, key: K) -> Result<(), AllocError>
        ensures room { OnOk result (has_room self.new (K.number key) ≡ true) }
        ensures kept { (other : ℕ) → has_room self.old other ≡ true → has_room self.new other ≡ true }
        ensures entries { self.new.entries ≡ self.old.entries }
    {
        let number = key.number();
        let was = self.places.insert(number, None)?;
        let Some(value) = was.flatten() else {
            return Ok(());
        };
        self.places.insert(number, Some(value))?;
        Ok(())
    }

    /// Gives a key a value, for which there is room, and returns the value that it had. It does not allocate.
    pub(crate) fn set(&mut self, key: K, value: V) -> Option<V>
        requires { has_room self.old (K.number key) ≡ true }
        ensures value { result ≡ value_at self.old (K.number key) }
        ensures entries { self.new.entries ≡ insert_entry nat_cmp self.old.entries (K.number key) value }
        ensures updates { (other : ℕ) → value_at self.new other
            ≡ (if is_at (nat_cmp (K.number key)) other then Some value else value_at self.old other) }
        ensures kept { (other : ℕ) → has_room self.old other ≡ true → has_room self.new other ≡ true }
        ensures ordered { IsAscending self.new }
    {
        let Some(place) = self.places.get_mut(&key.number()) else {
            return None;
        };
        let was = *place;
        *place = Some(value);
        was
    }

    /// Takes the value of a key, if any, and leaves room for one. It does not allocate.
    pub(crate) fn clear(&mut self, key: K)
        ensures entries { self.new.entries ≡ remove_entry (is_at (nat_cmp (K.number key))) self.old.entries }
        ensures updates { (other : ℕ) → value_at self.new other
            ≡ (if is_at (nat_cmp (K.number key)) other then None else value_at self.old other) }
        ensures kept { (other : ℕ) → has_room self.old other ≡ true → has_room self.new other ≡ true }
        ensures ordered { IsAscending self.new }
    {
        let Some(place) = self.places.get_mut(&key.number()) else {
            return;
        };
        *place = None;
    }

    /// Gives up the room of a key that has no value. No value changes, and it does not allocate.
    pub(crate) fn release(&mut self, key: K)
        ensures { self.new.entries ≡ self.old.entries }
    {
        if !self.has(key) {
            self.places.swap_remove(&key.number());
        }
    }

    /// Takes the value of a key, if any, and its room. It does not allocate.
    pub(crate) fn remove(&mut self, key: K) -> Option<V>
        ensures value { result ≡ value_at self.old (K.number key) }
        ensures entries { self.new.entries ≡ remove_entry (is_at (nat_cmp (K.number key))) self.old.entries }
        ensures updates { (other : ℕ) → value_at self.new other
            ≡ (if is_at (nat_cmp (K.number key)) other then None else value_at self.old other) }
        ensures ordered { IsAscending self.new }
    {
        self.places.swap_remove(&key.number()).flatten()
    }
}
