//! Room for the entries of a directory, made before they come.
ghost use Rattle.std.specs.Prelude.{◌≡◌, [], ◌+◌, ◌<◌, ◌≤◌, length, OnOk, OnErr};
ghost use Rattle.indexmap.specs.IndexMap.{spare};
ghost use Rattle.vt_node.specs.Listed.{listed};

use crate::NodeId;
use indexmap::IndexMap;
use std::alloc::{AllocError, Global};
use std::marker::Model;
use std::mem;

/// Room for the entries of a directory, made before they come, so that a name can be put in where nothing may fail.
///
/// It is a map without entries. A directory that is full moves into it, and leaves its own map for the next time.
/// Contracts see for how many entries there is room.
#[derive(Debug, Drop)]
pub struct EntryRoom {
    by_name: IndexMap<Vec<u8>, NodeId>,
    places: usize,
}

impl Model for EntryRoom {
    ghost use Rattle.std.specs.Prelude.{ℕ, ◌≡◌, ◌≤◌, []};
    ghost use Rattle.indexmap.specs.IndexMap.{spare};

    ghost Value = { ℕ };

    ghost view = { λ room. room.places };

    ghost invariant = { λ room. (room.by_name.entries ≡ []) × (room.places ≤ spare room.by_name) };
}

impl EntryRoom {
    /// No room. It does not allocate.
    pub fn new(alloc: Global) -> Self
        ensures { result ≡ 0 }
    {
        EntryRoom {
            by_name: IndexMap::new(alloc),
            places: 0,
        }
    }

    /// Makes room for so many entries in all.
    pub fn reserve(&mut self, entries: usize) -> Result<(), AllocError>
        ensures ok { OnOk result (entries ≤ self.new) }
        ensures kept { self.old ≤ self.new }
        ensures err { OnErr result (self.new ≡ self.old) }
    {
        if entries <= self.places {
            return Ok(());
        }
        self.by_name.reserve(entries)?;
        self.places = entries;
        Ok(())
    }

    // Leaves a map with a place for one entry more: the entries of a full one move here, and the maps change places.
    pub(crate) fn make_place(&mut self, by_name: &mut IndexMap<Vec<u8>, NodeId>)
        requires { length (listed by_name.old.entries) < self.old }
        ensures listed { listed by_name.new.entries ≡ listed by_name.old.entries }
        ensures place { 0 < spare by_name.new }
    {
        if by_name.len() < by_name.capacity() {
            return;
        }
        move_entries(by_name, &mut self.by_name);
        mem::swap(by_name, &mut self.by_name);
        self.places = self.by_name.capacity();
    }
}

// Moves all entries into an empty map that has room for them. It cannot fail.
fn move_entries(from: &mut IndexMap<Vec<u8>, NodeId>, to: &mut IndexMap<Vec<u8>, NodeId>)
    requires empty { to.old.entries ≡ [] }
    requires room { length from.old.entries ≤ spare to.old }
    ensures listed { listed to.new.entries ≡ listed from.old.entries }
    ensures left { from.new.entries ≡ [] }
    ensures spare { spare to.old ≤ spare to.new + length from.old.entries }
{
    while let Some(entry) = from.pop() {
        let (name, id) = entry;
        // It cannot fail: there is room.
        let _ = to.insert(name, id);
    }
}
