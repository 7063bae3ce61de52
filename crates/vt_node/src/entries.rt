//! The entries of a directory: a map from names, which contracts see in the order of the names' bytes.
ghost use Rattle.std.specs.Prelude.{◌≡◌, ◌<◌, [], find, length, map, nat_eq, true, IsSome, IsTrue, IsOk, IfOk, ◌↔◌, OnOk, OnErr, option_copied, option_map};
ghost use Rattle.std.specs.FinMap.Entries.{is_sorted};
ghost use Rattle.std.specs.List.Sorted.{IsPermutation};
ghost use Rattle.vt_spec.specs.Tree.{name_cmp, entry_named, with_entry};
ghost use Rattle.vt_spec.specs.Language.Changes.{without_entry};
ghost use Rattle.vt_node.specs.Listed.{HasOneName};
ghost use Rattle.vt_node.specs.Ranks.{name_ranked, rank_among};

use crate::NodeId;
use crate::copies::copied_names;
use crate::rooms::EntryRoom;
use indexmap::IndexMap;
use std::alloc::{AllocError, Global};
use std::marker::Model;

/// The entries of a directory: each name once, with the number of its node.
///
/// They are kept by hash and in no order, so that an entry is put in and taken out at once however many there are.
#[derive(Debug, Drop)]
pub struct DirectoryEntries {
    by_name: IndexMap<Vec<u8>, NodeId>,
}

impl Model for DirectoryEntries {
    ghost use Rattle.std.specs.Prelude.{ℕ};
    ghost use Rattle.vt_spec.specs.Tree.{Entries};
    ghost use Rattle.vt_node.specs.Listed.{listed};

    ghost Value = { Entries ℕ };

    ghost view = { λ d. listed d.by_name.entries };
}

impl DirectoryEntries {
    /// No entries. It does not allocate.
    pub fn new(alloc: Global) -> Self
        ensures { result ≡ [] }
    {
        DirectoryEntries {
            by_name: IndexMap::new(alloc),
        }
    }

    /// The number that a name leads to.
    pub fn entry(&self, name: &[u8]) -> Option<NodeId>
        ensures { result ≡ entry_named name.now self.now }
    {
        self.by_name.get(name).copied()
    }

    /// Puts an entry in. It fails only if an allocation does, and a name that exists needs none.
    pub fn insert(&mut self, name: Vec<u8>, id: NodeId) -> Result<(), AllocError>
        ensures ok { OnOk result (self.new ≡ with_entry name.items id self.old) }
        ensures present { IsSome (entry_named name.items self.old) → IsOk result }
        ensures in_order { is_sorted name_cmp self.old ≡ true }
        ensures err { OnErr result (self.new ≡ self.old) }
    {
        self.by_name.insert(name, id)?;
        Ok(())
    }

    /// Puts an entry in, for a caller that has made room for one more. It does not allocate.
    pub fn place(&mut self, name: Vec<u8>, id: NodeId, room: &mut EntryRoom)
        requires { length self.old < room.old }
        ensures entry { self.new ≡ with_entry name.items id self.old }
        ensures in_order { is_sorted name_cmp self.old ≡ true }
    {
        room.make_place(&mut self.by_name);
        // It cannot fail.
        let _ = self.by_name.insert(name, id);
    }

    /// Takes an entry out, if it exists. It does not allocate.
    pub fn remove(&mut self, name: &[u8])
        ensures { self.new ≡ without_entry name.now self.old }
    {
        self.by_name.swap_remove(name);
    }

    /// Copies of the names, in the order of their bytes. It fails only if an allocation does, and no entries need none.
    pub fn names(&self, alloc: Global) -> Result<Vec<Vec<u8>>, AllocError>
        ensures ok { IfOk result (λ names. map (λ name. name.items) names.items ≡ map (λ entry. entry.0) self.now) }
        ensures empty { self.now ≡ [] → IsOk result }
    {
        let mut names = copied_names(alloc, self.by_name.keys().as_slice())?;
        names.sort_unstable();
        Ok(names)
    }

    /// The names, each once, in the order in which they are kept. It does not allocate.
    pub fn kept_names(&self) -> &[Vec<u8>]
        ensures { IsPermutation (map (λ name. name.items) result.now) (map (λ entry. entry.0) self.now) }
    {
        self.by_name.keys().as_slice()
    }

    /// The name that leads to a number which has one name at most. It passes over the entries.
    pub fn name_of(&self, id: NodeId) -> Option<&[u8]>
        requires { HasOneName id self.now }
        ensures { option_copied result ≡ option_map (λ entry. entry.0) (find (λ entry. nat_eq id entry.1) self.now) }
    {
        let numbers = self.by_name.values().as_slice();
        let place = numbers.iter().position(|number| *number == id)?;
        let (name, _) = self.by_name.get_index(place)?;
        Some(name.as_slice())
    }

    /// The rank of a name: how many smaller ones lead to the same number. It passes over the entries.
    pub fn rank_of(&self, name: &[u8], id: NodeId) -> usize
        ensures { result ≡ rank_among self.now name.now id }
    {
        let names = self.by_name.keys().as_slice();
        let numbers = self.by_name.values().as_slice();
        let mut rank = 0;
        for (place, number) in numbers.iter().enumerate() {
            if id == *number && names[place].as_slice() < name {
                rank += 1;
            }
        }
        rank
    }

    /// The name of a rank among those that lead to a number. It passes over the entries, and once more for each name
    /// that leads there.
    pub fn name_ranked(&self, id: NodeId, rank: usize) -> Option<&[u8]>
        ensures { option_copied result ≡ name_ranked self.now id rank }
    {
        let names = self.by_name.keys().as_slice();
        let numbers = self.by_name.values().as_slice();
        for (place, number) in numbers.iter().enumerate() {
            let name = names[place].as_slice();
            if id == *number && rank == self.rank_of(name, id) {
                return Some(name);
            }
        }
        None
    }

    /// How many entries there are.
    pub fn len(&self) -> usize
        ensures { result ≡ length self.now }
    {
        self.by_name.len()
    }

    /// Whether there are no entries.
    pub fn is_empty(&self) -> bool
        ensures { IsTrue result ↔ (self.now ≡ []) }
    {
        self.by_name.is_empty()
    }
}
