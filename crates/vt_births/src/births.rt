//! Births of what was copied up: the kernel's overlayfs document, "upper and lower", "inode properties".
ghost use Rattle.std.specs.Prelude.{◌≡◌, ◌+◌, ◌-◌, ◌<◌, None, OnErr, OnOk, Some, if◌then◌else◌, nat_eq, true, ℕ};
ghost use Rattle.vt_spec.specs.Lists.{holds_of};
ghost use Rattle.vt_location.specs.SameNodes.{same_node};
ghost use Rattle.vt_location.specs.declared.locations.NodeRef.{NodeRef as Node};

use indexmap::IndexMap;
use std::alloc::{AllocError, Global};
use std::marker::Model;
use vt_location::{Birth, FilesystemId, NodeRef};

/// The nodes of an overlay that were copied up, each with the slot of its copy in the upper layer's tree. Both are found
/// from the other.
///
/// Room for births can be promised to a plan, so that none of those that it adds can fail.
#[derive(Debug, Drop)]
pub struct Births {
    by_copy: IndexMap<usize, NodeRef>,
    by_node: IndexMap<NodeRef, usize>,
    promised: usize,
}

impl Model for Births {
    ghost use Rattle.vt_births.specs.Births.{BirthsValue, KeepsBirths, births_kept};

    ghost Value = { BirthsValue };

    ghost view = { λ births. births_kept births.by_copy births.by_node births.promised };

    ghost invariant = { λ births. KeepsBirths births.by_copy births.by_node births.promised };
}

impl Births {
    ghost use Rattle.vt_births.specs.Births.{AreOneToOne, copy_of, is_born_below, no_births, node_above, node_of, slot_above};

    /// No births. It does not allocate.
    pub fn new(alloc: Global) -> Self
        ensures { result ≡ no_births }
    {
        Births {
            by_copy: IndexMap::new(alloc),
            by_node: IndexMap::new(alloc),
            promised: 0,
        }
    }

    /// The node whose copy is in a slot of the upper layer.
    pub fn node_of(&self, slot: usize) -> Option<NodeRef>
        ensures node { result ≡ node_of self.now slot }
        ensures one_to_one { AreOneToOne self.now }
    {
        self.by_copy.get(&slot).copied()
    }

    /// The slot of the copy of a node.
    pub fn copy_of(&self, node: NodeRef) -> Option<usize>
        ensures slot { result ≡ copy_of self.now node }
        ensures one_to_one { AreOneToOne self.now }
    {
        self.by_node.get(&node).copied()
    }

    /// The node that has its object in a slot of the upper layer: the one that was copied there, else the one that was
    /// born there.
    pub fn node_above(&self, overlay: FilesystemId, slot: usize) -> NodeRef
        ensures node { result ≡ node_above self.now overlay slot }
        ensures one_to_one { AreOneToOne self.now }
    {
        match self.node_of(slot) {
            Some(node) => node,
            None => NodeRef {
                filesystem: overlay,
                slot,
                birth: Birth::Here,
            },
        }
    }

    /// The slot of the upper layer in which a node has its object: its own, if it was born there, else that of its copy.
    pub fn slot_above(&self, node: NodeRef) -> Option<usize>
        ensures { result ≡ slot_above self.now node }
    {
        match node.birth {
            Birth::Here => Some(node.slot),
            Birth::Below { .. } => self.copy_of(node),
        }
    }

    /// Promises room for so many births more.
    pub fn promise(&mut self, births: usize) -> Result<(), AllocError>
        ensures ok { OnOk result (self.new ≡ record self.old { promised = self.old.promised + births }) }
        ensures err { OnErr result (self.new ≡ self.old) }
    {
        let Some(promised) = self.promised.checked_add(births) else {
            return Err(AllocError);
        };
        self.by_copy.reserve(promised)?;
        self.by_node.reserve(promised)?;
        self.promised = promised;
        Ok(())
    }

    /// Takes back so many promises. It does not allocate.
    pub fn give_back(&mut self, births: usize)
        ensures { self.new ≡ record self.old { promised = self.old.promised - births } }
    {
        self.promised = self.promised.saturating_sub(births);
    }

    /// Adds the birth of a copy, for which room is promised: neither the node nor the slot has one yet. It cannot fail,
    /// and does not allocate.
    pub fn add(&mut self, node: NodeRef, slot: usize)
        requires room { 0 < self.old.promised }
        requires below { is_born_below node ≡ true }
        requires node { copy_of self.old node ≡ None }
        requires slot { node_of self.old slot ≡ None }
        ensures nodes { (other : ℕ) → node_of self.new other
            ≡ (if nat_eq slot other then Some node else node_of self.old other) }
        ensures copies { (other : Node) → copy_of self.new other
            ≡ (if same_node node other then Some slot else copy_of self.old other) }
        ensures promised { self.new.promised ≡ self.old.promised - 1 }
    {
        self.promised -= 1;
        // They cannot fail: there is room.
        let _ = self.by_copy.insert(slot, node);
        let _ = self.by_node.insert(node, slot);
    }

    /// Forgets the birth of a node, if it has one, and gives the slot of its copy. It does not allocate.
    pub fn forget(&mut self, node: NodeRef) -> Option<usize>
        ensures copy { result ≡ copy_of self.old node }
        ensures nodes { (other : ℕ) → node_of self.new other
            ≡ (if holds_of (λ slot. nat_eq slot other) (copy_of self.old node) then None else node_of self.old other) }
        ensures copies { (other : Node) → copy_of self.new other
            ≡ (if same_node node other then None else copy_of self.old other) }
        ensures promised { self.new.promised ≡ self.old.promised }
    {
        let slot = self.by_node.swap_remove(&node)?;
        self.by_copy.swap_remove(&slot);
        Some(slot)
    }
}
