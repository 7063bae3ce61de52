//! Nodes that have lost their last name while they are in use: unlink(2) and rmdir(2).
ghost use Rattle.std.specs.List.{list_any};
ghost use Rattle.std.specs.Map.{keys_of};
ghost use Rattle.std.specs.Prelude.{◌≡◌, ◌+◌, ◌-◌, ◌<◌, ◌^◌, ◌↔◌, IsErr, OnErr, OnOk, false, if◌then◌else◌, nat_eq, nat_lt};
ghost use Rattle.vt_location.specs.SameNodes.{same_node};
ghost use Rattle.vt_location.specs.declared.locations.NodeRef.{NodeRef as Node};

use indexmap::IndexMap;
use std::alloc::{AllocError, Global};
use std::marker::Model;
use vt_location::NodeRef;

/// The nodes of an overlay that are kept without a name, each with its uses: how many locations, roots of mounts and
/// mount points are on it. A node is forgotten with its last use.
///
/// Room for nodes can be promised to a plan, so that none of those that it puts in can fail.
#[derive(Debug, Drop)]
pub struct Kept {
    by_node: IndexMap<NodeRef, u64>,
    promised: usize,
}

impl Model for Kept {
    ghost use Rattle.vt_births.specs.Kept.{KeepsNodes, KeptValue, nodes_kept};

    ghost Value = { KeptValue };

    ghost view = { λ kept. nodes_kept kept.by_node kept.promised };

    ghost invariant = { λ kept. KeepsNodes kept.by_node kept.promised };
}

impl Kept {
    ghost use Rattle.vt_births.specs.Kept.{is_kept, none_kept, one_more, uses_of};

    /// No nodes. It does not allocate.
    pub fn new(alloc: Global) -> Self
        ensures { result ≡ none_kept }
    {
        Kept {
            by_node: IndexMap::new(alloc),
            promised: 0,
        }
    }

    /// The uses of a node; one that is not kept has none here.
    pub fn uses(&self, node: NodeRef) -> u64
        ensures { result ≡ uses_of self.now node }
    {
        match self.by_node.get(&node) {
            Some(uses) => *uses,
            None => 0,
        }
    }

    /// Whether a node is kept.
    pub fn has(&self, node: NodeRef) -> bool
        ensures kept { result ≡ is_kept self.now node }
        ensures uses { result ≡ nat_lt 0 (uses_of self.now node) }
    {
        self.by_node.contains_key(&node)
    }

    /// The nodes that are kept, in no order.
    pub fn nodes(&self) -> &[NodeRef]
        ensures { (node : Node) → list_any (same_node node) result.now ≡ nat_lt 0 (uses_of self.now node) }
    {
        self.by_node.keys().as_slice()
    }

    /// Promises room for so many nodes more.
    pub fn promise(&mut self, nodes: usize) -> Result<(), AllocError>
        ensures ok { OnOk result (self.new ≡ record self.old { promised = self.old.promised + nodes }) }
        ensures err { OnErr result (self.new ≡ self.old) }
    {
        let Some(promised) = self.promised.checked_add(nodes) else {
            return Err(AllocError);
        };
        self.by_node.reserve(promised)?;
        self.promised = promised;
        Ok(())
    }

    /// Takes back so many promises. It does not allocate.
    pub fn give_back(&mut self, nodes: usize)
        ensures { self.new ≡ record self.old { promised = self.old.promised - nodes } }
    {
        self.promised = self.promised.saturating_sub(nodes);
    }

    /// Keeps a node that has so many uses, for which room is promised. It cannot fail, and does not allocate.
    pub fn keep(&mut self, node: NodeRef, uses: u64)
        requires room { 0 < self.old.promised }
        requires used { 0 < uses }
        requires new { uses_of self.old node ≡ 0 }
        ensures uses { (other : Node) → uses_of self.new other
            ≡ (if same_node node other then uses else uses_of self.old other) }
        ensures promised { self.new.promised ≡ self.old.promised - 1 }
    {
        self.promised -= 1;
        // It cannot fail: there is room.
        let _ = self.by_node.insert(node, uses);
    }

    /// Counts one use more of a node, if it is kept. It does not allocate.
    ///
    /// An error says that it has 2^64 - 1 uses.
    pub fn pin(&mut self, node: NodeRef) -> Result<(), AllocError>
        ensures ok { OnOk result ((other : Node) → uses_of self.new other
            ≡ (if same_node node other then one_more (uses_of self.old other) else uses_of self.old other)) }
        ensures nodes { keys_of self.new.by_node ≡ keys_of self.old.by_node }
        ensures promised { self.new.promised ≡ self.old.promised }
        ensures limit { IsErr result ↔ (uses_of self.old node + 1 ≡ 2 ^ 64) }
        ensures err { OnErr result (self.new ≡ self.old) }
    {
        let Some(uses) = self.by_node.get_mut(&node) else {
            return Ok(());
        };
        let Some(more) = uses.checked_add(1) else {
            return Err(AllocError);
        };
        *uses = more;
        Ok(())
    }

    /// Takes back one use of a node, if it is kept, and tells whether it was the last: then the node is kept no more. It
    /// does not allocate.
    pub fn unpin(&mut self, node: NodeRef) -> bool
        ensures last { result ≡ nat_eq (uses_of self.old node) 1 }
        ensures uses { (other : Node) → uses_of self.new other
            ≡ (if same_node node other then uses_of self.old other - 1 else uses_of self.old other) }
        ensures kept { (other : Node) → is_kept self.new other
            ≡ (if same_node node other then nat_lt 1 (uses_of self.old other) else is_kept self.old other) }
        ensures nodes { nat_eq (uses_of self.old node) 1 ≡ false
            → keys_of self.new.by_node ≡ keys_of self.old.by_node }
        ensures promised { self.new.promised ≡ self.old.promised }
    {
        let Some(uses) = self.by_node.get_mut(&node) else {
            return false;
        };
        *uses -= 1;
        if *uses > 0 {
            return false;
        }
        self.by_node.swap_remove(&node);
        true
    }
}
