//! What an overlay with an upper layer keeps of its nodes: copies, and what is in use without a name.
ghost use Rattle.std.specs.Map.{keys_of};
ghost use Rattle.std.specs.Prelude.{◌≡◌, ◌&&◌, ◌+◌, ◌-◌, None, OnErr, OnOk, false, if◌then◌else◌, nat_eq, nat_lt, ℕ};
ghost use Rattle.vt_spec.specs.Lists.{holds_of};
ghost use Rattle.vt_location.specs.SameNodes.{same_node};
ghost use Rattle.vt_location.specs.declared.locations.NodeRef.{NodeRef as Node};
ghost use Rattle.vt_births.specs.Births.{copy_of, no_births, node_of, slot_above};
ghost use Rattle.vt_births.specs.Kept.{is_kept, none_kept, uses_of};
ghost use Rattle.vt_births.specs.KeptObjects.{AreOf, has_kept_object};

use crate::births::Births;
use crate::kept::Kept;
use std::alloc::{AllocError, Global};
use vt_location::{FilesystemId, NodeRef};

/// The births of copies, and the nodes that are kept without a name.
#[derive(Debug, Drop)]
pub struct UpperNodes {
    pub births: Births,
    pub kept: Kept,
}

impl UpperNodes {
    /// No births, and no nodes. It does not allocate.
    pub fn new(alloc: Global) -> Self
        ensures { result ≡ record { births = no_births; kept = none_kept } }
    {
        UpperNodes {
            births: Births::new(alloc),
            kept: Kept::new(alloc),
        }
    }

    /// Promises room for so many births and kept nodes more, for all or for none.
    pub fn promise(&mut self, births: usize, kept: usize) -> Result<(), AllocError>
        ensures ok { OnOk result (self.new ≡ record {
          births = record self.old.births { promised = self.old.births.promised + births };
          kept = record self.old.kept { promised = self.old.kept.promised + kept };
        }) }
        ensures err { OnErr result (self.new ≡ self.old) }
    {
        self.births.promise(births)?;
        if self.kept.promise(kept).is_err() {
            self.births.give_back(births);
            return Err(AllocError);
        }
        Ok(())
    }

    /// Takes back one use of a node, if it is kept. With the last the node is forgotten, and so is its birth. It gives
    /// the slot of the upper layer in which a node that is forgotten has its object, if that is there. It does not
    /// allocate.
    pub fn unpin(&mut self, node: NodeRef) -> Option<usize>
        ensures object { result
            ≡ (if nat_eq (uses_of self.old.kept node) 1 then slot_above self.old.births node else None) }
        ensures uses { (other : Node) → uses_of self.new.kept other
            ≡ (if same_node node other then uses_of self.old.kept other - 1 else uses_of self.old.kept other) }
        ensures kept { (other : Node) → is_kept self.new.kept other
            ≡ (if same_node node other then nat_lt 1 (uses_of self.old.kept other) else is_kept self.old.kept other) }
        ensures still_kept { nat_eq (uses_of self.old.kept node) 1 ≡ false
            → keys_of self.new.kept.by_node ≡ keys_of self.old.kept.by_node }
        ensures still_born { nat_eq (uses_of self.old.kept node) 1 ≡ false → self.new.births ≡ self.old.births }
        ensures nodes { (other : ℕ) → node_of self.new.births other
            ≡ (if nat_eq (uses_of self.old.kept node) 1
            && holds_of (λ slot. nat_eq slot other) (copy_of self.old.births node) then None
            else node_of self.old.births other) }
        ensures copies { (other : Node) → copy_of self.new.births other
            ≡ (if nat_eq (uses_of self.old.kept node) 1 && same_node node other then None
            else copy_of self.old.births other) }
        ensures births_promised { self.new.births.promised ≡ self.old.births.promised }
        ensures kept_promised { self.new.kept.promised ≡ self.old.kept.promised }
    {
        if !self.kept.unpin(node) {
            return None;
        }
        let slot = self.births.slot_above(node);
        self.births.forget(node);
        slot
    }

    /// Whether an inode of the upper layer is the object of a node that is kept. It costs two look-ups, however many are
    /// kept. The kept nodes must be of this overlay.
    pub fn keep_object_in(&self, overlay: FilesystemId, slot: usize) -> bool
        requires { AreOf overlay self.now }
        ensures { result ≡ has_kept_object self.now slot }
    {
        let node = self.births.node_above(overlay, slot);
        self.kept.has(node)
    }
}
