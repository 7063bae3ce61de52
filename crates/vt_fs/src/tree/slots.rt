//! Inodes by number. A number keeps its inode until the last use of the inode goes, and only then is it given out
//! again.
ghost use Rattle.std.specs.Prelude.{◌≡◌, ℕ, ◌^◌, [], ◌+◌, ◌-◌, ◌<◌, ◌≤◌, None, Some, IsSome, IsOk, OnOk, OnErr, ◌↔◌, option_copied, if◌then◌else◌, IsErr};
ghost use Rattle.std.specs.Option.{option_copied_mut};
ghost use Rattle.std.specs.Borrow.{Lends, sem};
ghost use Rattle.vt_spec.specs.Inodes.{uses_in, used_once_less, used_once_more};

use slab::Slab;
use std::alloc::{AllocError, Global};
use std::marker::Model;
use vt_node::{Node, NodeId};

// A node and how often it is in use.
#[derive(Debug, Drop)]
struct Slot {
    node: Node,
    uses: u64,
}

impl Model for Slot {
    ghost use Rattle.std.specs.Prelude.{ℕ};
    ghost use Rattle.vt_spec.specs.Inodes.{Inode};

    ghost Value = { Inode ℕ };

    ghost view = { λ s. record { node = s.node; uses = s.uses } };
}

impl Slot {
    ghost use Rattle.vt_fs.specs.Trees.Slots.{with_slot_node};
    ghost use Rattle.vt_fs.specs.contracts.tree.slots.Slot.{the_row};
    ghost use Rattle.vt_node.specs.contracts.nodes.Node.{the_row as node_row};

    fn node_mut(&mut self) -> &mut Node
        ensures* lends { sem 𝓛 (Lends the_row node_row self.entry result (with_slot_node self.old)) }
        ensures value { result.now ≡ self.old.node }
    {
        &mut self.node
    }
}

/// Nodes by number.
///
/// Each use of a node counts: an entry that leads to it, an open file, a place where a task stands. The count is exact:
/// a use beyond 2^64 - 1 is refused.
#[derive(Debug, Drop)]
pub struct Slots {
    slab: Slab<Slot>,
}

impl Model for Slots {
    ghost use Rattle.std.specs.Prelude.{◌-◌};
    ghost use Rattle.slab.specs.Slab.{slab_len};
    ghost use Rattle.vt_fs.specs.Trees.Slots.{Slots as Table};

    ghost Value = { Table };

    ghost view = { λ s. record {
      slots = s.slab.slots;
      next = s.slab.vacant_key;
      room = s.slab.capacity - slab_len s.slab;
    } };
}

impl Slots {
    ghost use Rattle.vt_fs.specs.Trees.Slots.{Slots as Table, slots_len, slot_at, node_at, put_at, with_uses, goes};
    ghost use Rattle.vt_location.specs.Numbers.{most_counted};
    ghost use Rattle.vt_fs.specs.Trees.Lends.{lends_node, lends_present};

    /// No nodes. It does not allocate.
    pub fn new(alloc: Global) -> Self
        ensures { result ≡ record { slots = []; next = 0; room = 0 } }
    {
        Slots {
            slab: Slab::new(alloc),
        }
    }

    /// The node with this number.
    pub fn get(&self, id: NodeId) -> Option<&Node>
        ensures { option_copied result ≡ node_at self.now id }
    {
        let slot = self.slab.get(id.index())?;
        Some(&slot.node)
    }

    /// The node with this number, for a change.
    pub fn get_mut(&mut self, id: NodeId) -> Option<&mut Node>
        ensures* writes_back { sem 𝓛 (lends_node self.entry id result) }
        ensures value { option_copied_mut result ≡ node_at self.old id }
    {
        if self.slab.contains(id.index()) {
            Some(self.node_mut(id))
        } else {
            None
        }
    }

    fn node_mut(&mut self, id: NodeId) -> &mut Node
        requires { IsSome (slot_at self.old id) }
        ensures* writes_back { sem 𝓛 (lends_present self.entry id result) }
        ensures value { node_at self.old id ≡ Some result.now }
    {
        self.slab[id.index()].node_mut()
    }

    /// How often the node with this number is in use: 0 where there is none.
    pub fn uses(&self, id: NodeId) -> u64
        ensures { result ≡ uses_in (slot_at self.now id) }
    {
        match self.slab.get(id.index()) {
            Some(slot) => slot.uses,
            None => 0,
        }
    }

    /// How many nodes there are.
    pub fn len(&self) -> usize
        ensures { result ≡ slots_len self.now }
    {
        self.slab.len()
    }

    /// A number above those of all nodes, and of all that fit.
    pub fn end(&self) -> usize
        ensures vacant { (id : ℕ) → result ≤ id → slot_at self.now id ≡ None }
        ensures fits { slots_len self.now + self.now.room ≤ result }
    {
        self.slab.capacity()
    }

    /// The number that the next insert gives out.
    pub fn next(&self) -> NodeId
        ensures value { result ≡ self.now.next }
        ensures vacant { slot_at self.now result ≡ None }
    {
        NodeId::new(self.slab.vacant_key())
    }

    /// How many more nodes fit.
    pub fn room(&self) -> usize
        ensures { result ≡ self.now.room }
    {
        self.slab.capacity() - self.slab.len()
    }

    /// Makes room for so many more nodes.
    pub fn reserve(&mut self, additional: usize) -> Result<(), AllocError>
        ensures ok { OnOk result (additional ≤ self.new.room) }
        ensures succeeds { additional ≤ self.old.room → IsOk result }
        ensures room { self.old.room ≤ self.new.room }
        ensures rest_kept { self.new ≡ record self.old { room = self.new.room } }
    {
        if additional <= self.slab.capacity() - self.slab.len() {
            return Ok(());
        }
        self.slab.reserve(additional)
    }

    /// Makes room for so many more nodes beside some that are promised. While some are, no more are made to fit.
    pub fn reserve_beside(&mut self, promised: usize, additional: usize) -> Result<(), AllocError>
        requires { promised ≤ self.old.room }
        ensures ok { OnOk result (promised + additional ≤ self.new.room) }
        ensures still { 0 < promised → self.new.room ≡ self.old.room }
        ensures room { self.old.room ≤ self.new.room }
        ensures rest_kept { self.new ≡ record self.old { room = self.new.room } }
    {
        if additional <= self.room() - promised {
            return Ok(());
        }
        if promised > 0 {
            return Err(AllocError);
        }
        self.reserve(additional)
    }

    /// Gives a node with one use the next number, for a caller that has made room.
    pub fn insert_reserved(&mut self, node: Node) -> NodeId
        requires { 0 < self.old.room }
        ensures number { result ≡ self.old.next }
        ensures vacant { slot_at self.old result ≡ None }
        ensures below { result < slots_len self.old + self.old.room }
        ensures inserted { slot_at self.new
            ≡ put_at (slot_at self.old) result (Some (record { node = node; uses = 1 })) }
        ensures len { slots_len self.new ≡ slots_len self.old + 1 }
        ensures room { self.new.room + 1 ≡ self.old.room }
    {
        NodeId::new(self.slab.insert_reserved(Slot { node, uses: 1 }))
    }

    /// Counts one use more of a node that exists. It does not allocate: an error says that the count is at its limit,
    /// 2^64 - 1.
    pub fn acquire(&mut self, id: NodeId) -> Result<(), AllocError>
        ensures acquired { OnOk result
            (slot_at self.new ≡ put_at (slot_at self.old) id (used_once_more (slot_at self.old id))) }
        ensures limit { IsErr result ↔ (uses_in (slot_at self.old id) ≡ most_counted) }
        ensures next { self.new.next ≡ self.old.next }
        ensures len { slots_len self.new ≡ slots_len self.old }
        ensures room { self.new.room ≡ self.old.room }
        ensures err { OnErr result (self.new ≡ self.old) }
    {
        if self.uses(id) == u64::MAX {
            return Err(AllocError);
        }
        self.count_use(id);
        Ok(())
    }

    /// Counts one use more of a node that exists, for a caller that knows that the count is below its limit.
    pub fn count_use(&mut self, id: NodeId)
        requires { uses_in (slot_at self.old id) < most_counted }
        ensures acquired { slot_at self.new ≡ put_at (slot_at self.old) id (used_once_more (slot_at self.old id)) }
        ensures next { self.new.next ≡ self.old.next }
        ensures len { slots_len self.new ≡ slots_len self.old }
        ensures room { self.new.room ≡ self.old.room }
    {
        let uses = self.uses(id);
        self.set_uses(id, uses + 1);
    }

    /// Counts one use less of a node that exists, and returns whether that was the last: with it the node goes, and its
    /// number is the next to be given out. It does not allocate.
    pub fn release(&mut self, id: NodeId) -> bool
        ensures released { slot_at self.new ≡ put_at (slot_at self.old) id (used_once_less (slot_at self.old id)) }
        ensures gone { result ≡ goes (slot_at self.old id) }
        ensures next { self.new.next ≡ (if goes (slot_at self.old id) then id else self.old.next) }
        ensures len { slots_len self.new
            ≡ (if goes (slot_at self.old id) then slots_len self.old - 1 else slots_len self.old) }
        ensures room { self.old.room ≤ self.new.room }
        ensures total { slots_len self.new + self.new.room ≤ slots_len self.old + self.old.room }
    {
        let uses = self.uses(id);
        if uses <= 1 {
            return self.slab.try_remove(id.index()).is_some();
        }
        self.set_uses(id, uses - 1);
        false
    }

    // Sets the count of a node that exists.
    fn set_uses(&mut self, id: NodeId, uses: u64)
        ensures set { slot_at self.new ≡ put_at (slot_at self.old) id (with_uses uses (slot_at self.old id)) }
        ensures next { self.new.next ≡ self.old.next }
        ensures len { slots_len self.new ≡ slots_len self.old }
        ensures room { self.new.room ≡ self.old.room }
    {
        if let Some(slot) = self.slab.get_mut(id.index()) {
            slot.uses = uses;
        }
    }
}
