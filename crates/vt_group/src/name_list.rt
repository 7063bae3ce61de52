//! The names of one group.
ghost use Rattle.std.specs.Prelude.{◌≡◌, ◌++◌, ◌∷◌, ◌+◌, ◌<◌, ◌^◌, [], IfOk, IsOk, if◌then◌else◌, is_ok, length, true};
ghost use Rattle.std.specs.List.{list_any};
ghost use Rattle.vt_location.specs.Numbers.{same_id};
ghost use Rattle.vt_location.specs.declared.numbers.GroupId.{GroupId as GroupNumber};
ghost use Rattle.vt_location.specs.declared.numbers.MountId.{MountId as MountNumber};
ghost use Rattle.vt_group.specs.Sets.{has, same_group};

use crate::names::drop_unused;
use crate::sets::Sets;
use std::alloc::{AllocError, Global};
use std::collections::LinkedList;
use std::marker::Model;
use vt_location::{GroupId, MountId};

/// The names of one group, and how often one of them fell out of use since they were last passed over. Contracts see
/// the names alone.
#[derive(Debug, Drop)]
pub(crate) struct NameList {
    names: LinkedList<GroupId>,
    unused: usize,
}

impl Model for NameList {
    ghost use Rattle.std.specs.Prelude.{List};
    ghost use Rattle.vt_location.specs.declared.numbers.GroupId.{GroupId};

    ghost Value = { List GroupId };

    ghost view = { λ l. l.names };
}

impl NameList {
    /// One name.
    pub(crate) fn new(alloc: Global, name: GroupId) -> Result<Self, AllocError>
        ensures { IfOk result (λ list. list ≡ name ∷ []) }
    {
        let mut names = LinkedList::new(alloc);
        names.push_back(name)?;
        Ok(NameList { names, unused: 0 })
    }

    /// The names.
    #[inline]
    pub(crate) fn names(&self) -> &LinkedList<GroupId>
        ensures { result.now ≡ self.now }
    {
        &self.names
    }

    /// The names of another group come after these. It fails only where there would be too many, and does not allocate.
    pub(crate) fn append(&mut self, other: &mut NameList) -> Result<(), AllocError>
        ensures items { self.new ≡ (if is_ok result then self.old ++ other.old else self.old) }
        ensures succeeds { length self.old + length other.old < 2 ^ 63 → IsOk result }
    {
        self.unused = self.unused.saturating_add(other.unused);
        self.names.append(&mut other.names)
    }

    /// Counts that one of the names fell out of use. Returns whether at least half may have, so that a pass over them is
    /// worth it; counting then restarts. It does not allocate.
    pub(crate) fn note_unused(&mut self) -> bool
        ensures { self.new ≡ self.old }
    {
        self.unused = self.unused.saturating_add(1);
        if self.unused < self.names.len() / 2 {
            return false;
        }
        self.unused = 0;
        true
    }

    /// Drops the names under which nothing is kept, and tells how many. It does not allocate.
    pub(crate) fn keep_used(&mut self, mounts: &Sets<MountId>, lowers: &Sets<GroupId>) -> usize
        ensures mounts { (mount : MountNumber) → list_any (λ name. has same_id name mount mounts.now) self.old ≡ true
            → list_any (λ name. has same_id name mount mounts.now) self.new ≡ true }
        ensures lowers { (lower : GroupNumber) → list_any (λ name. has same_group name lower lowers.now) self.old ≡ true
            → list_any (λ name. has same_group name lower lowers.now) self.new ≡ true }
        ensures dropped { length self.new + result ≡ length self.old }
    {
        let before = self.names.len();
        drop_unused(&mut self.names, mounts, lowers);
        before - self.names.len()
    }
}
