//! Sets of mounts or groups, each under a group.
ghost use Rattle.std.specs.Prelude.{◌≡◌, IsSome, ◌&&◌, false, true, OnOk};
ghost use Rattle.vt_location.specs.Numbers.{same_id};
ghost use Rattle.vt_location.specs.declared.numbers.GroupId.{GroupId as GroupNumber};
ghost use Rattle.vt_location.specs.declared.numbers.MountId.{MountId as MountNumber};
ghost use Rattle.vt_group.specs.ByNumber.{value_at};
ghost use Rattle.vt_group.specs.Sets.{has, kept_in, same_group};

use crate::by_number::ByNumber;
use crate::set::{self, Element, Set};
use indexmap::IndexMap;
use std::alloc::{AllocError, Global};
use vt_location::{GroupId, MountId, Propagation};

/// Sets, each under a group. None is empty.
#[derive(Debug, Drop)]
pub(crate) struct Sets<T> {
    sets: IndexMap<GroupId, Set<T>>,
}

impl<T: Element> Sets<T> {
    /// No sets. It does not allocate.
    pub(crate) fn new(alloc: Global) -> Self {
        Sets {
            sets: IndexMap::new(alloc),
        }
    }

    /// What is under a group.
    #[inline]
    pub(crate) fn get(&self, group: GroupId) -> &[T]
        ensures { result.now ≡ kept_in group self.now }
    {
        match self.sets.get(&group) {
            Some(set) => set.as_slice(),
            None => &[],
        }
    }

    /// Whether one is under a group.
    pub(crate) fn contains(&self, group: GroupId, one: &T) -> bool
        ensures { result ≡ has T.eq group one.now self.now }
    {
        self.get(group).contains(one)
    }

    /// Adds one under a group.
    pub(crate) fn insert(&mut self, group: GroupId, one: T) -> Result<(), AllocError>
        ensures there { OnOk result (has T.eq group one self.new ≡ true) }
        ensures kept { (at : GroupNumber) (other : T) → has T.eq at other self.old ≡ true
            → has T.eq at other self.new ≡ true }
    {
        let alloc = *self.sets.allocator();
        match self.sets.get_mut(&group) {
            Some(set) => set.insert(alloc, one),
            None => {
                self.sets.insert(group, Set::One(Some(one)))?;
                Ok(())
            }
        }
    }

    /// Takes one out from under a group. Returns whether nothing is left there, or `None` if it was not there. It does
    /// not allocate.
    pub(crate) fn remove(&mut self, group: GroupId, one: T) -> Option<bool>
        ensures { (at : GroupNumber) (other : T) → (same_group group at && T.eq one other) ≡ false
            → has T.eq at other self.old ≡ true → has T.eq at other self.new ≡ true }
    {
        let Some(set) = self.sets.get_mut(&group) else {
            return None;
        };
        if !set.remove(&one) {
            return None;
        }
        if set.is_empty() {
            self.sets.swap_remove(&group);
            return Some(true);
        }
        Some(false)
    }
}

/// Takes out the mounts under a group that have no type. It does not allocate.
pub(crate) fn keep_typed(
    sets: &mut Sets<MountId>,
    group: GroupId,
    types: &ByNumber<MountId, Propagation>,
)
    ensures { (at : GroupNumber) (mount : MountNumber) → IsSome (value_at types.now mount.count)
        → has same_id at mount sets.old ≡ true → has same_id at mount sets.new ≡ true }
{
    let Some(set) = sets.sets.get_mut(&group) else {
        return;
    };
    set::keep_typed(set, types);
    if set.is_empty() {
        sets.sets.swap_remove(&group);
    }
}

/// Takes out the groups under a group that have no master. It does not allocate.
pub(crate) fn keep_lower(
    sets: &mut Sets<GroupId>,
    group: GroupId,
    above: &ByNumber<GroupId, GroupId>,
)
    ensures { (at lower : GroupNumber) → IsSome (value_at above.now lower.count)
        → has same_group at lower sets.old ≡ true → has same_group at lower sets.new ≡ true }
{
    let Some(set) = sets.sets.get_mut(&group) else {
        return;
    };
    set::keep_lower(set, above);
    if set.is_empty() {
        sets.sets.swap_remove(&group);
    }
}
