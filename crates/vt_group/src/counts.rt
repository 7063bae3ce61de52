//! How many members each group has.
ghost use Rattle.std.specs.Prelude.{◌≡◌, ◌+◌, ◌<◌, [], OnOk, false, if◌then◌else◌, true};
ghost use Rattle.vt_location.specs.declared.numbers.GroupId.{GroupId as GroupNumber};
ghost use Rattle.vt_group.specs.Sets.{same_group};
ghost use Rattle.vt_group.specs.Types.{count_of, counts_group};

use indexmap::IndexMap;
use std::alloc::{AllocError, Global};
use std::marker::Model;
use vt_location::GroupId;

/// A count for each group. A group without one has none.
#[derive(Debug, Drop)]
pub(crate) struct Counts {
    counts: IndexMap<GroupId, usize>,
}

impl Model for Counts {
    ghost use Rattle.std.specs.Prelude.{List, ℕ};
    ghost use Rattle.vt_location.specs.declared.numbers.GroupId.{GroupId};

    ghost Value = { List (GroupId × ℕ) };

    ghost view = { λ c. c.counts.entries };
}

impl Counts {
    /// No counts. It does not allocate.
    pub(crate) fn new(alloc: Global) -> Self
        ensures { result ≡ [] }
    {
        Counts {
            counts: IndexMap::new(alloc),
        }
    }

    /// The count of a group.
    #[inline]
    pub(crate) fn of(&self, group: GroupId) -> usize
        ensures { result ≡ count_of self.now group }
    {
        match self.counts.get(&group) {
            Some(count) => *count,
            None => 0,
        }
    }

    /// Reserves room for the count of a group. No count changes.
    pub(crate) fn reserve(&mut self, group: GroupId) -> Result<(), AllocError>
        ensures room { OnOk result (counts_group self.new group ≡ true) }
        ensures kept { (other : GroupNumber) → counts_group self.old other ≡ true → counts_group self.new other ≡ true }
        ensures same { (other : GroupNumber) → count_of self.new other ≡ count_of self.old other }
    {
        if self.counts.contains_key(&group) {
            return Ok(());
        }
        self.counts.insert(group, 0)?;
        Ok(())
    }

    /// Counts one more in a group, which comes to this at most. It does not allocate.
    pub(crate) fn add(&mut self, group: GroupId, most: usize)
        requires room { counts_group self.old group ≡ true }
        requires most { count_of self.old group < most }
        ensures kept { (other : GroupNumber) → counts_group self.old other ≡ true → counts_group self.new other ≡ true }
        ensures counts { (other : GroupNumber) → count_of self.new other
            ≡ (if same_group group other then count_of self.old group + 1 else count_of self.old other) }
    {
        let Some(count) = self.counts.get_mut(&group) else {
            return;
        };
        *count = most.min(count.saturating_add(1));
    }

    /// Counts one less in a group. It does not allocate.
    pub(crate) fn take(&mut self, group: GroupId)
        requires { 0 < count_of self.old group }
        ensures kept { (other : GroupNumber) → counts_group self.old other ≡ true → counts_group self.new other ≡ true }
        ensures group { count_of self.new group + 1 ≡ count_of self.old group }
        ensures others { (other : GroupNumber) → same_group group other ≡ false
            → count_of self.new other ≡ count_of self.old other }
    {
        let Some(count) = self.counts.get_mut(&group) else {
            return;
        };
        *count = count.saturating_sub(1);
    }

    /// Gives up the room of a group that has none. No count changes, and it does not allocate.
    pub(crate) fn release(&mut self, group: GroupId)
        ensures { (other : GroupNumber) → count_of self.new other ≡ count_of self.old other }
    {
        if self.of(group) == 0 {
            self.counts.swap_remove(&group);
        }
    }
}
