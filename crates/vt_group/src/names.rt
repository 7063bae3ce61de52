//! Names, under which the mounts and the lower groups of each group are kept.
ghost use Rattle.std.specs.Prelude.{◌≡◌, ◌≤◌, [], Bool, drop, IfOk, false, is_some, length, true};
ghost use Rattle.std.specs.List.{list_any};
ghost use Rattle.std.specs.Map.{lookup};
ghost use Rattle.vt_location.specs.Numbers.{same_id};
ghost use Rattle.vt_location.specs.declared.numbers.GroupId.{GroupId as GroupNumber};
ghost use Rattle.vt_location.specs.declared.numbers.MountId.{MountId as MountNumber};
ghost use Rattle.vt_group.specs.Names.{KeepsNames, is_under, names_of, names_of_any};
ghost use Rattle.vt_group.specs.Sets.{has, kept_in, same_group};

use crate::name_list::NameList;
use crate::sets::Sets;
use indexmap::IndexMap;
use std::alloc::{AllocError, Global};
use std::collections::LinkedList;
use std::marker::Model;
use vt_location::{GroupId, MountId};

// As many names as a list has room for.
const MOST_NAMES: usize = 0x7fff_ffff_ffff_ffff;

/// From under which name one was taken out, and whether nothing of its kind is left there.
#[derive(Clone, Copy, Debug)]
pub(crate) struct Left {
    pub(crate) name: GroupId,
    pub(crate) was_last: bool,
}

/// The names of each group. When a group ends its heir takes over its names, and with them all that is kept under them,
/// of which nothing has to be moved.
#[derive(Debug, Drop)]
pub(crate) struct Names {
    lists: IndexMap<GroupId, NameList>,
    // The names of a group that has none.
    none: LinkedList<GroupId>,
    // How many names there are, so that two lists are known to fit into one.
    count: usize,
}

impl Model for Names {
    ghost use Rattle.std.specs.Prelude.{◌≡◌, ◌<◌, ◌^◌, [], List};
    ghost use Rattle.vt_location.specs.declared.numbers.GroupId.{GroupId};
    ghost use Rattle.vt_group.specs.Names.{count_names};

    ghost Value = { List (GroupId × List GroupId) };

    ghost view = { λ n. n.lists.entries };

    ghost invariant = { λ n. (n.none ≡ []) × (count_names n.lists.entries ≡ n.count) × (n.count < 2 ^ 63) };
}

impl Names {
    /// No names. It does not allocate.
    pub(crate) fn new(alloc: Global) -> Self {
        Names {
            lists: IndexMap::new(alloc),
            none: LinkedList::new(alloc),
            count: 0,
        }
    }

    /// The allocator of the lists.
    pub(crate) fn allocator(&self) -> Global {
        *self.lists.allocator()
    }

    /// The names of a group.
    #[inline]
    pub(crate) fn of(&self, group: GroupId) -> &LinkedList<GroupId>
        ensures { result.now ≡ names_of self.now group }
    {
        match self.lists.get(&group) {
            Some(list) => list.names(),
            None => &self.none,
        }
    }

    /// The names of a group, if any.
    #[inline]
    pub(crate) fn of_any(&self, group: Option<GroupId>) -> &LinkedList<GroupId>
        ensures { result.now ≡ names_of_any self.now group }
    {
        match group {
            Some(group) => self.of(group),
            None => &self.none,
        }
    }

    /// One of the names of a group, which is its own number if it had none.
    pub(crate) fn name(&mut self, group: GroupId) -> Result<GroupId, AllocError>
        ensures named { IfOk result (λ name. (test : GroupNumber → Bool) → test name ≡ true
            → list_any test (names_of self.new group) ≡ true) }
        ensures kept { KeepsNames self.old self.new }
    {
        if let Some(name) = self.of(group).front() {
            return Ok(*name);
        }
        self.start(group)
    }

    fn start(&mut self, group: GroupId) -> Result<GroupId, AllocError>
        requires { names_of self.old group ≡ [] }
        ensures named { IfOk result (λ name. (test : GroupNumber → Bool) → test name ≡ true
            → list_any test (names_of self.new group) ≡ true) }
        ensures kept { KeepsNames self.old self.new }
    {
        if self.count == MOST_NAMES {
            return Err(AllocError);
        }
        let list = NameList::new(self.allocator(), group)?;
        self.lists.insert(group, list)?;
        self.count += 1;
        Ok(group)
    }

    /// Drops the names of a group under which nothing is kept, once one was taken out there. It passes
    /// over the names only where half of them may have fallen out of use since it last did. It does not allocate.
    pub(crate) fn prune_left(
        &mut self,
        group: GroupId,
        left: Option<Left>,
        mounts: &Sets<MountId>,
        lowers: &Sets<GroupId>,
    )
        ensures mounts { (mount : MountNumber) (at : GroupNumber) → is_under same_id self.old mounts.now mount at ≡ true
            → is_under same_id self.new mounts.now mount at ≡ true }
        ensures lowers { (lower at : GroupNumber) → is_under same_group self.old lowers.now lower at ≡ true
            → is_under same_group self.new lowers.now lower at ≡ true }
    {
        if self.notes_unused(group, left, mounts, lowers) {
            return;
        }
        self.prune(group, mounts, lowers);
    }

    // Notes that one was taken out from under a name of a group, if it was. Returns whether the names of the group stay.
    fn notes_unused(
        &mut self,
        group: GroupId,
        left: Option<Left>,
        mounts: &Sets<MountId>,
        lowers: &Sets<GroupId>,
    ) -> bool
        ensures { self.new ≡ self.old }
    {
        let Some(left) = left else {
            return false;
        };
        if !left.was_last || is_used(left.name, mounts, lowers) {
            return true;
        }
        let Some(list) = self.lists.get_mut(&group) else {
            return false;
        };
        !list.note_unused()
    }

    // Drops the names of a group under which nothing is kept.
    fn prune(&mut self, group: GroupId, mounts: &Sets<MountId>, lowers: &Sets<GroupId>)
        ensures mounts { (mount : MountNumber) (at : GroupNumber) → is_under same_id self.old mounts.now mount at ≡ true
            → is_under same_id self.new mounts.now mount at ≡ true }
        ensures lowers { (lower at : GroupNumber) → is_under same_group self.old lowers.now lower at ≡ true
            → is_under same_group self.new lowers.now lower at ≡ true }
    {
        let Some(list) = self.lists.get_mut(&group) else {
            return;
        };
        self.count -= list.keep_used(mounts, lowers);
        if list.names().is_empty() {
            self.forget(group);
        }
    }

    /// The names of a group that has ended become those of another, which has names. It does not allocate.
    pub(crate) fn inherit(&mut self, lost: GroupId, heir: GroupId)
        ensures own { same_group lost heir ≡ false
            → is_some (lookup (same_group heir) self.old) ≡ true
            → (test : GroupNumber → Bool) → list_any test (names_of self.old lost) ≡ true
            → list_any test (names_of self.new heir) ≡ true }
        ensures kept { (at : GroupNumber) (test : GroupNumber → Bool) → same_group lost at ≡ false
            → list_any test (names_of self.old at) ≡ true → list_any test (names_of self.new at) ≡ true }
    {
        let Some(mut list) = self.lists.swap_remove(&lost) else {
            return;
        };
        if let Some(own) = self.lists.get_mut(&heir) {
            // It cannot fail: so few names there are.
            let _ = own.append(&mut list);
        } else {
            self.count -= list.names().len();
        }
    }

    /// Forgets the names of a group that has ended. It does not allocate.
    pub(crate) fn forget(&mut self, lost: GroupId)
        ensures kept { (at : GroupNumber) (test : GroupNumber → Bool) → same_group lost at ≡ false
            → list_any test (names_of self.old at) ≡ true → list_any test (names_of self.new at) ≡ true }
    {
        let Some(list) = self.lists.swap_remove(&lost) else {
            return;
        };
        self.count -= list.names().len();
    }
}

// Drops the names under which nothing is kept. The others keep their order.
pub(crate) fn drop_unused(
    list: &mut LinkedList<GroupId>,
    mounts: &Sets<MountId>,
    lowers: &Sets<GroupId>,
)
    ensures mounts { (mount : MountNumber) → list_any (λ name. has same_id name mount mounts.now) list.old ≡ true
        → list_any (λ name. has same_id name mount mounts.now) list.new ≡ true }
    ensures lowers { (lower : GroupNumber) → list_any (λ name. has same_group name lower lowers.now) list.old ≡ true
        → list_any (λ name. has same_group name lower lowers.now) list.new ≡ true }
    ensures fewer { length list.new ≤ length list.old }
{
    for _ in 0..list.len() {
        if first_is_unused(list, mounts, lowers) {
            list.pop_front();
        } else {
            turn(list);
        }
    }
}

// Moves the first of these names to the back. It does not allocate.
fn turn(list: &mut LinkedList<GroupId>)
    ensures kept { (test : GroupNumber → Bool) → list_any test list.old ≡ true → list_any test list.new ≡ true }
    ensures fewer { length list.new ≤ length list.old }
{
    if list.len() < 2 {
        return;
    }
    let Ok(mut rest) = list.split_off(1) else {
        return;
    };
    // It cannot fail: the two were one list.
    let _ = rest.append(list);
    *list = rest;
}

// Whether something is kept under a name.
fn is_used(name: GroupId, mounts: &Sets<MountId>, lowers: &Sets<GroupId>) -> bool
    ensures unused { result ≡ false → (kept_in name mounts.now ≡ []) × (kept_in name lowers.now ≡ []) }
{
    !mounts.get(name).is_empty() || !lowers.get(name).is_empty()
}

// Whether nothing is kept under the first of these names.
fn first_is_unused(
    list: &LinkedList<GroupId>,
    mounts: &Sets<MountId>,
    lowers: &Sets<GroupId>,
) -> bool
    ensures mounts { result ≡ true → (mount : MountNumber)
        → list_any (λ name. has same_id name mount mounts.now) list.now ≡ true
        → list_any (λ name. has same_id name mount mounts.now) (drop 1 list.now) ≡ true }
    ensures lowers { result ≡ true → (lower : GroupNumber)
        → list_any (λ name. has same_group name lower lowers.now) list.now ≡ true
        → list_any (λ name. has same_group name lower lowers.now) (drop 1 list.now) ≡ true }
{
    match list.front() {
        Some(name) => !is_used(*name, mounts, lowers),
        None => false,
    }
}
