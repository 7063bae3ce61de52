//! The types of mounts, and how many members each group has.
ghost use Rattle.std.specs.Prelude.{◌≡◌, ◌+◌, ◌<◌, ℕ, [], None, Some, IfSome, OnOk, if◌then◌else◌, true};
ghost use Rattle.std.specs.BTreeMap.{insert_entry, is_at};
ghost use Rattle.std.specs.List.{list_any};
ghost use Rattle.std.specs.Map.{remove_entry};
ghost use Rattle.std.specs.Ordering.{nat_cmp};
ghost use Rattle.vt_spec.specs.Lists.{then_some};
ghost use Rattle.vt_location.specs.declared.numbers.GroupId.{GroupId as GroupNumber};
ghost use Rattle.vt_group.specs.ByNumber.{IsAscending, value_at};
ghost use Rattle.vt_group.specs.Indexed.{group_of_kind};
ghost use Rattle.vt_group.specs.Types.{Fits, KeepsRoom, count_of, counts_group, is_in_group, one_in};

use crate::by_number::ByNumber;
use crate::counts::Counts;
use crate::propagation::own_group;
use std::alloc::{AllocError, Global};
use std::marker::Model;
use vt_location::{GroupId, MountId, Propagation};

/// The types of mounts, and how many members each group has.
#[derive(Debug, Drop)]
pub(crate) struct Types {
    kinds: ByNumber<MountId, Propagation>,
    members: Counts,
}

impl Model for Types {
    ghost use Rattle.vt_group.specs.ByNumber.{IsAscending};
    ghost use Rattle.vt_group.specs.Types.{AreCounted, Kept};

    ghost Value = { Kept };

    ghost view = { λ t. record { kinds = t.kinds; counts = t.members } };

    ghost invariant = { λ t. AreCounted t.members t.kinds.entries × IsAscending t.kinds };
}

impl Types {
    /// No types. It does not allocate.
    pub(crate) fn new(alloc: Global) -> Self
        ensures entries { result.kinds.entries ≡ [] }
        ensures ordered { IsAscending result.kinds }
    {
        Types {
            kinds: ByNumber::new(alloc),
            members: Counts::new(alloc),
        }
    }

    /// The types.
    pub(crate) fn kinds(&self) -> &ByNumber<MountId, Propagation>
        ensures { result.now ≡ self.now.kinds }
    {
        &self.kinds
    }

    /// The type of a mount.
    #[inline]
    pub(crate) fn get(&self, mount: MountId) -> Option<Propagation>
        ensures { result ≡ value_at self.now.kinds mount.count }
    {
        self.kinds.get(mount)
    }

    /// Whether a group has members.
    #[inline]
    pub(crate) fn has_members(&self, group: GroupId) -> bool
        ensures { result ≡ list_any (is_in_group group) self.now.kinds.entries }
    {
        self.members.of(group) > 0
    }

    /// Whether a group has members beside this one.
    #[inline]
    pub(crate) fn has_others(&self, group: GroupId, member: MountId) -> bool
        requires { then_some (value_at self.now.kinds member.count) group_of_kind ≡ Some group }
        ensures { result ≡ list_any (is_in_group group)
            (remove_entry (is_at (nat_cmp member.count)) self.now.kinds.entries) }
    {
        self.members.of(group) > 1
    }

    /// Reserves room for the type of a mount. No type changes.
    pub(crate) fn reserve(&mut self, mount: MountId, kind: Propagation) -> Result<(), AllocError>
        ensures room { OnOk result (Fits self.new mount.count kind) }
        ensures kept { KeepsRoom self.old self.new }
        ensures entries { self.new.kinds.entries ≡ self.old.kinds.entries }
    {
        reserve_count(&mut self.members, kind)?;
        self.kinds.reserve(mount)
    }

    /// Gives a mount a type, for which there is room. It does not allocate.
    pub(crate) fn set(&mut self, mount: MountId, kind: Propagation)
        requires { Fits self.old mount.count kind }
        ensures entries { self.new.kinds.entries ≡ insert_entry nat_cmp self.old.kinds.entries mount.count kind }
        ensures updates { (other : ℕ) → value_at self.new.kinds other
            ≡ (if is_at (nat_cmp mount.count) other then Some kind else value_at self.old.kinds other) }
        ensures kept { KeepsRoom self.old self.new }
        ensures ordered { IsAscending self.new.kinds }
    {
        let was = self.kinds.set(mount, kind);
        take_from(&mut self.members, was);
        add_to(&mut self.members, kind, self.kinds.len());
    }

    /// Gives up the room for the type of a mount that has none. No type changes, and it does not allocate.
    pub(crate) fn release(&mut self, mount: MountId, kind: Propagation)
        ensures { self.new.kinds.entries ≡ self.old.kinds.entries }
    {
        self.kinds.release(mount);
        if let Some(group) = own_group(kind) {
            self.members.release(group);
        }
    }

    /// Takes the type of a mount, if any, and its room. It does not allocate.
    pub(crate) fn remove(&mut self, mount: MountId) -> Option<Propagation>
        ensures value { result ≡ value_at self.old.kinds mount.count }
        ensures entries { self.new.kinds.entries ≡ remove_entry (is_at (nat_cmp mount.count)) self.old.kinds.entries }
        ensures updates { (other : ℕ) → value_at self.new.kinds other
            ≡ (if is_at (nat_cmp mount.count) other then None else value_at self.old.kinds other) }
        ensures ordered { IsAscending self.new.kinds }
    {
        let was = self.kinds.remove(mount);
        take_from(&mut self.members, was);
        was
    }

    /// Gives up the room for the count of a group that has no members. No type changes, and it does not allocate.
    pub(crate) fn forget(&mut self, group: GroupId)
        ensures { self.new.kinds ≡ self.old.kinds }
    {
        self.members.release(group);
    }
}

// Reserves room for the count of a group that gets a member of this type.
fn reserve_count(members: &mut Counts, kind: Propagation) -> Result<(), AllocError>
    ensures room { OnOk result (IfSome (group_of_kind kind) (λ group. counts_group members.new group ≡ true)) }
    ensures kept { (other : GroupNumber) → counts_group members.old other ≡ true → counts_group members.new other ≡ true }
    ensures same { (other : GroupNumber) → count_of members.new other ≡ count_of members.old other }
{
    match own_group(kind) {
        Some(group) => members.reserve(group),
        None => Ok(()),
    }
}

// A mount that had this type has it no more.
fn take_from(members: &mut Counts, was: Option<Propagation>)
    requires { IfSome (then_some was group_of_kind) (λ group. 0 < count_of members.old group) }
    ensures kept { (other : GroupNumber) → counts_group members.old other ≡ true → counts_group members.new other ≡ true }
    ensures counts { (group : GroupNumber) → count_of members.new group + one_in group was
        ≡ count_of members.old group }
{
    let Some(kind) = was else {
        return;
    };
    if let Some(group) = own_group(kind) {
        members.take(group);
    }
}

// A mount has this type now. No group has more members than this.
fn add_to(members: &mut Counts, kind: Propagation, most: usize)
    requires room { IfSome (group_of_kind kind) (λ group. counts_group members.old group ≡ true) }
    requires most { IfSome (group_of_kind kind) (λ group. count_of members.old group < most) }
    ensures kept { (other : GroupNumber) → counts_group members.old other ≡ true → counts_group members.new other ≡ true }
    ensures counts { (group : GroupNumber) → count_of members.new group
        ≡ count_of members.old group + one_in group (Some kind) }
{
    if let Some(group) = own_group(kind) {
        members.add(group, most);
    }
}
