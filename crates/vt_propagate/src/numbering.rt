//! Numbers of copies and of new groups.
ghost use Rattle.std.specs.Prelude.{◌≡◌, ◌<◌, ◌+◌, ◌*◌, IfSome, length, map, nat_eq};
ghost use Rattle.std.specs.HashMap.{get};
ghost use Rattle.vt_spec.specs.Machine.Attach.{copy_number as copy_number_of, index_of_group as index_of_group_in};
ghost use Rattle.vt_spec.specs.Lists.{holds_of};
ghost use Rattle.vt_spec.specs.Machine.Mounts.{group_of, index_of as index_of_in};
ghost use Rattle.vt_location.specs.declared.numbers.GroupId.{GroupId};
ghost use Rattle.vt_location.specs.declared.numbers.MountId.{MountId};
ghost use Rattle.vt_location.specs.MountValue.{mount_of, propagation_of};
ghost use Rattle.vt_location.specs.Numbers.{group_number, mount_number, same_id};
ghost use Rattle.vt_group.specs.Sets.{same_group};
ghost use Rattle.vt_propagate.specs.Indexes.{place_of, place_of_group};
ghost use Rattle.vt_propagate.specs.Copying.{IsReady, graft_seen, parts_seen, supply, tree_seen};

use crate::copying::{Counts, Graft};
use crate::indexes::Indexes;
use std::collections::HashMap;
use vt_location::{GroupId, Mount, MountId, Propagation};

/// What is copied and where: a graft, the mount at its destination, the counts of the new numbers, and the indexes of
/// the graft.
#[derive(Clone, Copy, Debug)]
pub(crate) struct Copying<'a> {
    pub(crate) graft: Graft<'a>,
    pub(crate) destination: Mount,
    pub(crate) counts: Counts,
    pub(crate) indexes: &'a Indexes,
}

impl<'a> Copying<'a> {
    /// The number of a copy at a part. Mounts that move keep theirs at the destination.
    pub(crate) fn copy_number(&self, part: MountId, origin: MountId) -> MountId
        requires ready { IsReady self.now }
        requires parts { 0 < length self.now.graft.parts.now }
        requires tree { 0 < length self.now.graft.tree.now }
        ensures { mount_number result
            ≡ copy_number_of nat_eq (supply self.now) (graft_seen self.now) (mount_number part)
            (mount_number origin) }
    {
        if self.graft.moves && part == self.graft.place.mount {
            return origin;
        }
        MountId::new(self.count(self.part_index(part), self.tree_index(origin), 0))
    }

    /// The new group that the copies of a mount form at the members of a group.
    pub(crate) fn new_image(&self, group: GroupId, origin: MountId) -> GroupId
        requires ready { IsReady self.now }
        requires parts { 0 < length self.now.graft.parts.now }
        requires tree { 0 < length self.now.graft.tree.now }
        ensures { group_number result ≡ (supply self.now).image (group_number group) (mount_number origin) }
    {
        GroupId::new(self.count(self.group_index(group), self.tree_index(origin), 1))
    }

    // The count of the copy at a part of a mount of the tree, or of the group that stands for it.
    fn count(&self, part: usize, origin: usize, group: u64) -> u64
        requires ready { IsReady self.now }
        requires part { part < length self.now.graft.parts.now }
        requires origin { origin < length self.now.graft.tree.now }
        requires group { group < 2 }
        ensures { result ≡ self.now.counts.first
            + self.now.counts.step * (2 * (part * length self.now.graft.tree.now + origin) + group) }
    {
        let index = part * self.graft.tree.len() + origin;
        self.counts.first + self.counts.step * (2 * index as u64 + group)
    }

    // The index of the part with this number, or 0.
    fn part_index(&self, part: MountId) -> usize
        requires { IsReady self.now }
        ensures value { result ≡ index_of_in nat_eq (parts_seen self.now) (mount_number part) }
        ensures within { 0 < length self.now.graft.parts.now → result < length self.now.graft.parts.now }
    {
        place_in(self.graft.parts, &self.indexes.parts, part).unwrap_or(0)
    }

    // The index of the mount of the tree with this number, or 0.
    fn tree_index(&self, origin: MountId) -> usize
        requires { IsReady self.now }
        ensures value { result ≡ index_of_in nat_eq (tree_seen self.now) (mount_number origin) }
        ensures within { 0 < length self.now.graft.tree.now → result < length self.now.graft.tree.now }
    {
        place_in(self.graft.tree, &self.indexes.tree, origin).unwrap_or(0)
    }

    // The index of the first part that is a member of this group, or 0.
    fn group_index(&self, group: GroupId) -> usize
        requires { IsReady self.now }
        ensures value { result ≡ index_of_group_in nat_eq (parts_seen self.now) (group_number group) }
        ensures within { 0 < length self.now.graft.parts.now → result < length self.now.graft.parts.now }
    {
        self.group_place(group).unwrap_or(0)
    }

    /// The index of the first part that is a member of this group.
    pub(crate) fn group_place(&self, group: GroupId) -> Option<usize>
        requires { IsReady self.now }
        ensures { result ≡ place_of_group (parts_seen self.now) (group_number group) }
    {
        group_place_in(self.graft.parts, &self.indexes.groups, group)
    }
}

// The index of the first of these mounts with this number. These are their places, if they were noted.
fn place_in(
    mounts: &[Mount],
    places: &Option<HashMap<MountId, usize>>,
    id: MountId,
) -> Option<usize>
    requires { IfSome places.now (λ places. (one : MountId)
        → get same_id places one ≡ place_of (map mount_of mounts.now) (mount_number one)) }
    ensures { result ≡ place_of (map mount_of mounts.now) (mount_number id) }
{
    match places {
        Some(places) => places.get(&id).copied(),
        None => mounts.iter().position(|mount| mount.number == id),
    }
}

// The index of the first of these mounts that is a member of this group. These are the places of groups, if they were
// noted.
fn group_place_in(
    parts: &[Mount],
    places: &Option<HashMap<GroupId, usize>>,
    group: GroupId,
) -> Option<usize>
    requires { IfSome places.now (λ places. (one : GroupId)
        → get same_group places one ≡ place_of_group (map mount_of parts.now) (group_number one)) }
    ensures { result ≡ place_of_group (map mount_of parts.now) (group_number group) }
{
    match places {
        Some(places) => places.get(&group).copied(),
        None => first_in(parts, group),
    }
}

// The index of the first of these mounts that is a member of this group.
fn first_in(mounts: &[Mount], group: GroupId) -> Option<usize>
    ensures { result ≡ place_of_group (map mount_of mounts.now) (group_number group) }
{
    mounts
        .iter()
        .position(|mount| is_member(mount.propagation, group))
}

/// Whether a mount of this type is a member of this group.
pub(crate) fn is_member(propagation: Propagation, group: GroupId) -> bool
    ensures { result ≡ holds_of (nat_eq (group_number group)) (group_of (propagation_of propagation)) }
{
    match propagation {
        Propagation::Shared(own) => own == group,
        Propagation::Slave(_) | Propagation::Private | Propagation::Unbindable => false,
    }
}
