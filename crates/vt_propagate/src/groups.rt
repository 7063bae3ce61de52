//! Types and groups of copies: the kernel's document sharedsubtree, "Bind semantics" and "Move semantics".
ghost use Rattle.std.specs.Prelude.{◌≡◌, ◌<◌, find, length, nat_eq, option_map};
ghost use Rattle.vt_spec.specs.Machine.Attach.{image as image_of};
ghost use Rattle.vt_spec.specs.Machine.Receives.{groups_up, has_members};
ghost use Rattle.vt_location.specs.Numbers.{group_number};
ghost use Rattle.vt_location.specs.MountValue.{mount_of, propagation_of};
ghost use Rattle.vt_propagate.specs.Copying.{IsReady, above_of, as_kept, nearest_master_of, image_seen, parts_seen, supply, twig};
ghost use Rattle.vt_propagate.specs.Copying.{type_by_master};

use crate::numbering::{Copying, is_member};
use vt_group::Groups;
use vt_location::{GroupId, Mount, Propagation};
use vt_mount::Mounts;

impl<'a> Copying<'a> {
    /// The type of a mount of the tree at the destination: if that is shared, a mount that is not joins a new group
    /// there.
    pub(crate) fn type_at(&self, origin: &Mount) -> Propagation
        requires ready { IsReady self.now }
        requires parts { 0 < length self.now.graft.parts.now }
        requires tree { 0 < length self.now.graft.tree.now }
        ensures { propagation_of result ≡ (twig self.now (mount_of origin.now)).propagation }
    {
        match (self.destination.propagation, origin.propagation) {
            (_, Propagation::Shared(group)) => Propagation::Shared(group),
            (Propagation::Shared(group), _) => {
                Propagation::Shared(self.new_image(group, origin.number))
            }
            (_, kind) => kind,
        }
    }

    /// The group that the copies of a mount form at the members of a group: for the destination's, the group of the
    /// mount there.
    pub(crate) fn image(&self, origin: &Mount, group: GroupId) -> GroupId
        requires ready { IsReady self.now }
        requires parts { 0 < length self.now.graft.parts.now }
        requires tree { 0 < length self.now.graft.tree.now }
        ensures { group_number result
            ≡ image_of nat_eq (supply self.now) (mount_of self.now.destination) (twig self.now (mount_of origin.now))
            (group_number group) }
    {
        if is_member(self.destination.propagation, group) {
            if let Propagation::Shared(own) = self.type_at(origin) {
                return own;
            }
        }
        self.new_image(group, origin.number)
    }

    /// The group that the copies of a mount form at the members of this group, if there is one.
    pub(crate) fn image_of(&self, origin: &Mount, group: Option<GroupId>) -> Option<GroupId>
        requires ready { IsReady self.now }
        requires parts { 0 < length self.now.graft.parts.now }
        requires tree { 0 < length self.now.graft.tree.now }
        ensures { option_map group_number result
            ≡ option_map (image_seen self.now (mount_of origin.now)) (option_map group_number group) }
    {
        Some(self.image(origin, group?))
    }

    /// The type of the copy of a mount at a receiver of this type, which has this nearest master.
    pub(crate) fn copy_type(
        &self,
        nearest: Option<GroupId>,
        origin: &Mount,
        receiver: Propagation,
    ) -> Propagation
        requires ready { IsReady self.now }
        requires parts { 0 < length self.now.graft.parts.now }
        requires tree { 0 < length self.now.graft.tree.now }
        ensures { propagation_of result
            ≡ type_by_master self.now (option_map group_number nearest) (mount_of origin.now) (propagation_of receiver) }
    {
        match receiver {
            Propagation::Shared(group) => Propagation::Shared(self.image(origin, group)),
            Propagation::Slave(_) => match self.image_of(origin, nearest) {
                Some(image) => Propagation::Slave(image),
                None => Propagation::Private,
            },
            Propagation::Private => Propagation::Private,
            Propagation::Unbindable => Propagation::Unbindable,
        }
    }

    /// The nearest master of a receiver of this type: of a slave, the nearest group that has a part, from its master
    /// up.
    pub(crate) fn nearest_master(
        &self,
        mounts: &Mounts,
        groups: &Groups,
        receiver: Propagation,
    ) -> Option<GroupId>
        requires { IsReady self.now }
        ensures { option_map group_number result
            ≡ nearest_master_of (as_kept mounts.now groups.now) self.now (propagation_of receiver) }
    {
        match receiver {
            Propagation::Slave(master) => self.nearest(mounts, groups, master),
            Propagation::Shared(_) | Propagation::Private | Propagation::Unbindable => None,
        }
    }

    /// The group above the new ones at a part of this type: the nearest group that has a part, from the master of the
    /// part's group up. The peers of the destination form no new group.
    pub(crate) fn above(
        &self,
        mounts: &Mounts,
        groups: &Groups,
        receiver: Propagation,
    ) -> Option<GroupId>
        requires { IsReady self.now }
        ensures { option_map group_number result
            ≡ above_of (as_kept mounts.now groups.now) self.now (propagation_of receiver) }
    {
        let Propagation::Shared(group) = receiver else {
            return None;
        };
        if is_member(self.destination.propagation, group) {
            return None;
        }
        self.nearest(mounts, groups, groups.master_of(group)?)
    }

    // The nearest group that has a part, from this one up the masters.
    fn nearest(&self, mounts: &Mounts, groups: &Groups, group: GroupId) -> Option<GroupId>
        requires { IsReady self.now }
        ensures { option_map group_number result
            ≡ find (has_members nat_eq (parts_seen self.now))
            (groups_up (as_kept mounts.now groups.now) (group_number group)) }
    {
        let mut here = group;
        for _ in 0..mounts.len() {
            if self.has_part(here) {
                return Some(here);
            }
            here = groups.master_of(here)?;
        }
        self.has_part(here).then_some(here)
    }

    // Whether a part is a member of a group.
    fn has_part(&self, group: GroupId) -> bool
        requires { IsReady self.now }
        ensures { result ≡ has_members nat_eq (parts_seen self.now) (group_number group) }
    {
        self.group_place(group).is_some()
    }
}
