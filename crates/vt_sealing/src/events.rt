//! Whether mounts of members share events with others: the kernel's document sharedsubtree.
ghost use Rattle.std.specs.Prelude.{◌≡◌, ◌&&◌, find, is_some, nat_eq, option_map};
ghost use Rattle.std.specs.List.{list_any};
ghost use Rattle.vt_spec.specs.Lists.{holds_of};
ghost use Rattle.vt_spec.specs.Machine.Mounts.{group_of, source_of};
ghost use Rattle.vt_spec.specs.Machine.Receives.{is_member_of};
ghost use Rattle.vt_spec.specs.Machine.Sealed.{is_own_mount, master_of, other_mounts, receives_events_of, share_events, shares_no_events};
ghost use Rattle.vt_location.specs.MountValue.{mount_of, propagation_of};
ghost use Rattle.vt_location.specs.Numbers.{group_number, mount_number};
ghost use Rattle.vt_mount.specs.MountsValue.{mounts_in};
ghost use Rattle.vt_sealing.specs.Seen.{is_other_mount, world_seen};

use crate::sealing::Sealing;
use vt_location::{GroupId, Mount, MountId, Propagation};

impl Sealing<'_> {
    /// Whether no mount of members shares events with a mount of another namespace.
    pub(crate) fn shares_no_events(&self) -> bool
        ensures { result ≡ shares_no_events nat_eq (world_seen self.now) self.now.names.now }
    {
        !self
            .mounts
            .ids()
            .iter()
            .any(|id| self.is_own_that_shares(*id))
    }

    // Whether a mount is one of members that shares events with a mount of another namespace.
    fn is_own_that_shares(&self, id: MountId) -> bool
        ensures { result ≡ holds_of (λ mount. is_own_mount nat_eq (world_seen self.now) self.now.names.now mount
            && list_any (share_events nat_eq (world_seen self.now) mount)
            (other_mounts nat_eq (world_seen self.now) self.now.names.now))
            (find (λ mount. nat_eq (mount_number id) mount.number) (mounts_in self.now.mounts.now)) }
    {
        match self.mounts.get(id) {
            Some(own) => self.is_own_mount(&own) && self.shares_events(&own),
            None => false,
        }
    }

    // Whether a mount shares events with a mount of another namespace than those of members. One in no group that is no
    // slave shares none: so mostly the others are not looked at.
    fn shares_events(&self, own: &Mount) -> bool
        ensures { result ≡ list_any (share_events nat_eq (world_seen self.now) (mount_of own.now))
            (other_mounts nat_eq (world_seen self.now) self.now.names.now) }
    {
        has_source(own.propagation) && self.shares_with_others(own)
    }

    // The same of any mount, by all others.
    fn shares_with_others(&self, own: &Mount) -> bool
        ensures { result ≡ list_any (share_events nat_eq (world_seen self.now) (mount_of own.now))
            (other_mounts nat_eq (world_seen self.now) self.now.names.now) }
    {
        self.mounts
            .ids()
            .iter()
            .any(|id| self.is_other_that_shares(own, *id))
    }

    // Whether a mount is of another namespace, and shares events with this one.
    fn is_other_that_shares(&self, own: &Mount, id: MountId) -> bool
        ensures { result ≡ holds_of (λ mount. is_other_mount (world_seen self.now) self.now.names.now mount
            && share_events nat_eq (world_seen self.now) (mount_of own.now) mount)
            (find (λ mount. nat_eq (mount_number id) mount.number) (mounts_in self.now.mounts.now)) }
    {
        match self.mounts.get(id) {
            Some(other) => self.is_other_mount(&other) && self.share_events(own, &other),
            None => false,
        }
    }

    // Whether one of two mounts receives the events of the other.
    fn share_events(&self, one: &Mount, other: &Mount) -> bool
        ensures { result
            ≡ share_events nat_eq (world_seen self.now) (mount_of one.now) (mount_of other.now) }
    {
        self.receives_events_of(one, other) || self.receives_events_of(other, one)
    }

    // Whether a mount receives the events of another: that one is its peer, or a member of its master or of its group's
    // master.
    fn receives_events_of(&self, one: &Mount, other: &Mount) -> bool
        ensures { result
            ≡ receives_events_of nat_eq (world_seen self.now) (mount_of one.now) (mount_of other.now) }
    {
        is_member(group_of(one.propagation), other)
            || is_member(self.master_of(one.propagation), other)
    }

    // The master of a mount's group, or of the mount itself if it is a slave.
    fn master_of(&self, kind: Propagation) -> Option<GroupId>
        ensures { option_map group_number result ≡ master_of (world_seen self.now) (propagation_of kind) }
    {
        match kind {
            Propagation::Shared(group) => self.groups.master_of(group),
            Propagation::Slave(master) => Some(master),
            Propagation::Private | Propagation::Unbindable => None,
        }
    }
}

// Whether a mount is in a peer group, or a slave.
fn has_source(kind: Propagation) -> bool
    ensures { result ≡ is_some (source_of (propagation_of kind)) }
{
    match kind {
        Propagation::Shared(_) | Propagation::Slave(_) => true,
        Propagation::Private | Propagation::Unbindable => false,
    }
}

// The peer group of a shared mount.
fn group_of(kind: Propagation) -> Option<GroupId>
    ensures { option_map group_number result ≡ group_of (propagation_of kind) }
{
    match kind {
        Propagation::Shared(group) => Some(group),
        Propagation::Slave(_) | Propagation::Private | Propagation::Unbindable => None,
    }
}

// Whether a mount is a member of this group.
fn is_member(group: Option<GroupId>, mount: &Mount) -> bool
    ensures { result
        ≡ holds_of (λ group. is_member_of nat_eq group (mount_of mount.now)) (option_map group_number group) }
{
    match group {
        Some(group) => group_of(mount.propagation) == Some(group),
        None => false,
    }
}
