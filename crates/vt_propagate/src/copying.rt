//! What an attachment makes: copies of a tree of mounts at its parts, and the groups that they form.
ghost use Rattle.std.specs.Prelude.{◌≡◌, ◌<◌, ◌*◌, ◌++◌, IfOk, OnOk, filter_map, flat_map, length, map, nat_eq, option_map, ℕ};
ghost use Rattle.vt_spec.specs.Machine.Attach.{copy_mount_point as copy_mount_point_of, is_top as is_top_of, parts_of, twig_master};
ghost use Rattle.vt_spec.specs.Machine.Types.{master_after as master_after_of};
ghost use Rattle.vt_spec.specs.Machine.World.{World};
ghost use Rattle.vt_location.specs.Locations.{location_of};
ghost use Rattle.vt_location.specs.MountValue.{mount_of, propagation_of};
ghost use Rattle.vt_location.specs.Numbers.{mount_number, group_number};
ghost use Rattle.vt_propagate.specs.Copying.{IsReady, HasRoomFor, as_kept, copied, copied_by, graft_seen, made, made_by};
ghost use Rattle.vt_propagate.specs.Copying.{new_group, parts_seen, supply, tree_seen, twig};
ghost use Rattle.vt_propagate.specs.Indexes.{IsIndexed};
ghost use Rattle.vt_propagate.specs.Planned.{planned_copies, planned_groups};
ghost use Rattle.vt_propagate.specs.Seen.{IsSeen};

use crate::indexes::Indexes;
use crate::numbering::{Copying, is_member};
use std::alloc::{AllocError, Global};
use vt_group::{Groups, NewGroup};
use vt_location::{GroupId, Location, Mount, MountId, Propagation};
use vt_mount::Mounts;

/// A tree of mounts and where it is attached.
#[derive(Clone, Copy, Debug)]
pub struct Graft<'a> {
    /// The mount at the destination, then the receivers that take part.
    pub parts: &'a [Mount],
    /// Each mount stands before its children. The root of the first may be another directory than that of the mount
    /// itself.
    pub tree: &'a [Mount],
    /// The destination.
    pub place: Location,
    /// Whether the mounts move to the destination. Else a copy is attached there.
    pub moves: bool,
}

/// The counts of new numbers: the first, and how far each is from the one before, which is not 0.
#[derive(Clone, Copy, Debug, PartialEq, Eq)]
pub struct Counts {
    pub first: u64,
    pub step: u64,
}

/// The copies that are attached, with their types: all at the destination, in the order of the tree, then all at each
/// receiver. Where a tree moves, those at the destination are the mounts themselves, as they are there. The copy at the
/// i-th part of the j-th mount of n, both from 0, is the `2·(n·i + j)`-th of the counts.
pub(crate) fn copies(
    mounts: &Mounts,
    groups: &Groups,
    graft: &Graft,
    counts: Counts,
    indexes: &Indexes,
) -> Result<Vec<Mount>, AllocError>
    requires room { HasRoomFor graft.now counts }
    requires indexed { IsIndexed indexes.now graft.now }
    ensures length { IfOk result (λ copies. length copies.items
        ≡ length graft.now.parts.now * length graft.now.tree.now) }
    ensures ok { IfOk result (λ copies. (world : World ℕ) → IsSeen world mounts.now groups.now
        → map mount_of graft.now.parts.now ≡ parts_of nat_eq world (location_of graft.now.place)
        → map mount_of copies.items ≡ planned_copies world graft.now counts) }
{
    let alloc = mounts.alloc();
    let Some(destination) = graft.parts.first() else {
        return Ok(Vec::new(alloc));
    };
    let copying = Copying {
        graft: *graft,
        destination: *destination,
        counts,
        indexes,
    };
    copying.all_copies(alloc, mounts, groups)
}

/// The new groups that copies form, each with its master, in the order of the copies: for each mount of the tree that
/// joins a group at a shared destination, and for each mount and each further group that has a part. The group of the
/// j-th mount of n for the group of the i-th part, both from 0, is the `2·(n·i + j) + 1`-th of the counts.
pub(crate) fn new_groups(
    mounts: &Mounts,
    groups: &Groups,
    graft: &Graft,
    counts: Counts,
    indexes: &Indexes,
) -> Result<Vec<NewGroup>, AllocError>
    requires room { HasRoomFor graft.now counts }
    requires indexed { IsIndexed indexes.now graft.now }
    ensures ok { IfOk result (λ new. (world : World ℕ) → IsSeen world mounts.now groups.now
        → map mount_of graft.now.parts.now ≡ parts_of nat_eq world (location_of graft.now.place)
        → map new_group new.items ≡ planned_groups world graft.now counts) }
{
    let alloc = mounts.alloc();
    let Some(destination) = graft.parts.first() else {
        return Ok(Vec::new(alloc));
    };
    let copying = Copying {
        graft: *graft,
        destination: *destination,
        counts,
        indexes,
    };
    copying.all_groups(alloc, mounts, groups)
}

impl<'a> Copying<'a> {
    // The copies at all parts.
    fn all_copies(
        &self,
        alloc: Global,
        mounts: &Mounts,
        groups: &Groups,
    ) -> Result<Vec<Mount>, AllocError>
        requires { IsReady self.now }
        ensures { IfOk result (λ copies. map mount_of copies.items
            ≡ flat_map (λ part. map (copied (as_kept mounts.now groups.now) self.now part) (tree_seen self.now))
            (parts_seen self.now)) }
    {
        let count = self.graft.parts.len().saturating_mul(self.graft.tree.len());
        let mut copies = Vec::with_capacity(alloc, count)?;
        for part in self.graft.parts {
            self.push_copies(mounts, groups, part, &mut copies)?;
        }
        Ok(copies)
    }

    // Adds the copies at a part.
    fn push_copies(
        &self,
        mounts: &Mounts,
        groups: &Groups,
        part: &Mount,
        copies: &mut Vec<Mount>,
    ) -> Result<(), AllocError>
        requires ready { IsReady self.now }
        requires parts { 0 < length self.now.graft.parts.now }
        ensures { OnOk result (map mount_of copies.new.items ≡ map mount_of copies.old.items
            ++ map (copied (as_kept mounts.now groups.now) self.now (mount_of part.now)) (tree_seen self.now)) }
    {
        let master = self.nearest_master(mounts, groups, part.propagation);
        for origin in self.graft.tree {
            copies.push(self.copy(part, master, origin))?;
        }
        Ok(())
    }

    // The copy of a mount at a part with this nearest master.
    fn copy(&self, part: &Mount, master: Option<GroupId>, origin: &Mount) -> Mount
        requires ready { IsReady self.now }
        requires parts { 0 < length self.now.graft.parts.now }
        requires tree { 0 < length self.now.graft.tree.now }
        ensures { mount_of result
            ≡ copied_by self.now (option_map group_number master) (mount_of part.now) (mount_of origin.now) }
    {
        let propagation = if part.number == self.graft.place.mount {
            self.type_at(origin)
        } else {
            self.copy_type(master, origin, part.propagation)
        };
        Mount {
            number: self.copy_number(part.number, origin.number),
            namespace: part.namespace,
            mount_point: Some(self.copy_mount_point(part.number, origin)),
            propagation,
            ..*origin
        }
    }

    // Where the copy of a mount at a part stands: the first of the tree at the destination, each other one on the copy
    // of its parent.
    fn copy_mount_point(&self, part: MountId, origin: &Mount) -> Location
        requires ready { IsReady self.now }
        requires parts { 0 < length self.now.graft.parts.now }
        requires tree { 0 < length self.now.graft.tree.now }
        ensures { location_of result
            ≡ copy_mount_point_of nat_eq (supply self.now) (graft_seen self.now) (mount_number part)
            (mount_of origin.now) }
    {
        if self.is_top(origin.number) {
            return Location {
                mount: part,
                node: self.graft.place.node,
            };
        }
        match origin.mount_point {
            Some(point) => Location {
                mount: self.copy_number(part, point.mount),
                node: point.node,
            },
            None => self.graft.place,
        }
    }

    // Whether this is the first mount of the tree.
    fn is_top(&self, origin: MountId) -> bool
        ensures { result ≡ is_top_of nat_eq (graft_seen self.now) (mount_number origin) }
    {
        match self.graft.tree.first() {
            Some(top) => origin == top.number,
            None => false,
        }
    }

    // The new groups of all parts.
    fn all_groups(
        &self,
        alloc: Global,
        mounts: &Mounts,
        groups: &Groups,
    ) -> Result<Vec<NewGroup>, AllocError>
        requires { IsReady self.now }
        ensures { IfOk result (λ new. map new_group new.items
            ≡ flat_map (λ part. filter_map (made (as_kept mounts.now groups.now) self.now part) (tree_seen self.now))
            (parts_seen self.now)) }
    {
        let mut new = Vec::new(alloc);
        for part in self.graft.parts {
            self.push_groups(mounts, groups, part, &mut new)?;
        }
        Ok(new)
    }

    // Adds the new groups of the copies at a part.
    fn push_groups(
        &self,
        mounts: &Mounts,
        groups: &Groups,
        part: &Mount,
        new: &mut Vec<NewGroup>,
    ) -> Result<(), AllocError>
        requires ready { IsReady self.now }
        requires parts { 0 < length self.now.graft.parts.now }
        ensures { OnOk result (map new_group new.new.items ≡ map new_group new.old.items
            ++ filter_map (made (as_kept mounts.now groups.now) self.now (mount_of part.now)) (tree_seen self.now)) }
    {
        let above = self.above(mounts, groups, part.propagation);
        for origin in self.graft.tree {
            if let Some(group) = self.group_made(part, above, origin) {
                new.push(group)?;
            }
        }
        Ok(())
    }

    // The new group of the copy of a mount at a part with this group above, if it forms one.
    fn group_made(&self, part: &Mount, above: Option<GroupId>, origin: &Mount) -> Option<NewGroup>
        requires ready { IsReady self.now }
        requires parts { 0 < length self.now.graft.parts.now }
        requires tree { 0 < length self.now.graft.tree.now }
        ensures { option_map new_group result
            ≡ made_by self.now (option_map group_number above) (mount_of part.now) (mount_of origin.now) }
    {
        if part.number == self.graft.place.mount {
            return self.group_at_destination(origin);
        }
        let Propagation::Shared(group) = part.propagation else {
            return None;
        };
        if is_member(self.destination.propagation, group) {
            return None;
        }
        Some(NewGroup {
            group: self.image(origin, group),
            master: self.image_of(origin, above),
        })
    }

    // The group that a mount joins at the destination, if that is a new one. A slave's master becomes the master of the
    // group.
    fn group_at_destination(&self, origin: &Mount) -> Option<NewGroup>
        requires ready { IsReady self.now }
        requires parts { 0 < length self.now.graft.parts.now }
        requires tree { 0 < length self.now.graft.tree.now }
        ensures { option_map new_group result ≡ twig_master (twig self.now (mount_of origin.now)) }
    {
        match (origin.propagation, self.type_at(origin)) {
            (Propagation::Shared(_), _) => None,
            (old, Propagation::Shared(group)) => Some(NewGroup {
                group,
                master: master_after(old),
            }),
            _ => None,
        }
    }
}

// The master of the group that a mount of this type starts.
fn master_after(propagation: Propagation) -> Option<GroupId>
    ensures { option_map group_number result ≡ master_after_of (propagation_of propagation) }
{
    match propagation {
        Propagation::Slave(master) => Some(master),
        Propagation::Shared(_) | Propagation::Private | Propagation::Unbindable => None,
    }
}
