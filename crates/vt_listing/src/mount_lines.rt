//! The list of a namespace's mounts: mountinfo of proc(5).
ghost use Rattle.std.specs.Prelude.{List, ℕ, ◌≡◌, ◌∷◌, [], IfOk, OnOk, map, nat_eq, option_map, true};
ghost use Rattle.vt_location.specs.Locations.{location_of};
ghost use Rattle.vt_location.specs.MountValue.{mount_of, propagation_of};
ghost use Rattle.vt_location.specs.Numbers.{filesystem_number, group_number, mount_number, namespace_number};
ghost use Rattle.vt_request.specs.Answers.{mount_line_of, spot_of, type_line_of};
ghost use Rattle.vt_spec.specs.Language.Answers as answers;
ghost use Rattle.vt_spec.specs.Machine.Listing as listing;
ghost use Rattle.vt_spec.specs.Machine.Mounts as meant;
ghost use Rattle.vt_spec.specs.Machine.World.{World};
ghost use Rattle.vt_mount.specs.Attached.{AreOf, are_rising, attached_in};
ghost use Rattle.vt_store.specs.StoreValue.{StandOnLayers};
ghost use Rattle.vt_listing.specs.GroupsListed.{SeesMore};
ghost use Rattle.vt_listing.specs.Shown.{IsShown, NameDirectoriesOnce, world_shown};

use crate::table::MountTable;
use indexmap::IndexSet;
use std::alloc::AllocError;
use vt_location::{FilesystemId, GroupId, Location, Mount, MountId, NamespaceId, Propagation};
use vt_request::{MountLine, Spot, TypeLine};

impl MountTable<'_> {
    /// The mounts of a namespace, in the order of their attachment: mountinfo of proc(5). Filesystems and groups are
    /// numbered by where they first stand in the list.
    ///
    /// A directory must have one name at most, as in every tree of a world.
    pub fn mount_lines(&self, namespace: NamespaceId) -> Result<Vec<MountLine>, AllocError>
        requires standing { StandOnLayers self.now.store.now }
        requires once { NameDirectoriesOnce self.now.store.now }
        ensures ok { IfOk result (λ lines. (world : World ℕ) → IsShown world self.now
            → map mount_line_of lines.items ≡ listing.mount_lines nat_eq world (namespace_number namespace)) }
    {
        let listed = self.mounts.attached_in(namespace);
        let filesystems = self.filesystems_in(namespace)?;
        let groups = self.groups_in(namespace)?;
        let mut lines = Vec::new(self.alloc);
        for id in listed {
            if let Some(mount) = self.mounts.get(*id) {
                let line = self.mount_line(&mount, listed, &filesystems, &groups)?;
                lines.push(line)?;
            }
        }
        Ok(lines)
    }

    // The filesystems that the mounts of a namespace show, in the order in which they first stand in its list.
    fn filesystems_in(&self, namespace: NamespaceId) -> Result<IndexSet<FilesystemId>, AllocError>
        ensures ok { IfOk result (λ seen. map filesystem_number seen.keys
            ≡ listing.filesystems_seen nat_eq (attached_in (namespace_number namespace) self.now.mounts.now)) }
    {
        let mut seen = IndexSet::new(self.alloc);
        for id in self.mounts.attached_in(namespace) {
            if let Some(mount) = self.mounts.get(*id) {
                seen.insert(mount.root.filesystem)?;
            }
        }
        Ok(seen)
    }

    // The groups of the mounts of a namespace, in the order in which they first stand in its list.
    fn groups_in(&self, namespace: NamespaceId) -> Result<IndexSet<GroupId>, AllocError>
        ensures ok { IfOk result (λ seen. map group_number seen.keys
            ≡ listing.groups_seen nat_eq (world_shown self.now) (attached_in (namespace_number namespace) self.now.mounts.now)) }
    {
        let mut seen = IndexSet::new(self.alloc);
        for id in self.mounts.attached_in(namespace) {
            if let Some(mount) = self.mounts.get(*id) {
                self.see_type(&mut seen, mount.propagation)?;
            }
        }
        Ok(seen)
    }

    /// The groups of a type are seen, as its line names them: a group before its master.
    pub(crate) fn see_type(
        &self,
        seen: &mut IndexSet<GroupId>,
        kind: Propagation,
    ) -> Result<(), AllocError>
        ensures ok { OnOk result (SeesMore seen.old.keys seen.new.keys
            (listing.groups_in_type (world_shown self.now) (propagation_of kind))) }
    {
        match kind {
            Propagation::Shared(group) => {
                see(seen, group)?;
                match self.groups.master_of(group) {
                    Some(master) => see(seen, master),
                    None => Ok(()),
                }
            }
            Propagation::Slave(master) => see(seen, master),
            Propagation::Private | Propagation::Unbindable => Ok(()),
        }
    }

    // The line of a mount in a list of mounts, by the filesystems and the groups of that list in their order.
    fn mount_line(
        &self,
        mount: &Mount,
        listed: &[MountId],
        filesystems: &IndexSet<FilesystemId>,
        groups: &IndexSet<GroupId>,
    ) -> Result<MountLine, AllocError>
        requires standing { StandOnLayers self.now.store.now }
        requires once { NameDirectoriesOnce self.now.store.now }
        requires order { are_rising listed.now ≡ true }
        ensures ok { IfOk result (λ line. (world : World ℕ) (mounts : List (meant.Mount ℕ)) → IsShown world self.now
            → AreOf listed.now mounts
            → map filesystem_number filesystems.now.keys ≡ listing.filesystems_seen nat_eq mounts
            → map group_number groups.now.keys ≡ listing.groups_seen nat_eq (world_shown self.now) mounts
            → mount_line_of line ≡ listing.mount_line nat_eq world mounts (mount_of mount.now)) }
    {
        Ok(MountLine {
            mount_point: self.point_shown(mount.mount_point, listed)?,
            overlay: self.store.is_overlay(mount.root.filesystem),
            filesystem: filesystem_place(mount.root.filesystem, filesystems),
            root: self.root_spot(mount)?,
            flags: mount.flags,
            kind: self.type_shown(mount.propagation, groups),
        })
    }

    // The type of a mount, as its line shows it, by the groups of its list.
    fn type_shown(&self, kind: Propagation, groups: &IndexSet<GroupId>) -> TypeLine
        ensures { type_line_of result
            ≡ listing.type_line nat_eq (world_shown self.now) (map group_number groups.now.keys)
            (propagation_of kind) }
    {
        match kind {
            Propagation::Shared(group) => TypeLine::Shared {
                group: group_place(group, groups),
                master: self.master_place(group, groups),
            },
            Propagation::Slave(master) => TypeLine::Slave {
                master: group_place(master, groups),
            },
            Propagation::Private => TypeLine::Private,
            Propagation::Unbindable => TypeLine::Unbindable,
        }
    }

    /// The place of a group's master among others, if it has a master.
    pub(crate) fn master_place(&self, group: GroupId, groups: &IndexSet<GroupId>) -> Option<usize>
        ensures { result ≡ option_map (listing.number_among nat_eq (map group_number groups.now.keys))
            ((world_shown self.now).master (group_number group)) }
    {
        match self.groups.master_of(group) {
            Some(master) => Some(group_place(master, groups)),
            None => None,
        }
    }

    // A mount point as a list of mounts shows it.
    fn point_shown(
        &self,
        point: Option<Location>,
        listed: &[MountId],
    ) -> Result<Option<(usize, Spot)>, AllocError>
        requires standing { StandOnLayers self.now.store.now }
        requires once { NameDirectoriesOnce self.now.store.now }
        requires order { are_rising listed.now ≡ true }
        ensures ok { IfOk result (λ shown. (world : World ℕ) (mounts : List (meant.Mount ℕ)) → IsShown world self.now
            → AreOf listed.now mounts
            → option_map {U = ℕ × answers.Spot} (λ point. (point.0, spot_of point.1)) shown
            ≡ option_map (λ place. (
              listing.number_among nat_eq (map (λ other. other.number) mounts) place.mount,
              listing.mount_point_spot nat_eq world place,
            )) (option_map location_of point)) }
    {
        match point {
            Some(place) => Ok(Some((
                mount_place(place.mount, listed),
                self.mount_point_spot(place)?,
            ))),
            None => Ok(None),
        }
    }
}

// The place of a mount in a list, from 1 on; 0 if it is not in it.
fn mount_place(id: MountId, listed: &[MountId]) -> usize
    requires order { are_rising listed.now ≡ true }
    ensures { (mounts : List (meant.Mount ℕ)) → AreOf listed.now mounts
        → result ≡ listing.number_among nat_eq (map (λ other. other.number) mounts) (mount_number id) }
{
    match listed.binary_search_by_key(&id.count, |other| other.count) {
        Ok(index) => index + 1,
        Err(_) => 0,
    }
}

// The place of a filesystem among others, from 1 on; 0 if it is not among them.
fn filesystem_place(id: FilesystemId, filesystems: &IndexSet<FilesystemId>) -> usize
    ensures { result ≡ listing.number_among nat_eq (map filesystem_number filesystems.now.keys)
        (filesystem_number id) }
{
    match filesystems.get_index_of(&id) {
        // It and those before it.
        Some(index) => filesystems.as_slice()[..=index].len(),
        None => 0,
    }
}

/// The place of a group among others, from 1 on; 0 if it is not among them.
pub(crate) fn group_place(id: GroupId, groups: &IndexSet<GroupId>) -> usize
    ensures { result ≡ listing.number_among nat_eq (map group_number groups.now.keys)
        (group_number id) }
{
    match groups.get_index_of(&id) {
        // It and those before it.
        Some(index) => groups.as_slice()[..=index].len(),
        None => 0,
    }
}

// A group is seen.
fn see(seen: &mut IndexSet<GroupId>, group: GroupId) -> Result<(), AllocError>
    ensures ok { OnOk result (SeesMore seen.old.keys seen.new.keys (group_number group ∷ [])) }
{
    seen.insert(group)?;
    Ok(())
}
