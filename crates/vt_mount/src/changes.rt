//! Mounts are moved, detached and removed: mount(2), umount(2).
ghost use Rattle.std.specs.Prelude.{Some, ◌≡◌, filter, find, if◌then◌else◌, is_some, nat_eq, not, option_and_then, option_map, IfSome, OnErr, OnOk};
ghost use Rattle.vt_spec.specs.Lists.{holds_of};
ghost use Rattle.vt_spec.specs.Machine.Mounts.{detached};
ghost use Rattle.vt_location.specs.Locations.{location_of, number_of};
ghost use Rattle.vt_location.specs.MountValue.{mount_of};
ghost use Rattle.vt_location.specs.Numbers.{filesystem_number, mount_number};
ghost use Rattle.vt_mount.specs.MountsValue.{changed, entry_numbered, is_unused, mounts_in, without};

use crate::mounts::{Mounts, kept_under};
use std::alloc::AllocError;
use vt_location::{Location, Mount, MountId, NodeRef, Propagation};

/// What a mount that left its namespace leaves behind.
#[derive(Clone, Copy, Debug, PartialEq, Eq)]
pub struct Left {
    /// The mount point that it had.
    pub point: Option<Location>,
    /// The root of a mount that nothing used, and that was removed.
    pub root: Option<NodeRef>,
}

impl Mounts {
    /// Removes a mount, whatever its uses, and returns it. Mounts on it keep their mount points. It does not allocate.
    pub fn remove(&mut self, id: MountId) -> Option<Mount>
        ensures value { option_map mount_of result
            ≡ find (λ mount. nat_eq (mount_number id) mount.number) (mounts_in self.old) }
        ensures rest { self.new ≡ without (mount_number id) self.old }
    {
        let kept = self.by_number.swap_remove(&id)?;
        let mount = kept.mount(id);
        self.indexes
            .leave(mount.namespace, mount.mount_point, mount.number);
        Some(mount)
    }

    /// Removes a mount that is in no namespace and that nothing uses, and returns it. Mounts on it keep their mount
    /// points. It does not allocate.
    #[inline(always)]
    pub fn remove_unused(&mut self, id: MountId) -> Option<Mount>
        ensures value { IfSome result (λ mount. find (λ mount. nat_eq (mount_number id) mount.number) (mounts_in self.old)
            ≡ Some (mount_of mount)) }
        ensures unused { is_some result ≡ holds_of is_unused (entry_numbered self.old (mount_number id)) }
        ensures rest { self.new ≡ (if is_some result then without (mount_number id) self.old else self.old) }
    {
        let kept = kept_under(&self.by_number, id)?;
        if kept.namespace.is_some() || kept.uses > 0 {
            return None;
        }
        let mount = kept.mount(id);
        self.by_number.swap_remove(&id);
        self.indexes
            .leave(mount.namespace, mount.mount_point, mount.number);
        Some(mount)
    }

    /// Moves a mount to another mount point: mount(2) with `MS_MOVE`. The order of the mounts stays.
    pub fn move_to(&mut self, id: MountId, place: Location) -> Result<(), AllocError>
        ensures ok { OnOk result (self.new
            ≡ changed (mount_number id)
            (λ entry. record entry {
              mount = record entry.mount {
                mount_point = Some
                    (location_of place);
              };
            }) self.old) }
        ensures err { OnErr result (self.new ≡ self.old) }
    {
        let Some(kept) = self.by_number.get_mut(&id) else {
            return Ok(());
        };
        self.indexes.relist(kept.mount_point, place, id)?;
        kept.mount_point = Some(place);
        Ok(())
    }

    /// Detaches a mount: it loses its mount point, which is returned, and its namespace, becomes private, and keeps its
    /// uses: umount(2) with `MNT_DETACH`. It does not allocate.
    pub fn detach(&mut self, id: MountId) -> Option<Location>
        ensures point { option_map location_of result
            ≡ option_and_then (λ entry. entry.mount.mount_point) (entry_numbered self.old (mount_number id)) }
        ensures rest { self.new ≡ changed (mount_number id)
            (λ entry. record entry { mount = detached entry.mount }) self.old }
    {
        let Some(kept) = self.by_number.get_mut(&id) else {
            return None;
        };
        let point = kept.mount_point;
        self.indexes.leave(kept.namespace, point, id);
        kept.namespace = None;
        kept.mount_point = None;
        kept.propagation = Propagation::Private;
        point
    }

    /// Detaches a mount, as `detach` does, and removes it if nothing uses it. It does not allocate.
    pub fn leave(&mut self, id: MountId) -> Left
        ensures point { option_map location_of result.point
            ≡ option_and_then (λ entry. entry.mount.mount_point) (entry_numbered self.old (mount_number id)) }
        ensures filesystem { IfSome result.root (λ root.
            option_map (λ entry. entry.mount.filesystem) (entry_numbered self.old (mount_number id))
            ≡ Some (filesystem_number root.filesystem)) }
        ensures root { IfSome result.root (λ root.
            option_map (λ entry. entry.mount.root) (entry_numbered self.old (mount_number id))
            ≡ Some (number_of root)) }
        ensures unused { is_some result.root
            ≡ holds_of (λ entry. nat_eq entry.uses 0) (entry_numbered self.old (mount_number id)) }
        ensures rest { self.new ≡ (if is_some result.root then without (mount_number id) self.old
            else changed (mount_number id) (λ entry. record entry { mount = detached entry.mount }) self.old) }
    {
        let Some(kept) = kept_under(&self.by_number, id) else {
            return Left {
                point: None,
                root: None,
            };
        };
        if kept.uses > 0 {
            return Left {
                point: self.detach(id),
                root: None,
            };
        }
        let left = Left {
            point: kept.mount_point,
            root: Some(kept.root),
        };
        let namespace = kept.namespace;
        self.by_number.swap_remove(&id);
        self.indexes.leave(namespace, left.point, id);
        left
    }
}
