//! Filesystems that members use: each by them alone, or one that no outsider can change.
ghost use Rattle.std.specs.Prelude.{◌≡◌, ◌&&◌, ◌||◌, find, map, nat_eq, not};
ghost use Rattle.std.specs.List.{list_all, list_any};
ghost use Rattle.vt_spec.specs.Lists.{holds_of};
ghost use Rattle.vt_spec.specs.Machine.Sealed.{is_member_task, is_own_mount, no_outsider_on, used_alone, wholly_locked};
ghost use Rattle.vt_spec.specs.Machine.World.{locations_of, mount_at};
ghost use Rattle.vt_location.specs.Locations.{location_of, number_of};
ghost use Rattle.vt_location.specs.Numbers.{counted, filesystem_number, mount_number};
ghost use Rattle.vt_mount.specs.MountsValue.{mounts_in};
ghost use Rattle.vt_store.specs.OverlaysValue.{entry_kept};
ghost use Rattle.vt_tasks.specs.TaskValue.{task_of};
ghost use Rattle.vt_sealing.specs.Seen.{filesystems_in_use, has_layer_in, has_root_layer, is_open, is_open_through, is_other_mount, upper_filesystem, work_filesystem, world_seen, written_under};

use crate::layers::{has_layer_in, has_lower_at, upper_of};
use crate::sealing::Sealing;
use vt_layered::Layered;
use vt_location::{FilesystemId, Location, MountId, NodeRef};
use vt_tasks::Task;

impl Sealing<'_> {
    /// Whether members use no filesystem that outsiders can change.
    pub(crate) fn has_no_open_filesystem(&self) -> bool
        ensures { result ≡ list_all (λ filesystem.
            used_alone nat_eq (world_seen self.now) self.now.names.now filesystem
            || wholly_locked nat_eq (world_seen self.now) self.now.names.now filesystem) (filesystems_in_use self.now) }
    {
        !self.have_open_mount() && !self.have_member_in_open()
    }

    // Whether a mount of members shows a filesystem that outsiders can change.
    fn have_open_mount(&self) -> bool
        ensures { result ≡ list_any (λ mount. is_own_mount nat_eq (world_seen self.now) self.now.names.now mount
            && is_open_through self.now mount.filesystem) (mounts_in self.now.mounts.now) }
    {
        self.mounts.ids().iter().any(|id| self.is_own_of_open(*id))
    }

    // Whether a member is at a location in a filesystem that outsiders can change.
    fn have_member_in_open(&self) -> bool
        ensures { result ≡ list_any (λ task. is_member_task self.now.names.now task
            && list_any (λ location. is_open_through self.now
            (mount_at nat_eq (world_seen self.now) location).filesystem) (locations_of task)) self.now.tasks.now.tasks }
    {
        self.tasks
            .kept()
            .iter()
            .any(|task| self.is_member_in_open(task))
    }

    // Whether a mount is one of members that shows a filesystem that outsiders can change.
    fn is_own_of_open(&self, id: MountId) -> bool
        ensures { result ≡ holds_of (λ mount. is_own_mount nat_eq (world_seen self.now) self.now.names.now mount
            && is_open_through self.now mount.filesystem)
            (find (λ mount. nat_eq (mount_number id) mount.number) (mounts_in self.now.mounts.now)) }
    {
        match self.mounts.get(id) {
            Some(mount) => self.is_own_mount(&mount) && self.is_open_through(mount.root.filesystem),
            None => false,
        }
    }

    // Whether a task is a member at a location in a filesystem that outsiders can change.
    fn is_member_in_open(&self, task: &Task) -> bool
        ensures { result ≡ (is_member_task self.now.names.now (task_of task.now)
            && list_any (λ location. is_open_through self.now
            (mount_at nat_eq (world_seen self.now) location).filesystem) (locations_of (task_of task.now))) }
    {
        self.is_member(task) && self.is_at_open(task)
    }

    // Whether a task is at a location in a filesystem that outsiders can change.
    fn is_at_open(&self, task: &Task) -> bool
        ensures { result ≡ list_any (λ location. is_open_through self.now
            (mount_at nat_eq (world_seen self.now) location).filesystem) (locations_of (task_of task.now)) }
    {
        self.is_in_open(task.root) || self.is_in_open(task.directory) || self.has_file_in_open(task)
    }

    // Whether a task has an open file in a filesystem that outsiders can change.
    fn has_file_in_open(&self, task: &Task) -> bool
        ensures { result ≡ list_any (λ location. is_open_through self.now
            (mount_at nat_eq (world_seen self.now) location).filesystem)
            (map (λ descriptor. descriptor.location) (task_of task.now).descriptors) }
    {
        task.descriptors
            .files()
            .iter()
            .any(|file| self.is_in_open(file.location))
    }

    // Whether a location is in a filesystem that outsiders can change.
    fn is_in_open(&self, at: Location) -> bool
        ensures { result ≡ is_open_through self.now
            (mount_at nat_eq (world_seen self.now) (location_of at)).filesystem }
    {
        self.is_open_through(self.filesystem_at(at))
    }

    // Whether outsiders can change a filesystem, or one to which its changes are written: an overlay writes to the
    // filesystems of its upper directory and its work directory.
    fn is_open_through(&self, filesystem: FilesystemId) -> bool
        ensures { result ≡ is_open_through self.now (filesystem_number filesystem) }
    {
        self.is_open(filesystem) || self.writes_to_open(filesystem)
    }

    // Whether it is an overlay that writes to a filesystem that outsiders can change.
    fn writes_to_open(&self, filesystem: FilesystemId) -> bool
        ensures { result ≡ list_any (is_open (world_seen self.now) self.now.names.now)
            (written_under self.now.store.now.overlays (filesystem_number filesystem)) }
    {
        match self.store.overlay(filesystem) {
            Some(overlay) => self.has_open_above(overlay),
            None => false,
        }
    }

    // Whether outsiders can change the filesystem of the upper or of the work directory of an overlay.
    fn has_open_above(&self, overlay: &Layered) -> bool
        ensures { result ≡ (list_any (is_open (world_seen self.now) self.now.names.now)
            (upper_filesystem overlay.now.overlay overlay.now.above)
            || list_any (is_open (world_seen self.now) self.now.names.now) (work_filesystem overlay.now.above)) }
    {
        self.has_open_upper(overlay) || self.has_open_work(overlay)
    }

    // Whether outsiders can change the filesystem of the upper directory of an overlay.
    fn has_open_upper(&self, overlay: &Layered) -> bool
        ensures { result ≡ list_any (is_open (world_seen self.now) self.now.names.now)
            (upper_filesystem overlay.now.overlay overlay.now.above) }
    {
        match upper_of(overlay) {
            Some(upper) => self.is_open(upper.directory.filesystem),
            None => false,
        }
    }

    // Whether outsiders can change the filesystem of the work directory of an overlay.
    fn has_open_work(&self, overlay: &Layered) -> bool
        ensures { result
            ≡ list_any (is_open (world_seen self.now) self.now.names.now) (work_filesystem overlay.now.above) }
    {
        match overlay.work() {
            Some(work) => self.is_open(work.directory.filesystem),
            None => false,
        }
    }

    // Whether outsiders can change a filesystem: members do not use it alone, and it is not wholly locked for them.
    fn is_open(&self, filesystem: FilesystemId) -> bool
        ensures { result ≡ is_open (world_seen self.now) self.now.names.now (filesystem_number filesystem) }
    {
        !self.used_alone(filesystem) && !self.wholly_locked(filesystem)
    }

    // Whether members use a filesystem alone, and each overlay that has a layer in it.
    fn used_alone(&self, filesystem: FilesystemId) -> bool
        ensures { result
            ≡ used_alone nat_eq (world_seen self.now) self.now.names.now (filesystem_number filesystem) }
    {
        self.no_outsider_on(filesystem) && !self.is_under_others(filesystem)
    }

    // Whether an overlay that outsiders use has a layer in a filesystem.
    fn is_under_others(&self, filesystem: FilesystemId) -> bool
        ensures { result ≡ list_any (λ entry. has_layer_in (filesystem_number filesystem) entry.overlay entry.above
            && not (no_outsider_on nat_eq (world_seen self.now) self.now.names.now (counted entry.count)))
            self.now.store.now.overlays }
    {
        self.store
            .overlays()
            .iter()
            .any(|id| self.is_over_for_others(*id, filesystem))
    }

    // Whether an overlay has a layer in a filesystem, and outsiders use the overlay.
    fn is_over_for_others(&self, id: FilesystemId, filesystem: FilesystemId) -> bool
        ensures { result ≡ holds_of (λ entry. has_layer_in (filesystem_number filesystem) entry.overlay entry.above
            && not (no_outsider_on nat_eq (world_seen self.now) self.now.names.now (counted entry.count)))
            (entry_kept self.now.store.now.overlays id.count) }
    {
        self.has_layer_in(id, filesystem) && !self.no_outsider_on(id)
    }

    // Whether there is an overlay of a number with a layer in a filesystem.
    fn has_layer_in(&self, id: FilesystemId, filesystem: FilesystemId) -> bool
        ensures { result ≡ holds_of (λ entry. has_layer_in (filesystem_number filesystem) entry.overlay entry.above)
            (entry_kept self.now.store.now.overlays id.count) }
    {
        match self.store.overlay(id) {
            Some(overlay) => has_layer_in(overlay, filesystem),
            None => false,
        }
    }

    // Whether no mount of another namespace and no location of an outsider is on a filesystem.
    fn no_outsider_on(&self, filesystem: FilesystemId) -> bool
        ensures { result
            ≡ no_outsider_on nat_eq (world_seen self.now) self.now.names.now (filesystem_number filesystem) }
    {
        !self.is_shown_elsewhere(filesystem) && !self.has_outsider(filesystem)
    }

    // Whether a mount of another namespace shows a filesystem.
    fn is_shown_elsewhere(&self, filesystem: FilesystemId) -> bool
        ensures { result ≡ list_any (λ mount. nat_eq (filesystem_number filesystem) mount.filesystem
            && is_other_mount (world_seen self.now) self.now.names.now mount) (mounts_in self.now.mounts.now) }
    {
        self.mounts
            .ids()
            .iter()
            .any(|id| self.is_other_of(*id, filesystem))
    }

    // Whether an outsider is at a location in a filesystem.
    fn has_outsider(&self, filesystem: FilesystemId) -> bool
        ensures { result ≡ list_any (λ task. not (is_member_task self.now.names.now task)
            && list_any (λ location. nat_eq (filesystem_number filesystem)
            (mount_at nat_eq (world_seen self.now) location).filesystem) (locations_of task)) self.now.tasks.now.tasks }
    {
        self.tasks
            .kept()
            .iter()
            .any(|task| self.is_outsider_in(task, filesystem))
    }

    // Whether a mount is of another namespace, and shows a filesystem.
    fn is_other_of(&self, id: MountId, filesystem: FilesystemId) -> bool
        ensures { result ≡ holds_of (λ mount. nat_eq (filesystem_number filesystem) mount.filesystem
            && is_other_mount (world_seen self.now) self.now.names.now mount)
            (find (λ mount. nat_eq (mount_number id) mount.number) (mounts_in self.now.mounts.now)) }
    {
        match self.mounts.get(id) {
            Some(mount) => filesystem == mount.root.filesystem && self.is_other_mount(&mount),
            None => false,
        }
    }

    // Whether a task is an outsider at a location in a filesystem.
    fn is_outsider_in(&self, task: &Task, filesystem: FilesystemId) -> bool
        ensures { result ≡ (not (is_member_task self.now.names.now (task_of task.now))
            && list_any (λ location. nat_eq (filesystem_number filesystem)
            (mount_at nat_eq (world_seen self.now) location).filesystem) (locations_of (task_of task.now))) }
    {
        !self.is_member(task) && self.is_at(task, filesystem)
    }

    // Whether a task is at a location in a filesystem.
    fn is_at(&self, task: &Task, filesystem: FilesystemId) -> bool
        ensures { result ≡ list_any (λ location. nat_eq (filesystem_number filesystem)
            (mount_at nat_eq (world_seen self.now) location).filesystem) (locations_of (task_of task.now)) }
    {
        self.is_location_in(task.root, filesystem)
            || self.is_location_in(task.directory, filesystem)
            || self.has_file_in(task, filesystem)
    }

    // Whether a task has an open file in a filesystem.
    fn has_file_in(&self, task: &Task, filesystem: FilesystemId) -> bool
        ensures { result ≡ list_any (λ location. nat_eq (filesystem_number filesystem)
            (mount_at nat_eq (world_seen self.now) location).filesystem)
            (map (λ descriptor. descriptor.location) (task_of task.now).descriptors) }
    {
        task.descriptors
            .files()
            .iter()
            .any(|file| self.is_location_in(file.location, filesystem))
    }

    // Whether a location is in a filesystem.
    fn is_location_in(&self, at: Location, filesystem: FilesystemId) -> bool
        ensures { result ≡ nat_eq (filesystem_number filesystem)
            (mount_at nat_eq (world_seen self.now) (location_of at)).filesystem }
    {
        filesystem == self.filesystem_at(at)
    }

    // Whether no outsider can change a filesystem: its root is a lower layer of an overlay that members use alone, and
    // each other inode has a name. That of an overlay is no layer.
    fn wholly_locked(&self, filesystem: FilesystemId) -> bool
        ensures { result
            ≡ wholly_locked nat_eq (world_seen self.now) self.now.names.now (filesystem_number filesystem) }
    {
        match self.store.plain().root(filesystem) {
            Some(root) => self.is_locked_root(root) && self.store.all_named(filesystem),
            None => false,
        }
    }

    // Whether the root directory of a filesystem is a lower layer of an overlay that members use alone.
    fn is_locked_root(&self, root: NodeRef) -> bool
        ensures { result ≡ list_any (λ entry. has_root_layer (filesystem_number root.filesystem) (number_of root)
            entry.overlay entry.above && used_alone nat_eq (world_seen self.now) self.now.names.now (counted entry.count))
            self.now.store.now.overlays }
    {
        self.store
            .overlays()
            .iter()
            .any(|id| self.locks_root(*id, root))
    }

    // Whether there is an overlay of a number that members use alone, with this root directory as a lower layer.
    fn locks_root(&self, id: FilesystemId, root: NodeRef) -> bool
        ensures { result ≡ holds_of (λ entry. has_root_layer (filesystem_number root.filesystem) (number_of root)
            entry.overlay entry.above && used_alone nat_eq (world_seen self.now) self.now.names.now (counted entry.count))
            (entry_kept self.now.store.now.overlays id.count) }
    {
        self.has_root_layer(id, root) && self.used_alone(id)
    }

    // Whether there is an overlay of a number with this root directory as a lower layer.
    fn has_root_layer(&self, id: FilesystemId, root: NodeRef) -> bool
        ensures { result ≡ holds_of (λ entry. has_root_layer (filesystem_number root.filesystem) (number_of root)
            entry.overlay entry.above) (entry_kept self.now.store.now.overlays id.count) }
    {
        match self.store.overlay(id) {
            Some(overlay) => has_lower_at(overlay, root),
            None => false,
        }
    }
}
