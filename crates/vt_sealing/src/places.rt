//! Where tasks are: their roots, working directories and open files.
ghost use Rattle.std.specs.Prelude.{◌≡◌, ◌&&◌, map, nat_eq, not};
ghost use Rattle.std.specs.List.{list_any};
ghost use Rattle.vt_spec.specs.Machine.Sealed.{is_member_task, is_on_own_mount, no_outsider_on_mounts};
ghost use Rattle.vt_spec.specs.Machine.World.{locations_of, mount_at};
ghost use Rattle.vt_location.specs.Locations.{location_of};
ghost use Rattle.vt_location.specs.Numbers.{filesystem_number};
ghost use Rattle.vt_tasks.specs.TaskValue.{task_of};
ghost use Rattle.vt_sealing.specs.Seen.{world_seen};

use crate::sealing::Sealing;
use vt_location::{FilesystemId, Location};
use vt_tasks::Task;

impl Sealing<'_> {
    /// Whether no outsider is at a location on a mount of members.
    pub(crate) fn no_outsider_on_mounts(&self) -> bool
        ensures { result ≡ no_outsider_on_mounts nat_eq (world_seen self.now) self.now.names.now }
    {
        !self
            .tasks
            .kept()
            .iter()
            .any(|task| self.is_outsider_on_mounts(task))
    }

    // Whether a task is an outsider at a location on a mount of members.
    fn is_outsider_on_mounts(&self, task: &Task) -> bool
        ensures { result ≡ (not (is_member_task self.now.names.now (task_of task.now))
            && list_any (is_on_own_mount nat_eq (world_seen self.now) self.now.names.now)
            (locations_of (task_of task.now))) }
    {
        !self.is_member(task) && self.is_at_own_mount(task)
    }

    // Whether a task is at a location on a mount of members.
    fn is_at_own_mount(&self, task: &Task) -> bool
        ensures { result ≡ list_any (is_on_own_mount nat_eq (world_seen self.now) self.now.names.now)
            (locations_of (task_of task.now)) }
    {
        self.is_on_own_mount(task.root)
            || self.is_on_own_mount(task.directory)
            || self.has_file_on_own_mount(task)
    }

    // Whether a task has an open file on a mount of members.
    fn has_file_on_own_mount(&self, task: &Task) -> bool
        ensures { result ≡ list_any (is_on_own_mount nat_eq (world_seen self.now) self.now.names.now)
            (map (λ descriptor. descriptor.location) (task_of task.now).descriptors) }
    {
        task.descriptors
            .files()
            .iter()
            .any(|file| self.is_on_own_mount(file.location))
    }

    // Whether a location is on a mount of members.
    fn is_on_own_mount(&self, at: Location) -> bool
        ensures { result
            ≡ is_on_own_mount nat_eq (world_seen self.now) self.now.names.now (location_of at) }
    {
        match self.mounts.get(at.mount) {
            Some(mount) => self.is_own_mount(&mount),
            None => false,
        }
    }

    /// The filesystem that the mount of a location shows. A mount that does not exist shows one of its own number.
    pub(crate) fn filesystem_at(&self, at: Location) -> FilesystemId
        ensures { filesystem_number result ≡ (mount_at nat_eq (world_seen self.now) (location_of at)).filesystem }
    {
        match self.mounts.get(at.mount) {
            Some(mount) => mount.root.filesystem,
            None => FilesystemId::new(at.mount.count),
        }
    }
}
