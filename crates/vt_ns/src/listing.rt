//! The lists of mounts and of peer groups: mountinfo of proc(5), mount_namespaces(7).
ghost use Rattle.std.specs.Prelude.{ℕ, ◌≡◌, IfOk, Some, map, nat_eq};
ghost use Rattle.vt_request.specs.Answers.{mount_line_of, peer_line_of};
ghost use Rattle.vt_spec.specs.Machine.Listing as listing;
ghost use Rattle.vt_spec.specs.Machine.Permits.Permit.{ToListMounts};
ghost use Rattle.vt_spec.specs.Machine.World.{Task, task_called};
ghost use Rattle.vt_mounting.specs.Detach.Events.{Permits};
ghost use Rattle.vt_world.specs.WorldValue.{world_of};
ghost use Rattle.vt_store.specs.StoreValue.{StandOnLayers};
ghost use Rattle.vt_listing.specs.Shown.{IsShown, NameDirectoriesOnce};

use crate::world::World;
use std::alloc::AllocError;
use vt_listing::MountTable;
use vt_request::{MountLine, PeerLine, TaskName};

impl World {
    /// The mounts of the caller's namespace, in the order of their attachment: mountinfo of proc(5).
    pub fn mounts(&self, name: &TaskName) -> Result<Vec<MountLine>, AllocError>
        requires { Permits self.now name.now ToListMounts }
        ensures ok { (task : Task ℕ) → task_called (world_of self.now) name.now ≡ Some task
            → IfOk result (λ lines. map mount_line_of lines.items
            ≡ listing.mount_lines nat_eq (world_of self.now) task.namespace) }
    {
        match self.tasks.namespace_called(name) {
            Some(namespace) => self.table().mount_lines(namespace),
            None => Ok(Vec::new(self.alloc)),
        }
    }

    /// The peer groups of all namespaces, in the order in which they first stand among the types of all mounts.
    pub fn peers(&self) -> Result<Vec<PeerLine>, AllocError>
        ensures ok { IfOk result (λ lines. map peer_line_of lines.items
            ≡ listing.peer_lines nat_eq (world_of self.now)) }
    {
        self.table().peer_lines(self.namespaces.keys().as_slice())
    }

    /// All mounts, as they are listed.
    pub(crate) fn table(&self) -> MountTable<'_>
        ensures shown { IsShown (world_of self.now) result }
        ensures standing { StandOnLayers result.store.now }
        ensures once { NameDirectoriesOnce result.store.now }
    {
        MountTable {
            alloc: self.alloc,
            mounts: &self.mounts,
            groups: &self.groups,
            store: &self.store,
        }
    }
}
