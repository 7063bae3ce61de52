//! The world, as it is shown to people: what it has, and where in it things are.
ghost use Rattle.std.specs.Prelude.{◌≡◌, find, is_some, IfOk, map, nat_eq};
ghost use Rattle.vt_location.specs.Locations.{location_of};
ghost use Rattle.vt_location.specs.MountValue.{mount_of};
ghost use Rattle.vt_location.specs.Numbers.{filesystem_number, namespace_number};
ghost use Rattle.vt_request.specs.Answers.{spot_of};
ghost use Rattle.vt_spec.specs.Machine.Listing as listing;
ghost use Rattle.vt_store.specs.StoreValue.{StandOnLayers};
ghost use Rattle.vt_world.specs.StoredWorld.{overlays_of_store};
ghost use Rattle.vt_world.specs.WorldValue.{world_of};

use crate::world::World;
use std::alloc::AllocError;
use vt_group::Groups;
use vt_location::{FilesystemId, Location, Mount, NamespaceId};
use vt_mount::Mounts;
use vt_request::Spot;
use vt_store::Store;
use vt_tasks::Tasks;

impl World {
    /// Its tasks.
    pub fn tasks(&self) -> &Tasks
        ensures tasks { result.now.tasks ≡ self.now.tasks }
        ensures births { result.now.births ≡ self.now.births }
    {
        &self.tasks
    }

    /// Its mounts, also those that were detached and are in use.
    pub fn all_mounts(&self) -> &Mounts
        ensures { result.now ≡ self.now.mounts }
    {
        &self.mounts
    }

    /// Its filesystems, overlays among them.
    pub fn store(&self) -> &Store
        ensures plain { result.now.plain ≡ self.now.filesystems }
        ensures overlays { overlays_of_store result.now ≡ self.now.overlays }
        ensures standing { StandOnLayers result.now }
    {
        &self.store
    }

    /// Its namespaces, in the order of their creation.
    pub fn namespaces(&self) -> &[NamespaceId]
        ensures { map namespace_number result.now
            ≡ map (λ namespace. namespace.number) (world_of self.now).namespaces }
    {
        self.namespaces.keys().as_slice()
    }

    /// Its peer groups, with their masters.
    pub fn groups(&self) -> &Groups
        ensures { result.now ≡ self.now.groups }
    {
        &self.groups
    }

    /// Whether it has a namespace of this number.
    pub fn has_namespace(&self, namespace: NamespaceId) -> bool
        ensures { result ≡ is_some (find (λ one. nat_eq (namespace_number namespace) one.number)
            (world_of self.now).namespaces) }
    {
        self.namespaces.contains_key(&namespace)
    }

    /// Whether it has a filesystem of this number.
    pub fn has_filesystem(&self, filesystem: FilesystemId) -> bool
        ensures { result ≡ is_some (find (λ one. nat_eq (filesystem_number filesystem) one.number)
            (world_of self.now).filesystems) }
    {
        self.store.overlay(filesystem).is_some() || self.store.plain().get(filesystem).is_some()
    }

    /// Where a directory is, as seen through a mount: its path from the root of the mount, as a list of mounts shows a
    /// mount point.
    pub fn spot_of(&self, at: Location) -> Result<Spot, AllocError>
        ensures ok { IfOk result (λ spot. spot_of spot
            ≡ listing.mount_point_spot nat_eq (world_of self.now) (location_of at)) }
    {
        self.table().mount_point_spot(at)
    }

    /// Where the tree begins that a mount shows: the path of its root from the root of its filesystem.
    pub fn root_spot_of(&self, mount: &Mount) -> Result<Spot, AllocError>
        ensures ok { IfOk result (λ spot. spot_of spot
            ≡ listing.root_spot nat_eq (world_of self.now) (mount_of mount.now)) }
    {
        self.table().root_spot(mount)
    }
}
