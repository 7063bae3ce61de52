//! Where mounts stand and begin: mountinfo of proc(5).
ghost use Rattle.std.specs.Prelude.{◌≡◌, IfOk, map, nat_eq, option_map, ℕ};
ghost use Rattle.vt_location.specs.Locations.{location_of, number_of};
ghost use Rattle.vt_location.specs.MountValue.{mount_of};
ghost use Rattle.vt_request.specs.Answers.{spot_of};
ghost use Rattle.vt_spec.specs.FileTree.{path_down};
ghost use Rattle.vt_spec.specs.Machine.Listing as listing;
ghost use Rattle.vt_spec.specs.Machine.World.{World};
ghost use Rattle.vt_store.specs.StoreValue.{StandOnLayers, files_in};
ghost use Rattle.vt_listing.specs.Shown.{IsShown, NameDirectoriesOnce};

use crate::table::MountTable;
use std::alloc::AllocError;
use vt_location::{Location, Mount, NodeRef};
use vt_request::Spot;

impl MountTable<'_> {
    /// Where a mount point is: its path from the root of the mount that it is on. It is gone if that mount is.
    pub fn mount_point_spot(&self, place: Location) -> Result<Spot, AllocError>
        requires standing { StandOnLayers self.now.store.now }
        requires once { NameDirectoriesOnce self.now.store.now }
        ensures ok { IfOk result (λ spot. (world : World ℕ) → IsShown world self.now
            → spot_of spot ≡ listing.mount_point_spot nat_eq world (location_of place)) }
    {
        match self.mounts.get(place.mount) {
            Some(mount) => self.spot_under(mount.root, place.node),
            None => Ok(Spot::Gone),
        }
    }

    /// Where the tree begins that a mount shows: the path of its root from the root of its filesystem.
    pub fn root_spot(&self, mount: &Mount) -> Result<Spot, AllocError>
        requires standing { StandOnLayers self.now.store.now }
        requires once { NameDirectoriesOnce self.now.store.now }
        ensures ok { IfOk result (λ spot. (world : World ℕ) → IsShown world self.now
            → spot_of spot ≡ listing.root_spot nat_eq world (mount_of mount.now)) }
    {
        Ok(reached(self.store.path_from_root(self.alloc, mount.root)?))
    }

    // Where a directory is below another, in that one's filesystem.
    fn spot_under(&self, top: NodeRef, directory: NodeRef) -> Result<Spot, AllocError>
        requires standing { StandOnLayers self.now.store.now }
        requires once { NameDirectoriesOnce self.now.store.now }
        ensures ok { IfOk result (λ spot. spot_of spot
            ≡ listing.spot_of (path_down nat_eq (files_in self.now.store.now top.filesystem.count)
            (number_of top) (number_of directory))) }
    {
        Ok(reached(self.store.path_down(self.alloc, top, directory)?))
    }
}

// Where a path leads, if there is one.
fn reached(path: Option<Vec<Vec<u8>>>) -> Spot
    ensures { spot_of result ≡ listing.spot_of (option_map (λ names. map (λ name. name.items) names.items) path) }
{
    match path {
        Some(names) => Spot::Reached(names),
        None => Spot::Gone,
    }
}
