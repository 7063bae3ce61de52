//! Where propagation goes in the world: mount_namespaces(7).
ghost use Rattle.std.specs.Prelude.{◌≡◌, IfOk, map, nat_eq, true};
ghost use Rattle.vt_location.specs.Locations.{location_of};
ghost use Rattle.vt_location.specs.MountValue.{mount_of};
ghost use Rattle.vt_location.specs.Numbers.{mount_number};
ghost use Rattle.vt_propagate.specs.Seen.{is_mounted};
ghost use Rattle.vt_spec.specs.Machine.Attach.{parts_of};
ghost use Rattle.vt_world.specs.WorldValue.{world_of};
ghost use Rattle.vt_ns.specs.LyingUnder.{lies_under};

use crate::world::World;
use std::alloc::AllocError;
use vt_location::{Location, Mount, NodeRef};
use vt_propagate::{Reach, parts};

impl Reach for World {
    ghost under = { lies_under };

    fn is_under(&self, top: NodeRef, directory: NodeRef) -> bool {
        directory.filesystem == top.filesystem && self.store.is_under(top, directory)
    }
}

impl World {
    /// The mounts at which a tree of mounts is attached: that of the place, then the receivers that take part, in the
    /// order of their attachment.
    pub(crate) fn parts_at(&self, place: Location) -> Result<Vec<Mount>, AllocError>
        requires { is_mounted self.now.mounts (mount_number place.mount) ≡ true }
        ensures ok { IfOk result (λ parts. map mount_of parts.items
            ≡ parts_of nat_eq (world_of self.now) (location_of place)) }
    {
        parts(&self.mounts, &self.groups, self, place)
    }
}
