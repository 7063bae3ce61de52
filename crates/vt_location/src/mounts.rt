//! What a mount is: mount_namespaces(7).
ghost use Rattle.std.specs.Prelude.{◌≡◌};
ghost use Rattle.vt_spec.specs.Machine.Mounts.{root_of};
ghost use Rattle.vt_location.specs.Locations.{location_of};
ghost use Rattle.vt_location.specs.MountValue.{mount_of};

use crate::locations::{Location, NodeRef};
use crate::numbers::{GroupId, MountId, NamespaceId};
use vt_cred::MountFlags;

/// The propagation type of a mount: the kernel's document sharedsubtree.
#[derive(Clone, Copy, Debug, PartialEq, Eq)]
pub enum Propagation {
    /// It is a member of this peer group.
    Shared(GroupId),
    /// It receives events from this peer group.
    Slave(GroupId),
    Private,
    Unbindable,
}

/// A mount. It shows the filesystem of its root, from that directory on.
#[derive(Clone, Copy, Debug, PartialEq, Eq)]
pub struct Mount {
    pub number: MountId,
    /// The namespace that it is attached in; a mount that was detached is in none.
    pub namespace: Option<NamespaceId>,
    /// Where it is attached; the root mount of a namespace has no mount point.
    pub mount_point: Option<Location>,
    pub root: NodeRef,
    pub flags: MountFlags,
    pub propagation: Propagation,
}

impl Mount {
    /// Its root directory, seen through it.
    pub fn root_location(&self) -> Location
        ensures { location_of result ≡ root_of (mount_of self.now) }
    {
        Location {
            mount: self.number,
            node: self.root,
        }
    }
}
