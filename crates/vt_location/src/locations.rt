//! Inodes and nodes of filesystems, and locations: path_resolution(7).
ghost use Rattle.std.specs.Prelude.{◌≡◌, None, Some, nat_eq, option_map};
ghost use Rattle.vt_spec.specs.Machine.Mounts.{same_location};
ghost use Rattle.vt_location.specs.declared.births.Birth.TheVariants.{Here};
ghost use Rattle.vt_location.specs.Locations.{inode_of, is_small_node, location_of, number_of, plain_of};

use crate::births::Birth;
use crate::numbers::{FilesystemId, MountId};
use vt_node::NodeId;

/// An inode of a plain filesystem, by the slot that it has in the filesystem's tree.
#[derive(Clone, Copy, Debug, PartialEq, Eq, Hash)]
pub struct InodeRef {
    pub filesystem: FilesystemId,
    pub slot: usize,
}

impl InodeRef {
    /// The inode of this number in the filesystem's tree.
    pub fn new(filesystem: FilesystemId, node: NodeId) -> Self
        ensures { result ≡ record { filesystem = filesystem; slot = node } }
    {
        InodeRef {
            filesystem,
            slot: node.index(),
        }
    }

    /// Its number in the filesystem's tree.
    pub fn node(self) -> NodeId
        ensures { result ≡ self.slot }
    {
        NodeId::new(self.slot)
    }

    /// The same inode as a node of its filesystem.
    pub fn node_ref(self) -> NodeRef
        ensures value { result ≡ record { filesystem = self.filesystem; slot = self.slot; birth = Here } }
        ensures number { number_of result ≡ inode_of self }
    {
        NodeRef {
            filesystem: self.filesystem,
            slot: self.slot,
            birth: Birth::Here,
        }
    }
}

/// A node of a filesystem: an inode of a plain one, or a node of an overlay, by where it was born.
#[derive(Clone, Copy, Debug, PartialEq, Eq, Hash)]
pub struct NodeRef {
    pub filesystem: FilesystemId,
    pub slot: usize,
    pub birth: Birth,
}

impl NodeRef {
    /// The inode of this number in the filesystem's tree.
    pub fn new(filesystem: FilesystemId, node: NodeId) -> Self
        ensures { result ≡ record { filesystem = filesystem; slot = node; birth = Here } }
    {
        NodeRef {
            filesystem,
            slot: node.index(),
            birth: Birth::Here,
        }
    }

    /// The inode of a plain filesystem that it is: none, if it was born below a layer.
    pub fn plain(self) -> Option<InodeRef>
        ensures { result ≡ plain_of self }
    {
        match self.birth {
            Birth::Here => Some(InodeRef {
                filesystem: self.filesystem,
                slot: self.slot,
            }),
            Birth::Below { .. } => None,
        }
    }

    /// Whether it is the same node.
    #[inline(always)]
    pub fn is_same(self, other: NodeRef) -> bool
        ensures { result ≡ nat_eq (number_of self) (number_of other) }
    {
        self == other
    }
}

/// A location: a node, seen through a mount. A root directory, a working directory and an open file are locations.
#[derive(Clone, Copy, Debug, PartialEq, Eq, Hash)]
pub struct Location {
    pub mount: MountId,
    pub node: NodeRef,
}

impl Location {
    /// Whether it is the same location.
    #[inline(always)]
    pub fn is_same(self, other: Location) -> bool
        ensures { result ≡ same_location nat_eq (location_of self) (location_of other) }
    {
        self == other
    }
}
