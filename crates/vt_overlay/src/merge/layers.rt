//! Layers, and what they show.

use vt_location::{FilesystemId, InodeRef};

/// A layer of an overlay: a directory of a plain tree.
#[derive(Clone, Copy, Debug, PartialEq, Eq)]
pub struct LayerRef {
    pub directory: InodeRef,
}

/// An object that is shown: the place of its layer, counted from the top, and its inode there.
#[derive(Clone, Copy, Debug, PartialEq, Eq)]
pub struct Real {
    pub layer: usize,
    pub inode: InodeRef,
}

/// A directory of one layer that is merged with those of other layers, and the place of its layer, counted from the
/// top.
#[derive(Clone, Copy, Debug, PartialEq, Eq)]
pub struct MergedDirectory {
    pub layer: usize,
    pub directory: InodeRef,
}

// A list of them with room for more is filled up with this one.
impl Default for MergedDirectory {
    fn default() -> Self {
        MergedDirectory {
            layer: 0,
            directory: InodeRef {
                filesystem: FilesystemId::new(0),
                slot: 0,
            },
        }
    }
}

/// An entry of a directory of a layer, and the inode to which it leads, which may be a whiteout.
#[derive(Clone, Copy, Debug)]
pub struct LayerEntry {
    pub above: MergedDirectory,
    pub object: InodeRef,
}
