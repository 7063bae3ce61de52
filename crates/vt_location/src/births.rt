//! Where the nodes of filesystems were born: the kernel's overlayfs document.

/// Where a node of a filesystem was born. All inodes of a plain filesystem were born there.
#[derive(Clone, Copy, Debug, PartialEq, Eq, Hash)]
pub enum Birth {
    /// In a plain filesystem, or of an overlay as its root or in its upper layer. The slot of the node is that of the
    /// plain filesystem, or of the top layer.
    Here,
    /// Under a name of a directory of a lower layer: the slot of the node is that of this layer.
    Below {
        /// The place of the layer among the lower ones, counted from the top. It has 16 bits, since the compiler keeps
        /// a gap of six bytes, as behind 8, in memory, and copies it with each location.
        layer: u16,
        /// The slot of that directory in the layer's tree.
        directory: usize,
        /// How many smaller names of that directory lead to the same object. To a directory leads one name.
        rank: usize,
    },
}
