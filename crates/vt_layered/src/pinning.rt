//! Uses of nodes that are kept without a name: open(2) and close(2) of what has lost its name.
ghost use Rattle.std.specs.Prelude.{◌≡◌, ◌+◌, ◌^◌, ◌↔◌, IsErr, OnErr, OnOk};
ghost use Rattle.vt_layered.specs.Pins.{ChangesNodes, IsPinned, IsUnpinned, let_go_by, node_let_go, uses_above};

use crate::layered::{Layered, LayeredKind};
use std::alloc::AllocError;
use vt_location::{InodeRef, NodeRef};
use vt_upper_overlay::UpperOverlay;

impl Layered {
    /// How many uses of a node are counted: those of one that is kept without a name, and none of others.
    pub fn uses(&self, node: NodeRef) -> u64
        ensures { result ≡ uses_above self.now.above node }
    {
        match &self.kind {
            LayeredKind::Lower(_) => 0,
            LayeredKind::Upper(overlay) => overlay.nodes.kept.uses(node),
        }
    }

    /// Counts one use more of a node, if it is kept without a name. It does not allocate.
    ///
    /// An error says that it has 2^64 - 1 uses.
    pub fn pin(&mut self, node: NodeRef) -> Result<(), AllocError>
        ensures ok { OnOk result (ChangesNodes (IsPinned node) self.old.above self.new.above) }
        ensures layers { self.new.overlay ≡ self.old.overlay }
        ensures limit { IsErr result ↔ (uses_above self.old.above node + 1 ≡ 2 ^ 64) }
        ensures err { OnErr result (self.new ≡ self.old) }
    {
        match &mut self.kind {
            LayeredKind::Lower(_) => Ok(()),
            LayeredKind::Upper(overlay) => overlay.nodes.kept.pin(node),
        }
    }

    /// Takes back one use of a node, if it is kept without a name. With the last the node is forgotten, and so is its
    /// birth. It gives the inode that is to be let go then: the node's object, if that is in the upper layer. It does not
    /// allocate.
    pub fn unpin(&mut self, node: NodeRef) -> Option<InodeRef>
        ensures object { result ≡ let_go_by self.old.overlay self.old.above node }
        ensures unpinned { ChangesNodes (IsUnpinned node) self.old.above self.new.above }
        ensures layers { self.new.overlay ≡ self.old.overlay }
    {
        match &mut self.kind {
            LayeredKind::Lower(_) => None,
            LayeredKind::Upper(overlay) => unpin_above(overlay, node),
        }
    }
}

// The same of an overlay with an upper layer.
fn unpin_above(overlay: &mut UpperOverlay, node: NodeRef) -> Option<InodeRef>
    ensures object { result ≡ node_let_go overlay.old.layers overlay.old.nodes node }
    ensures unpinned { IsUnpinned node overlay.old.nodes overlay.new.nodes }
    ensures others { overlay.new ≡ record overlay.old { nodes = overlay.new.nodes } }
{
    let slot = overlay.nodes.unpin(node)?;
    let top = overlay.layers().first()?;
    Some(InodeRef {
        filesystem: top.directory.filesystem,
        slot,
    })
}
