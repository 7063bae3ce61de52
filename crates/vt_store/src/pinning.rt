//! Uses of nodes, which keep them without a name: open(2), close(2). They are counted exactly: of an inode of a plain
//! filesystem all, of a node of an overlay those of one that is kept without a name.
ghost use Rattle.std.specs.Prelude.{◌≡◌, ◌↔◌, IsErr, OnErr, OnOk};
ghost use Rattle.vt_location.specs.Numbers.{most_counted};
ghost use Rattle.vt_store.specs.Pins.{Pins, Unpins, node_uses};

use crate::store::Store;
use std::alloc::AllocError;
use vt_location::NodeRef;

impl Store {
    /// How many uses of a node are counted. In an overlay these are those of a node that is kept without a name, and none
    /// of others.
    pub fn uses(&self, node: NodeRef) -> u64
        ensures { result ≡ node_uses self.now node }
    {
        match self.overlays.get(node.filesystem) {
            Some(overlay) => overlay.uses(node),
            None => self.plain.uses(node),
        }
    }

    /// Counts one use more of a node: of the inode that it is in a plain filesystem; in an overlay, if it is kept without a
    /// name. It does not allocate.
    ///
    /// An error says that it has 2^64 - 1 uses.
    pub fn pin(&mut self, node: NodeRef) -> Result<(), AllocError>
        ensures ok { OnOk result (Pins node self.old self.new) }
        ensures limit { IsErr result ↔ (node_uses self.old node ≡ most_counted) }
        ensures err { OnErr result (self.new ≡ self.old) }
    {
        if self.overlays.get(node.filesystem).is_some() {
            self.overlays.pin(node)
        } else {
            self.plain.pin(node)
        }
    }

    /// Takes back one use of a node that `pin` counted. An inode is freed with its last use. A node of an overlay that is kept
    /// without a name is forgotten with its last use, and so is its birth; its object in the upper layer, if it has one, is
    /// used once less then. It does not allocate.
    pub fn unpin(&mut self, node: NodeRef)
        ensures { Unpins node self.old self.new }
    {
        if self.overlays.get(node.filesystem).is_none() {
            self.plain.unpin(node);
            return;
        }
        if let Some(object) = self.overlays.unpin(node) {
            self.plain.unpin(object.node_ref());
        }
    }
}
