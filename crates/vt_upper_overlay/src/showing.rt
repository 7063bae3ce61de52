//! Which nodes are there in an overlay with an upper layer.
ghost use Rattle.std.specs.Prelude.{◌≡◌, IsSome, None, Some, is_some, nat_eq, option_copied, true, ℕ};
ghost use Rattle.std.specs.List.{list_any};
ghost use Rattle.vt_spec.specs.declared.attributes.Kind.TheVariants.{White};
ghost use Rattle.vt_spec.specs.FileTree.{is_kind_in};
ghost use Rattle.vt_location.specs.Locations.{inode_of, is_small_node, number_of};
ghost use Rattle.vt_location.specs.Numbers.{exchanged};
ghost use Rattle.vt_births.specs.Births.{node_above, slot_above};
ghost use Rattle.vt_fs.specs.FilesystemsValue.{files_at, node_seen};
ghost use Rattle.vt_upper_overlay.specs.Lent.{is_shown_name, real_lent};
ghost use Rattle.vt_upper_overlay.specs.MergedAbove.{directory_path, object_shown};
ghost use Rattle.vt_upper_overlay.specs.Standing.{StandsAbove, is_there};

use crate::looking::below_upper;
use crate::names::has_name;
use crate::nodes::inode_in;
use crate::overlay::UpperOverlay;
use vt_fs::Filesystems;
use vt_location::{FilesystemId, InodeRef, NodeRef};
use vt_node::{Kind, Node, NodeId};
use vt_overlay::real_of;

impl UpperOverlay {
    /// The inode of the real object of any node: `inode` of one that is there, and none of others. It does not allocate.
    pub fn object<'a>(&self, trees: &'a Filesystems, node: NodeRef) -> Option<&'a Node>
        requires standing { StandsAbove trees.now self.now }
        requires own { node.filesystem ≡ self.now.layers.number }
        ensures { option_copied result ≡ real_lent trees.now self.now (number_of node) }
    {
        if self.is_there(trees, node) {
            self.inode(trees, node)
        } else {
            None
        }
    }

    /// As `object`, of a node that is there: then it is known where.
    pub fn object_there<'a>(&self, trees: &'a Filesystems, node: NodeRef) -> Option<&'a Node>
        requires standing { StandsAbove trees.now self.now }
        requires own { node.filesystem ≡ self.now.layers.number }
        requires there { IsSome (real_lent trees.now self.now (number_of node)) }
        ensures { option_copied result ≡ real_lent trees.now self.now (number_of node) }
    {
        let real = self.real(node)?;
        real_of(trees, real)
    }

    /// Whether a node is there: the layers show it, or it is kept without a name. A directory that is shown has a way. A
    /// file is looked for where it was born, or in each directory of the upper layer that has a name for it. It does not
    /// allocate.
    pub fn is_there(&self, trees: &Filesystems, node: NodeRef) -> bool
        requires standing { StandsAbove trees.now self.now }
        requires own { node.filesystem ≡ self.now.layers.number }
        ensures value { result ≡ is_there trees.now self.now node }
        ensures small { is_small_node node ≡ true }
    {
        self.is_kept(node) || self.shows(trees, node)
    }

    // Whether the layers show a node.
    fn shows(&self, trees: &Filesystems, node: NodeRef) -> bool
        requires standing { StandsAbove trees.now self.now }
        requires own { node.filesystem ≡ self.now.layers.number }
        ensures { result ≡ is_some (object_shown trees.now self.now (number_of node)) }
    {
        match self.nodes.births.slot_above(node) {
            Some(slot) => self.shows_slot(trees, node, slot),
            None => self.shows_below(trees, node),
        }
    }

    // Whether they show a node that has its object where it was born, in a lower layer.
    fn shows_below(&self, trees: &Filesystems, node: NodeRef) -> bool
        requires standing { StandsAbove trees.now self.now }
        requires own { node.filesystem ≡ self.now.layers.number }
        requires slot { slot_above self.now.nodes.births node ≡ None }
        ensures { result ≡ is_some (object_shown trees.now self.now (number_of node)) }
    {
        match below_upper(node) {
            Some(through) => self.layers.object(trees, through).is_some(),
            None => false,
        }
    }

    // Whether they show a node that would have its object in a slot of the upper layer, if this is no other node's.
    fn shows_slot(&self, trees: &Filesystems, node: NodeRef, slot: usize) -> bool
        requires standing { StandsAbove trees.now self.now }
        requires own { node.filesystem ≡ self.now.layers.number }
        requires slot { slot_above self.now.nodes.births node ≡ Some slot }
        ensures { result ≡ is_some (object_shown trees.now self.now (number_of node)) }
    {
        self.is_node_above(node, slot) && self.shows_above(trees, node, slot)
    }

    // Whether they show a node that has its object in a slot of the upper layer.
    fn shows_above(&self, trees: &Filesystems, node: NodeRef, slot: usize) -> bool
        requires standing { StandsAbove trees.now self.now }
        requires own { node.filesystem ≡ self.now.layers.number }
        requires slot { slot_above self.now.nodes.births node ≡ Some slot }
        requires same { nat_eq (number_of (node_above self.now.nodes.births node.filesystem slot)) (number_of node)
            ≡ true }
        requires small { is_small_node node ≡ true }
        ensures { result ≡ is_some (object_shown trees.now self.now (number_of node)) }
    {
        let inode = inode_in(self.upper(), slot);
        let Some(object) = trees.node(inode.node_ref()) else {
            return false;
        };
        if object.is_directory() {
            return self.way(trees, node).is_some();
        }
        !is_white(object) && self.shows_name(trees, node.filesystem, inode)
    }

    // Whether a directory that is shown has a name for an inode of its tree, the upper layer's.
    fn shows_name(&self, trees: &Filesystems, overlay: FilesystemId, inode: InodeRef) -> bool
        requires standing { StandsAbove trees.now self.now }
        requires own { overlay ≡ self.now.layers.number }
        ensures { result ≡ list_any (is_shown_name trees.now self.now inode.filesystem.count (inode_of inode))
            (files_at trees.now inode.filesystem.count).numbers }
    {
        let Some(tree) = trees.get(inode.filesystem) else {
            return false;
        };
        let directories = tree.directories_of(inode.node());
        directories.iter().any(|directory| self.shows_name_in(trees, overlay, inode, *directory))
    }

    // Whether a directory is shown, and has a name for an inode of its tree.
    fn shows_name_in(
        &self,
        trees: &Filesystems,
        overlay: FilesystemId,
        inode: InodeRef,
        directory: NodeId,
    ) -> bool
        requires standing { StandsAbove trees.now self.now }
        requires own { overlay ≡ self.now.layers.number }
        ensures { result ≡ is_shown_name trees.now self.now inode.filesystem.count (inode_of inode)
            (exchanged inode.filesystem.count directory) }
    {
        let filesystem = inode.filesystem;
        let slot = directory.index();
        has_name(trees, InodeRef { filesystem, slot }, inode)
            && self.shows_directory(trees, overlay, slot)
    }

    // Whether a directory in a slot of the upper layer is shown.
    fn shows_directory(&self, trees: &Filesystems, overlay: FilesystemId, slot: usize) -> bool
        requires standing { StandsAbove trees.now self.now }
        requires own { overlay ≡ self.now.layers.number }
        ensures { result ≡ is_some (directory_path trees.now self.now
            (number_of (node_above self.now.nodes.births self.now.layers.number slot))) }
    {
        let node = self.nodes.births.node_above(overlay, slot);
        self.way(trees, node).is_some()
    }
}

// Whether an inode is a whiteout.
fn is_white(node: &Node) -> bool
    ensures { (filesystem : ℕ) → result ≡ is_kind_in White (Some (node_seen filesystem node.now)) }
{
    node.kind() == Kind::White
}
