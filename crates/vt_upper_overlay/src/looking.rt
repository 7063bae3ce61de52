//! What is looked at in an overlay with an upper layer.
ghost use Rattle.std.specs.Prelude.{◌≡◌, ◌<◌, ◌^◌, [], IfOk, IfSome, IsOk, IsSome, Some, is_some, length, map, nat_eq, nat_lt, not, option_copied, option_map, true, ℕ};
ghost use Rattle.vt_spec.specs.FileTree.{is_removed};
ghost use Rattle.vt_spec.specs.Lists.{is_empty_list, then_some, when};
ghost use Rattle.vt_spec.specs.Tree.{entries_in, entry_named, is_directory_node, names_in, parent_in};
ghost use Rattle.vt_location.specs.declared.births.Birth.TheVariants.{Below};
ghost use Rattle.vt_location.specs.Locations.{inode_of, is_small_node, number_of};
ghost use Rattle.vt_location.specs.Numbers.{exchanged};
ghost use Rattle.vt_births.specs.Births.{slot_above};
ghost use Rattle.vt_births.specs.Kept.{is_kept};
ghost use Rattle.vt_fs.specs.FilesystemsValue.{Filesystems as Trees, files_at};
ghost use Rattle.vt_location.specs.Fronts.{front};
ghost use Rattle.vt_overlay.specs.MergedTree as through;
ghost use Rattle.vt_upper_overlay.specs.Lent.{real_lent};
ghost use Rattle.vt_upper_overlay.specs.MergedAbove.{directory_path, merged_above, object_lent};
ghost use Rattle.vt_upper_overlay.specs.Standing.{StandsAbove, is_there};
ghost use Rattle.vt_upper_overlay.specs.UpperValue.{below_upper};

use crate::nodes::inode_in;
use crate::overlay::UpperOverlay;
use std::alloc::{AllocError, Global};
use vt_fs::Filesystems;
use vt_location::{Birth, InodeRef, NodeRef};
use vt_node::Node;
use vt_overlay::{Entry, WayDown, real_of};

impl UpperOverlay {
    /// The root: the upper directory.
    pub fn root(&self) -> Option<NodeRef>
        ensures root { (trees : Trees) → StandsAbove trees self.now
            → IfSome result (λ root. number_of root ≡ (merged_above trees self.now).root) }
        ensures own { (trees : Trees) → StandsAbove trees self.now
            → IfSome result (λ root. root.filesystem ≡ self.now.layers.number) }
        ensures some { 0 < length self.now.layers.lowers → IsSome result }
    {
        let root = self.layers.root()?;
        Some(self.node_for(root.filesystem, root))
    }

    /// The inode of the real object of a node that is there. Owner, group, mode, kind and content are the node's;
    /// entries and the parent are those of one layer. No way is looked for, and it does not allocate.
    pub fn inode<'a>(&self, trees: &'a Filesystems, node: NodeRef) -> Option<&'a Node>
        requires standing { StandsAbove trees.now self.now }
        requires own { node.filesystem ≡ self.now.layers.number }
        requires there { is_there trees.now self.now node ≡ true }
        ensures alike { front (option_copied result) ≡ front ((merged_above trees.now self.now).node (number_of node)) }
        ensures lent { option_copied result ≡ object_lent trees.now self.now node }
    {
        let real = self.real(node)?;
        real_of(trees, real)
    }

    /// The way to a directory of the overlay: the names that lead to it from the root, found by going up in the layer
    /// in which its object is. There is none to a node that is no directory, or that the layers do not show. It does
    /// not allocate.
    pub fn way<'a>(&self, trees: &'a Filesystems, node: NodeRef) -> Option<WayDown<'a>>
        requires standing { StandsAbove trees.now self.now }
        requires own { node.filesystem ≡ self.now.layers.number }
        ensures value { result ≡ directory_path trees.now self.now (number_of node) }
        ensures small { is_small_node node ≡ true }
    {
        let through = self.through(trees, node)?;
        self.layers.way(trees, through)
    }

    /// What a name of a node that is there leads to; what is no directory, or is kept without a name, has no names. It
    /// does not allocate. Where the highest layer with the directory has the name, no way is looked for.
    pub fn entry<'a>(&self, trees: &'a Filesystems, node: NodeRef, name: &[u8]) -> Option<Entry<'a>>
        requires standing { StandsAbove trees.now self.now }
        requires own { node.filesystem ≡ self.now.layers.number }
        requires there { IsSome (real_lent trees.now self.now (number_of node)) }
        ensures node { option_map (λ entry. number_of entry.node) result
            ≡ entry_named name.now (entries_in ((merged_above trees.now self.now).node (number_of node))) }
        ensures object { IfSome result (λ entry.
            option_copied entry.object ≡ object_lent trees.now self.now entry.node) }
        ensures lent { IfSome result (λ entry.
            option_copied entry.object ≡ real_lent trees.now self.now (number_of entry.node)) }
    {
        if !self.is_shown_directory(trees, node) {
            return None;
        }
        let through = self.through(trees, node)?;
        let found = self.layers.entry(trees, through, name)?;
        Some(Entry {
            node: self.node_for(node.filesystem, found.node),
            object: found.object,
        })
    }

    // Whether a node that is there is a directory, and has a way.
    fn is_shown_directory(&self, trees: &Filesystems, node: NodeRef) -> bool
        requires standing { StandsAbove trees.now self.now }
        requires own { node.filesystem ≡ self.now.layers.number }
        requires there { IsSome (real_lent trees.now self.now (number_of node)) }
        ensures { result ≡ is_some (directory_path trees.now self.now (number_of node)) }
    {
        if self.is_kept(node) {
            return false;
        }
        is_directory(self.inode(trees, node))
    }

    /// The parent of a directory; the root is its own, and so is what is kept without a name. It does not allocate.
    pub fn parent(&self, trees: &Filesystems, node: NodeRef) -> Option<NodeRef>
        requires standing { StandsAbove trees.now self.now }
        requires own { node.filesystem ≡ self.now.layers.number }
        ensures { option_map number_of result
            ≡ when (is_directory_node ((merged_above trees.now self.now).node (number_of node)))
            (parent_in (number_of node) ((merged_above trees.now self.now).node (number_of node))) }
    {
        if self.is_kept(node) {
            return self.kept_parent(trees, node);
        }
        let through = self.through(trees, node)?;
        let parent = self.layers.parent(trees, through)?;
        Some(self.node_for(node.filesystem, parent))
    }

    // The same of what is kept without a name.
    fn kept_parent(&self, trees: &Filesystems, node: NodeRef) -> Option<NodeRef>
        requires standing { StandsAbove trees.now self.now }
        requires own { node.filesystem ≡ self.now.layers.number }
        requires kept { is_kept self.now.nodes.kept node ≡ true }
        requires small { is_small_node node ≡ true }
        ensures { option_map number_of result
            ≡ when (is_directory_node ((merged_above trees.now self.now).node (number_of node)))
            (parent_in (number_of node) ((merged_above trees.now self.now).node (number_of node))) }
    {
        if !is_directory(self.inode(trees, node)) {
            return None;
        }
        Some(node)
    }

    /// Whether a directory has entries: ENOTEMPTY of rmdir(2). What is no directory has none. It does not allocate.
    pub fn is_nonempty(&self, trees: &Filesystems, node: NodeRef) -> bool
        requires standing { StandsAbove trees.now self.now }
        requires own { node.filesystem ≡ self.now.layers.number }
        ensures { result
            ≡ not (is_empty_list (entries_in ((merged_above trees.now self.now).node (number_of node)))) }
    {
        match self.through(trees, node) {
            Some(through) => self.layers.is_nonempty(trees, through),
            None => false,
        }
    }

    /// The names of a directory, in the order of their bytes: readdir(3). What is no directory has none.
    ///
    /// It fails only if an allocation does, and an empty list needs none.
    pub fn names(
        &self,
        alloc: Global,
        trees: &Filesystems,
        node: NodeRef,
    ) -> Result<Vec<Vec<u8>>, AllocError>
        requires standing { StandsAbove trees.now self.now }
        requires own { node.filesystem ≡ self.now.layers.number }
        ensures ok { IfOk result (λ names. map (λ name. name.items) names.items
            ≡ names_in ((merged_above trees.now self.now).node (number_of node))) }
        ensures empty { entries_in ((merged_above trees.now self.now).node (number_of node)) ≡ [] → IsOk result }
    {
        match self.through(trees, node) {
            Some(through) => self.layers.names(alloc, trees, through),
            None => Ok(Vec::new(alloc)),
        }
    }

    /// Whether a directory other than the root has no name; what is no directory counts as removed. It does not
    /// allocate.
    pub fn is_removed(&self, trees: &Filesystems, directory: NodeRef) -> bool
        requires standing { StandsAbove trees.now self.now }
        requires own { directory.filesystem ≡ self.now.layers.number }
        ensures { result ≡ is_removed nat_eq (merged_above trees.now self.now) (number_of directory) }
    {
        self.way(trees, directory).is_none()
    }

    // The directory that a node is if the upper layer is looked through as the highest lower one: it has the same way.
    pub(crate) fn through(&self, trees: &Filesystems, node: NodeRef) -> Option<NodeRef>
        requires standing { StandsAbove trees.now self.now }
        requires own { node.filesystem ≡ self.now.layers.number }
        ensures ways { then_some (option_map number_of result) (through.directory_path trees.now self.now.layers)
            ≡ directory_path trees.now self.now (number_of node) }
        ensures own { IfSome result (λ through. through.filesystem ≡ self.now.layers.number) }
        ensures small { is_small_node node ≡ true }
    {
        match self.nodes.births.slot_above(node) {
            Some(slot) => self.through_upper(trees, node, slot),
            None => below_upper(node),
        }
    }

    // The same of a node that has its object in a slot of the upper layer, if this is no other node's.
    fn through_upper(&self, trees: &Filesystems, node: NodeRef, slot: usize) -> Option<NodeRef>
        requires standing { StandsAbove trees.now self.now }
        requires own { node.filesystem ≡ self.now.layers.number }
        requires slot { slot_above self.now.nodes.births node ≡ Some slot }
        ensures ways { then_some (option_map number_of result) (through.directory_path trees.now self.now.layers)
            ≡ directory_path trees.now self.now (number_of node) }
        ensures own { IfSome result (λ through. through.filesystem ≡ self.now.layers.number) }
        ensures small { is_small_node node ≡ true }
    {
        if !self.is_node_above(node, slot) {
            return None;
        }
        let filesystem = node.filesystem;
        let upper = self.upper();
        if slot == upper.directory.slot {
            return Some(NodeRef {
                filesystem,
                slot,
                birth: Birth::Here,
            });
        }
        let directory = parent_slot(trees, inode_in(upper, slot))?;
        Some(NodeRef {
            filesystem,
            slot,
            birth: born_in_upper(directory),
        })
    }
}

// Whether an inode is there, and is a directory.
fn is_directory(node: Option<&Node>) -> bool
    ensures { result ≡ is_directory_node (option_copied node.entry) }
{
    match node {
        Some(node) => node.is_directory(),
        None => false,
    }
}

// A node that was born in a lower layer, where the upper layer is the highest lower one.
pub(crate) fn below_upper(node: NodeRef) -> Option<NodeRef>
    ensures value { result ≡ below_upper node node.birth }
    ensures small { is_small_node node ≡ true }
{
    match node.birth {
        Birth::Here => None,
        Birth::Below {
            layer,
            directory,
            rank,
        } => Some(NodeRef {
            filesystem: node.filesystem,
            slot: node.slot,
            birth: Birth::Below {
                layer: layer.checked_add(1)?,
                directory,
                rank,
            },
        }),
    }
}

// The birth of a directory of the upper layer, where that is the highest lower one.
fn born_in_upper(directory: usize) -> Birth
    ensures value { result ≡ Below 0 directory 0 }
    ensures small { nat_lt directory (2 ^ 64) ≡ true }
{
    Birth::Below {
        layer: 0,
        directory,
        rank: 0,
    }
}

// The slot of the parent of a directory; of anything else its own.
fn parent_slot(trees: &Filesystems, inode: InodeRef) -> Option<usize>
    ensures { option_map (exchanged inode.filesystem.count) result
        ≡ option_map (λ node. parent_in (inode_of inode) (Some node))
        ((files_at trees.now inode.filesystem.count).tree.node (inode_of inode)) }
{
    let node = trees.node(inode.node_ref())?;
    Some(node.parent(inode.node()).index())
}
