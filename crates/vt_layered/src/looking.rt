//! What is looked at in an overlay of either kind.
ghost use Rattle.std.specs.Prelude.{◌≡◌, ◌<◌, [], IfOk, IfSome, IsOk, IsSome, Some, length, map, nat_eq, not, option_copied, option_map};
ghost use Rattle.vt_spec.specs.FileTree.{is_directory_under, is_removed, path_down};
ghost use Rattle.vt_spec.specs.Lists.{is_empty_list, when};
ghost use Rattle.vt_spec.specs.Tree.{entries_in, entry_named, is_directory_node, names_in, parent_in};
ghost use Rattle.vt_location.specs.Locations.{number_of};
ghost use Rattle.vt_fs.specs.FilesystemsValue.{Filesystems as Trees};
ghost use Rattle.vt_layered.specs.LayeredTree.{StandsLayered, layered_files, layered_lent};

use crate::layered::{Layered, LayeredKind};
use std::alloc::{AllocError, Global};
use vt_fs::Filesystems;
use vt_location::NodeRef;
use vt_node::Node;
use vt_overlay::Entry;

impl Layered {
    /// The root: the directory of the highest layer.
    pub fn root(&self) -> Option<NodeRef>
        ensures root { (trees : Trees) → StandsLayered trees self.now.overlay self.now.above → IfSome result (λ root.
            number_of root ≡ (layered_files trees self.now.overlay self.now.above).tree.root) }
        ensures own { (trees : Trees) → StandsLayered trees self.now.overlay self.now.above
            → IfSome result (λ root. root.filesystem ≡ self.now.overlay.number) }
        ensures some { 0 < length self.now.overlay.lowers → IsSome result }
    {
        match &self.kind {
            LayeredKind::Lower(overlay) => overlay.root(),
            LayeredKind::Upper(overlay) => overlay.root(),
        }
    }

    /// The inode of the real object of a node, if it is there. Owner, group, mode, kind and content are the node's;
    /// entries and the parent are those of one layer. It does not allocate.
    pub fn object<'a>(&self, trees: &'a Filesystems, node: NodeRef) -> Option<&'a Node>
        requires standing { StandsLayered trees.now self.now.overlay self.now.above }
        requires own { node.filesystem ≡ self.now.overlay.number }
        ensures { option_copied result ≡ layered_lent trees.now self.now.overlay self.now.above (number_of node) }
    {
        match &self.kind {
            LayeredKind::Lower(overlay) => overlay.inode(trees, node),
            LayeredKind::Upper(overlay) => overlay.object(trees, node),
        }
    }

    /// As `object`, of a node that is there: then it is known where.
    pub fn object_there<'a>(&self, trees: &'a Filesystems, node: NodeRef) -> Option<&'a Node>
        requires standing { StandsLayered trees.now self.now.overlay self.now.above }
        requires own { node.filesystem ≡ self.now.overlay.number }
        requires there { IsSome (layered_lent trees.now self.now.overlay self.now.above (number_of node)) }
        ensures { option_copied result ≡ layered_lent trees.now self.now.overlay self.now.above (number_of node) }
    {
        match &self.kind {
            LayeredKind::Lower(overlay) => overlay.inode_shown(trees, node),
            LayeredKind::Upper(overlay) => overlay.object_there(trees, node),
        }
    }

    /// What a name of a node that is there leads to; what is no directory, or has no name itself, has no names. It does
    /// not allocate. Where the highest layer with the directory has the name, no way is looked for.
    pub fn entry<'a>(&self, trees: &'a Filesystems, node: NodeRef, name: &[u8]) -> Option<Entry<'a>>
        requires standing { StandsLayered trees.now self.now.overlay self.now.above }
        requires own { node.filesystem ≡ self.now.overlay.number }
        requires there { IsSome (layered_lent trees.now self.now.overlay self.now.above (number_of node)) }
        ensures node { option_map (λ entry. number_of entry.node) result ≡ entry_named name.now
            (entries_in ((layered_files trees.now self.now.overlay self.now.above).tree.node (number_of node))) }
        ensures object { IfSome result (λ entry. option_copied entry.object
            ≡ layered_lent trees.now self.now.overlay self.now.above (number_of entry.node)) }
    {
        match &self.kind {
            LayeredKind::Lower(overlay) => overlay.entry(trees, node, name),
            LayeredKind::Upper(overlay) => overlay.entry(trees, node, name),
        }
    }

    /// The parent of a directory; the root is its own, and so is what has no name. It does not allocate.
    pub fn parent(&self, trees: &Filesystems, node: NodeRef) -> Option<NodeRef>
        requires standing { StandsLayered trees.now self.now.overlay self.now.above }
        requires own { node.filesystem ≡ self.now.overlay.number }
        ensures { option_map number_of result ≡ when
            (is_directory_node ((layered_files trees.now self.now.overlay self.now.above).tree.node (number_of node)))
            (parent_in (number_of node)
            ((layered_files trees.now self.now.overlay self.now.above).tree.node (number_of node))) }
    {
        match &self.kind {
            LayeredKind::Lower(overlay) => overlay.parent(trees, node),
            LayeredKind::Upper(overlay) => overlay.parent(trees, node),
        }
    }

    /// Whether a directory has entries: ENOTEMPTY of rmdir(2). What is no directory has none. It does not allocate.
    pub fn is_nonempty(&self, trees: &Filesystems, node: NodeRef) -> bool
        requires standing { StandsLayered trees.now self.now.overlay self.now.above }
        requires own { node.filesystem ≡ self.now.overlay.number }
        ensures { result ≡ not (is_empty_list
            (entries_in ((layered_files trees.now self.now.overlay self.now.above).tree.node (number_of node)))) }
    {
        match &self.kind {
            LayeredKind::Lower(overlay) => overlay.is_nonempty(trees, node),
            LayeredKind::Upper(overlay) => overlay.is_nonempty(trees, node),
        }
    }

    /// The names of a directory, in the order of their bytes: readdir(3). What is no directory has none.
    ///
    /// It fails only if an allocation does, and an empty list needs none.
    pub fn names(
        &self,
        alloc: Global,
        trees: &Filesystems,
        node: NodeRef,
    ) -> Result<Vec<Vec<u8>>, AllocError>
        requires standing { StandsLayered trees.now self.now.overlay self.now.above }
        requires own { node.filesystem ≡ self.now.overlay.number }
        ensures ok { IfOk result (λ names. map (λ name. name.items) names.items
            ≡ names_in ((layered_files trees.now self.now.overlay self.now.above).tree.node (number_of node))) }
        ensures empty { entries_in ((layered_files trees.now self.now.overlay self.now.above).tree.node (number_of node)) ≡ []
            → IsOk result }
    {
        match &self.kind {
            LayeredKind::Lower(overlay) => overlay.names(alloc, trees, node),
            LayeredKind::Upper(overlay) => overlay.names(alloc, trees, node),
        }
    }

    /// Whether a directory other than the root has no name; what is no directory counts as removed. It does not
    /// allocate.
    pub fn is_removed(&self, trees: &Filesystems, directory: NodeRef) -> bool
        requires standing { StandsLayered trees.now self.now.overlay self.now.above }
        requires own { directory.filesystem ≡ self.now.overlay.number }
        ensures { result ≡ is_removed nat_eq (layered_files trees.now self.now.overlay self.now.above).tree
            (number_of directory) }
    {
        match &self.kind {
            LayeredKind::Lower(overlay) => overlay.is_removed(trees, directory),
            LayeredKind::Upper(overlay) => overlay.is_removed(trees, directory),
        }
    }

    /// Whether a directory is another one, or lies under it: the way to that one begins its own. It does not allocate.
    pub fn is_under(&self, trees: &Filesystems, top: NodeRef, directory: NodeRef) -> bool
        requires standing { StandsLayered trees.now self.now.overlay self.now.above }
        requires own { directory.filesystem ≡ self.now.overlay.number }
        requires one_filesystem { top.filesystem ≡ self.now.overlay.number }
        ensures { result ≡ is_directory_under nat_eq (layered_files trees.now self.now.overlay self.now.above)
            (number_of top) (number_of directory) }
    {
        match &self.kind {
            LayeredKind::Lower(overlay) => overlay.is_under(trees, top, directory),
            LayeredKind::Upper(overlay) => overlay.is_under(trees, top, directory),
        }
    }

    /// The names that lead from a directory down to another, if that one lies under it. It fails only if an allocation
    /// does.
    pub fn path_down(
        &self,
        alloc: Global,
        trees: &Filesystems,
        top: NodeRef,
        directory: NodeRef,
    ) -> Result<Option<Vec<Vec<u8>>>, AllocError>
        requires standing { StandsLayered trees.now self.now.overlay self.now.above }
        requires own { directory.filesystem ≡ self.now.overlay.number }
        requires one_filesystem { top.filesystem ≡ self.now.overlay.number }
        ensures { IfOk result (λ path. option_map (λ names. map (λ name. name.items) names.items) path
            ≡ path_down nat_eq (layered_files trees.now self.now.overlay self.now.above) (number_of top)
            (number_of directory)) }
    {
        match &self.kind {
            LayeredKind::Lower(overlay) => overlay.path_down(alloc, trees, top, directory),
            LayeredKind::Upper(overlay) => overlay.path_down(alloc, trees, top, directory),
        }
    }
}
