//! Entries of the directories of one tree, by the numbers of inodes.
ghost use Rattle.std.specs.Prelude.{◌≡◌, IfSome, None, Some, if◌then◌else◌, option_copied, option_map};
ghost use Rattle.vt_spec.specs.Machine.Views.{hides};
ghost use Rattle.vt_spec.specs.FileTree.{is_kind_in};
ghost use Rattle.vt_spec.specs.declared.attributes.Kind.TheVariants.{White};
ghost use Rattle.vt_spec.specs.Tree.{is_directory_node};
ghost use Rattle.vt_spec.specs.TreeInvariant.{entry_at};
ghost use Rattle.vt_location.specs.Locations.{inode_of};
ghost use Rattle.vt_location.specs.Numbers.{exchanged};
ghost use Rattle.vt_fs.specs.FilesystemsValue.{files_at, node_seen};
ghost use Rattle.vt_overlay.specs.Merge.LayerValue.{tree_seen};

use crate::merge::layers::MergedDirectory;
use vt_fs::{Filesystems, Tree};
use vt_location::InodeRef;
use vt_node::{Kind, Node, NodeId};

/// The number of an inode in the tree of its filesystem.
pub fn slot_of(inode: InodeRef) -> NodeId
    ensures value { result ≡ inode.slot }
    ensures number { exchanged inode.filesystem.count result ≡ inode_of inode }
{
    inode.node()
}

// The inode of this number in the tree of the filesystem of another one.
fn beside(inode: InodeRef, slot: NodeId) -> InodeRef
    ensures value { result ≡ record { filesystem = inode.filesystem; slot = slot } }
    ensures number { inode_of result ≡ exchanged inode.filesystem.count slot }
{
    InodeRef::new(inode.filesystem, NodeId::new(slot.index()))
}

// The node of an inode, in the tree of its filesystem.
fn node(tree: Option<&Tree>, inode: InodeRef) -> Option<&Node>
    ensures { option_map (node_seen inode.filesystem.count) (option_copied result)
        ≡ (tree_seen inode.filesystem.count (option_copied tree.entry)).node (inode_of inode) }
{
    tree?.node(slot_of(inode))
}

// The inode to which an entry of a directory leads.
pub(crate) fn entry(tree: Option<&Tree>, directory: InodeRef, name: &[u8]) -> Option<InodeRef>
    ensures number { option_map inode_of result
        ≡ entry_at (tree_seen directory.filesystem.count (option_copied tree.entry)) (inode_of directory) name.now }
    ensures filesystem { IfSome result (λ object. object.filesystem ≡ directory.filesystem) }
{
    let slot = tree?.node(slot_of(directory))?.entry(name)?;
    Some(beside(directory, slot))
}

// Whether it hides what lower layers have there and under it.
pub(crate) fn hides(tree: Option<&Tree>, inode: InodeRef) -> bool
    ensures { result ≡ hides ((tree_seen inode.filesystem.count (option_copied tree.entry)).node (inode_of inode)) }
{
    match node(tree, inode) {
        Some(node) => !node.is_directory() || node.is_opaque(),
        None => false,
    }
}

// It, with the place of its layer, if it is a directory.
pub(crate) fn directory_at(
    tree: Option<&Tree>,
    layer: usize,
    inode: InodeRef,
) -> Option<MergedDirectory>
    ensures { result
        ≡ (if is_directory_node ((tree_seen inode.filesystem.count (option_copied tree.entry)).node (inode_of inode))
        then Some (record { layer = layer; directory = inode }) else None) }
{
    match node(tree, inode) {
        Some(node) if node.is_directory() => Some(MergedDirectory {
            layer,
            directory: inode,
        }),
        _ => None,
    }
}

/// Whether it is a whiteout.
pub fn is_whiteout(trees: &Filesystems, inode: InodeRef) -> bool
    ensures { result
        ≡ is_kind_in White ((files_at trees.now inode.filesystem.count).tree.node (inode_of inode)) }
{
    match trees.node(inode.node_ref()) {
        Some(node) => node.kind() == Kind::White,
        None => false,
    }
}
