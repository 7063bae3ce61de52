//! The last name of a node: unlink(2), rmdir(2). A node with its object in a lower layer has one name, under which it was
//! born. One with its object in the upper layer has a name for each entry to that in a directory that is shown.
ghost use Rattle.std.specs.Prelude.{◌≡◌, ◌++◌, ◌∷◌, [], is_some, List, true, ℕ};
ghost use Rattle.std.specs.List.{list_any};
ghost use Rattle.vt_spec.specs.Tree.{entries_in};
ghost use Rattle.vt_births.specs.Births.{node_above};
ghost use Rattle.vt_fs.specs.FilesystemsValue.{files_at};
ghost use Rattle.vt_upper.specs.LastName.{IsNameAt, IsToldLast, first_rank, is_other_name};
ghost use Rattle.vt_location.specs.Locations.{inode_of, is_small_node, number_of};
ghost use Rattle.vt_location.specs.Numbers.{exchanged};
ghost use Rattle.vt_node.specs.Ranks.{name_ranked};
ghost use Rattle.vt_upper_overlay.specs.MergedAbove.{directory_path};
ghost use Rattle.vt_upper_overlay.specs.Standing.{StandsAbove};

use vt_fs::Filesystems;
use vt_location::{FilesystemId, InodeRef, NodeRef};
use vt_node::NodeId;
use vt_upper_overlay::UpperOverlay;

/// Whether the name of a node in a directory that is shown is its last one: no other path shows the node. It looks only into
/// those directories of the upper layer that its tree lists for the node's object. It does not allocate.
pub fn is_last_name(
    trees: &Filesystems,
    overlay: &UpperOverlay,
    directory: NodeRef,
    node: NodeRef,
) -> bool
    requires standing { StandsAbove trees.now overlay.now }
    requires own { directory.filesystem ≡ overlay.now.layers.number }
    ensures told { (path : List (List ℕ)) (name : List ℕ) → IsNameAt trees.now overlay.now directory node path name
        → IsToldLast result trees.now overlay.now (number_of node) (path ++ name ∷ []) }
    ensures small { is_small_node node ≡ true }
{
    let Some(slot) = overlay.nodes.births.slot_above(node) else {
        return true;
    };
    let filesystem = overlay.upper().directory.filesystem;
    !has_other_name(trees, overlay, InodeRef { filesystem, slot }, directory)
}

// Whether directories of the upper layer that are shown have a name for an inode of its tree, beside one name of this
// directory.
fn has_other_name(
    trees: &Filesystems,
    overlay: &UpperOverlay,
    inode: InodeRef,
    directory: NodeRef,
) -> bool
    requires standing { StandsAbove trees.now overlay.now }
    requires own { directory.filesystem ≡ overlay.now.layers.number }
    ensures { result ≡ list_any (is_other_name trees.now overlay.now inode directory)
        (files_at trees.now inode.filesystem.count).numbers }
{
    let Some(tree) = trees.get(inode.filesystem) else {
        return false;
    };
    let directories = tree.directories_of(inode.node());
    directories.iter().any(|other| has_other_name_in(trees, overlay, inode, directory, *other))
}

// Whether a directory of the upper layer is shown, and has such a name.
fn has_other_name_in(
    trees: &Filesystems,
    overlay: &UpperOverlay,
    inode: InodeRef,
    directory: NodeRef,
    other: NodeId,
) -> bool
    requires standing { StandsAbove trees.now overlay.now }
    requires own { directory.filesystem ≡ overlay.now.layers.number }
    ensures { result ≡ is_other_name trees.now overlay.now inode directory
        (exchanged inode.filesystem.count other) }
{
    let filesystem = inode.filesystem;
    let slot = other.index();
    let rank = first_rank(overlay, directory, slot);
    has_name_ranked(trees, InodeRef { filesystem, slot }, inode, rank)
        && shows_directory(trees, overlay, directory.filesystem, slot)
}

// The rank from which the names of the directory in a slot of the upper layer count: one name of this directory does not.
fn first_rank(overlay: &UpperOverlay, directory: NodeRef, slot: usize) -> usize
    ensures { result ≡ first_rank overlay.now directory slot }
{
    match overlay.nodes.births.slot_above(directory) {
        Some(above) if slot == above => 1,
        _ => 0,
    }
}

// Whether a directory has a name of a rank for an inode of its filesystem.
fn has_name_ranked(trees: &Filesystems, directory: InodeRef, file: InodeRef, rank: usize) -> bool
    requires { directory.filesystem ≡ file.filesystem }
    ensures { result ≡ is_some (name_ranked (entries_in
        ((files_at trees.now file.filesystem.count).tree.node (inode_of directory))) (inode_of file) rank) }
{
    match trees.node(directory.node_ref()) {
        Some(node) => node.name_ranked(file.node(), rank).is_some(),
        None => false,
    }
}

// Whether a directory in a slot of the upper layer is shown.
fn shows_directory(
    trees: &Filesystems,
    overlay: &UpperOverlay,
    filesystem: FilesystemId,
    slot: usize,
) -> bool
    requires standing { StandsAbove trees.now overlay.now }
    requires own { filesystem ≡ overlay.now.layers.number }
    ensures { result ≡ is_some (directory_path trees.now overlay.now
        (number_of (node_above overlay.now.nodes.births overlay.now.layers.number slot))) }
{
    let node = overlay.nodes.births.node_above(filesystem, slot);
    overlay.way(trees, node).is_some()
}
