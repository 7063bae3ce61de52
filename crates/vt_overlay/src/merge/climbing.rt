//! The way from one directory of a tree down to another, found by going up from that one.
ghost use Rattle.std.specs.Prelude.{◌≡◌, ◌≢◌, ◌++◌, ◌∷◌, [], IfSome, List, None, Some, ℕ, option_copied};
ghost use Rattle.vt_spec.specs.Machine.Layers.{at_path};
ghost use Rattle.vt_spec.specs.Tree.{is_directory_node};
ghost use Rattle.vt_spec.specs.TreeInvariant.{IsDirectory, IsTree, led};
ghost use Rattle.vt_location.specs.Locations.{inode_of};
ghost use Rattle.vt_location.specs.Numbers.{exchanged};
ghost use Rattle.vt_fs.specs.Trees.Paths.{NamesDirectoriesOnce};
ghost use Rattle.vt_fs.specs.Trees.TreeValue.{tree_of};
ghost use Rattle.vt_fs.specs.FilesystemsValue.{files_at};
ghost use Rattle.vt_overlay.specs.Merge.Climbed.{climbed, name_up};
ghost use Rattle.vt_overlay.specs.Merge.LayerValue.{opened, tree_seen};

use crate::merge::entries::slot_of;
use crate::merge::ways::Way;
use std::marker::Model;
use vt_fs::{Filesystems, Tree};
use vt_location::{FilesystemId, InodeRef};
use vt_node::NodeId;

/// The way from a directory of a tree down to another. No list of its names is made: each is found by going up from the
/// lower directory.
#[derive(Debug, Drop)]
pub struct WayDown<'a> {
    tree: &'a Tree,
    directory: NodeId,
    len: usize,
}

impl<'a> Model for WayDown<'a> {
    ghost use Rattle.std.specs.Prelude.{List, ℕ};
    ghost use Rattle.vt_fs.specs.Trees.TreeValue.{tree_of};
    ghost use Rattle.vt_overlay.specs.Merge.Climbed.{IsWay, names_up};

    ghost Value = { List (List ℕ) };

    ghost view = { λ way. names_up (tree_of way.tree.now) way.len way.directory };

    ghost invariant = { λ way. IsWay (tree_of way.tree.now) way.len way.directory };
}

impl<'a> WayDown<'a> {
    /// The path to a name of the directory.
    pub fn under(&'a self, name: &'a [u8]) -> Under<'a>
        ensures { result ≡ self.now ++ name.now ∷ [] }
    {
        Under {
            above: self,
            name,
            len: self.len + 1,
        }
    }
}

impl<'a> Way for WayDown<'a> {
    ghost names = { λ way. way };

    fn len(&self) -> usize {
        self.len
    }

    fn name(&self, index: usize) -> &[u8] {
        match name_climbed(self.tree, self.directory, self.len - 1 - index) {
            Some(name) => name,
            None => unreachable!(),
        }
    }
}

/// The way down to a directory of a tree, and a name of it.
#[derive(Debug, Drop)]
pub struct Under<'a> {
    above: &'a WayDown<'a>,
    name: &'a [u8],
    len: usize,
}

impl<'a> Model for Under<'a> {
    ghost use Rattle.std.specs.Prelude.{List, [], length, ℕ, ◌++◌, ◌+◌, ◌∷◌, ◌≡◌};

    ghost Value = { List (List ℕ) };

    ghost view = { λ path. path.above.now ++ path.name.now ∷ [] };

    ghost invariant = { λ path. path.len ≡ length path.above.now + 1 };
}

impl<'a> Way for Under<'a> {
    ghost names = { λ path. path };

    fn len(&self) -> usize {
        self.len
    }

    fn name(&self, index: usize) -> &[u8] {
        if index < self.above.len() {
            self.above.name(index)
        } else {
            self.name
        }
    }
}

// The name of the directory so many steps up.
fn name_climbed(tree: &Tree, directory: NodeId, steps: usize) -> Option<&[u8]>
    requires { NamesDirectoriesOnce (tree_of tree.now) }
    ensures { option_copied result
        ≡ name_up (tree_of tree.now) (climbed (tree_of tree.now) steps directory) }
{
    let mut here = directory;
    for _step in 0..steps {
        here = tree.parent(here);
    }
    name_above(tree, here)
}

// The name of a directory in its parent.
fn name_above(tree: &Tree, directory: NodeId) -> Option<&[u8]>
    requires { NamesDirectoriesOnce (tree_of tree.now) }
    ensures { option_copied result ≡ name_up (tree_of tree.now) directory }
{
    tree.node(tree.parent(directory))?.name_of(directory)
}

/// The way from a directory down to another one of its filesystem, if that is a directory and lies under it. It does not
/// allocate.
pub fn way_down<'a>(
    trees: &'a Filesystems,
    top: InodeRef,
    directory: InodeRef,
) -> Option<WayDown<'a>>
    requires tree { IsTree (files_at trees.now top.filesystem.count).tree }
    requires one_filesystem { directory.filesystem ≡ top.filesystem }
    ensures leads { IfSome result (λ way. at_path (opened trees.now top) way ≡ Some (inode_of directory)) }
    ensures directory { IfSome result (λ way.
        IsDirectory (files_at trees.now top.filesystem.count).tree (inode_of directory)) }
    ensures nowhere { result ≡ None
        → IsDirectory (files_at trees.now top.filesystem.count).tree (inode_of directory)
        → (path : List (List ℕ)) → at_path (opened trees.now top) path ≢ Some (inode_of directory) }
{
    way_in(trees.get(top.filesystem)?, top, directory)
}

// The same, in the directories' tree.
fn way_in<'a>(tree: &'a Tree, top: InodeRef, directory: InodeRef) -> Option<WayDown<'a>>
    requires tree { IsTree (tree_seen top.filesystem.count (Some tree.now)) }
    requires one_filesystem { directory.filesystem ≡ top.filesystem }
    ensures leads { IfSome result (λ way.
        led (tree_seen top.filesystem.count (Some tree.now)) (inode_of top) way ≡ Some (inode_of directory)) }
    ensures directory { IfSome result (λ way.
        IsDirectory (tree_seen top.filesystem.count (Some tree.now)) (inode_of directory)) }
    ensures nowhere { result ≡ None
        → IsDirectory (tree_seen top.filesystem.count (Some tree.now)) (inode_of directory)
        → (path : List (List ℕ))
        → led (tree_seen top.filesystem.count (Some tree.now)) (inode_of top) path ≢ Some (inode_of directory) }
{
    if !is_directory(tree, directory) {
        return None;
    }
    let upper = slot_of(top);
    let lower = slot_of(directory);
    climb(tree, top.filesystem, upper, lower)
}

// Whether an inode of a tree is a directory.
fn is_directory(tree: &Tree, inode: InodeRef) -> bool
    ensures { result
        ≡ is_directory_node ((tree_seen inode.filesystem.count (Some tree.now)).node (inode_of inode)) }
{
    match tree.node(slot_of(inode)) {
        Some(node) => node.is_directory(),
        None => false,
    }
}

// The way down from a directory, found by going up from a directory, for no more steps than there are inodes.
fn climb<'a>(
    tree: &'a Tree,
    filesystem: FilesystemId,
    top: NodeId,
    lower: NodeId,
) -> Option<WayDown<'a>>
    requires tree { IsTree (tree_seen filesystem.count (Some tree.now)) }
    requires directory { IsDirectory (tree_seen filesystem.count (Some tree.now)) (exchanged filesystem.count lower) }
    ensures leads { IfSome result (λ way.
        led (tree_seen filesystem.count (Some tree.now)) (exchanged filesystem.count top) way
        ≡ Some (exchanged filesystem.count lower)) }
    ensures nowhere { result ≡ None → (path : List (List ℕ))
        → led (tree_seen filesystem.count (Some tree.now)) (exchanged filesystem.count top) path
        ≢ Some (exchanged filesystem.count lower) }
{
    let mut here = lower;
    for len in 0..tree.len() {
        if here == top {
            return Some(WayDown {
                tree,
                directory: lower,
                len,
            });
        }
        if name_above(tree, here).is_none() {
            return None;
        }
        here = tree.parent(here);
    }
    None
}
