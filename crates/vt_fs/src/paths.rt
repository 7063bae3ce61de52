//! Paths from one directory of a filesystem down to another: mountinfo of proc(5).
ghost use Rattle.std.specs.Prelude.{◌≡◌, [], IfOk, map, nat_eq, option_map};
ghost use Rattle.vt_spec.specs.FileTree.{path_down};
ghost use Rattle.vt_spec.specs.Lists.{when};
ghost use Rattle.vt_location.specs.Locations.{number_of};
ghost use Rattle.vt_fs.specs.Trees.Paths.{NamesDirectoriesOnce};
ghost use Rattle.vt_fs.specs.FilesystemsValue.{files_at};

use crate::filesystems::{Filesystems, slot_in};
use std::alloc::{AllocError, Global};
use vt_location::NodeRef;

impl Filesystems {
    /// The names that lead from a directory down to another, if that one lies under it in its filesystem.
    ///
    /// A directory must have one name at most, as in every tree of a world.
    pub fn path_down(
        &self,
        alloc: Global,
        top: NodeRef,
        directory: NodeRef,
    ) -> Result<Option<Vec<Vec<u8>>>, AllocError>
        requires once { NamesDirectoriesOnce (files_at self.now top.filesystem.count).tree }
        ensures ok { IfOk result (λ path. option_map (λ names. map (λ name. name.items) names.items) path
            ≡ path_down nat_eq (files_at self.now top.filesystem.count) (number_of top) (number_of directory)) }
    {
        let Some(tree) = self.get(top.filesystem) else {
            return Ok(path_to_itself(alloc, top, directory));
        };
        let Some(upper) = slot_in(tree, top.filesystem, top) else {
            return Ok(path_to_itself(alloc, top, directory));
        };
        match slot_in(tree, top.filesystem, directory) {
            Some(lower) => tree.path_down(alloc, upper, lower),
            None => Ok(path_to_itself(alloc, top, directory)),
        }
    }

    /// The names that lead to a directory from the root of its filesystem, if it lies under that; as `path_down`.
    pub fn path_from_root(
        &self,
        alloc: Global,
        directory: NodeRef,
    ) -> Result<Option<Vec<Vec<u8>>>, AllocError>
        requires { NamesDirectoriesOnce (files_at self.now directory.filesystem.count).tree }
        ensures ok { IfOk result (λ path. option_map (λ names. map (λ name. name.items) names.items) path
            ≡ path_down nat_eq (files_at self.now directory.filesystem.count)
            (files_at self.now directory.filesystem.count).tree.root (number_of directory)) }
    {
        match self.root(directory.filesystem) {
            Some(root) => self.path_down(alloc, root, directory),
            None => Ok(None),
        }
    }
}

// No names lead from a node to itself, and none to another node.
fn path_to_itself(alloc: Global, top: NodeRef, directory: NodeRef) -> Option<Vec<Vec<u8>>>
    ensures { option_map (λ names. map (λ name. name.items) names.items) result
        ≡ when (nat_eq (number_of top) (number_of directory)) [] }
{
    if top.is_same(directory) {
        Some(Vec::new(alloc))
    } else {
        None
    }
}
