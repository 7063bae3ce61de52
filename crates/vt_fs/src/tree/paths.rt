//! Paths from one directory of a tree down to another: mountinfo of proc(5).
ghost use Rattle.std.specs.Prelude.{◌≡◌, IfOk, IfSome, map, nat_eq, option_map};
ghost use Rattle.vt_spec.specs.FileTree.{named_parent, own_name};
ghost use Rattle.vt_fs.specs.Trees.Paths.{NamesDirectoriesOnce, files_of, path_in};
ghost use Rattle.vt_fs.specs.Trees.TreeValue.{inodes_of, tree_of};

use crate::tree::trees::Tree;
use std::alloc::{AllocError, Global};
use vt_node::{NodeId, copied_bytes};

impl Tree {
    /// The names that lead from a directory down to another, if that one lies under it. A directory must have one name
    /// at most, as in every tree of a world.
    pub fn path_down(
        &self,
        alloc: Global,
        top: NodeId,
        directory: NodeId,
    ) -> Result<Option<Vec<Vec<u8>>>, AllocError>
        requires { NamesDirectoriesOnce (tree_of self.now) }
        ensures { IfOk result (λ path. option_map (λ names. map (λ name. name.items) names.items) path
            ≡ path_in nat_eq (inodes_of self.now) top directory) }
    {
        let mut names = Vec::new(alloc);
        let mut here = directory;
        let mut left = self.len();
        while top != here {
            if left == 0 {
                return Ok(None);
            }
            let Some(above) = self.name_above(here) else {
                return Ok(None);
            };
            names.push(copied_bytes(alloc, above.1)?)?;
            here = above.0;
            left -= 1;
        }
        names.reverse();
        Ok(Some(names))
    }

    // The parent of a directory that has a name there, and that name.
    fn name_above(&self, directory: NodeId) -> Option<(NodeId, &[u8])>
        requires { NamesDirectoriesOnce (tree_of self.now) }
        ensures parent { option_map (λ above. above.0) result ≡ named_parent nat_eq (tree_of self.now) directory }
        ensures name { IfSome result (λ above. above.1.now
            ≡ own_name nat_eq (files_of (inodes_of self.now)) directory) }
    {
        if directory == self.root() {
            return None;
        }
        let parent = self.parent(directory);
        let name = self.node(parent)?.name_of(directory)?;
        Some((parent, name))
    }
}
