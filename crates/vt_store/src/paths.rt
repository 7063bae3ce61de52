//! Paths from one directory of a filesystem down to another: mountinfo of proc(5).
ghost use Rattle.std.specs.Prelude.{◌≡◌, IfOk, map, nat_eq, option_map};
ghost use Rattle.vt_spec.specs.FileTree.{path_down};
ghost use Rattle.vt_location.specs.Locations.{number_of};
ghost use Rattle.vt_fs.specs.Trees.Paths.{NamesDirectoriesOnce};
ghost use Rattle.vt_store.specs.StoreValue.{StandOnLayers, files_in};

use crate::store::Store;
use std::alloc::{AllocError, Global};
use vt_location::NodeRef;

impl Store {
    /// The names that lead from a directory down to another, if that one lies under it in its filesystem.
    ///
    /// A directory must have one name at most, as in every tree of a world. It fails only if an allocation does.
    pub fn path_down(
        &self,
        alloc: Global,
        top: NodeRef,
        directory: NodeRef,
    ) -> Result<Option<Vec<Vec<u8>>>, AllocError>
        requires standing { StandOnLayers self.now }
        requires once { NamesDirectoriesOnce (files_in self.now top.filesystem.count).tree }
        ensures ok { IfOk result (λ path. option_map (λ names. map (λ name. name.items) names.items) path
            ≡ path_down nat_eq (files_in self.now top.filesystem.count) (number_of top) (number_of directory)) }
    {
        let Some(overlay) = self.overlay(top.filesystem) else {
            return self.plain.path_down(alloc, top, directory);
        };
        if top.filesystem != directory.filesystem {
            return Ok(None);
        }
        overlay.path_down(alloc, &self.plain, top, directory)
    }

    /// The names that lead to a directory from the root of its filesystem, if it lies under that; as `path_down`.
    pub fn path_from_root(
        &self,
        alloc: Global,
        directory: NodeRef,
    ) -> Result<Option<Vec<Vec<u8>>>, AllocError>
        requires standing { StandOnLayers self.now }
        requires once { NamesDirectoriesOnce (files_in self.now directory.filesystem.count).tree }
        ensures ok { IfOk result (λ path. option_map (λ names. map (λ name. name.items) names.items) path
            ≡ path_down nat_eq (files_in self.now directory.filesystem.count)
            (files_in self.now directory.filesystem.count).tree.root (number_of directory)) }
    {
        match self.overlay(directory.filesystem) {
            Some(overlay) => {
                let root = overlay.root().unwrap();
                overlay.path_down(alloc, &self.plain, root, directory)
            }
            None => self.plain.path_from_root(alloc, directory),
        }
    }
}
