//! Directories under others, and the paths down to them: path_resolution(7), mountinfo of proc(5).
ghost use Rattle.std.specs.Prelude.{◌≡◌, [], IfOk, drop, map, nat_eq, option_map};
ghost use Rattle.vt_spec.specs.FileTree.{is_directory_under, path_down};
ghost use Rattle.vt_spec.specs.Lists.{when};
ghost use Rattle.vt_location.specs.Locations.{number_of};
ghost use Rattle.vt_upper_overlay.specs.MergedAbove.{merged_files};
ghost use Rattle.vt_upper_overlay.specs.Standing.{StandsAbove};

use crate::overlay::UpperOverlay;
use std::alloc::{AllocError, Global};
use vt_fs::Filesystems;
use vt_location::NodeRef;
use vt_node::copied_bytes;
use vt_overlay::{Way, starts_with};

impl UpperOverlay {
    /// Whether a directory is another one, or lies under it: the way to that one begins its own. It does not allocate.
    pub fn is_under(&self, trees: &Filesystems, top: NodeRef, directory: NodeRef) -> bool
        requires standing { StandsAbove trees.now self.now }
        requires own { directory.filesystem ≡ self.now.layers.number }
        requires one_filesystem { top.filesystem ≡ self.now.layers.number }
        ensures { result ≡ is_directory_under nat_eq (merged_files trees.now self.now) (number_of top)
            (number_of directory) }
    {
        let Some(lower) = self.way(trees, directory) else {
            return top.is_same(directory);
        };
        match self.way(trees, top) {
            Some(upper) => starts_with(&lower, &upper),
            None => top.is_same(directory),
        }
    }

    /// The names that lead from a directory down to another, if that one lies under it. It fails only if an allocation
    /// does.
    pub fn path_down(
        &self,
        alloc: Global,
        trees: &Filesystems,
        top: NodeRef,
        directory: NodeRef,
    ) -> Result<Option<Vec<Vec<u8>>>, AllocError>
        requires standing { StandsAbove trees.now self.now }
        requires own { directory.filesystem ≡ self.now.layers.number }
        requires one_filesystem { top.filesystem ≡ self.now.layers.number }
        ensures { IfOk result (λ path. option_map (λ names. map (λ name. name.items) names.items) path
            ≡ path_down nat_eq (merged_files trees.now self.now) (number_of top) (number_of directory)) }
    {
        let Some(lower) = self.way(trees, directory) else {
            return Ok(path_to_itself(alloc, top, directory));
        };
        let Some(upper) = self.way(trees, top) else {
            return Ok(path_to_itself(alloc, top, directory));
        };
        if !starts_with(&lower, &upper) {
            return Ok(None);
        }
        let names = names_from(alloc, &lower, upper.len())?;
        Ok(Some(names))
    }
}

// The names of a path from an index on.
fn names_from<W: Way>(alloc: Global, path: &W, start: usize) -> Result<Vec<Vec<u8>>, AllocError>
    ensures { IfOk result (λ names. map (λ name. name.items) names.items ≡ drop start (W.names path.now)) }
{
    let mut names = Vec::new(alloc);
    for index in start..path.len() {
        names.push(copied_bytes(alloc, path.name(index))?)?;
    }
    Ok(names)
}

// No names lead from a node to itself, and none to another node.
fn path_to_itself(alloc: Global, top: NodeRef, directory: NodeRef) -> Option<Vec<Vec<u8>>>
    ensures { option_map (λ names. map (λ name. name.items) names.items) result
        ≡ when (nat_eq (number_of top) (number_of directory)) [] }
{
    if top.is_same(directory) {
        Some(Vec::new(alloc))
    } else {
        None
    }
}
