//! Paths from one directory of an overlay down to another: mountinfo of proc(5).
ghost use Rattle.std.specs.Prelude.{◌≡◌, ◌≤◌, [], IfOk, drop, length, map, nat_eq, option_map};
ghost use Rattle.vt_spec.specs.FileTree.{path_down};
ghost use Rattle.vt_spec.specs.Lists.{when};
ghost use Rattle.vt_location.specs.Locations.{number_of};
ghost use Rattle.vt_overlay.specs.declared.merge.merging.TheConstants.{MOST_LAYERS};
ghost use Rattle.vt_overlay.specs.MergedTree.{AreLayers, merged_files};

use crate::merge::{Way, starts_with};
use crate::overlays::Overlay;
use std::alloc::{AllocError, Global};
use vt_fs::Filesystems;
use vt_location::NodeRef;
use vt_node::copied_bytes;

impl Overlay {
    /// The names that lead from a directory down to another, if that one lies under it. It fails only if an allocation
    /// does.
    pub fn path_down(
        &self,
        alloc: Global,
        trees: &Filesystems,
        top: NodeRef,
        directory: NodeRef,
    ) -> Result<Option<Vec<Vec<u8>>>, AllocError>
        requires layers { AreLayers trees.now self.now.lowers }
        requires few { length self.now.lowers ≤ MOST_LAYERS }
        requires own { directory.filesystem ≡ self.now.number }
        requires one_filesystem { top.filesystem ≡ self.now.number }
        ensures { IfOk result (λ path. option_map (λ names. map (λ name. name.items) names.items) path
            ≡ path_down nat_eq (merged_files trees.now self.now) (number_of top) (number_of directory)) }
    {
        let Some(lower) = self.way(trees, directory) else {
            return Ok(path_to_itself(alloc, top, directory));
        };
        let Some(upper) = self.way(trees, top) else {
            return Ok(path_to_itself(alloc, top, directory));
        };
        if !starts_with(&lower, &upper) {
            return Ok(None);
        }
        let names = names_from(alloc, &lower, upper.len())?;
        Ok(Some(names))
    }
}

// The names of a path from an index on.
fn names_from<W: Way>(alloc: Global, path: &W, start: usize) -> Result<Vec<Vec<u8>>, AllocError>
    ensures { IfOk result (λ names. map (λ name. name.items) names.items ≡ drop start (W.names path.now)) }
{
    let mut names = Vec::new(alloc);
    for index in start..path.len() {
        names.push(copied_bytes(alloc, path.name(index))?)?;
    }
    Ok(names)
}

// No names lead from a node to itself, and none to another node.
fn path_to_itself(alloc: Global, top: NodeRef, directory: NodeRef) -> Option<Vec<Vec<u8>>>
    ensures { option_map (λ names. map (λ name. name.items) names.items) result
        ≡ when (nat_eq (number_of top) (number_of directory)) [] }
{
    if top.is_same(directory) {
        Some(Vec::new(alloc))
    } else {
        None
    }
}
