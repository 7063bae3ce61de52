//! Overlays without an upper layer, and the real objects of their directories.
ghost use Rattle.std.specs.Prelude.{◌≡◌, ◌≤◌, ◌^◌, ℕ, [], IfOk, IsOk, length, map, nat_eq, nat_lt, not, option_map, slice_get, true};
ghost use Rattle.vt_spec.specs.FileTree.{is_directory_under, is_removed};
ghost use Rattle.vt_spec.specs.Lists.{holds_of, is_empty_list};
ghost use Rattle.vt_spec.specs.Machine.Layers.{Shown, shown};
ghost use Rattle.vt_spec.specs.Tree.{entries_in, names_in, parent_in};
ghost use Rattle.vt_location.specs.Locations.{inode_of, number_of};
ghost use Rattle.vt_location.specs.Numbers.{exchanged};
ghost use Rattle.vt_fs.specs.FilesystemsValue.{files_at};
ghost use Rattle.vt_overlay.specs.Merge.LayerValue.{layers_of};
ghost use Rattle.vt_overlay.specs.declared.merge.merging.TheConstants.{MOST_LAYERS};
ghost use Rattle.vt_overlay.specs.MergedTree.{AreLayers, born_below, born_here, directory_path, merged_files, merged_tree};

use crate::merge::{LayerRef, Way, WayDown, has_names, merged_names, shown, starts_with, way_down};
use std::alloc::{AllocError, Global};
use std::marker::Model;
use vt_cred::Cred;
use vt_fs::Filesystems;
use vt_location::{Birth, FilesystemId, InodeRef, NodeRef};

/// An overlay without an upper layer: its number, its lower layers from the top, and the credentials that it was
/// mounted with.
#[derive(Debug, Drop)]
pub struct Overlay {
    pub(crate) number: FilesystemId,
    pub(crate) lowers: Vec<LayerRef>,
    mounter: Cred,
}

impl Model for Overlay {
    ghost use Rattle.vt_overlay.specs.MergedTree.{OverlayValue};

    ghost Value = { OverlayValue };

    ghost view = { λ overlay. record {
      number = overlay.number;
      lowers = overlay.lowers.items;
      mounter = overlay.mounter;
    } };
}

impl Overlay {
    /// The overlay of these layers.
    pub fn new(number: FilesystemId, lowers: Vec<LayerRef>, mounter: Cred) -> Self
        ensures { result ≡ record { number = number; lowers = lowers.items; mounter = mounter } }
    {
        Overlay {
            number,
            lowers,
            mounter,
        }
    }

    /// The lower layers, the highest first.
    pub fn lowers(&self) -> &[LayerRef]
        ensures { result.now ≡ self.now.lowers }
    {
        self.lowers.as_slice()
    }

    /// The credentials that it was mounted with.
    pub fn mounter(&self) -> &Cred
        ensures { result.now ≡ self.now.mounter }
    {
        &self.mounter
    }

    /// The way to a directory of the overlay: the names that lead to it from the root, found by going up in the layer in
    /// which it was born. There is none to a node that is no directory, or that the layers do not show. It does not
    /// allocate.
    pub fn way<'a>(&self, trees: &'a Filesystems, node: NodeRef) -> Option<WayDown<'a>>
        requires layers { AreLayers trees.now self.now.lowers }
        requires few { length self.now.lowers ≤ MOST_LAYERS }
        requires own { node.filesystem ≡ self.now.number }
        ensures { result ≡ directory_path trees.now self.now (number_of node) }
    {
        match node.birth {
            Birth::Here => self.way_to_root(trees, node.slot),
            Birth::Below {
                layer,
                directory,
                rank,
            } => self.way_below(trees, layer, directory, rank, node.slot),
        }
    }

    // The way to the root, if that is in this slot.
    fn way_to_root<'a>(&self, trees: &'a Filesystems, slot: usize) -> Option<WayDown<'a>>
        requires layers { AreLayers trees.now self.now.lowers }
        requires few { length self.now.lowers ≤ MOST_LAYERS }
        ensures { result ≡ directory_path trees.now self.now (number_of (born_here self.now.number slot)) }
    {
        let top = self.layer_at(0)?;
        if top.directory.slot != slot {
            return None;
        }
        way_down(trees, top.directory, top.directory)
    }

    // The way to a directory that was born below.
    fn way_below<'a>(
        &self,
        trees: &'a Filesystems,
        layer: u16,
        directory: usize,
        rank: usize,
        slot: usize,
    ) -> Option<WayDown<'a>>
        requires layers { AreLayers trees.now self.now.lowers }
        requires few { length self.now.lowers ≤ MOST_LAYERS }
        ensures { result
            ≡ directory_path trees.now self.now (number_of (born_below self.now.number layer directory rank slot)) }
    {
        let lower = self.layer_at(layer)?;
        if rank != 0 {
            return None;
        }
        let inode = inode_in(lower, slot);
        if parent_slot(trees, inode)? != directory {
            return None;
        }
        let way = way_down(trees, lower.directory, inode)?;
        if way.len() == 0 {
            return None;
        }
        if !self.shows_in(trees, &way, layer) {
            return None;
        }
        Some(way)
    }

    /// Whether a directory has entries: ENOTEMPTY of rmdir(2). What is no directory has none. It does not allocate.
    pub fn is_nonempty(&self, trees: &Filesystems, node: NodeRef) -> bool
        requires layers { AreLayers trees.now self.now.lowers }
        requires few { length self.now.lowers ≤ MOST_LAYERS }
        requires own { node.filesystem ≡ self.now.number }
        ensures { result
            ≡ not (is_empty_list (entries_in ((merged_tree trees.now self.now).node (number_of node)))) }
    {
        match self.way(trees, node) {
            Some(way) => has_names(trees, self.lowers.as_slice(), &way),
            None => false,
        }
    }

    /// Whether a directory is another one, or lies under it: the way to that one begins its own. It does not allocate.
    pub fn is_under(&self, trees: &Filesystems, top: NodeRef, directory: NodeRef) -> bool
        requires layers { AreLayers trees.now self.now.lowers }
        requires few { length self.now.lowers ≤ MOST_LAYERS }
        requires own { directory.filesystem ≡ self.now.number }
        requires one_filesystem { top.filesystem ≡ self.now.number }
        ensures { result ≡ is_directory_under nat_eq (merged_files trees.now self.now) (number_of top)
            (number_of directory) }
    {
        let Some(lower) = self.way(trees, directory) else {
            return top.is_same(directory);
        };
        match self.way(trees, top) {
            Some(upper) => starts_with(&lower, &upper),
            None => top.is_same(directory),
        }
    }

    /// Whether a directory other than the root has no name. Without an upper layer no directory loses its name; what is
    /// no directory counts as removed. It does not allocate.
    pub fn is_removed(&self, trees: &Filesystems, directory: NodeRef) -> bool
        requires layers { AreLayers trees.now self.now.lowers }
        requires few { length self.now.lowers ≤ MOST_LAYERS }
        requires own { directory.filesystem ≡ self.now.number }
        ensures { result ≡ is_removed nat_eq (merged_tree trees.now self.now) (number_of directory) }
    {
        self.way(trees, directory).is_none()
    }

    /// The names of a directory, in the order of their bytes: readdir(3). What is no directory has none.
    ///
    /// It fails only if an allocation does, and an empty list needs none.
    pub fn names(
        &self,
        alloc: Global,
        trees: &Filesystems,
        node: NodeRef,
    ) -> Result<Vec<Vec<u8>>, AllocError>
        requires layers { AreLayers trees.now self.now.lowers }
        requires few { length self.now.lowers ≤ MOST_LAYERS }
        requires own { node.filesystem ≡ self.now.number }
        ensures ok { IfOk result (λ names. map (λ name. name.items) names.items
            ≡ names_in ((merged_tree trees.now self.now).node (number_of node))) }
        ensures empty { entries_in ((merged_tree trees.now self.now).node (number_of node)) ≡ [] → IsOk result }
    {
        if !self.is_nonempty(trees, node) {
            return Ok(Vec::new(alloc));
        }
        match self.way(trees, node) {
            Some(way) => merged_names(alloc, trees, self.lowers.as_slice(), &way),
            None => Ok(Vec::new(alloc)),
        }
    }

    // The lower layer at a place.
    pub(crate) fn layer_at(&self, place: u16) -> Option<LayerRef>
        ensures { result ≡ slice_get self.now.lowers place }
    {
        self.layer_in(usize::from(place))
    }

    // The same, by a place in the list.
    pub(crate) fn layer_in(&self, place: usize) -> Option<LayerRef>
        ensures { result ≡ slice_get self.now.lowers place }
    {
        self.lowers.as_slice().get(place).copied()
    }

    // Whether what the layers show at a path is in this one.
    fn shows_in<W: Way>(&self, trees: &Filesystems, path: &W, place: u16) -> bool
        ensures { result ≡ holds_of (λ (seen : Shown ℕ). nat_eq seen.layer place)
            (shown (layers_of trees.now self.now.lowers) (W.names path.now)) }
    {
        match shown(trees, self.lowers.as_slice(), path) {
            Some(real) => real.layer == usize::from(place),
            None => false,
        }
    }
}

// The inode in a slot of a layer's tree.
pub(crate) fn inode_in(layer: LayerRef, slot: usize) -> InodeRef
    ensures is { result ≡ record { filesystem = layer.directory.filesystem; slot = slot } }
    ensures small { nat_lt slot (2 ^ 64) ≡ true }
{
    InodeRef {
        filesystem: layer.directory.filesystem,
        slot,
    }
}

// The slot of the parent of a directory; of anything else its own.
fn parent_slot(trees: &Filesystems, inode: InodeRef) -> Option<usize>
    ensures { option_map (exchanged inode.filesystem.count) result
        ≡ option_map (λ node. parent_in (inode_of inode) (Some node))
        ((files_at trees.now inode.filesystem.count).tree.node (inode_of inode)) }
{
    let node = trees.node(inode.node_ref())?;
    Some(node.parent(inode.node()).index())
}
