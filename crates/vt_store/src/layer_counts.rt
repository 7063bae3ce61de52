//! `LayerCounts`: how many layers of overlays are in each filesystem, and how many are at each directory.
ghost use Rattle.std.specs.Prelude.{◌≡◌, ◌+◌, ◌++◌, ◌∷◌, [], ℕ, List, OnOk, length, nat_eq};
ghost use Rattle.std.specs.List.{list_any};
ghost use Rattle.vt_spec.specs.Inodes.{ancestors};
ghost use Rattle.vt_fs.specs.Trees.TreeValue.{inodes_of};
ghost use Rattle.vt_overlay.specs.declared.merge.layers.LayerRef.{LayerRef};
ghost use Rattle.vt_layered.specs.LayeredValue.{held_layers};
ghost use Rattle.vt_store.specs.LayerTests.{layer_at};

use crate::tally::Tally;
use std::alloc::{AllocError, Global};
use vt_fs::Tree;
use vt_layered::Layered;
use vt_location::{FilesystemId, InodeRef};
use vt_node::NodeId;
use vt_overlay::LayerRef;

/// How many layers are in each filesystem, and how many are at each directory: so whether one is there costs a look-up,
/// however many there are.
#[derive(Debug, Drop)]
pub(crate) struct LayerCounts {
    // How many layers there are: no count is above it.
    total: u64,
    in_filesystem: Tally<FilesystemId>,
    at_directory: Tally<InodeRef>,
}

impl LayerCounts {
    ghost use Rattle.vt_store.specs.LayersAt.{AreCounted, AreOfLayers, HasRoomForLayers, has_layer_at, has_layer_in};

    /// No layers. It does not allocate.
    pub(crate) fn new(alloc: Global) -> Self
        ensures { AreCounted [] result }
    {
        LayerCounts {
            total: 0,
            in_filesystem: Tally::new(alloc),
            at_directory: Tally::new(alloc),
        }
    }

    /// Whether a layer is in a filesystem.
    pub(crate) fn has_in(&self, filesystem: FilesystemId) -> bool
        ensures { result ≡ has_layer_in self.now filesystem }
    {
        self.in_filesystem.has(&filesystem)
    }

    /// Whether a layer is at a directory of a filesystem.
    #[inline(always)]
    pub(crate) fn has_at(&self, filesystem: FilesystemId, directory: NodeId) -> bool
        ensures { result ≡ has_layer_at self.now (record { filesystem = filesystem; slot = directory }) }
    {
        self.at_directory.has(&InodeRef::new(filesystem, directory))
    }

    /// Whether a layer is at a directory of this tree or at one above it. It goes up once, however many layers there are.
    pub(crate) fn has_above(&self, filesystem: FilesystemId, tree: &Tree, directory: NodeId) -> bool
        ensures { result
            ≡ list_any (λ slot. has_layer_at self.now (record { filesystem = filesystem; slot = slot }))
            (ancestors nat_eq (inodes_of tree.now) directory) }
    {
        let mut here = directory;
        let mut left = tree.len();
        while left > 0 {
            if self.has_at(filesystem, here) {
                return true;
            }
            if here == tree.root() {
                return false;
            }
            here = tree.parent(here);
            left -= 1;
        }
        self.has_at(filesystem, here)
    }

    /// Makes room for so many layers more. It fails if an allocation does, or there would be 2^64 layers.
    pub(crate) fn reserve(&mut self, more: usize) -> Result<(), AllocError>
        ensures same { (layers : List LayerRef) → AreCounted layers self.old → AreCounted layers self.new }
        ensures ok { OnOk result (HasRoomForLayers more self.new) }
    {
        if u64::MAX - self.total < more as u64 {
            return Err(AllocError);
        }
        self.in_filesystem.reserve(more)?;
        self.at_directory.reserve(more)
    }

    /// Counts layers more, for a caller that has made room. It does not allocate.
    pub(crate) fn add(&mut self, layers: &[LayerRef])
        requires known { AreOfLayers self.old }
        requires room { HasRoomForLayers (length layers.now) self.old }
        ensures { (before : List LayerRef) → AreCounted before self.old → AreCounted (before ++ layers.now) self.new }
    {
        for layer in layers {
            self.add_one(layer.directory.filesystem, layer.directory.node());
        }
    }

    // Counts one layer more, whose directory is this one.
    fn add_one(&mut self, filesystem: FilesystemId, directory: NodeId)
        requires known { AreOfLayers self.old }
        requires room { HasRoomForLayers 1 self.old }
        ensures counted { (before : List LayerRef)
            → AreCounted before self.old → AreCounted (before ++ layer_at filesystem directory ∷ []) self.new }
        ensures room { (more : ℕ) → HasRoomForLayers (more + 1) self.old → HasRoomForLayers more self.new }
    {
        self.total += 1;
        self.in_filesystem.add(filesystem);
        self.at_directory.add(InodeRef::new(filesystem, directory));
    }

    /// Takes back layers that were counted. It does not allocate.
    pub(crate) fn take(&mut self, layers: &[LayerRef])
        ensures { (left : List LayerRef) → AreCounted (layers.now ++ left) self.old → AreCounted left self.new }
    {
        for layer in layers {
            self.take_one(*layer);
        }
    }

    /// Takes back the layers of an overlay, and its work directory. It does not allocate.
    pub(crate) fn take_held(&mut self, overlay: &Layered)
        ensures { (left : List LayerRef)
            → AreCounted (held_layers overlay.now.overlay overlay.now.above ++ left) self.old
            → AreCounted left self.new }
    {
        self.take(overlay.layers());
        if let Some(work) = overlay.work() {
            self.take_one(work);
        }
    }

    // Takes back one; a count of 0 stays 0.
    fn take_one(&mut self, layer: LayerRef)
        ensures { (left : List LayerRef) → AreCounted (layer ∷ left) self.old → AreCounted left self.new }
    {
        self.total = self.total.saturating_sub(1);
        self.in_filesystem.take(&layer.directory.filesystem);
        self.at_directory.take(&layer.directory);
    }
}
