//! `UpperOverlay`: the layers of an overlay with an upper one, its births, and what it keeps without a name.
ghost use Rattle.std.specs.Prelude.{◌≡◌, ◌<◌, Some, length, slice_get};
ghost use Rattle.vt_births.specs.Births.{no_births};
ghost use Rattle.vt_births.specs.Kept.{none_kept};

use std::alloc::Global;
use vt_births::UpperNodes;
use vt_cred::Cred;
use vt_location::FilesystemId;
use vt_overlay::{LayerRef, Overlay};

/// An overlay with an upper layer. Its layers are looked through as those of an overlay for reading are; what it has
/// more is which nodes were copied up, and which are kept without a name.
#[derive(Debug, Drop)]
pub struct UpperOverlay {
    // All layers, the upper one first.
    pub(crate) layers: Overlay,
    pub(crate) work: LayerRef,
    /// Its births, and what it keeps without a name: a plan has room promised there, and adds to them.
    pub nodes: UpperNodes,
}

impl UpperOverlay {
    /// The overlay of these layers, the upper one first. Nothing was copied up yet. It does not allocate.
    pub fn new(
        alloc: Global,
        number: FilesystemId,
        layers: Vec<LayerRef>,
        work: LayerRef,
        mounter: Cred,
    ) -> Self
        ensures { result ≡ record {
          layers = record { number = number; lowers = layers.items; mounter = mounter };
          work = work;
          nodes = record { births = no_births; kept = none_kept };
        } }
    {
        UpperOverlay {
            layers: Overlay::new(number, layers, mounter),
            work,
            nodes: UpperNodes::new(alloc),
        }
    }

    /// All layers, the upper one first.
    pub fn layers(&self) -> &[LayerRef]
        ensures { result.now ≡ self.now.layers.lowers }
    {
        self.layers.lowers()
    }

    /// The upper layer.
    pub fn upper(&self) -> LayerRef
        requires { 0 < length self.now.layers.lowers }
        ensures { slice_get self.now.layers.lowers 0 ≡ Some result }
    {
        self.layers.lowers()[0]
    }

    /// The work directory.
    pub fn work(&self) -> LayerRef
        ensures { result ≡ self.now.work }
    {
        self.work
    }

    /// The credentials that it was mounted with.
    pub fn mounter(&self) -> &Cred
        ensures { result.now ≡ self.now.layers.mounter }
    {
        self.layers.mounter()
    }

    /// What was copied up, and what is kept without a name.
    pub fn nodes(&self) -> &UpperNodes
        ensures { result.now ≡ self.now.nodes }
    {
        &self.nodes
    }
}
