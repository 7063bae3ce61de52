//! `Layered`: an overlay, read-only or with an upper layer.
ghost use Rattle.std.specs.Prelude.{◌≡◌, ◌&&◌, None, Some, is_some, nat_eq, option_map, slice_get};
ghost use Rattle.vt_spec.specs.Lists.{holds_of};
ghost use Rattle.vt_births.specs.KeptObjects.{AreOf, has_kept_object};

use std::marker::Model;
use vt_cred::Cred;
use vt_location::{FilesystemId, InodeRef};
use vt_overlay::{LayerRef, Overlay};
use vt_upper_overlay::UpperOverlay;

// Its kind.
#[derive(Debug, Drop)]
pub(crate) enum LayeredKind {
    Lower(Overlay),
    Upper(UpperOverlay),
}

/// An overlay: read-only, with lower layers alone, or one whose highest layer is an upper one.
#[derive(Debug, Drop)]
pub struct Layered {
    pub(crate) kind: LayeredKind,
}

impl Model for Layered {
    ghost use Rattle.vt_layered.specs.LayeredValue.{LayeredValue, value_of};

    ghost Value = { LayeredValue };

    ghost view = { λ layered. value_of layered.kind };
}

impl Layered {
    ghost use Rattle.vt_layered.specs.LayeredValue.{KeepsItsOwn, keeps_object};

    /// A read-only overlay.
    pub fn lower(overlay: Overlay) -> Self
        ensures { result ≡ record { overlay = overlay; above = None } }
    {
        Layered {
            kind: LayeredKind::Lower(overlay),
        }
    }

    /// An overlay with an upper layer.
    pub fn upper(overlay: UpperOverlay) -> Self
        ensures { result ≡ record {
          overlay = overlay.layers;
          above = Some (record { work = overlay.work; nodes = overlay.nodes });
        } }
    {
        Layered {
            kind: LayeredKind::Upper(overlay),
        }
    }

    /// All layers, the highest first: the upper one, if there is one, and the lower ones.
    pub fn layers(&self) -> &[LayerRef]
        ensures { result.now ≡ self.now.overlay.lowers }
    {
        match &self.kind {
            LayeredKind::Lower(overlay) => overlay.lowers(),
            LayeredKind::Upper(overlay) => overlay.layers(),
        }
    }

    /// The work directory, which an overlay with an upper layer has.
    pub fn work(&self) -> Option<LayerRef>
        ensures { result ≡ option_map (λ above. above.work) self.now.above }
    {
        match &self.kind {
            LayeredKind::Lower(_) => None,
            LayeredKind::Upper(overlay) => Some(overlay.work()),
        }
    }

    /// Whether it has an upper layer.
    pub fn has_upper(&self) -> bool
        ensures { result ≡ is_some self.now.above }
    {
        matches!(&self.kind, LayeredKind::Upper(_))
    }

    /// The credentials that it was mounted with.
    pub fn mounter(&self) -> &Cred
        ensures { result.now ≡ self.now.overlay.mounter }
    {
        match &self.kind {
            LayeredKind::Lower(overlay) => overlay.mounter(),
            LayeredKind::Upper(overlay) => overlay.mounter(),
        }
    }

    /// Whether an inode is the object, in the upper layer, of a node that is kept without a name. It costs two look-ups,
    /// however many are kept, and does not allocate.
    pub fn keeps_object(&self, number: FilesystemId, inode: InodeRef) -> bool
        requires number { number ≡ self.now.overlay.number }
        requires own { KeepsItsOwn self.now.overlay self.now.above }
        ensures { result ≡ keeps_object self.now.overlay self.now.above inode }
    {
        match &self.kind {
            LayeredKind::Lower(_) => false,
            LayeredKind::Upper(overlay) => keeps_object(overlay, number, inode),
        }
    }
}

// The same of an overlay with an upper layer.
fn keeps_object(overlay: &UpperOverlay, number: FilesystemId, inode: InodeRef) -> bool
    requires { AreOf number overlay.now.nodes }
    ensures { result ≡ (holds_of (λ top. nat_eq inode.filesystem.count top.directory.filesystem.count)
        (slice_get overlay.now.layers.lowers 0) && has_kept_object overlay.now.nodes inode.slot) }
{
    match overlay.layers().first() {
        Some(top) if top.directory.filesystem == inode.filesystem => {
            overlay.nodes().keep_object_in(number, inode.slot)
        }
        _ => false,
    }
}
