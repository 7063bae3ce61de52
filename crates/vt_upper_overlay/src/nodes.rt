//! Nodes of overlays with an upper layer, and their real objects.
ghost use Rattle.std.specs.Prelude.{◌≡◌, ◌^◌, nat_eq, nat_lt, option_map, slice_get, true};
ghost use Rattle.vt_location.specs.Locations.{is_small_node, number_of};
ghost use Rattle.vt_births.specs.Births.{node_above};
ghost use Rattle.vt_births.specs.Kept.{is_kept};
ghost use Rattle.vt_overlay.specs.MergedTree.{real_in};
ghost use Rattle.vt_upper_overlay.specs.UpperValue.{node_for, place_born, real_at};

use crate::overlay::UpperOverlay;
use vt_location::{Birth, FilesystemId, InodeRef, NodeRef};
use vt_overlay::{LayerRef, Real};

impl UpperOverlay {
    /// The real object of a node that is there, found without a way. It is in the upper layer if the node was born
    /// there or copied up, else in the layer in which it was born. It takes one hash, and none for what was born
    /// above.
    pub fn real(&self, node: NodeRef) -> Option<Real>
        ensures value { result ≡ real_at self.now node }
        ensures small { is_small_node node ≡ true }
    {
        match self.nodes.births.slot_above(node) {
            Some(slot) => self.real_in(0, slot),
            None => self.real_in(place_born(node.birth), node.slot),
        }
    }

    // The object in a slot of a layer's tree.
    fn real_in(&self, place: usize, slot: usize) -> Option<Real>
        ensures { result ≡ option_map (real_in place slot) (slice_get self.now.layers.lowers place) }
    {
        let layer = self.layers.lowers().get(place)?;
        Some(Real {
            layer: place,
            inode: inode_in(*layer, slot),
        })
    }

    // Whether the node of a slot of the upper layer is this one.
    pub(crate) fn is_node_above(&self, node: NodeRef, slot: usize) -> bool
        ensures value { result
            ≡ nat_eq (number_of (node_above self.now.nodes.births node.filesystem slot)) (number_of node) }
        ensures small { is_small_node node ≡ true }
    {
        self.nodes
            .births
            .node_above(node.filesystem, slot)
            .is_same(node)
    }

    // Whether a node is kept without a name.
    pub(crate) fn is_kept(&self, node: NodeRef) -> bool
        ensures value { result ≡ is_kept self.now.nodes.kept node }
        ensures small { is_small_node node ≡ true }
    {
        self.nodes.kept.has(node)
    }

    // The node of what the layers show: in the upper layer the node whose copy it is, or one that was born there.
    // Given is the node that it would be if the upper layer were the highest lower one.
    pub(crate) fn node_for(&self, overlay: FilesystemId, node: NodeRef) -> NodeRef
        requires own { overlay ≡ self.now.layers.number }
        ensures value { result ≡ node_for self.now node.slot node.birth }
        ensures small { is_small_node node ≡ true }
    {
        match node.birth {
            Birth::Below {
                layer,
                directory,
                rank,
            } if layer > 0 => NodeRef {
                filesystem: overlay,
                slot: node.slot,
                birth: Birth::Below {
                    layer: layer - 1,
                    directory,
                    rank,
                },
            },
            _ => self.nodes.births.node_above(overlay, node.slot),
        }
    }
}

// The place of the layer in which a node was born.
fn place_born(birth: Birth) -> usize
    ensures { result ≡ place_born birth }
{
    match birth {
        Birth::Here => 0,
        Birth::Below { layer, .. } => usize::from(layer) + 1,
    }
}

// The inode in a slot of a layer's tree.
pub(crate) fn inode_in(layer: LayerRef, slot: usize) -> InodeRef
    ensures is { result ≡ record { filesystem = layer.directory.filesystem; slot = slot } }
    ensures small { nat_lt slot (2 ^ 64) ≡ true }
{
    InodeRef {
        filesystem: layer.directory.filesystem,
        slot,
    }
}
