//! What layers show at a path.
ghost use Rattle.std.specs.Prelude.{◌≡◌, IfSome, Some, option_copied, option_map, slice_get};
ghost use Rattle.vt_spec.specs.Machine.Layers.{shown, view_of};
ghost use Rattle.vt_spec.specs.Machine.Views.{visible};
ghost use Rattle.vt_location.specs.Locations.{inode_of};
ghost use Rattle.vt_fs.specs.FilesystemsValue.{files_at, node_seen};
ghost use Rattle.vt_overlay.specs.Merge.LayerValue.{layers_of, opened, seen_of};

use crate::merge::entries::is_whiteout;
use crate::merge::following::follow;
use crate::merge::layers::{LayerRef, Real};
use crate::merge::ways::Way;
use vt_fs::Filesystems;
use vt_location::InodeRef;
use vt_node::Node;

/// What layers show at a path, the highest first. It does not allocate, and takes a step for each name in each layer
/// at most.
pub fn shown<W: Way>(trees: &Filesystems, layers: &[LayerRef], path: &W) -> Option<Real>
    ensures value { option_map seen_of result ≡ shown (layers_of trees.now layers.now) (W.names path.now) }
    ensures tree { IfSome result (λ real.
        option_map (λ layer. layer.directory.filesystem) (slice_get layers.now real.layer)
        ≡ Some real.inode.filesystem) }
{
    for (place, layer) in layers.iter().enumerate() {
        let found = follow(trees, layer.directory, path);
        if let Some(inode) = found.object {
            return visible(trees, place, inode);
        }
        if found.cut {
            return None;
        }
    }
    None
}

// An object, unless it is a whiteout.
fn visible(trees: &Filesystems, layer: usize, inode: InodeRef) -> Option<Real>
    ensures value { option_map seen_of result
        ≡ visible (view_of (opened trees.now inode)) layer (inode_of inode) }
    ensures is { IfSome result (λ real. real ≡ record { layer = layer; inode = inode }) }
{
    if is_whiteout(trees, inode) {
        None
    } else {
        Some(Real { layer, inode })
    }
}

/// The inode of an object that is shown, its entries and its parent by slots.
pub fn real_of(trees: &Filesystems, real: Real) -> Option<&Node>
    ensures { option_map (node_seen real.inode.filesystem.count) (option_copied result)
        ≡ (files_at trees.now real.inode.filesystem.count).tree.node (inode_of real.inode) }
{
    trees.node(real.inode.node_ref())
}
