//! Layers of an overlay: all of them, with the work directory, or the upper and the lower ones alone.
ghost use Rattle.std.specs.Prelude.{◌≡◌, ◌&&◌, nat_eq};
ghost use Rattle.vt_location.specs.Locations.{inode_of, number_of};
ghost use Rattle.vt_location.specs.Numbers.{counted, filesystem_number};
ghost use Rattle.vt_sealing.specs.Seen.{has_layer_in, has_root_layer, has_work_in, lower_layers, upper_layer};

use vt_layered::Layered;
use vt_location::{FilesystemId, InodeRef, NodeRef};
use vt_overlay::LayerRef;

/// Whether an overlay has a layer in a filesystem, or its work directory.
pub(crate) fn has_layer_in(overlay: &Layered, filesystem: FilesystemId) -> bool
    ensures { result ≡ has_layer_in (filesystem_number filesystem) overlay.now.overlay overlay.now.above }
{
    let layers = overlay.layers();
    layers
        .iter()
        .any(|layer| is_in(layer.directory, filesystem))
        || has_work_in(overlay, filesystem)
}

// Whether an overlay has its work directory in a filesystem.
fn has_work_in(overlay: &Layered, filesystem: FilesystemId) -> bool
    ensures { result ≡ has_work_in (filesystem_number filesystem) overlay.now.above }
{
    match overlay.work() {
        Some(work) => is_in(work.directory, filesystem),
        None => false,
    }
}

/// Whether an overlay has this root directory of a plain filesystem as a lower layer.
pub(crate) fn has_lower_at(overlay: &Layered, root: NodeRef) -> bool
    ensures { result ≡ has_root_layer (filesystem_number root.filesystem) (number_of root) overlay.now.overlay
        overlay.now.above }
{
    lowers_of(overlay)
        .iter()
        .any(|layer| is_at_root(layer.directory, root))
}

/// The upper layer of an overlay, if it has one.
pub(crate) fn upper_of(overlay: &Layered) -> Option<LayerRef>
    ensures { result ≡ upper_layer overlay.now.overlay overlay.now.above }
{
    if overlay.has_upper() {
        overlay.layers().first().copied()
    } else {
        None
    }
}

// Its lower layers, the highest first.
fn lowers_of(overlay: &Layered) -> &[LayerRef]
    ensures { result.now ≡ lower_layers overlay.now.overlay overlay.now.above }
{
    match overlay.layers().split_first() {
        Some((_upper, lowers)) if overlay.has_upper() => lowers,
        _ => overlay.layers(),
    }
}

// Whether an inode of a plain filesystem is this root directory.
fn is_at_root(directory: InodeRef, root: NodeRef) -> bool
    ensures { result ≡ (nat_eq (filesystem_number root.filesystem) (counted directory.filesystem.count)
        && nat_eq (number_of root) (inode_of directory)) }
{
    root.filesystem == directory.filesystem && root.is_same(directory.node_ref())
}

// Whether an inode is in this filesystem.
fn is_in(inode: InodeRef, filesystem: FilesystemId) -> bool
    ensures { result ≡ nat_eq (filesystem_number filesystem) (counted inode.filesystem.count) }
{
    filesystem == inode.filesystem
}
