//! What lower layers show, whatever the upper one has there: the kernel's overlayfs document, "whiteouts and opaque
//! directories".
ghost use Rattle.std.specs.Prelude.{◌≡◌, ◌<◌, ◌∷◌, List, Some, drop, length, slice_get, ℕ};
ghost use Rattle.vt_spec.specs.Machine.Layers.{view_of};
ghost use Rattle.vt_spec.specs.Machine.Views.{cuts, hides};
ghost use Rattle.vt_spec.specs.Tree.{is_directory_node};
ghost use Rattle.vt_fs.specs.FilesystemsValue.{files_at};
ghost use Rattle.vt_location.specs.Locations.{inode_of};
ghost use Rattle.vt_overlay.specs.Merge.LayerValue.{opened};
ghost use Rattle.vt_overlay.specs.declared.merge.layers.LayerRef.{LayerRef as Layer};
ghost use Rattle.vt_upper.specs.Below.{is_directory_below, is_shown_below};

use vt_fs::Filesystems;
use vt_location::InodeRef;
use vt_overlay::{Front, LayerRef, MergedDirectory, Way, entry_in, shown};

/// Whether lower layers show a directory at a path, as if the upper layer, which is the first, had nothing there. It does
/// not allocate.
pub(crate) fn directory_below<W: Way>(trees: &Filesystems, layers: &[LayerRef], path: &W) -> bool
    requires { 0 < length layers.now }
    ensures { (upper : Layer) (lowers : List Layer) → layers.now ≡ upper ∷ lowers
        → result ≡ is_directory_below trees.now upper lowers (W.names path.now) }
{
    let upper = upper_of(layers);
    if is_cut(trees, upper.directory, &Front { path }) {
        return false;
    }
    let Some(real) = shown(trees, lowers_of(layers), path) else {
        return false;
    };
    is_directory(trees, real.inode)
}

/// Whether lower layers show something at a path, as if the upper layer, which is the first, had nothing there. It does not
/// allocate.
pub(crate) fn shown_below<W: Way>(trees: &Filesystems, layers: &[LayerRef], path: &W) -> bool
    requires { 0 < length layers.now }
    ensures { (upper : Layer) (lowers : List Layer) → layers.now ≡ upper ∷ lowers
        → result ≡ is_shown_below trees.now upper lowers (W.names path.now) }
{
    let upper = upper_of(layers);
    if is_cut(trees, upper.directory, &Front { path }) {
        return false;
    }
    shown(trees, lowers_of(layers), path).is_some()
}

// The upper layer is the first.
fn upper_of(layers: &[LayerRef]) -> LayerRef
    requires { 0 < length layers.now }
    ensures { slice_get layers.now 0 ≡ Some result }
{
    layers[0]
}

// The lower ones are all others.
fn lowers_of(layers: &[LayerRef]) -> &[LayerRef]
    requires { 0 < length layers.now }
    ensures { result.now ≡ drop 1 layers.now }
{
    &layers[1..]
}

// Whether a directory of a tree hides, along a path, what lower layers have.
fn is_cut<W: Way>(trees: &Filesystems, directory: InodeRef, path: &W) -> bool
    ensures { result ≡ cuts (view_of (opened trees.now directory)) (W.names path.now) }
{
    let mut here = directory;
    for index in 0..path.len() {
        let above = MergedDirectory {
            layer: 0,
            directory: here,
        };
        let Some(found) = entry_in(trees, above, path.name(index)) else {
            return false;
        };
        here = found.object;
        if hides(trees, here) {
            return true;
        }
    }
    false
}

// Whether an inode hides what lower layers have there and under it.
fn hides(trees: &Filesystems, inode: InodeRef) -> bool
    ensures { result ≡ hides ((files_at trees.now inode.filesystem.count).tree.node (inode_of inode)) }
{
    match trees.node(inode.node_ref()) {
        Some(node) => !node.is_directory() || node.is_opaque(),
        None => false,
    }
}

// Whether an inode is a directory.
fn is_directory(trees: &Filesystems, inode: InodeRef) -> bool
    ensures { result
        ≡ is_directory_node ((files_at trees.now inode.filesystem.count).tree.node (inode_of inode)) }
{
    match trees.node(inode.node_ref()) {
        Some(node) => node.is_directory(),
        None => false,
    }
}
