//! Where names lead from the directory of a layer.
ghost use Rattle.std.specs.Prelude.{◌≡◌, IfSome, option_copied, option_map};
ghost use Rattle.vt_spec.specs.Machine.Layers.{at_path, view_of};
ghost use Rattle.vt_spec.specs.Machine.Views.{cuts};
ghost use Rattle.vt_spec.specs.TreeInvariant.{led};
ghost use Rattle.vt_location.specs.Locations.{inode_of};
ghost use Rattle.vt_overlay.specs.Merge.LayerValue.{cut_on, opened, tree_seen};

use crate::merge::entries::{entry, hides};
use crate::merge::ways::Way;
use vt_fs::{Filesystems, Tree};
use vt_location::InodeRef;

// Where names lead in a layer, and whether it hides there what lower ones have.
#[derive(Clone, Copy, Debug)]
pub(crate) struct Followed {
    pub(crate) object: Option<InodeRef>,
    pub(crate) cut: bool,
}

/// Where names lead from a directory of a plain tree, through entries alone. It does not allocate.
pub fn led_to<W: Way>(trees: &Filesystems, directory: InodeRef, path: &W) -> Option<InodeRef>
    ensures object { option_map inode_of result ≡ at_path (opened trees.now directory) (W.names path.now) }
    ensures filesystem { IfSome result (λ object. object.filesystem ≡ directory.filesystem) }
{
    follow(trees, directory, path).object
}

// Names followed from a directory.
pub(crate) fn follow<W: Way>(trees: &Filesystems, directory: InodeRef, path: &W) -> Followed
    ensures object { option_map inode_of result.object ≡ at_path (opened trees.now directory) (W.names path.now) }
    ensures cut { result.cut ≡ cuts (view_of (opened trees.now directory)) (W.names path.now) }
    ensures filesystem { IfSome result.object (λ object. object.filesystem ≡ directory.filesystem) }
{
    follow_in(trees.get(directory.filesystem), directory, path)
}

// The same, in the directory's tree.
fn follow_in<W: Way>(tree: Option<&Tree>, directory: InodeRef, path: &W) -> Followed
    ensures object { option_map inode_of result.object
        ≡ led (tree_seen directory.filesystem.count (option_copied tree.entry)) (inode_of directory)
        (W.names path.now) }
    ensures cut { result.cut
        ≡ cut_on (tree_seen directory.filesystem.count (option_copied tree.entry)) (W.names path.now)
        (inode_of directory) }
    ensures filesystem { IfSome result.object (λ object. object.filesystem ≡ directory.filesystem) }
{
    let mut here = directory;
    let mut cut = false;
    for index in 0..path.len() {
        let Some(next) = entry(tree, here, path.name(index)) else {
            return Followed { object: None, cut };
        };
        here = next;
        cut = cut || hides(tree, here);
    }
    Followed {
        object: Some(here),
        cut,
    }
}
