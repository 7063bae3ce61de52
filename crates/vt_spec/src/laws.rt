//! Laws of the definitions.
//!
//! Each public function is a theorem of the written policy, and does nothing.
ghost use Rattle.vt_spec.specs.Laws.Trees.{FileBytesKeepTree, NewObjectKeepsTree, RootIsTree};

/// One empty directory is a tree (`root`), and other bytes of a file keep one (`file_bytes`). So does a new inode, no
/// directory or an empty one, by a new number under a free name of a reached directory (`new_object`).
pub fn trees_stay_trees()
    ensures root { RootIsTree }
    ensures new_object { NewObjectKeepsTree }
    ensures file_bytes { FileBytesKeepTree }
{}
