//! Names of a directory that lead to an inode of its tree.
ghost use Rattle.std.specs.Prelude.{◌≡◌, nat_eq};
ghost use Rattle.vt_spec.specs.FileTree.{has_entry_to};
ghost use Rattle.vt_location.specs.Locations.{inode_of};
ghost use Rattle.vt_fs.specs.FilesystemsValue.{files_at};

use vt_fs::Filesystems;
use vt_location::InodeRef;

/// Whether a directory has a name for an inode of its filesystem.
pub fn has_name(trees: &Filesystems, directory: InodeRef, file: InodeRef) -> bool
    requires { directory.filesystem ≡ file.filesystem }
    ensures { result ≡ has_entry_to nat_eq (files_at trees.now file.filesystem.count).tree (inode_of directory)
        (inode_of file) }
{
    match trees.node(directory.node_ref()) {
        Some(node) => node.name_ranked(file.node(), 0).is_some(),
        None => false,
    }
}
