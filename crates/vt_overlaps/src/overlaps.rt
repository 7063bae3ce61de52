//! Inodes that lie in a directory and in a layer: the kernel's overlayfs document, "sharing and copying layers".
ghost use Rattle.std.specs.Prelude.{◌≡◌, ◌&&◌, nat_eq};
ghost use Rattle.vt_spec.specs.FileTree.{has_entry_to, is_directory_under, is_file_under, is_under};
ghost use Rattle.vt_location.specs.Locations.{inode_of};
ghost use Rattle.vt_location.specs.Numbers.{exchanged, inode_number};
ghost use Rattle.vt_fs.specs.FilesystemsValue.{files_at};
ghost use Rattle.vt_fs.specs.Laws.{ParentsAreNamed};
ghost use Rattle.vt_overlaps.specs.Overlaps.{is_in_both, overlaps_live};

use vt_fs::Filesystems;
use vt_location::InodeRef;
use vt_node::NodeId;
use vt_store::Store;
use vt_upper_overlay::has_name;

/// Whether some inode of a plain tree lies in a directory of it, and in a layer of an overlay: rule O3 of a directory that
/// an overlay is to write to.
///
/// It passes over all inodes of the tree. If a layer is in it, it costs a look-up for each directory above each of them,
/// and of a file above each of its names, however many overlays there are. Directories must be named in their parents,
/// as in every tree of a world. It does not allocate.
pub fn overlaps_live(store: &Store, directory: InodeRef) -> bool
    requires { ParentsAreNamed (files_at store.now.plain directory.filesystem.count).tree }
    ensures { result ≡ overlaps_live store.now directory.filesystem.count (inode_of directory) }
{
    let Some(tree) = store.plain().get(directory.filesystem) else {
        return false;
    };
    for slot in 0..tree.end() {
        if is_in_both(store, directory, slot) {
            return true;
        }
    }
    false
}

// Whether the inode in a slot lies in a layer of an overlay, and in a directory of its tree.
fn is_in_both(store: &Store, top: InodeRef, slot: usize) -> bool
    requires { ParentsAreNamed (files_at store.now.plain top.filesystem.count).tree }
    ensures { result ≡ is_in_both store.now top.filesystem.count (inode_of top) (inode_number top.filesystem.count slot) }
{
    let filesystem = top.filesystem;
    let inode = InodeRef { filesystem, slot };
    if store.plain().node(inode.node_ref()).is_none() {
        return false;
    }
    store.is_in_layer(inode) && lies_under(store.plain(), top, slot)
}

// Whether the inode in a slot is a directory of its tree, lies under it, or has a name there.
pub(crate) fn lies_under(plain: &Filesystems, top: InodeRef, slot: usize) -> bool
    requires { ParentsAreNamed (files_at plain.now top.filesystem.count).tree }
    ensures { result ≡ is_under nat_eq (files_at plain.now top.filesystem.count) (inode_of top)
        (inode_number top.filesystem.count slot) }
{
    let filesystem = top.filesystem;
    match plain.node(InodeRef { filesystem, slot }.node_ref()) {
        Some(node) if node.is_directory() => is_directory_under(plain, top, slot),
        _ => is_file_under(plain, top, slot),
    }
}

// Whether the directory in a slot is another one, or lies under it.
fn is_directory_under(plain: &Filesystems, top: InodeRef, slot: usize) -> bool
    requires { ParentsAreNamed (files_at plain.now top.filesystem.count).tree }
    ensures { result ≡ is_directory_under nat_eq (files_at plain.now top.filesystem.count) (inode_of top)
        (inode_number top.filesystem.count slot) }
{
    let filesystem = top.filesystem;
    let upper = top.node_ref();
    let lower = InodeRef { filesystem, slot }.node_ref();
    plain.is_under(upper, lower)
}

// Whether a directory at or under another one has a name for the inode in a slot.
fn is_file_under(plain: &Filesystems, top: InodeRef, slot: usize) -> bool
    requires { ParentsAreNamed (files_at plain.now top.filesystem.count).tree }
    ensures { result ≡ is_file_under nat_eq (files_at plain.now top.filesystem.count) (inode_of top)
        (inode_number top.filesystem.count slot) }
{
    let filesystem = top.filesystem;
    let file = InodeRef { filesystem, slot };
    let Some(tree) = plain.get(filesystem) else {
        return false;
    };
    let directories = tree.directories_of(file.node());
    directories
        .iter()
        .any(|directory| names_under(plain, top, file, *directory))
}

// Whether a directory has a name for a file of its tree, and lies at or under another one.
fn names_under(plain: &Filesystems, top: InodeRef, file: InodeRef, directory: NodeId) -> bool
    requires named { ParentsAreNamed (files_at plain.now top.filesystem.count).tree }
    requires one_filesystem { file.filesystem ≡ top.filesystem }
    ensures { result ≡ (has_entry_to nat_eq (files_at plain.now top.filesystem.count).tree
        (exchanged top.filesystem.count directory) (inode_of file)
        && is_directory_under nat_eq (files_at plain.now top.filesystem.count) (inode_of top)
        (exchanged top.filesystem.count directory)) }
{
    let filesystem = top.filesystem;
    let slot = directory.index();
    has_name(plain, InodeRef { filesystem, slot }, file) && is_directory_under(plain, top, slot)
}
