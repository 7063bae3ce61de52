//! What lies in layers of overlays, and is locked: the kernel's overlayfs document, "changes to underlying filesystems".
ghost use Rattle.std.specs.Prelude.{◌≡◌};
ghost use Rattle.std.specs.List.{list_any};
ghost use Rattle.vt_location.specs.Locations.{inode_of};
ghost use Rattle.vt_fs.specs.FilesystemsValue.{files_at};
ghost use Rattle.vt_fs.specs.Laws.{ParentsAreNamed};
ghost use Rattle.vt_store.specs.Locks.{is_in_layer, lies_in_overlay, names_in_layer};

use crate::overlays::Overlays;
use crate::store::Store;
use vt_fs::Filesystems;
use vt_location::InodeRef;
use vt_upper_overlay::has_name;

impl Store {
    /// Whether an inode of a plain tree lies in a layer of an overlay, or in its work directory: it is that directory, a
    /// directory under it, or has a name in one of these; or an overlay keeps it without a name, as what counts as under
    /// its upper directory. If a layer is in its filesystem, it costs a look-up for each directory above it, and of a file
    /// above each of its names, and one for each overlay. Directories must be named in their parents, as in every tree of a
    /// world. It does not allocate.
    pub fn is_in_layer(&self, inode: InodeRef) -> bool
        requires { ParentsAreNamed (files_at self.now.plain inode.filesystem.count).tree }
        ensures { result ≡ is_in_layer self.now inode.filesystem.count (inode_of inode) }
    {
        lies_in_any(&self.plain, &self.overlays, inode) || self.overlays.keep_object(inode)
    }
}

// Whether an inode lies in a layer of one of the overlays. In a filesystem that has no layer it is not looked for.
fn lies_in_any(plain: &Filesystems, overlays: &Overlays, inode: InodeRef) -> bool
    requires { ParentsAreNamed (files_at plain.now inode.filesystem.count).tree }
    ensures { result
        ≡ list_any (lies_in_overlay plain.now inode.filesystem.count (inode_of inode)) overlays.now }
{
    if !overlays.have_layer_in(inode.filesystem) {
        return false;
    }
    match plain.node(inode.node_ref()) {
        Some(node) if node.is_directory() => overlays.have_layer_over(plain, inode),
        _ => has_name_in_layer(plain, overlays, inode),
    }
}

// Whether a directory in a layer of one of the overlays has a name for a file.
fn has_name_in_layer(plain: &Filesystems, overlays: &Overlays, file: InodeRef) -> bool
    requires { ParentsAreNamed (files_at plain.now file.filesystem.count).tree }
    ensures { result
        ≡ list_any (names_in_layer plain.now overlays.now file.filesystem.count (inode_of file))
        (files_at plain.now file.filesystem.count).numbers }
{
    let Some(tree) = plain.get(file.filesystem) else {
        return false;
    };
    let directories = tree.directories_of(file.node());
    for directory in directories {
        let filesystem = file.filesystem;
        let slot = directory.index();
        if names_in_layer(plain, overlays, file, InodeRef { filesystem, slot }) {
            return true;
        }
    }
    false
}

// Whether a directory has a name for a file, and lies in a layer of one of the overlays.
fn names_in_layer(
    plain: &Filesystems,
    overlays: &Overlays,
    file: InodeRef,
    directory: InodeRef,
) -> bool
    requires named { ParentsAreNamed (files_at plain.now file.filesystem.count).tree }
    requires one_filesystem { directory.filesystem ≡ file.filesystem }
    ensures { result ≡ names_in_layer plain.now overlays.now file.filesystem.count (inode_of file)
        (inode_of directory) }
{
    // Most files lie in no layer: only of one that does are the names of the directory looked at.
    overlays.have_layer_over(plain, directory) && has_name(plain, directory, file)
}
