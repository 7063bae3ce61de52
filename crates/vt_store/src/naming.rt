//! Whether inodes have names: unlink(2) of one that is in use leaves it without.
ghost use Rattle.std.specs.Prelude.{◌≡◌, nat_eq};
ghost use Rattle.vt_spec.specs.Lists.{is_among};
ghost use Rattle.vt_spec.specs.Machine.Sealed.{all_named};
ghost use Rattle.vt_spec.specs.Machine.Settled.{named_in};
ghost use Rattle.vt_location.specs.Locations.{inode_of};
ghost use Rattle.vt_fs.specs.FilesystemsValue.{files_at};
ghost use Rattle.vt_store.specs.Naming.{lacks_no_name};

use crate::store::Store;
use vt_fs::Filesystems;
use vt_location::{FilesystemId, InodeRef};
use vt_upper_overlay::has_name;

impl Store {
    /// Whether each inode of a plain filesystem but its root has a name. One that does not exist has no inodes.
    ///
    /// It costs a look-up for each name. It does not allocate.
    pub fn all_named(&self, filesystem: FilesystemId) -> bool
        ensures { result ≡ all_named nat_eq (files_at self.now.plain filesystem.count) }
    {
        have_names(&self.plain, filesystem)
    }
}

// Whether each inode of a filesystem but its root has a name.
fn have_names(plain: &Filesystems, filesystem: FilesystemId) -> bool
    ensures { result ≡ all_named nat_eq (files_at plain.now filesystem.count) }
{
    let Some(tree) = plain.get(filesystem) else {
        return true;
    };
    for slot in 0..tree.end() {
        if !lacks_no_name(plain, InodeRef { filesystem, slot }) {
            return false;
        }
    }
    true
}

// Whether an inode does not exist, is the root, or has a name.
fn lacks_no_name(plain: &Filesystems, inode: InodeRef) -> bool
    ensures { result ≡ lacks_no_name (files_at plain.now inode.filesystem.count) (inode_of inode) }
{
    plain.node(inode.node_ref()).is_none() || is_root(plain, inode) || is_named(plain, inode)
}

// Whether an inode is the root of its filesystem.
fn is_root(plain: &Filesystems, inode: InodeRef) -> bool
    ensures { result ≡ nat_eq (inode_of inode) (files_at plain.now inode.filesystem.count).tree.root }
{
    match plain.root(inode.filesystem) {
        Some(root) => inode.node_ref().is_same(root),
        None => false,
    }
}

// Whether some directory has a name for an inode.
fn is_named(plain: &Filesystems, inode: InodeRef) -> bool
    ensures { result ≡ is_among nat_eq (inode_of inode) (named_in (files_at plain.now inode.filesystem.count)) }
{
    let Some(tree) = plain.get(inode.filesystem) else {
        return false;
    };
    let directories = tree.directories_of(inode.node());
    for directory in directories {
        let filesystem = inode.filesystem;
        let slot = directory.index();
        if has_name(plain, InodeRef { filesystem, slot }, inode) {
            return true;
        }
    }
    false
}
