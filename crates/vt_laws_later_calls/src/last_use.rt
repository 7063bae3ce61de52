//! Each thing goes with its last use.
ghost use Rattle.vt_laws_later_calls.specs.LastUse.{CloseTakesItsFilesystem, CloseTakesItsInode, ExchangeOfOneLosesOneUse, ExitEndsItsNamespace, FilesystemBesideOverlaysGoesWithItsLastUse, FilesystemGoesWithItsLastUse, GroupGoesWithItsLastMember, GroupIsHandedOnWithItsLastMember, InodeBesideOverlaysGoesWithItsLastUse, InodeGoesWithItsLastUse, InodeOfOverlayGoesWithItsLastUse, InodeOverLowersGoesAlone, LocationTakesItsFilesystem, LocationTakesItsInode, MountGoesWithItsLastUse, NamespaceEndsWithItsLastTask, OverlayGoesWithItsLastUse, UpperInodeGoesWithItsLastUse};

use vt_laws_mounts::letting_go::ends::a_group_ends_with_its_last_member;

/// If all is in use and one use of a detached `mount`, `filesystem`, `inode`, `namespace` or `group` is taken away, it
/// is freed just if that was its last. Premises where a clause needs them: numbers of their own for filesystems,
/// trees, invariants of mounts and namespaces, no overlay or none with an upper layer.
///
/// Uses are counted in the world before. For `namespace` and `exchange` not all need be in use (`AllInUse`). Only for
/// `exit` and the last four clauses the world has all invariants.
///
/// An inode *loses one use* (`LosesOneUse`) if it has one less, every other inode as many, and filesystems have the
/// same inodes. An exchange of that use for none is such a loss (`exchange`).
///
/// | clause | use | freed | needs |
/// |---|---|---|---|
/// | `mount` | a location of tasks | its mount, unless that is in a namespace | mounts have numbers of their own |
/// | `filesystem` | a mount | the filesystem that it shows | no overlay; the same filesystems |
/// | `filesystem_beside_overlays` | a mount of a plain filesystem | that, unless a mounted overlay has a layer in it | the same filesystems, numbered |
/// | `overlay` | a mount of an overlay | that; then its layers' filesystems are looked at | the same; no overlay has a layer in it |
/// | `inode` | one of an inode | the inode | no overlay; trees; numbered |
/// | `inode_beside_overlays` | one of an inode in a plain tree | the inode | fit |
/// | `inode_of_overlay` | one of an inode in an overlay | the inode; then the upper inode that was its real object, if any, is looked at | fit |
/// | `inode_over_lowers` | the same, if its real object is no upper inode | the inode alone | fit |
/// | `upper_inode` | the same, if it is one | the inode, and the upper inode if that has no other use | fit; the inode's number stands once beside the tree |
/// | `namespace` | a task | its namespace, with its mounts | invariants of mounts and namespaces |
/// | `exit` | a task, by `exit` | the same, before the sweep | |
/// | `group` | a member that gets no master | before the sweep, slaves and groups below get the group's master | invariants of mounts |
/// | `master` | the same | in the sweep, the group's master | |
/// | `location` | a location in a plain tree, whose mount stays | the inode there, and nothing else in the whole sweep | |
/// | `close` | a descriptor there, by `close` | the same | |
/// | `last_location` | the last location on a mount in no namespace, whose filesystem no other mount shows | these two, and nothing else in the whole sweep | no overlay |
/// | `last_close` | such a descriptor, by `close` | the same | no overlay |
///
/// *Numbered*: filesystems have numbers of their own. *Fit*: numbered, trees, no upper layer in an overlay, and an
/// inode that does not exist has no real object.
pub fn each_thing_goes_with_its_last_use()
    ensures mount { MountGoesWithItsLastUse }
    ensures filesystem { FilesystemGoesWithItsLastUse }
    ensures filesystem_beside_overlays { FilesystemBesideOverlaysGoesWithItsLastUse }
    ensures overlay { OverlayGoesWithItsLastUse }
    ensures exchange { ExchangeOfOneLosesOneUse }
    ensures inode { InodeGoesWithItsLastUse }
    ensures inode_beside_overlays { InodeBesideOverlaysGoesWithItsLastUse }
    ensures inode_of_overlay { InodeOfOverlayGoesWithItsLastUse }
    ensures inode_over_lowers { InodeOverLowersGoesAlone }
    ensures upper_inode { UpperInodeGoesWithItsLastUse }
    ensures location { LocationTakesItsInode }
    ensures close { CloseTakesItsInode }
    ensures last_location { LocationTakesItsFilesystem }
    ensures last_close { CloseTakesItsFilesystem }
    ensures namespace { NamespaceEndsWithItsLastTask }
    ensures exit { ExitEndsItsNamespace }
    ensures group { GroupIsHandedOnWithItsLastMember }
    ensures master { GroupGoesWithItsLastMember }
{
    a_group_ends_with_its_last_member();
}
