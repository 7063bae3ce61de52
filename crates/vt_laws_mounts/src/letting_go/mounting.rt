//! What is freed after a change of several mounts.
ghost use Rattle.vt_laws_mounts.specs.LettingGo.Attaching.{BindsKeepAll, CopiesKeepAll, MovedTreesLetGo, MovesLetGo, NewFilesystemsKeepAll, NewMountsOfTreesKeepAll};
ghost use Rattle.vt_laws_mounts.specs.LettingGo.Mounting.{EndingLetsGo, MovingLetsGo, TakingAwayLetsGo};
ghost use Rattle.vt_laws_mounts.specs.LettingGo.Pivoting.{PivotedLetsGo, PivotsLetGo};
ghost use Rattle.vt_laws_mounts.specs.LettingGo.Several.{GoingIsNotSwept, OneSweepForAllEvents, OneSweepForAllMounts, OneSweepForEvents, OneSweepForMounts};
ghost use Rattle.vt_laws_mounts.specs.LettingGo.Unmounting.{LazyUnmountsLetGo, MountsOnDirectoriesLetGo, TreesLetGo, UnmountsLetGo};

/// If mounts are `taken_away`, or those of namespaces that `ended`, the losers are theirs and the named groups. If
/// mounts are `moved`, and nowhere outside then, the losers are the inodes of their old mount points and those groups.
///
/// Mounts that are moved keep namespace, filesystem and root.
pub fn what_mounts_leave_goes()
    ensures taken_away { TakingAwayLetsGo }
    ensures ended { EndingLetsGo }
    ensures moved { MovingLetsGo }
{}

/// Any mounts are taken away: one sweep is enough (`several`, `each`). Filesystems are plain trees, and the invariants
/// of mounts hold, for `each` on the way; for `several` mounts stand afterwards.
///
/// `each` is for any number of lists of mounts.
pub fn mounts_that_leave_one_by_one_are_swept_once()
    ensures several { OneSweepForMounts }
    ensures each { OneSweepForAllMounts }
{}

/// Nothing is freed if `copies` are put on an attached mount, by a `bind`, a `new_mount` or a new `filesystem` of root
/// and named inodes. In any world, all was in use, and mounts and locations stand.
///
/// There is a copy at each receiver. A bind may be recursive.
pub fn what_is_attached_keeps_all()
    ensures copies { CopiesKeepAll }
    ensures bind { BindsKeepAll }
    ensures filesystem { NewFilesystemsKeepAll }
    ensures new_mount { NewMountsOfTreesKeepAll }
{}

/// If mounts of the world move (`trees`), or an attached one with all below it (`moves`), the loser is the inode of the
/// first one's old mount point. Locations stand, and the destination's mount is attached.
pub fn what_a_move_leaves_goes()
    ensures trees { MovedTreesLetGo }
    ensures moves { MovesLetGo }
{}

/// The loser of a `pivot`, or of one of any namespace (`pivoted`), is the inode of the new root mount's old mount
/// point. Old and new root mount are attached.
pub fn what_a_pivot_leaves_goes()
    ensures pivoted { PivotedLetsGo }
    ensures pivot { PivotsLetGo }
{}

/// An `unmount` with its receivers, a `lazy` one, the end of `trees`, or that of the mounts on a removed `directory`
/// and all below takes mounts away. The losers are theirs, and their groups.
pub fn what_an_unmount_leaves_goes()
    ensures unmount { UnmountsLetGo }
    ensures lazy { LazyUnmountsLetGo }
    ensures trees { TreesLetGo }
    ensures directory { MountsOnDirectoriesLetGo }
{}

/// In any world with the invariants of mounts, an unmount event detaches the same mounts if the world is swept
/// (`going`). One sweep is enough (`several`, `each`), with the premises of
/// `mounts_that_leave_one_by_one_are_swept_once`.
///
/// An event does nothing, if an earlier one detached its mount.
pub fn events_of_unmounts_are_swept_once()
    ensures going { GoingIsNotSwept }
    ensures several { OneSweepForEvents }
    ensures each { OneSweepForAllEvents }
{}
