//! What is freed with the uses that one kind of change took away.
ghost use Rattle.vt_laws_mounts.specs.LettingGo.Detaching.{DetachingLetsGo, UnmountIsOfOne};
ghost use Rattle.vt_laws_mounts.specs.LettingGo.FileChanges.{ChangesKeepNames, FileChangesLetGo, MadeKeepsAll, OpenedNewKeepsAll, RemovedDirectoriesLetGo, ReplacingLetsGo, TakenAndFileChangesLetGo, WrittenPartsKeepAll};
ghost use Rattle.vt_laws_mounts.specs.LettingGo.Keeping.{FlagsAreOfOne, FlagsKeepAll, NewMountsKeepAll, SetFlagsKeepAll, TypesKeepAll};
ghost use Rattle.vt_laws_mounts.specs.LettingGo.Leaving.{LeavingLetsGo, OneSweepForAll, OneSweepForSeveral, StayingKeepsAll};
ghost use Rattle.vt_laws_mounts.specs.LettingGo.LeavingOverlays.{LeavingOverlaysLetsGo, OneSweepForAllWithOverlays, OneSweepForSeveralWithOverlays, StayingKeepsOverlays};
ghost use Rattle.vt_laws_mounts.specs.LettingGo.Retyping.{SetTypesLetGo};
ghost use Rattle.vt_laws_mounts.specs.LettingGo.TaskCalls.{ChangedDirectoriesLetGo, ChangedRootsLetGo, ClosesLetGo, ForksKeepAll, NewCredentialsKeepAll, NewUmasksKeepAll, OpenedFilesKeepAll};
ghost use Rattle.vt_laws_mounts.specs.LettingGo.TreeChanges.{NamedStay, UnnamedGo};
ghost use Rattle.vt_laws_mounts.specs.LettingGo.TreesOverlays.{ChangedTreesKeepAll, ChangedTreesLetGo, LeftAndChangedLetsGo, OpenedKeepsAll, TakenAndChangedLetsGo, UnnamedGoWithOverlays};

/// If tasks come, end or go to other locations, and no namespace ends, the losers are those of each location `left`; if
/// none was, nothing is freed (`stayed`). If tasks come to no new location, one sweep is enough.
///
/// The latter is for one such change (`several`) and for any number (`each`). Filesystems are plain trees and mounts
/// stand there.
pub fn what_tasks_leave_goes()
    ensures left { LeavingLetsGo }
    ensures stayed { StayingKeepsAll }
    ensures several { OneSweepForSeveral }
    ensures each { OneSweepForAll }
{}

/// The same (`left`, `stayed`, `several`, `each`).
pub fn what_tasks_leave_goes_with_overlays()
    ensures left { LeavingOverlaysLetsGo }
    ensures stayed { StayingKeepsOverlays }
    ensures several { OneSweepForSeveralWithOverlays }
    ensures each { OneSweepForAllWithOverlays }
{}

/// In a settled world the losers are, with layers, those of the closed descriptors' locations (`close`), the old
/// working directory (`chdir`), or the old root (`chroot`). The world has the task, and no two have one name.
pub fn what_a_call_of_a_task_leaves_goes()
    ensures close { ClosesLetGo }
    ensures chdir { ChangedDirectoriesLetGo }
    ensures chroot { ChangedRootsLetGo }
{}

/// With the same premises, nothing is freed after a `fork`, another `umask`, other `credentials`, or an `open` that
/// copies nothing up.
pub fn what_a_call_of_a_task_keeps()
    ensures fork { ForksKeepAll }
    ensures umask { NewUmasksKeepAll }
    ensures credentials { NewCredentialsKeepAll }
    ensures open { OpenedFilesKeepAll }
{}

/// The tree of an existing filesystem changes to one with its root, in which each new inode has a name. The losers are
/// inodes that may have lost their last name (`unnamed`); without any, nothing is freed (`named`).
///
/// The numbers beside the tree are those of its inodes, before and after.
pub fn what_loses_its_name_goes()
    ensures unnamed { UnnamedGo }
    ensures named { NamedStay }
{}

/// A `change` of an existing plain tree that stays one (`MayChange`), in a settled world of numbered filesystems, has
/// as loser the inode with the removed or given name. Mounts taken away add theirs (`with_mounts`, `rmdir`, `rename`).
///
/// The tree has its numbers before and after. A new inode has a new number and a directory for its name; what moves had
/// the old name and gets a directory (`MayChange`).
///
/// A change keeps the root and all `names`, but the one removed or given; this asks of trees alone. Bytes, attributes
/// and marks have no loser. Losers of mounts are with layers. Mounts of `rmdir`, and of a `rename` that replaces an
/// object, are those on what goes, and all below.
pub fn what_a_file_call_leaves_goes()
    ensures names { ChangesKeepNames }
    ensures change { FileChangesLetGo }
    ensures with_mounts { TakenAndFileChangesLetGo }
    ensures rmdir { RemovedDirectoriesLetGo }
    ensures rename { ReplacingLetsGo }
{}

/// With the same premises, nothing is freed after a call that makes an inode of a new number under a free name (`make`,
/// `open`). For `open` the task is of the world, and no two have one name.
///
/// `make` is of `mkdir`, `symlink` and `whiteout`.
pub fn what_is_made_keeps_all()
    ensures make { MadeKeepsAll }
    ensures open { OpenedNewKeepsAll }
{}

/// In a settled world of numbered filesystems, nothing is freed after a write of a part of a file in an existing plain
/// tree, or of no bytes.
pub fn what_is_written_keeps_all()
    ensures { WrittenPartsKeepAll }
{}

/// Filesystems of a settled world change (`ChangesFilesystem`), and it is fit for overlays afterwards. The losers are
/// inodes that may have lost their last name or overlay (`trees`); if none did, nothing is freed (`kept`).
///
/// Each filesystem keeps number, root and layers, and each new inode has a name or is a real object. An inode loses an
/// overlay if it was a real object of it.
///
/// For a `plain` tree, a layer or not, `what_loses_its_name_goes` holds in a settled world whose filesystems have their
/// own numbers.
pub fn what_loses_its_name_goes_with_overlays()
    ensures trees { ChangedTreesLetGo }
    ensures kept { ChangedTreesKeepAll }
    ensures plain { UnnamedGoWithOverlays }
{}

/// Mounts are taken away (`removed`), or tasks leave locations (`left`), and filesystems change as in the law before:
/// the losers are those of both. If no location, name or real object is lost, nothing is freed (`opened`).
///
/// A new inode without a name is a real object of an overlay that is left without unused mounts and filesystems.
pub fn what_one_call_leaves_goes_with_overlays()
    ensures removed { TakenAndChangedLetsGo }
    ensures left { LeftAndChangedLetsGo }
    ensures opened { OpenedKeepsAll }
{}

/// If a mount without children changes mount point or namespace, and any change type and master, the losers are its own
/// and the named groups (`left`). Mounts are nowhere outside afterwards.
///
/// In any world, an `unmount` of a mount without children, whose parent is not shared, detaches it alone; then groups
/// are handed on.
pub fn what_a_mount_leaves_goes()
    ensures unmount { UnmountIsOfOne }
    ensures left { DetachingLetsGo }
{}

/// In any world in which all was in use, nothing is freed if `types`, flags and masters change, and groups without
/// members have no master afterwards. Nor is it by a change of `flags`, if mounts are numbered (`set_flags`).
///
/// Such a change of flags is of `one` record.
pub fn types_and_flags_keep_all()
    ensures types { TypesKeepAll }
    ensures one { FlagsAreOfOne }
    ensures flags { FlagsKeepAll }
    ensures set_flags { SetFlagsKeepAll }
{}

/// In any world in which all was in use and mounts stand, an attached mount, or its tree, changes type. The losers are
/// the groups of these mounts and the new ones.
pub fn what_a_change_of_types_leaves_goes()
    ensures { SetTypesLetGo }
{}

/// Nothing is freed if attached mounts, and filesystems that they show, are added, and groups without members have no
/// master then. In any world, all was in use, mounts and locations stand; new inodes are roots or named.
pub fn new_mounts_keep_all()
    ensures { NewMountsKeepAll }
{}
