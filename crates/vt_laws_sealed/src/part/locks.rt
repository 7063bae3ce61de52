//! What is wholly locked for a set. Filesystems are trees with the numbers of their inodes beside them
//! (`IsListedTree`).
ghost use Rattle.vt_laws_sealed.specs.Part.Locked.{OthersChangesLeaveThePart, OthersChangeWhatIsNotUsed, WhollyLockedIsLocked};

/// A sealed set uses no filesystem in which others may change an inode (`IsOthersToChange`, `unused`). Changes there
/// leave the `part`, if it is plain and holds no lower layer of theirs.
///
/// Others may change an inode that is not locked, at a location of a filesystem on which they have a mount or a
/// location. Each inode of a filesystem that is wholly locked for a set is `locked` (L1).
pub fn others_change_no_file_of_a_sealed_set()
    ensures locked { WhollyLockedIsLocked }
    ensures unused { OthersChangeWhatIsNotUsed }
    ensures part { OthersChangesLeaveThePart }
{}
