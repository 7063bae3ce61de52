//! Births of what was copied up: for code that gives the inodes of an overlay numbers, and finds their objects.
//!
//! A real object has the number with which it was *born*; a copy has that of the inode that was copied. *Births* say
//! whose copies the inodes of the upper layer are (`AreBirths`). New numbers are different, and no inode's of the upper
//! layer's tree.
ghost use Rattle.vt_laws_upper_layers.specs.Births.{BirthsFollowChanges, BirthsFollowCopies, BirthsGoWithInodes, InodesFindTheirObjects, InodesHaveOneCopy, InodesHaveOwnObjects};
ghost use Rattle.vt_laws_upper_layers.specs.Naming.{BirthsName, KeptAreLocated, KeptFollowChanges};

/// Births of a whole overlay, with those of what is copied, are its births after `copies`, and after each good change
/// (`changes`). Where `inodes` go, the births of those that are left are its births.
///
/// What a change makes is born with the number of its upper inode.
pub fn births_follow_changes()
    ensures copies { BirthsFollowCopies }
    ensures changes { BirthsFollowChanges }
    ensures inodes { BirthsGoWithInodes }
{}

/// No two inodes have one real object (`objects`), and no inode has two copies (`copies`). An inode's real object is
/// its copy, if it has one, else what has its number by birth (`found`).
pub fn births_tell_objects()
    ensures objects { InodesHaveOwnObjects }
    ensures copies { InodesHaveOneCopy }
    ensures found { InodesFindTheirObjects }
{}

/// An overlay is `named` (`IsNamedBy`) by its births, and by the inodes that are *kept*: of those without a name, but
/// for the root, just these are there (`AreKept`). After a good change of a whole overlay what lost its name is kept,
/// too (`changes`).
///
/// The sweep leaves those of them that are at locations of tasks, roots of mounts or mount points (`swept`). The world
/// before it is under way, and has the invariants of overlays.
pub fn births_name_overlays()
    ensures named { BirthsName }
    ensures changes { KeptFollowChanges }
    ensures swept { KeptAreLocated }
{}
