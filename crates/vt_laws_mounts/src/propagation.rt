//! Copies of mounts: where they stand, their types, and who hears of their events.
//!
//! The *parts* of a bind, a new mount or a move are the destination and each receiver that takes part. Each gets a
//! *copy* of each mount of the tree; the destination of a move gets the mount itself. The first three laws are of
//! attachments that can be made (`CanAttach`).
ghost use Rattle.vt_laws_mounts.specs.Mounts.Propagation.{BindsCan, CopiesAreNew, CopiesAtLowerGroupsFollow, CopiesAtPeersArePeers, CopiesAtSlavesAreSlaves, CopiesHearAsTheirOrigins, CopiesHearOneAnother, EachIsCopied, FirstStandsOnItsPart, LowerGroupsHaveAGroupAbove, MovesCan, NewMountsCan, OthersStandOnCopies, PrivateOnShared, SharedOnShared, SlaveOnShared, SlavesHaveAGroupAbove, TypeOnNotShared, UnmountUndoesBind, UnmountUndoesNewMount, UnshareListsOthersTheSame, UnshareListsTheSame};

/// By new numbers, where the invariants of mounts hold, `binds`, `new_mounts` and `moves` of existing mounts can be
/// made. Each copy is in its part's namespace, with filesystem, root and flags of its origin (`copied`).
///
/// The number of a copy is `new`, but for what moves. The `first` of the tree stands on the part, at the destination's
/// node; each of the `others` on the copy of its parent, at the same node. At a move's destination this is not said of
/// what stood at that location of a receiver.
pub fn copies_take_their_mount_points()
    ensures binds { BindsCan }
    ensures new_mounts { NewMountsCan }
    ensures moves { MovesCan }
    ensures copied { EachIsCopied }
    ensures new { CopiesAreNew }
    ensures first { FirstStandsOnItsPart }
    ensures others { OthersStandOnCopies }
{}

/// At a destination that is `not_shared` a mount keeps its type. At a shared one a `shared` mount stays in its group, a
/// `private` one gets a new group without master, a `slave` a new group with its master.
///
/// Of an unbindable one there (M3 and M5 refuse it) nothing is said. *Above* a receiver is the nearest group, up its
/// masters, with a part as member. Each slave and each member of a group other than the destination's has one, in every
/// world (`above_slaves`, `above_groups`). Copies at `peers` are peers. Those at `slaves` are slaves of the copies
/// above, and those at other groups' members are in a new group with these copies' group as master (`lower_groups`).
pub fn copies_take_their_type()
    ensures not_shared { TypeOnNotShared }
    ensures shared { SharedOnShared }
    ensures private { PrivateOnShared }
    ensures slave { SlaveOnShared }
    ensures peers { CopiesAtPeersArePeers }
    ensures slaves { CopiesAtSlavesAreSlaves }
    ensures lower_groups { CopiesAtLowerGroupsFollow }
    ensures above_slaves { SlavesHaveAGroupAbove }
    ensures above_groups { LowerGroupsHaveAGroupAbove }
{}

/// Copies of a mount receive from one another just as the parts do (`one_another`). From groups that had members they
/// receive just as their origin did (`origins`).
pub fn copies_hear_as_receivers_do()
    ensures one_another { CopiesHearOneAnother }
    ensures origins { CopiesHearAsTheirOrigins }
{}

/// By new numbers, the unmount of a `new_mount`, or of a `bind` of one mount, at a free location of a mount undoes it.
/// The invariants of mounts hold, and nothing stands at the same location of a receiver.
///
/// Each old mount has its record back, all copies are detached, and groups that had members have their masters.
pub fn an_unmount_undoes_a_mount()
    ensures new_mount { UnmountUndoesNewMount }
    ensures bind { UnmountUndoesBind }
{}

/// By new numbers, where the invariants of mounts hold, an unshare leaves the list of each other namespace the same
/// text (`others`). That of the new one, if it had no mount, is the text of the caller's (`caller`).
///
/// The world is the one before a namespace ends.
pub fn after_unshare_the_table_reads_the_same()
    ensures caller { UnshareListsTheSame }
    ensures others { UnshareListsOthersTheSame }
{}
