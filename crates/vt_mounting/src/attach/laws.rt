//! Laws of attachments.
//!
//! Each public function is a theorem of the written policy, and does nothing.
ghost use Rattle.vt_mounting.specs.Attach.AttachedGroups.{AttachedWorldsGrow, FormedGroupsBegin, GroupsOfCopiesAreNamed};
ghost use Rattle.vt_mounting.specs.Attach.AttachedNumbers.{BindsKeepToNumbers, MovesKeepToNumbers, NewMountsKeepToNumbers};
ghost use Rattle.vt_mounting.specs.Attach.AttachedNumbers.{UnsharesKeepToNumbers};
ghost use Rattle.vt_mounting.specs.Attach.PlannedUses.{PointsAreMoved, PointsAreUses};

/// If mounts of greater numbers come after all others, which keep numbers and types but may move, the groups grow by
/// those of the mounts that come (`ComeAfter`).
///
/// Each group of these mounts exists or is new, and each new group with a master has one of them.
pub fn attached_worlds_grow()
    ensures { AttachedWorldsGrow }
{}

/// `binds` and `moves` take two numbers for each mount of the tree at each part, `new_mounts` four for each part,
/// `unshares`, in worlds with all invariants, two for each mount. The task exists; world and permit keep to earlier
/// numbers.
///
/// The world that is left has no others beside its own. A new mount is also handed an even number for its root.
pub fn attachments_keep_to_their_numbers()
    ensures binds { BindsKeepToNumbers }
    ensures moves { MovesKeepToNumbers }
    ensures new_mounts { NewMountsKeepToNumbers }
    ensures unshares { UnsharesKeepToNumbers }
{}

/// Each group that an attachment makes has a member among its copies (`begin`). If the groups of the tree's shared
/// mounts exist, the group of each copy exists or is one of these (`named`).
pub fn copies_begin_the_groups_that_are_made()
    ensures begin { FormedGroupsBegin }
    ensures named { GroupsOfCopiesAreNamed }
{}

/// If numbered mounts get other mount points, the inodes there are used once more, and those at the old mount points
/// once less (`uses`). Of two new mount points for one mount the first counts (`mounts`).
pub fn points_are_uses()
    ensures uses { PointsAreUses }
    ensures mounts { PointsAreMoved }
{}
