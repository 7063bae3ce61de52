//! What the sweep leaves and what it frees. Worlds are any, unless a law says otherwise.
ghost use Rattle.vt_laws_mounts.specs.LettingGo.Counts.{LocatedWhileCounted, MembersWhileCounted, MountedWhileCounted, OneMountLess, OneUseLess, UsedWhileCounted};
ghost use Rattle.vt_laws_mounts.specs.LettingGo.InUse.{NothingGoes, WhatIsLeftIsInUse, OneSweepIsEnough};
ghost use Rattle.vt_laws_mounts.specs.LettingGo.OneByOne.{AllGoesOneByOne, FilesystemIsLookedUp, FilesystemsGoOneByOne, GroupIsLookedUp, GroupsGoOneByOne, InodeIsLookedUp, InodesGoOneByOne, MountIsLookedUp, MountsGoOneByOne};
ghost use Rattle.vt_laws_mounts.specs.LettingGo.Overlays.{AllInodesGoOneByOne, FilesystemsTakeTheirUses, MergedGoOneByOne, OneUpperUseLess, WithOverlaysAllGoes};
ghost use Rattle.vt_laws_mounts.specs.LettingGo.Worlds.{LocationsOfWorldsStand, MountsOfWorldsStand, PlainWorldsAreSettled, RealsOfWorldsAreThere, UppersOfWorldsArePlain, WorldsAreSettled, WorldsHaveTrees};

/// If all is in use, the sweep frees `nothing`. If there are trees, and no upper layer is in an overlay, all that it
/// leaves is in use (`left`), and a second frees nothing (`twice`).
pub fn one_sweep_is_enough()
    ensures nothing { NothingGoes }
    ensures left { WhatIsLeftIsInUse }
    ensures twice { OneSweepIsEnough }
{}

/// If all others are in use, the sweep of `mounts`, of `filesystems`, overlays too, and of `groups` is to look at the
/// losers. That of `inodes` is, and the whole (`all`), of plain trees.
///
/// For `all`, each kind is in use in the world that those before it left.
pub fn things_go_one_by_one()
    ensures mounts { MountsGoOneByOne }
    ensures filesystems { FilesystemsGoOneByOne }
    ensures inodes { InodesGoOneByOne }
    ensures groups { GroupsGoOneByOne }
    ensures all { AllGoesOneByOne }
{}

/// In worlds fit for overlays, if all others are in use, the sweep is to look at losers in overlays (`merged`), then in
/// plain trees and at upper inodes (`inodes`, `all`).
///
/// The upper inodes are those of the losers in overlays. In all worlds an inode of an overlay that is freed is one use
/// less of its upper object, if it has one, and of no other inode (`upper`). Its number stands once beside the tree. If
/// others are in use, what loses a use with `filesystems` are directories of layers and upper objects of overlays among
/// them.
pub fn things_of_overlays_go_one_by_one()
    ensures merged { MergedGoOneByOne }
    ensures upper { OneUpperUseLess }
    ensures inodes { AllInodesGoOneByOne }
    ensures filesystems { FilesystemsTakeTheirUses }
    ensures all { WithOverlaysAllGoes }
{}

/// A mount is `located`, a filesystem `mounted`, an inode used (`inodes`), and a group has `members`, just while its
/// count is not zero. A `location` left is one use less of its mount alone, a freed `mount` of its filesystem.
pub fn uses_are_counted()
    ensures located { LocatedWhileCounted }
    ensures mounted { MountedWhileCounted }
    ensures inodes { UsedWhileCounted }
    ensures members { MembersWhileCounted }
    ensures location { OneUseLess }
    ensures mount { OneMountLess }
{}

/// To look at a `mount`, `filesystem` or `inode` of a plain tree is to look it up by number, and free it unless used.
/// Mounts are numbered; for inodes, filesystems have their own numbers.
///
/// To look at a `group` is to take its master unless it has members.
pub fn things_are_looked_up()
    ensures mount { MountIsLookedUp }
    ensures filesystem { FilesystemIsLookedUp }
    ensures inode { InodeIsLookedUp }
    ensures group { GroupIsLookedUp }
{}

/// A world with all invariants is `settled`; a `plain` one is settled plain. It has `trees`; `mounts` and `locations`
/// stand; no upper layer is in an overlay (`uppers`), no real object of a missing inode (`reals`).
pub fn worlds_are_fit_to_be_swept()
    ensures trees { WorldsHaveTrees }
    ensures mounts { MountsOfWorldsStand }
    ensures uppers { UppersOfWorldsArePlain }
    ensures reals { RealsOfWorldsAreThere }
    ensures locations { LocationsOfWorldsStand }
    ensures settled { WorldsAreSettled }
    ensures plain { PlainWorldsAreSettled }
{}
