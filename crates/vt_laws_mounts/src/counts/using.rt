//! Locations and mounts that come and go with the counts of inodes.
ghost use Rattle.vt_laws_mounts.specs.Counts.Sweeping.{SameWorldsCountAlike, UsesAreSwept};
ghost use Rattle.vt_laws_mounts.specs.Counts.Using.{ExchangesFollow, ExchangesTurn, LocationsAreUses, MountIsPlaced, MountsAreUses, MountsLeaveTheirRoots, NewTreeIsCounted, OpeningIsCounted, OthersUseNothing, PlacesStand, UsesAreExchanged};
ghost use Rattle.vt_laws_mounts.specs.LettingGo.Worlds.{LocationsOfWorldsStand};

/// All inodes of trees were in use, what gains exists, and filesystems are plain afterwards. To look at the losers of
/// an exchange, or to sweep, leaves the exchanged inodes (`one_by_one`, `swept`).
///
/// For `swept`, the exchange leads to the world without unused mounts and filesystems.
pub fn uses_are_exchanged()
    ensures one_by_one { UsesAreExchanged }
    ensures swept { UsesAreSwept }
{}

/// Exchanges may be `turned` round, and follow one another (`both`).
pub fn exchanges_follow_one_another()
    ensures turned { ExchangesTurn }
    ensures both { ExchangesFollow }
{}

/// If all else stays, inodes are exchanged at `locations` that come and go, and at roots and mount points of added
/// `mounts`. They are at mount points of a mount with another `place`; `others` exchange none.
///
/// - `mounts`: all are numbered then, and all, with all locations, stood on existing mounts.
/// - `place`: the mount keeps number, filesystem and root, and gets another mount point or none.
/// - `others`: other plain filesystems come and go, and none is an overlay.
pub fn locations_and_mounts_are_uses()
    ensures locations { LocationsAreUses }
    ensures mounts { MountsAreUses }
    ensures place { MountIsPlaced }
    ensures others { OthersUseNothing }
{}

/// Where mounts and locations stand, roots and mount points are on existing mounts (`places`), and an existing mount
/// that nothing uses takes one use of its `root` with it. `locations` of a world with all invariants stand.
pub fn mounts_leave_their_roots()
    ensures locations { LocationsOfWorldsStand }
    ensures places { PlacesStand }
    ensures root { MountsLeaveTheirRoots }
{}

/// A new tree of one directory counts it as its root, and for each mount that shows it (`shown`). Filesystems are
/// plain, mounts numbered, those that show it have this root, and no location or mount point is in it.
///
/// In the `opening` world the root has four uses.
pub fn a_new_tree_is_counted()
    ensures shown { NewTreeIsCounted }
    ensures opening { OpeningIsCounted }
{}

/// Worlds of plain filesystems that are the same (`SameWorlds`) have the same counted inodes.
pub fn same_worlds_count_alike()
    ensures { SameWorldsCountAlike }
{}
