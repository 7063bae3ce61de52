//! What uses an inode of an overlay.
ghost use Rattle.vt_laws_worlds.specs.Seen.InodeUses.{OverlaysAreUsedByLocations, UnnamedAreUsedWhereLocated};

/// An inode of an overlay is used only as the root, by names, and by locations of tasks, roots and mount points of
/// mounts (`uses`).
///
/// If it is not the root and has no name, it is in use just if one of these locations is on it (`unnamed`).
pub fn overlays_are_used_by_locations()
    ensures uses { OverlaysAreUsedByLocations }
    ensures unnamed { UnnamedAreUsedWhereLocated }
{}
