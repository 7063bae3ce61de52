//! How many locations are on what overlays keep. The *locations on* an inode (`locations_on`) are the locations of
//! tasks, the roots of mounts and the mount points there.
ghost use Rattle.vt_laws_kept.specs.Counts.{LocationsAreExchanged, UnnamedExistWhileLocated, UnnamedGoWithTheirLastLocation, UnnamedUsesAreLocations};

/// The `uses` of an unnamed inode of an overlay are the locations on it, and it `exists` just while there are any. In
/// any world, uses that mounts and tasks exchange are locations, whatever filesystems become (`exchanged`).
pub fn unnamed_inodes_are_used_by_locations()
    ensures uses { UnnamedUsesAreLocations }
    ensures exists { UnnamedExistWhileLocated }
    ensures exchanged { LocationsAreExchanged }
{}

/// The sweep of a world under way, with the invariants of overlays, takes from each overlay that it leaves the unnamed
/// inodes without a location on them, with their real objects, and nothing else.
pub fn unnamed_inodes_go_with_their_last_location()
    ensures { UnnamedGoWithTheirLastLocation }
{}
