//! Laws of what is locked, and of directories that overlap layers.
ghost use Rattle.vt_overlaps.specs.Laws.{DirectoriesOverlapAlike, LocksAreThoseOfTheWorld, OverlapsAreWithLiveLayers, PlainFilesystemsAreLockedAlike, ReadOnlyOverlaysKeepAsStored, ReadOnlyOverlaysKeepNothing, WrittenOverlapAlike};

/// In a world with all invariants that has the filesystems of a store, and whose overlays keep without a name what those of
/// the store do, as read-only ones do (`kept`), what lies in layers of the store is what rule L1 locks (`locked`).
pub fn what_lies_in_layers_is_locked()
    ensures locked { LocksAreThoseOfTheWorld }
    ensures kept { ReadOnlyOverlaysKeepNothing }
{}

/// In a world with all invariants that has a plain filesystem of a store, and locks there what lies in layers of the store,
/// `overlaps_live` is what rule O3 asks of an upper or a work directory: whether it overlaps a layer of a live overlay
/// (`live`).
///
/// So it locks in each plain filesystem of a store whose filesystems it has (`alike`).
pub fn overlaps_are_with_live_layers()
    ensures live { OverlapsAreWithLiveLayers }
    ensures alike { PlainFilesystemsAreLockedAlike }
{}

/// In a world with all invariants that has the filesystems of a store, and in which each overlay keeps without a name what
/// it does in the store, as read-only ones do (`kept`), a directory of a plain filesystem overlaps one of others just if it
/// does in the store (`directories`), and so one of the upper and work directories of live overlays (`written`).
pub fn directories_overlap_as_in_the_world()
    ensures directories { DirectoriesOverlapAlike }
    ensures written { WrittenOverlapAlike }
    ensures kept { ReadOnlyOverlaysKeepAsStored }
{}
