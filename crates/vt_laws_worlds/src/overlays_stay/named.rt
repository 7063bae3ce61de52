//! Names of the inodes of overlays.
ghost use Rattle.vt_laws_worlds.specs.OverlaysStay.Named.{SeenOverlaysHaveNames, SeenWorldsHaveNames};

/// If an overlay's real objects are found along the paths of its layers, with none held, each of its inodes is the root
/// or has a name (`one`).
///
/// Its inodes are numbered so, too. If it is so of all overlays, all are named (`all`).
pub fn overlays_that_are_seen_have_names()
    ensures one { SeenOverlaysHaveNames }
    ensures all { SeenWorldsHaveNames }
{}
