//! Overlays that are kept, after a permit.
ghost use Rattle.vt_world.specs.OverlaysKept.Kept.{KeptOverlaysStay};

/// Let no overlay of a world with all invariants have an upper layer or an unnamed inode. An overlay that a given
/// permit leaves has the same tree and real objects, by layers kept as the world has them.
///
/// The layers are directories; their trees are kept so before the permit and after it.
pub fn kept_overlays_stay()
    ensures { KeptOverlaysStay }
{}
