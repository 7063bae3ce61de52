//! What mounting an overlay makes of a world.
ghost use Rattle.vt_laws_trees.specs.Layers.Layers.Mounting.{MountingKeepsOverlays, MountingKeepsTrees, MountingMakesOverlay};

/// In a world with all invariants, by distinct numbers of no filesystem, every `mount overlay` leaves all invariants of
/// `trees` and of `overlays`. A granted one `makes` the merged tree of the layers that its words lead to.
pub fn mounting_an_overlay_keeps_the_invariants()
    ensures trees { MountingKeepsTrees }
    ensures overlays { MountingKeepsOverlays }
    ensures makes { MountingMakesOverlay }
{}
