//! Calls of members that mount overlays.
ghost use Rattle.vt_laws_members.specs.NewOverlays.OverlayMounts.{OverlayMountsEndAlike};

/// Each `mount overlay` ends alike by one supply (`mount_overlay`).
pub fn calls_of_theirs_that_mount_overlays_end_alike()
    ensures mount_overlay { OverlayMountsEndAlike }
{}
