//! Layers of a new overlay are directories of plain trees, at least one, and new numbers are different.
ghost use Rattle.vt_laws_worlds.specs.OverlaysLetGo.NewOverlays.{NewMountsOfOverlaysKeepAll, NewOverlaysAreNamed};

/// Each inode of a new overlay is its root or has a name (`named`). `mount overlay` frees nothing, if the mount of the
/// destination is attached (`new_mount`).
pub fn what_is_mounted_as_an_overlay_keeps_all()
    ensures named { NewOverlaysAreNamed }
    ensures new_mount { NewMountsOfOverlaysKeepAll }
{}
