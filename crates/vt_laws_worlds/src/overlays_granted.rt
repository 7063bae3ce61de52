//! Mounts of overlays that are granted.
ghost use Rattle.vt_laws_worlds.specs.OverlaysGranted.Granted.{GivenOverlaysMayBeMounted};

/// The overlay of a given permit may be mounted (`MayBeMounted`): its layers are directories of plain trees, its
/// mounter is the caller, and a mount may stand on its destination.
///
/// It has 1 to 128 lower layers, with a work directory just if there is an upper one. No namespace has too many mounts
/// afterwards.
pub fn what_the_mount_of_an_overlay_sees_to()
    ensures { GivenOverlaysMayBeMounted }
{}
