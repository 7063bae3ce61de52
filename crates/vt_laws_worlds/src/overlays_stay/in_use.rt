//! Numbers that are not in use.
ghost use Rattle.vt_laws_worlds.specs.OverlaysStay.InUse.{AnyWorldsKeepToNamedBefore};

/// A world that keeps to even numbers and to counts before the next one keeps to these without the number of an inode
/// that is not in use.
pub fn any_worlds_keep_to_named_before()
    ensures { AnyWorldsKeepToNamedBefore }
{}
