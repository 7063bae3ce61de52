//! Calls of members that detach a mount with all that stands on it.
ghost use Rattle.vt_laws_members.specs.Detached.Lazily.{LazyUmountsDetachAlike};

/// Each `lazy` ends alike, whatever stands on the mount.
pub fn lazy_umounts_of_theirs_detach_alike()
    ensures { LazyUmountsDetachAlike }
{}
