//! Calls of members that change mounts.
ghost use Rattle.vt_laws_members.specs.Changes.MountChanges.{RemountsEndAlike};

/// Each `remount` ends alike.
pub fn calls_of_theirs_that_change_mounts_end_alike()
    ensures remount { RemountsEndAlike }
{}
