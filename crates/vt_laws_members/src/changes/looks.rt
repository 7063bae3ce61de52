//! Calls of members that change nothing.
ghost use Rattle.vt_laws_members.specs.Changes.Changes.{DenialsEndAlike, LooksEndAlike};

/// Each `ls`, `stat`, `lstat`, `readlink`, `read`, `exec`, `pread` and `mounts` ends alike (`looks`). So does each call
/// that is refused in the world, also for a name without a task (`refused`).
pub fn calls_of_theirs_that_change_nothing_end_alike()
    ensures looks { LooksEndAlike }
    ensures refused { DenialsEndAlike }
{}
