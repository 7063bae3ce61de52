//! Calls of members that remove or replace directories on which mounts stand.
ghost use Rattle.vt_laws_members.specs.Detached.Removals.{RemovalsEndAlike, ReplacementsEndAlike};

/// On a plain filesystem, each granted `rmdir` and `rename` ends alike, whatever mounts stand on what goes.
///
/// Of overlays this says nothing, nor of a `rename` of two names of one object.
pub fn removals_of_theirs_detach_alike()
    ensures rmdir { RemovalsEndAlike }
    ensures rename { ReplacementsEndAlike }
{}
