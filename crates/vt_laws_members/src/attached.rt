//! Calls of members that attach mounts.
ghost use Rattle.vt_laws_members.specs.Attached.Attaching.{BindsEndAlike, MovesEndAlike, PlainMountsEndAlike};

/// Each `mount plain` (`mount_plain`), `bind`, recursive or not, and `move` (`move_mount`) ends alike by one supply.
pub fn calls_of_theirs_that_attach_mounts_end_alike()
    ensures mount_plain { PlainMountsEndAlike }
    ensures bind { BindsEndAlike }
    ensures move_mount { MovesEndAlike }
{}
