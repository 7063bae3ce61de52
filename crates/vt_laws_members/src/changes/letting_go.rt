//! Calls of members that let something go.
ghost use Rattle.vt_laws_members.specs.Changes.LettingGo.{ChdirsEndAlike, ChrootsEndAlike, ClosesEndAlike, ExitsEndAlike, LessIsSeenAlike, SetnsEndsAlike, SweepsAlike, UmountsEndAlike};

/// Each `close`, `chdir`, `chroot`, `exit`, `umount` and `setns` ends alike.
pub fn calls_of_theirs_that_let_locations_go_end_alike()
    ensures close { ClosesEndAlike }
    ensures chdir { ChdirsEndAlike }
    ensures chroot { ChrootsEndAlike }
    ensures exit { ExitsEndAlike }
    ensures umount { UmountsEndAlike }
    ensures setns { SetnsEndsAlike }
{}

/// If other tasks that use no more (`UsesNoMore`) replace the world's, a second set has the same part in the world and
/// in the part (`less`), also after the sweep.
///
/// The tasks of the second set are in the same namespaces as the set, with roots and working directories among its own,
/// and locations too. Locations of the rest are among those of outsiders. The sweep is that at a call's end (`sweep`).
pub fn a_part_is_swept_as_the_world_is()
    ensures less { LessIsSeenAlike }
    ensures sweep { SweepsAlike }
{}
