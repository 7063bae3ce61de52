//! Events of mounts, if the invariants of mounts hold.
ghost use Rattle.vt_laws_sealed.specs.Part.Groups.{NoEventOfOthersReachesThem, NoEventOfTheirsReachesOthers, TheirGroupsReceiveAlike};

/// If no mount of theirs shares events with one of another namespace (`shares_no_events`), neither receives from a
/// group of the other (`others`, `theirs`). A group of theirs has the same receivers in the `part`.
///
/// Neither receives through any number of masters. The receivers are in the same order in the world and in the part.
pub fn events_stay_on_their_side()
    ensures others { NoEventOfOthersReachesThem }
    ensures theirs { NoEventOfTheirsReachesOthers }
    ensures part { TheirGroupsReceiveAlike }
{}
