//! Change numbers that are kept beside a world.
ghost use Rattle.vt_laws_turns.specs.Alike.{DatedSamenessIsAnEquivalence, SameDatedWorldsAreAnsweredAlike, SameDatedWorldsAreDirectedAlike};
ghost use Rattle.vt_laws_turns.specs.Dated.{DatesFollowCalls};

/// A granted call that does not only look raises the change numbers of its caller, of the filesystems that its permit
/// changes, and of each namespace unless that has the mounts that it had. All others stay, and what is new begins with
/// 0.
///
/// Numbers handed in are unused, and what does not exist had the number 0.
pub fn change_numbers_follow_calls()
    ensures { DatesFollowCalls }
{}

/// Two worlds that are the same with all their change numbers answer `calls` and `directives` alike and stay so. To be
/// the same so is an `equivalence`.
///
/// The numbers beside trees may stand in another order. For calls one of the worlds has all invariants, and numbers
/// handed in are unused.
pub fn same_dated_worlds_are_answered_alike()
    ensures equivalence { DatedSamenessIsAnEquivalence }
    ensures calls { SameDatedWorldsAreAnsweredAlike }
    ensures directives { SameDatedWorldsAreDirectedAlike }
{}
