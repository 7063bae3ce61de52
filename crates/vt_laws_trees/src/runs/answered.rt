//! Worlds that are the same.
ghost use Rattle.vt_laws_trees.specs.Runs.Answered.{SamenessIsAnEquivalence, SameWorldsAreAnsweredAlike, SameWorldsAreDirectedAlike, SameWorldsArePlainAlike};

/// To be the same is an `equivalence`, and what is the same as a `plain` world is plain. Such worlds answer `calls` by
/// the same numbers, and `directives`, alike, and stay the same and plain.
pub fn same_worlds_are_answered_alike()
    ensures equivalence { SamenessIsAnEquivalence }
    ensures plain { SameWorldsArePlainAlike }
    ensures calls { SameWorldsAreAnsweredAlike }
    ensures directives { SameWorldsAreDirectedAlike }
{}
