//! Runs that go on from worlds that are the same.
ghost use Rattle.vt_laws_worlds.specs.OneText.Runs.{EveryProgramHasOneText, EveryRunHasOneText};

/// A run has one text for its script, grammar and failed allocations (`runs`). It goes on after each line from any
/// world that is the same as the policy's, by numbers in hand to which that world does not keep.
///
/// Which numbers are in hand is given: infinitely many are not, and four different ones of the opening world are. So
/// has each run one text that hands out any numbers but `4·c + 3` (`programs`).
pub fn every_run_has_one_text()
    ensures runs { EveryRunHasOneText }
    ensures programs { EveryProgramHasOneText }
{}
