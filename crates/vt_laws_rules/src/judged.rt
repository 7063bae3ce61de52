//! Judgement and application of calls.
ghost use Rattle.vt_laws_rules.specs.Judged.{AlikeAreJudgedAlike, AlikeAreWalkedAlike, CallIsJudgedThenApplied, LastStepRaisesNumbersAlone, PolicyJudgesThenApplies};

/// Each of the 39 `calls` leaves the world as it was if `judge` refuses it, else `apply` applies its permit. The
/// `policy` does so if the task exists (else S2), then sweeps the world and raises change numbers.
pub fn calls_are_judged_then_applied()
    ensures calls { CallIsJudgedThenApplied }
    ensures policy { PolicyJudgesThenApplies }
{}

/// If the task exists, the policy gives the answer of the call, and leaves the world after call and sweep but for
/// change numbers. Each of these stays or is one more.
pub fn the_last_step_raises_change_numbers_alone()
    ensures { LastStepRaisesNumbersAlone }
{}

/// Two worlds that show the same wherever walks and rules look (`LookAlike`) are walked alike (`walks`). Each of the
/// `calls` gets the same refusal or permit in both, for any given answers to M9.
pub fn what_looks_alike_is_judged_alike()
    ensures walks { AlikeAreWalkedAlike }
    ensures calls { AlikeAreJudgedAlike }
{}
