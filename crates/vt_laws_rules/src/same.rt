//! What judgements do not look at.
ghost use Rattle.vt_laws_rules.specs.Same.{PlainHasOneName, SameInvariantWorldsJudgeAlike, SameInvariantWorldsLookAlike, SameWorldsAreJudgedAlike, SameWorldsJudgeAlike, SameWorldsLookAlike, WorldsHaveOneName};

/// Two worlds that are the same but for change numbers and the order of numbers beside trees (`SameWorlds`) look and
/// judge calls alike (`looks`, `calls`, `judgements`). What lies only in lower layers has names in one directory alone.
///
/// Calls are judged alike for any given answers to M9 (`calls`) and with M9 itself (`judgements`). The premise on lower
/// layers holds where all filesystems are plain (`plain`), and in a world with all invariants (`names`), which needs
/// nothing more (`invariant_looks`, `invariant_judgements`).
pub fn same_worlds_are_judged_alike()
    ensures looks { SameWorldsLookAlike }
    ensures calls { SameWorldsAreJudgedAlike }
    ensures judgements { SameWorldsJudgeAlike }
    ensures plain { PlainHasOneName }
    ensures names { WorldsHaveOneName }
    ensures invariant_looks { SameInvariantWorldsLookAlike }
    ensures invariant_judgements { SameInvariantWorldsJudgeAlike }
{}
