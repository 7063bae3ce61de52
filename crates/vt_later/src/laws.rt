//! Laws of calls that are asked where rules are let pass.
ghost use Rattle.vt_later.specs.Passing.{NothingLetPass, WorldsAskMounters};

/// Where no rule is let pass, each call is judged as ever.
pub fn past_no_rule_calls_are_judged()
    ensures { NothingLetPass }
{}

/// A world asks the mounter of an overlay for rules alone that are never let pass: B1 and B2.
pub fn mounters_stay_asked()
    ensures { WorldsAskMounters }
{}
