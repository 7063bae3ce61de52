//! Footholds of others after a call of a task of a sealed set.
ghost use Rattle.vt_laws_containers.specs.PermitFootholds.{DenialsGiveNoFoothold, LooksGiveNoFoothold};

/// A call that only looks (`looks`) or is refused (`refused`) gives others no foothold. Numbers handed in are any.
pub fn calls_of_theirs_give_others_no_foothold()
    ensures looks { LooksGiveNoFoothold }
    ensures refused { DenialsGiveNoFoothold }
{}
