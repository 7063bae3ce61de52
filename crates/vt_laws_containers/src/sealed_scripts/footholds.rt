//! Footholds of others after any call.
ghost use Rattle.vt_laws_containers.specs.SealedScripts.AsIfAlone.{NoCallGivesAFoothold};

/// No call gives others a foothold, granted or refused, if a fork names at most 32 supplementary groups (`none`).
pub fn no_call_of_theirs_gives_a_foothold()
    ensures none { NoCallGivesAFoothold }
{}
