//! Worlds that are the same are answered alike.
ghost use Rattle.vt_laws_worlds.specs.OneText.Answered.{PermitsLeaveAlike, AnySameWorldsAreAnsweredAlike, AnySameWorldsAreDirectedAlike, AnySameWorldsAreSweptAlike};

/// In two worlds that are the same, a permit has one answer for a task, and leaves two such worlds by the same numbers
/// (`permits`). So do `calls`, `directives` and the sweep (`swept`).
///
/// A permit is applied before the sweep, for a task whatever its change number; calls are by the policy. For `swept`
/// and `directives` the worlds are any.
pub fn any_same_worlds_are_answered_alike()
    ensures permits { PermitsLeaveAlike }
    ensures swept { AnySameWorldsAreSweptAlike }
    ensures calls { AnySameWorldsAreAnsweredAlike }
    ensures directives { AnySameWorldsAreDirectedAlike }
{}
