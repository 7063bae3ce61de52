//! Turns of tasks outside a sealed set.
ghost use Rattle.vt_laws_containers.specs.SealedTurns.OutsidersTurns.{OutsidersTurnsLeaveASealedSet, OutsidersTurnsLeaveItSealedInTurn};

/// If `HasItSealed` holds, a turn of others leaves the set sealed off, with the same part, calls under way and queues
/// (`turn`). So do any number of them (`in_turn`).
///
/// A turn gives others no foothold on a filesystem that existed. Any number leave `HasItSealed`, with all invariants.
pub fn turns_of_others_leave_a_sealed_set()
    ensures turn { OutsidersTurnsLeaveASealedSet }
    ensures in_turn { OutsidersTurnsLeaveItSealedInTurn }
{}
