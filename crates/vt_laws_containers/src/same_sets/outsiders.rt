//! Calls of tasks outside a sealed set in worlds that are the same.
ghost use Rattle.vt_laws_containers.specs.SameSets.Outsiders.{OutsidersLeadToSealedWorlds, OutsidersLeaveSameWorldsSealed};

/// After a call of a task outside a sealed set (`IsOutsidersCall`), it is sealed off in each world that is the same.
/// Its part is the same, and others get no foothold on a filesystem that existed (`call`).
///
/// The part is compared with that in each world that is the same as the one before the call.
///
/// After any number of such calls the set is sealed off, with the same part (`in_turn`). Each call is made in any world
/// that is the same as the one left by the call before.
pub fn outsiders_leave_same_worlds_sealed()
    ensures call { OutsidersLeaveSameWorldsSealed }
    ensures in_turn { OutsidersLeadToSealedWorlds }
{}
