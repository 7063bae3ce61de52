//! Calls of others. The world has all invariants, each name of the set is the name of a task, numbers handed in are
//! unused, and a fork names at most 32 supplementary groups (`IsOutsidersCall`).
ghost use Rattle.vt_laws_sealed.specs.Outsiders.{OutsidersLeaveASealedSet, OutsidersLeaveItSealedInTurn};

/// A task outside a sealed set makes a call that enters no namespace of theirs. The set stays sealed off, its part
/// stays, and others get no foothold on a filesystem that existed (`call`).
///
/// Any number of such calls leave the set sealed off, with the same part (`in_turn`).
pub fn outsiders_leave_a_sealed_set()
    ensures call { OutsidersLeaveASealedSet }
    ensures in_turn { OutsidersLeaveItSealedInTurn }
{}
