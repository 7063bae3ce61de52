//! Calls of tasks outside a sealed set.
ghost use Rattle.vt_containers.specs.Outsiders.{OutsidersLeaveSealedSets};

use vt_answers::Calls;

/// After a call of a task outside a sealed set (`IsCallOfAnother`) the set is sealed off, its part is the same, and
/// others have no foothold on a filesystem where they had none.
///
/// Each name of the set is a task's. The call is no `setns` into a namespace of the set, and names at most 32
/// supplementary groups if it is a fork.
pub fn outsiders_leave_sealed_sets<C: Calls>()
    ensures { OutsidersLeaveSealedSets C.world }
{}
