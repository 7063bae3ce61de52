//! Turns of tasks outside a sealed set.
ghost use Rattle.vt_sealed_turns.specs.Outsiders.{OthersPlayLeavesSetsSealed, OthersTurnsLeaveSetsSealed};

use vt_turns::TakesTurns;

/// After a turn of a task outside a sealed set, or of `!`, the set is sealed off, with the same part, calls under way
/// and queues (`turn`). So it is after a schedule of such turns (`play`).
///
/// Each name of the set is a task's. The call that is first in the queue is no `setns` into a namespace of the set, and
/// names at most 32 supplementary groups if it is a fork (`IsTurnOfAnother`).
pub fn turns_of_others_leave_sealed_sets<C: TakesTurns>()
    ensures turn { OthersTurnsLeaveSetsSealed C.world }
    ensures play { OthersPlayLeavesSetsSealed C.world }
{}
