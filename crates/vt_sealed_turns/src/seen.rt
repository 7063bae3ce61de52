//! What calls under way hold.
ghost use Rattle.vt_sealed_turns.specs.Seen.{PlayHoldsWhatIsSeen, SchedulersHoldWhatIsSeen};

use vt_turns::TakesTurns;

/// Calls under way hold what their tasks see (`HoldsWhatIsSeen`), where a scheduler begins (`begins`), and after each
/// schedule (`play`).
///
/// In the schedule, each fork that is first in its queue names at most 32 supplementary groups.
pub fn calls_under_way_hold_what_is_seen<C: TakesTurns>()
    ensures begins { SchedulersHoldWhatIsSeen C.world }
    ensures play { PlayHoldsWhatIsSeen C.world }
{}
