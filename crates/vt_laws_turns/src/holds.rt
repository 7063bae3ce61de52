//! The filesystems that a half-done walk holds are seen by its task.
ghost use Rattle.vt_laws_turns.specs.Holds.Held.{SchedulersBeginSo, SchedulesHoldWhatIsSeen, SchedulesOfScriptsHoldWhatIsSeen, TurnsHoldWhatIsSeen, WordsMeetWhatIsSeen};

/// Calls under way hold what their tasks see (`HoldsWhatIsSeen`) after each schedule of each script (`scripts`). A fit
/// turn keeps this together with all invariants (`turns`), and so does a fit schedule (`schedules`).
///
/// A task *sees* the filesystems of the mounts of its namespace, and of those under its root and working directory
/// (`is_seen_by`). In a world with all invariants, the first words of a path meet only these (`words`).
///
/// A call under way holds what its task sees if this task exists. The change numbers that it holds of its task and
/// namespace are no more than the current ones, unless those are the largest. While both are unraised, its task sees
/// each filesystem that it holds.
///
/// This holds without calls under way (`begins`). In a script's schedule allocations may fail in any turns. Turns are
/// fit if numbers handed in are unused, and a fork first in its queue names at most 32 supplementary groups
/// (`IsFitTurn`).
pub fn filesystems_held_are_seen()
    ensures words { WordsMeetWhatIsSeen }
    ensures begins { SchedulersBeginSo }
    ensures turns { TurnsHoldWhatIsSeen }
    ensures schedules { SchedulesHoldWhatIsSeen }
    ensures scripts { SchedulesOfScriptsHoldWhatIsSeen }
{}
