//! How calls under way restart.
ghost use Rattle.vt_laws_turns.specs.Restarts.{AtMostThreeRestarts, CallsBegin, CallsGoOn, CallsRestart, SchedulersBegin, ScriptsBegin, ThenCallsAreRunWhole, TurnsKeepSchedulers};

/// A turn of an existing task, in which no allocation fails, walks a word of the call first in its queue or answers it.
/// From a state with `IsSched`, at most three turns restart it (`at_most_three`).
///
/// A turn walks the first word if no call of the task is under way (`begins`). If one is and is not overtaken, it walks
/// the next word (`goes_on`). If it is overtaken, the turn restarts it and walks the first word (`restarts`), but
/// answers it after three restarts (`whole`).
///
/// In a schedule that answers nothing of a task's queue, at most three of the task's turns find a call overtaken
/// (`at_most_three`).
pub fn calls_restart_at_most_three_times()
    ensures begins { CallsBegin }
    ensures goes_on { CallsGoOn }
    ensures restarts { CallsRestart }
    ensures whole { ThenCallsAreRunWhole }
    ensures at_most_three { AtMostThreeRestarts }
{}

/// Schedulers begin (`begins`, `scripts`) and go on (`kept`) with at most one call of each task under way, first in its
/// queue, which restarted at most three times.
///
/// These conditions are `IsSched`. Any world and queues without calls under way fulfil them, and so does the state
/// where a script begins.
pub fn schedulers_keep_their_conditions()
    ensures begins { SchedulersBegin }
    ensures scripts { ScriptsBegin }
    ensures kept { TurnsKeepSchedulers }
{}
