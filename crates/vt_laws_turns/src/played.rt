//! Calls cut into turns are whole calls.
ghost use Rattle.vt_laws_turns.specs.Commits.{CommitsAreFronts, FailedAllocationsAnswerS5, RepliesAreOfCommits, TextsAreOfCommits, UnansweredTurnsChangeNothing};

/// From any state of a scheduler, replies and world of a schedule are those of the answered items, run whole in the
/// order of their last turns (`replies`).
///
/// The items of queues are calls, directives and refused lines. So is the text of a script's queues, from the opening
/// world, in whichever turns allocations fail (`texts`).
///
/// Each queue is what was answered of it, in order, and then what is left (`fronts`). A turn without a reply changes
/// neither world nor queues (`unanswered`). If an allocation fails, the turn answers S5 to the task's call or the
/// directive that is first in its queue, and leaves the world (`allocation`).
pub fn turns_are_whole_calls()
    ensures replies { RepliesAreOfCommits }
    ensures fronts { CommitsAreFronts }
    ensures unanswered { UnansweredTurnsChangeNothing }
    ensures allocation { FailedAllocationsAnswerS5 }
    ensures texts { TextsAreOfCommits }
{}
