//! The set is sealed off, and calls under way hold what their tasks see. First in the queue of the task of the set is
//! no directive, and no `setns` but to a task of the set. Numbers handed in, if any, are unused (`IsTurnOfTheirs`). But
//! for the first law, `HasItSealed` holds.
ghost use Rattle.vt_laws_containers.specs.MembersTurns.Rounds.{OthersLeaveThemSealed, TheirTurnsLeaveAsAlone, TheirTurnsReplyAsAlone};
ghost use Rattle.vt_laws_containers.specs.MembersTurns.Schedules.{SealedSetsReplyAsIfAlone, SealedSetsStandSoInTurn};
ghost use Rattle.vt_laws_containers.specs.MembersTurns.TheirTurns.{EachTurnOfTheirsIsOfTheirPart, OutsidersChangeNoTurnOfTheirs};

/// A turn of a task of the set has the reply, or none, that it has where the state is its part. It leaves the same part
/// of the state, for the set that its call leaves (`each`).
pub fn each_turn_of_theirs_is_of_their_part()
    ensures each { EachTurnOfTheirsIsOfTheirPart }
{}

/// A turn of theirs has the same reply, or none, before any number of turns of others as after them, by the same
/// numbers, and leaves the same part (`beside`).
///
/// The numbers are unused in both worlds. The turn leaves the same part and calls under way of the set that its call
/// leaves, and the same queues of the tasks of the set.
pub fn turns_of_others_change_no_turn_of_theirs()
    ensures beside { OutsidersChangeNoTurnOfTheirs }
{}

/// With any number of turns of others before each, turns of theirs have the replies that they have `alone`, and leave
/// the same set, part, calls and queues (`left`). The set stays `sealed` off.
///
/// Without the turns of others it is sealed off after each turn of theirs (`GoAlone`). It changes with each call of
/// theirs (`set_left`), of which a fork names at most 32 supplementary groups. With the turns of others and without,
/// each turn of theirs is handed the same numbers, unused in both worlds.
///
/// No turn of others is of a task that the set has then or later (`sets_in`): a child has a queue before it is born. A
/// task that has ended may have turns.
///
/// After all rounds the set, its part, its calls under way and the queues of its tasks are the same.
pub fn turns_of_theirs_reply_as_alone()
    ensures alone { TheirTurnsReplyAsAlone }
    ensures left { TheirTurnsLeaveAsAlone }
    ensures sealed { OthersLeaveThemSealed }
{}

/// In the schedule of a script, turns of theirs have the replies that they have without the turns of others
/// (`as_if_alone`). Allocations may fail in any turns.
///
/// Taken alone, each turn of theirs leaves the set sealed off. With the turns of others, no `setns` of the set enters a
/// namespace of others, none of others one of theirs, and no turn of others is of a task that the set has later
/// (`StaysSealedInTurns`). Each turn is handed the row of its line in both runs.
///
/// From some line of the schedule on, the set is sealed off, each of its names is the name of a task, and the world has
/// all invariants, and no number that is handed to this or a later line (`IsSealedOffInTurn`). After any lines of a
/// schedule all this holds of a set that is sealed off, if each of its names is the name of a task (`after_lines`).
pub fn turns_of_theirs_in_schedules_reply_as_alone()
    ensures as_if_alone { SealedSetsReplyAsIfAlone }
    ensures after_lines { SealedSetsStandSoInTurn }
{}
