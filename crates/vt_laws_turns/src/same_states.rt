//! States of a scheduler that are the same, with all change numbers: the worlds, the queues, and the calls under way.
//!
//! Worlds are the same as in `same_dated_worlds_are_answered_alike`: the numbers beside trees may stand in another order.
ghost use Rattle.vt_laws_turns.specs.Alike.{SameTasksWalkAlike, SameWorldsWalkAlike};
ghost use Rattle.vt_laws_turns.specs.SameStates.{PlayedTurnsAreWholeCalls, PlaysBegin, PlaysGoOn, SameSchedIsAnEquivalence, SameSchedsPlayAlike, SameSchedsTurnAlike};

/// Two tasks that differ in their change numbers alone walk alike (`tasks`), also in two worlds that are the same but
/// for change numbers, one of which has all invariants (`worlds`).
///
/// Each call has the same rules before its walks and the same routes. Each walk begins alike, and goes alike by a word
/// from wherever it stands (`WalkAlike`).
pub fn walks_look_at_no_change_number()
    ensures tasks { SameTasksWalkAlike }
    ensures worlds { SameWorldsWalkAlike }
{}

/// In two states that are the same, a turn (`turn`) and a schedule (`schedule`) reply the same and leave two such states.
/// To be the same is an `equivalence`.
///
/// The world of one of them has all invariants, and numbers handed in are unused. In a schedule forks name at most 32
/// supplementary groups (`AreFitTurns`), and the same items are committed.
pub fn turns_of_same_states_reply_the_same()
    ensures equivalence { SameSchedIsAnEquivalence }
    ensures turn { SameSchedsTurnAlike }
    ensures schedule { SameSchedsPlayAlike }
{}

/// Turns that are made one by one, each in a state that is the same as what the turns before it leave, are those of a
/// schedule (`begin`, `go_on`).
///
/// So their replies are those of the commits, run whole in their order, the world is the same as theirs, and each queue
/// is what was committed of it, and then what is left of it (`whole`). The world before each turn has all invariants,
/// and numbers handed in are unused.
pub fn turns_made_one_by_one_are_a_schedule()
    ensures begin { PlaysBegin }
    ensures go_on { PlaysGoOn }
    ensures whole { PlayedTurnsAreWholeCalls }
{}
