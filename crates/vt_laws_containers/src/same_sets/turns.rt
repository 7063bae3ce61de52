//! Sealed sets in states of a scheduler that are the same, and in turns that are made one by one (`IsPlayed` of
//! `vt_laws_turns`): each in a state that is the same, with all change numbers, as what the turns before it leave.
ghost use Rattle.vt_laws_containers.specs.SameSets.Turns.{OthersPlayedLeaveItSealed, SameSchedsHaveItSealed, TheirTurnsPlayedGoAsInThePart};

/// A set that is sealed off is so in each state that is the same (`states`), and after turns of `others` that are made
/// one by one. A turn of `theirs` that is made goes as in their part.
///
/// The part of the set is the same world there, and its calls under way and the queues of its tasks are equal. A turn
/// of theirs (`IsTurnOfTheirs`) has the reply, or none, that it has where the state is the part. Of the set that its
/// call leaves, the part left is the same world as the one left there, with the same calls under way.
pub fn sealed_sets_are_the_same_in_turns()
    ensures states { SameSchedsHaveItSealed }
    ensures others { OthersPlayedLeaveItSealed }
    ensures theirs { TheirTurnsPlayedGoAsInThePart }
{}
