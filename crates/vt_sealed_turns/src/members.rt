//! Turns of tasks of a sealed set.
ghost use Rattle.vt_sealed_turns.specs.Members.{MembersTurnsGoAsInTheirPart};

use vt_turns::TakesTurns;

/// A turn of a task of a sealed set has the reply, or none, that it has where the state is the part of the set alone.
/// Of the set that its call leaves, it leaves the same part and the same calls under way as there.
///
/// Calls under way hold what their tasks see. What is first in the queue is no directive, and no `setns` into a
/// namespace of others (`IsMembersTurn`). Where an allocation fails, one fails there too.
pub fn members_turns_go_as_in_their_part<C: TakesTurns>()
    ensures { MembersTurnsGoAsInTheirPart C.world }
{}
