//! Calls of tasks of a sealed set.
ghost use Rattle.vt_containers.specs.Members.{MembersEndAsInTheirPart};

use vt_answers::Calls;

/// A call of a task of a sealed set has the answer that the policy gives it in the part of the set alone, and leaves
/// the part that the policy leaves there. Or an allocation failed, and nothing has changed. The call is no `setns`
/// into a namespace of others.
pub fn members_end_as_in_their_part<C: Calls>()
    ensures { MembersEndAsInTheirPart C.world }
{}
