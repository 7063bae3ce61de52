//! How calls of members are judged in the part of their set.
ghost use Rattle.vt_laws_members.specs.Judging.{MembersAreJudgedAlike, MembersAreJudgedByTheirPart, MembersSeeAlike};

/// Each call of a task of the set is judged in the part as in the world, by the same rule or with the same permit, by
/// any numbers (`by_part`).
///
/// So it is for any given answers to M9, the same in both (`judged`).
///
/// On some mounts, which no step leaves, the part shows to each task of the set what the world shows (`seen`). These
/// are the mounts of their namespaces, and detached ones with a root or working directory of theirs; the task's root is
/// on one. For this the set need not be sealed off.
pub fn a_call_of_theirs_is_judged_by_their_part()
    ensures seen { MembersSeeAlike }
    ensures judged { MembersAreJudgedAlike }
    ensures by_part { MembersAreJudgedByTheirPart }
{}
