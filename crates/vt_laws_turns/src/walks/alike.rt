//! Half-done walks in a world that calls of others have changed. Worlds have all invariants.
ghost use Rattle.vt_laws_turns.specs.Walks.HalfWalks.{FirstWordsLeadAlike, FirstWordsLeadAlikeInTurn};

/// The first words of a path lead as before in a later world in which the task stands as it stood, and each filesystem
/// that they met is kept (`worlds`).
///
/// They lead where they led, through the same filesystems, or are refused alike. The task, the mounts of its namespace,
/// and those under its root and working directory are the same (`StandsAsItStood`).
///
/// They do after any number of calls of other tasks that leave the change numbers of the task's namespace and of these
/// filesystems unraised (`in_turn`). The numbers handed in are unused and none of theirs, and a fork names at most 32
/// supplementary groups (`IsBeside`). Of the words that follow this says nothing.
pub fn half_done_walks_stand_where_they_stood()
    ensures worlds { FirstWordsLeadAlike }
    ensures in_turn { FirstWordsLeadAlikeInTurn }
{}
