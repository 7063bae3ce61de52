//! What tasks are after a call, in every world.
ghost use Rattle.vt_laws_trees.specs.Calls.Tasks.{NewTasksAreChildren, OnlyDropTakesRights, OnlyExitLeaves, OnlyOpenGivesDescriptors, OnlyTheseMoveDirectories, OnlyTheseMoveNamespaces, OnlyTheseMoveRoots, OnlyUmaskSetsUmask, OtherTasksStay, RightsOnlyShrink};

/// A task that stays has its user and groups, and no further capability (`rights`). A call leaves every other task as
/// it was, but a granted `pivot_root` moves roots and working directories in its namespace (`others`).
///
/// - `drops`, `umasks`: its own `drop` alone takes capabilities, its own `umask` alone sets its umask.
/// - `descriptors`: each that it did not have before its own `open` gave it, for reading and writing as asked.
/// - `others`: root and working directory move, each if it was the root of the old root mount, to that of the new one.
/// - `exits`: the caller leaves by `exit` alone.
/// - `children`: a new task is a child of the caller's `fork`, with no capability that the caller lacks. It has another
///   user only by CAP_SETUID, another group or supplementary groups only by CAP_SETGID.
pub fn rights_only_shrink()
    ensures rights { RightsOnlyShrink }
    ensures drops { OnlyDropTakesRights }
    ensures umasks { OnlyUmaskSetsUmask }
    ensures descriptors { OnlyOpenGivesDescriptors }
    ensures others { OtherTasksStay }
    ensures exits { OnlyExitLeaves }
    ensures children { NewTasksAreChildren }
{}

/// Of a task that stays, its own `unshare` and `setns` alone change namespace (`namespaces`), root (`roots`; also
/// `chroot`) and working directory (`directories`; also `chdir`). A `pivot_root` in its namespace moves the latter two
/// as above.
pub fn tasks_are_moved_by_their_own_calls()
    ensures directories { OnlyTheseMoveDirectories }
    ensures roots { OnlyTheseMoveRoots }
    ensures namespaces { OnlyTheseMoveNamespaces }
{}
