//! Any number of calls, one after the other. No number handed in is that of the namespace or filesystem of the law, and
//! a fork names at most 32 supplementary groups (`IsBeside`).
ghost use Rattle.vt_laws_turns.specs.Frames.Detached.{OtherTasksStandInTurn};
ghost use Rattle.vt_laws_turns.specs.Frames.InTurn.{OtherTasksStayInTurn, UnraisedFilesystemsStayInTurn, UnraisedNamespacesKeepMountsInTurn};

/// A namespace whose change number the calls leave unraised has the mounts that it had (`mounts`). A task of it that
/// made none of the calls is what it was (`tasks`), on the same mounts (`stood`).
///
/// The mounts under its root and working directory are the same records.
pub fn unraised_namespaces_keep_their_mounts_in_turn()
    ensures mounts { UnraisedNamespacesKeepMountsInTurn }
    ensures tasks { OtherTasksStayInTurn }
    ensures stood { OtherTasksStandInTurn }
{}

/// A filesystem whose change number the calls leave unraised is kept.
pub fn unraised_filesystems_stay_in_turn()
    ensures { UnraisedFilesystemsStayInTurn }
{}
