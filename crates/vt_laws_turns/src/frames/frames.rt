//! What a call left as it was.
ghost use Rattle.vt_laws_turns.specs.Frames.Detached.{DetachedMountsStay};
ghost use Rattle.vt_laws_turns.specs.Frames.Unraised.{OtherTasksOfUnraisedNamespacesStay, UnraisedFilesystemsStay, UnraisedNamespacesKeepMounts};

/// A namespace whose change number a call leaves unraised has the mounts that it had, each the same record (`mounts`).
/// Each task of it but the caller is what it was (`tasks`).
pub fn unraised_namespaces_keep_their_mounts()
    ensures mounts { UnraisedNamespacesKeepMounts }
    ensures tasks { OtherTasksOfUnraisedNamespacesStay }
{}

/// A filesystem whose change number a call leaves unraised is kept.
pub fn unraised_filesystems_stay()
    ensures { UnraisedFilesystemsStay }
{}

/// A mount in no namespace that exists after a call is the same record.
pub fn detached_mounts_stay()
    ensures { DetachedMountsStay }
{}
