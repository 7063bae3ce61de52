//! What takes mounts away: an `unmount` with its receivers, a `lazy` one, and four ends without propagation. These are
//! of `trees` of mounts, of mounts on a removed directory (`points`) or a `replaced` object, and of namespaces without
//! tasks (`ended`).
ghost use Rattle.vt_laws_mounts.specs.Mounts.Ending.{UnmountKeepsMounts, LazyUnmountKeepsMounts, TreesKeepMounts, PointsKeepMounts, ReplacedKeepsMounts, EndedNamespacesKeepMounts, ByUnmount, ByLazyUnmount, ByTrees, ByPoints, ByReplaced, ByEndedNamespaces, HasNoMoreMounts, TakesNoMountsIn, UnmountKeepsRootMounts, LazyUnmountKeepsRootMounts, TreesKeepRootMounts, PointsKeepRootMounts, ReplacedKeepsRootMounts, EndedNamespacesKeepRootMounts};

/// An `unmount` of a mount without children, `lazy`, `trees`, `points`, `replaced` and `ended` keep the invariants of
/// mounts, all five together.
pub fn what_takes_mounts_away_keeps_their_invariants()
    ensures unmount { UnmountKeepsMounts }
    ensures lazy { LazyUnmountKeepsMounts }
    ensures trees { TreesKeepMounts }
    ensures points { PointsKeepMounts }
    ensures replaced { ReplacedKeepsMounts }
    ensures ended { EndedNamespacesKeepMounts }
{}

/// Each namespace has as many root mounts after `unmount`, `lazy`, `trees`, `points` and `replaced`, each listed one
/// with tasks after `ended`. Mounts are numbered; what is unmounted, and the top of each tree, has a mount point.
pub fn namespaces_keep_their_root_mounts()
    ensures unmount { UnmountKeepsRootMounts }
    ensures lazy { LazyUnmountKeepsRootMounts }
    ensures trees { TreesKeepRootMounts }
    ensures points { PointsKeepRootMounts }
    ensures replaced { ReplacedKeepsRootMounts }
    ensures ended { EndedNamespacesKeepRootMounts }
{}

/// No namespace has more mounts after `unmount`, `lazy`, `trees`, `points`, `replaced` and `ended`.
pub fn namespaces_have_no_more_mounts()
    ensures unmount { ByUnmount HasNoMoreMounts }
    ensures lazy { ByLazyUnmount HasNoMoreMounts }
    ensures trees { ByTrees HasNoMoreMounts }
    ensures points { ByPoints HasNoMoreMounts }
    ensures replaced { ByReplaced HasNoMoreMounts }
    ensures ended { ByEndedNamespaces HasNoMoreMounts }
{}

/// After `unmount`, `lazy`, `trees`, `points`, `replaced` and `ended` a mount is in no namespace, or in that of an old
/// one of its number.
pub fn mounts_come_to_no_other_namespace()
    ensures unmount { ByUnmount TakesNoMountsIn }
    ensures lazy { ByLazyUnmount TakesNoMountsIn }
    ensures trees { ByTrees TakesNoMountsIn }
    ensures points { ByPoints TakesNoMountsIn }
    ensures replaced { ByReplaced TakesNoMountsIn }
    ensures ended { ByEndedNamespaces TakesNoMountsIn }
{}
