//! Mounts and groups that change together. Words of the premises are those of `vt_laws_mounts::letting_go`.
ghost use Rattle.vt_propagate.specs.EndsInTurn.{EndedGoInTurn, NamespacesEndDeepestFirst, NamespacesEndInTurn};
ghost use Rattle.vt_propagate.specs.EndsInTurn.{OneByOneAreSweptOnce, TurnsAreSeenSwept, UnlistedNamespacesEndInTurn};
ghost use Rattle.vt_propagate.specs.ExitsAtOnce.{ExitsAreAtOnce};
ghost use Rattle.vt_propagate.specs.Laws.{DetachingIsSeen, RetypingIsSeen, SharingIsSeen, SlavesAreSeen};
ghost use Rattle.vt_propagate.specs.LazyUnmounts.{LazyUnmountsAreAtOnce, LazyUnmountsAreSeen, LazyUnmountsSettleAlike};
ghost use Rattle.vt_propagate.specs.LazyUnmounts.{LazyUnmountsTakeTheTree, PartsAreSweptOnce, PartsGoAtOnce};

/// If mounts and groups were a world's, `detaching`, `retyping`, `slaves` and `sharing` of its mounts leave those that
/// the definitions have then. Groups handed in are new; masters of groups without members do not count.
///
/// The changes are those of `leave_all`, `make_slaves` and `share`.
pub fn what_is_seen_stays_the_world()
    ensures detaching { DetachingIsSeen }
    ensures retyping { RetypingIsSeen }
    ensures slaves { SlavesAreSeen }
    ensures sharing { SharingIsSeen }
{}

/// Where the invariants of mounts hold, mounts detached in `parts` may be detached at once. So a lazy unmount leaves
/// the world from which all that its `events` detach was taken at once (`seen`, `settled`).
///
/// The whole `tree` is among these mounts, if the mount is in a namespace. The two worlds may differ in the masters of
/// groups without members: they are `seen` alike, and both settle to one world (`settled`).
///
/// With a sweep after each part, or one after all were taken at once, the same world is left (`swept`). The world is
/// fit for overlays, and the invariants of mounts hold on the way.
pub fn lazy_unmounts_detach_at_once()
    ensures parts { PartsGoAtOnce }
    ensures swept { PartsAreSweptOnce }
    ensures events { LazyUnmountsAreAtOnce }
    ensures tree { LazyUnmountsTakeTheTree }
    ensures seen { LazyUnmountsAreSeen }
    ensures settled { LazyUnmountsSettleAlike }
{}

/// Mounts detached one by one, none with a child in its turn, with a sweep after each, leave what all at once and one
/// sweep leave (`alone`, `ended`). The world is fit for overlays, and the invariants of mounts hold.
///
/// No event propagates (`GoInTurn`). So with the mounts of namespaces without tasks, in whichever order: once these are
/// no longer listed, what is left is what `namespaces_ended` and one sweep leave (`ended`). They may be taken off the
/// list first (`unlisted`). The deepest first is such an order (`order`, `deepest`). That a mount has no child may be
/// seen in the worlds that are swept (`turns`).
pub fn namespaces_end_mount_by_mount()
    ensures alone { OneByOneAreSweptOnce }
    ensures ended { NamespacesEndInTurn }
    ensures unlisted { UnlistedNamespacesEndInTurn }
    ensures order { EndedGoInTurn }
    ensures deepest { NamespacesEndDeepestFirst }
    ensures turns { TurnsAreSeenSwept }
{}

/// Tasks that end one by one, with their namespaces and a sweep after each, leave the world that is left if all end at
/// once before one sweep. It was fit for overlays, and the invariants of mounts held.
///
/// All tasks are gone at once, then namespaces without tasks end, and then one sweep is made.
pub fn tasks_that_end_one_by_one_end_at_once()
    ensures { ExitsAreAtOnce }
{}
