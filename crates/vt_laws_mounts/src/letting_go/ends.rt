//! Groups and namespaces that end.
ghost use Rattle.vt_laws_mounts.specs.LettingGo.EndingTasks.{EntersLetGo, EntersWithOverlaysLetGo, ExitsLetGo, ExitsWithOverlaysLetGo, LeavingNamespacesLetsGo, LeavingNamespacesWithOverlaysLetsGo, UnsharesLetGo, UnsharesWithOverlaysLetGo};
ghost use Rattle.vt_laws_mounts.specs.LettingGo.Ends.{AddedMountsCount, AddedMountsCountInNoOther, AddedMountsCountInTheirOwn, NoNamespaceEnds, OneNamespaceEnds, TooManyIsOfOne, TooManyIsOfSome};
ghost use Rattle.vt_laws_mounts.specs.LettingGo.Groups.{NoGroupIsHandedOn, OneGroupIsHandedOn};
ghost use Rattle.vt_laws_mounts.specs.LettingGo.Several.{OneSweepForAllExits, OneSweepForAllExitsWithOverlays, OneSweepForEnds, OneSweepForEndsWithOverlays, OneSweepForExits, OneSweepForExitsWithOverlays};

/// In any world, if just one group that is named has no members, it hands its slaves and lower groups to its master,
/// and nothing else changes (`one`). If no mount lost its group or a master, nothing changes (`none`).
///
/// For `one`, all others that a mount or a group names, and its own master, have members; others without members have
/// no master. Lower groups are those whose master it is.
pub fn a_group_ends_with_its_last_member()
    ensures one { OneGroupIsHandedOn }
    ensures none { NoGroupIsHandedOn }
{}

/// In any world in which each mount's namespace is listed, if `one` namespace alone has no task, it ends with its
/// mounts, and no other does. If each has one, `none` ends.
pub fn a_namespace_ends_with_its_last_task()
    ensures one { OneNamespaceEnds }
    ensures none { NoNamespaceEnds }
{}

/// In any world mounts `added` to one namespace count there and in `no_other`; of several, in their own (`their_own`).
/// If there were not too many, there are just if the `one`, or one of `several`, that may have more has.
///
/// For `one` and `several` the namespaces that may have more are listed, no other has more, and namespaces stay.
pub fn too_many_mounts_are_counted()
    ensures added { AddedMountsCount }
    ensures no_other { AddedMountsCountInNoOther }
    ensures their_own { AddedMountsCountInTheirOwn }
    ensures one { TooManyIsOfOne }
    ensures several { TooManyIsOfSome }
{}

/// Tasks come to no new location, or one ends, and namespaces without tasks end: one sweep is enough (`several`,
/// `exit`, `each`). Filesystems are plain trees, and the invariants of mounts hold, for `each` on the way.
///
/// `each` is for any number of tasks that end.
pub fn namespaces_that_end_one_by_one_are_swept_once()
    ensures several { OneSweepForEnds }
    ensures exit { OneSweepForExits }
    ensures each { OneSweepForAllExits }
{}

/// The same (`several`, `exit`, `each`).
pub fn namespaces_that_end_one_by_one_are_swept_once_with_overlays()
    ensures several { OneSweepForEndsWithOverlays }
    ensures exit { OneSweepForExitsWithOverlays }
    ensures each { OneSweepForAllExitsWithOverlays }
{}

/// Tasks end, or go to other locations and namespaces, and namespaces without tasks end. The losers are those of the
/// locations `left` and of the mounts of these namespaces, and their groups.
///
/// After `exit`, `setns`, and `unshare`, if locations stand, these are all locations of the task.
pub fn what_tasks_leave_with_namespaces_goes()
    ensures left { LeavingNamespacesLetsGo }
    ensures exit { ExitsLetGo }
    ensures setns { EntersLetGo }
    ensures unshare { UnsharesLetGo }
{}

/// The same (`left`, `exit`, `setns`, `unshare`).
pub fn what_tasks_leave_with_namespaces_goes_with_overlays()
    ensures left { LeavingNamespacesWithOverlaysLetsGo }
    ensures exit { ExitsWithOverlaysLetGo }
    ensures setns { EntersWithOverlaysLetGo }
    ensures unshare { UnsharesWithOverlaysLetGo }
{}
