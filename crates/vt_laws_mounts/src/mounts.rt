//! Where mounts stand, who receives, and what mount calls change. A call *leaves the mounts of* a change if it leaves
//! those after the change, in order, without those that nothing uses then (`HasLiving`).
ghost use Rattle.vt_laws_mounts.specs.Mounts.Attaching.{NewMountsFollow, AttachKeepsMounts, AttachLeavesMounts, MoveKeepsMounts, MoveLeavesMounts, MovedMountsShow};
ghost use Rattle.vt_laws_mounts.specs.Mounts.Changing.{FlagsAreSet, FlagsAreOfOne, TypeIsAllThatChanges, TypeIsOfTheNamed, TypeIsTaken, AloneIsPrivate, TypesAreOfMounts};
ghost use Rattle.vt_laws_mounts.specs.Mounts.Copies.{CopiesKeepNumbers, SuppliesServeAsCopies, SuppliesServeAsImages};
ghost use Rattle.vt_laws_mounts.specs.Mounts.Invariants.{KeptByTakingAway, OneNumberEach, KeptByUnmount, KeptByEndedNamespaces, KeptByInheritance, KeptByType, KeptByFlags, AttachKeepsNumbers, UnshareKeepsNumbers, KeptByPivot, KeptByLazyUnmount, KeptBySettling, NowhereOrAttached, FlagsKeepNowhere, KeptByUnshare, UnmountLeavesOneMountAMountPoint, TreesLeaveOneMountAMountPoint, EndedNamespacesLeaveOneMountAMountPoint, AreApart, TypeKeepsGroups, FlagsKeepGroups, SettlingKeepsGroups, TypeKeepsChainsEnding, FlagsKeepChainsEnding, InheritanceKeepsChainsEnding};
ghost use Rattle.vt_laws_mounts.specs.Mounts.Ends.{TheMountItselfGoes, TakenAreDetached, OthersAreKept, OthersKeepTheirMountPoints, OthersKeepTheirTypes, LazyDetachesOrKeeps, LazyIsOfMounts};
ghost use Rattle.vt_laws_mounts.specs.Mounts.FileCalls.{FileCallsLeaveMounts};
ghost use Rattle.vt_laws_mounts.specs.Mounts.Granted.{BindBinds, MoveMoves, MountMounts, OverlayMounts, LazyUnmounts, RemountSetsFlags, TypeIsSet, PivotPivots, RmdirTakesMounts, RenameReplaces, RenameOfOneObject, ExitEnds, UnshareCopies, SetnsEnters};
ghost use Rattle.vt_laws_mounts.specs.Mounts.MountPoints.{StandsAloneAtItsMountPoint};
ghost use Rattle.vt_laws_mounts.specs.Mounts.Receivers.{ReceivesIsComputed, ReceiversReceive, ReceiversAreClosed, ReceiversAreLeast, GroupsLive, LivingIsComputed};
ghost use Rattle.vt_laws_mounts.specs.Mounts.Standing.{BindsKeepNumbers, BindsKeepMountPoints, BindsKeepStanding, BindsTakeEachOnce, MovesKeepNumbers, NewMountsKeepNumbers, NewMountsKeepMountPoints, NewMountsKeepStanding, StandingIsComputed, TreesHaveEachOnce};
ghost use Rattle.vt_laws_mounts.specs.Mounts.Unmounting.{WhatGoesIsNamed, UnmountKeepsTheOrder, WhatGoesIsDetached, WhatStaysKeeps, WhatStaysKeepsItsMountPoint, RootMountsStay, WhatCoveredFalls, WhatStaysKeepsItsType, SlavesAreInherited, GroupsKeepTheirMasters, UnmountIsOfMounts, UmountUnmounts};

/// If mounts are apart, `child_at` finds at each mount point the mount that has it.
pub fn one_mount_stands_at_a_mount_point()
    ensures { StandsAloneAtItsMountPoint }
{}

/// What receives from a group is the `least` set of its members, its slaves, and what receives from each group whose
/// master it is. Where groups live, it is `closed` so, and found by the test (`computed`) and by `receivers`.
pub fn receivers_are_the_closure()
    ensures computed { ReceivesIsComputed }
    ensures receivers { ReceiversReceive }
    ensures closed { ReceiversAreClosed }
    ensures least { ReceiversAreLeast }
{}

/// Where groups live, just the mounts that propagation names go (`named`), and are detached (`gone`). Each other keeps
/// all but mount point and type (`kept`), and all else stays (`others`).
///
/// All mounts stay listed, in `order`.
///
/// - `root_mounts`: a root mount stays one.
/// - `place`, `covered`: a mount that stays keeps a mount point on a mount that stays. Else, where chains of parents
///   end, it takes the first such one along its parents.
/// - `kind`, `slaves`: it keeps its type; but a slave of an ended group gets the nearest group up the masters with
///   members, or is private.
/// - `masters`: groups keep masters that have not ended.
/// - `itself`: the named mount goes, if it has a mount point and no child, and mounts are apart.
pub fn an_unmount_takes_just_what_propagation_names()
    ensures named { WhatGoesIsNamed }
    ensures order { UnmountKeepsTheOrder }
    ensures gone { WhatGoesIsDetached }
    ensures kept { WhatStaysKeeps }
    ensures place { WhatStaysKeepsItsMountPoint }
    ensures root_mounts { RootMountsStay }
    ensures covered { WhatCoveredFalls }
    ensures kind { WhatStaysKeepsItsType }
    ensures slaves { SlavesAreInherited }
    ensures masters { GroupsKeepTheirMasters }
    ensures itself { TheMountItselfGoes }
    ensures others { UnmountIsOfMounts }
{}

/// A granted `umount` leaves the mounts of the unmount of the mount that its path leads to.
pub fn umount_unmounts_the_mount_of_its_path()
    ensures { UmountUnmounts }
{}

/// A call leaves each mount its record, but for those in no namespace that nothing uses then. It is no mount call, and
/// none of `pivot_root`, `rmdir`, `rename`, `exit`, `unshare` and `setns`.
pub fn calls_on_files_are_of_no_mount()
    ensures { FileCallsLeaveMounts }
{}

/// A bind or a new mount leaves each old mount its record (`left`), or, at the same location of a receiver that takes
/// part, all but its mount point (`kept`). New mounts come last, of a move too (`order`).
pub fn a_bind_leaves_the_other_mounts()
    ensures order { NewMountsFollow }
    ensures kept { AttachKeepsMounts }
    ensures left { AttachLeavesMounts }
{}

/// A move leaves the same to each mount that does not move (`left`, `kept`). If mounts are numbered, each keeps
/// filesystem, root and flags (`moved`).
pub fn a_move_leaves_the_other_mounts()
    ensures kept { MoveKeepsMounts }
    ensures left { MoveLeavesMounts }
    ensures moved { MovedMountsShow }
{}

/// A change of flags gives an existing mount its flags and leaves it all else (`set`); each other mount keeps its
/// record (`others`).
pub fn a_change_of_flags_is_of_one_mount()
    ensures set { FlagsAreSet }
    ensures others { FlagsAreOfOne }
{}

/// A change of type leaves each mount all but its type (`alone`), and all else stays (`rest`). A named mount takes the
/// table's type (`taken`), another keeps its own (`others`), unless that is slave of a group that so ended.
///
/// A shared mount alone in a group without a master is private once made a slave (`last_member`).
pub fn a_change_of_type_is_of_the_named_mounts()
    ensures alone { TypeIsAllThatChanges }
    ensures others { TypeIsOfTheNamed }
    ensures taken { TypeIsTaken }
    ensures last_member { AloneIsPrivate }
    ensures rest { TypesAreOfMounts }
{}

/// Mounts stay numbered in `taking_away`, `unmount`, `lazy`, `ended`, `inheritance`, `types`, `flags`, `pivot` and
/// `settling`. By new numbers they do in `unshare`, in an `attach` of a numbered tree, and with `copies` of one.
///
/// `taking_away` is of any mounts, `ended` of namespaces without tasks, `inheritance` of groups, `settling` the sweep.
/// `copies` have unused numbers, no two equal, as new numbers give them (`supplied_copies`, `supplied_images`).
pub fn mounts_keep_numbers_of_their_own()
    ensures taking_away { KeptByTakingAway OneNumberEach }
    ensures unmount { KeptByUnmount OneNumberEach }
    ensures ended { KeptByEndedNamespaces OneNumberEach }
    ensures inheritance { KeptByInheritance OneNumberEach }
    ensures types { KeptByType OneNumberEach }
    ensures flags { KeptByFlags OneNumberEach }
    ensures attach { AttachKeepsNumbers }
    ensures copies { CopiesKeepNumbers }
    ensures supplied_copies { SuppliesServeAsCopies }
    ensures supplied_images { SuppliesServeAsImages }
    ensures unshare { UnshareKeepsNumbers }
    ensures pivot { KeptByPivot OneNumberEach }
    ensures lazy { KeptByLazyUnmount OneNumberEach }
    ensures settling { KeptBySettling OneNumberEach }
{}

/// Where mounts are numbered, the test by chains of parents computes whether they stand (`computed`). If they do, each
/// is once in the tree of a mount (`trees`) and in what a bind takes (`binds`).
pub fn mounts_stand_on_one_another()
    ensures computed { StandingIsComputed }
    ensures trees { TreesHaveEachOnce }
    ensures binds { BindsTakeEachOnce }
{}

/// By new numbers, a `bind` and a `new_mount` to an existing mount keep mounts standing, if also numbered and nowhere
/// outside. They keep them apart, if none stands at the destination (`bind_places`, `new_mount_places`).
///
/// Mounts stay numbered in a bind (`bind_numbers`) and a move (`move_numbers`), if standing, and in a new mount
/// (`new_mount_numbers`), by new numbers alone.
pub fn attaching_keeps_mounts_standing()
    ensures bind { BindsKeepStanding }
    ensures bind_numbers { BindsKeepNumbers }
    ensures new_mount { NewMountsKeepStanding }
    ensures new_mount_numbers { NewMountsKeepNumbers }
    ensures move_numbers { MovesKeepNumbers }
    ensures bind_places { BindsKeepMountPoints }
    ensures new_mount_places { NewMountsKeepMountPoints }
{}

/// Mounts stay nowhere outside in `taking_away`, `unmount`, `lazy`, `ended`, `inheritance`, `unshare`, `settling`, and,
/// if mounts are numbered, in `flags`.
pub fn mounts_outside_stay_nowhere()
    ensures taking_away { KeptByTakingAway NowhereOrAttached }
    ensures unmount { KeptByUnmount NowhereOrAttached }
    ensures ended { KeptByEndedNamespaces NowhereOrAttached }
    ensures inheritance { KeptByInheritance NowhereOrAttached }
    ensures flags { FlagsKeepNowhere }
    ensures unshare { KeptByUnshare NowhereOrAttached }
    ensures lazy { KeptByLazyUnmount NowhereOrAttached }
    ensures settling { KeptBySettling NowhereOrAttached }
{}

/// Numbered mounts stay apart in an `unmount` of one without children, `inheritance`, `types`, `flags` and `settling`;
/// where chains of parents end, in `trees` and `ended`, too.
pub fn mount_points_keep_one_mount()
    ensures unmount { UnmountLeavesOneMountAMountPoint }
    ensures trees { TreesLeaveOneMountAMountPoint }
    ensures ended { EndedNamespacesLeaveOneMountAMountPoint }
    ensures inheritance { KeptByInheritance AreApart }
    ensures types { KeptByType AreApart }
    ensures flags { KeptByFlags AreApart }
    ensures settling { KeptBySettling AreApart }
{}

/// Mounts taken away without propagation are detached (`taken`). Each other keeps all but mount point and type
/// (`kept`), a mount point on a mount that stays (`places`), and its type, unless slave of an ended group (`types`).
pub fn mounts_that_end_are_just_those()
    ensures taken { TakenAreDetached }
    ensures kept { OthersAreKept }
    ensures places { OthersKeepTheirMountPoints }
    ensures types { OthersKeepTheirTypes }
{}

/// A lazy unmount detaches a mount, or leaves it all but mount point and type (`mounts`); all else stays (`others`).
pub fn a_lazy_unmount_detaches_or_keeps()
    ensures mounts { LazyDetachesOrKeeps }
    ensures others { LazyIsOfMounts }
{}

/// A granted call of a task leaves the mounts of one change, of what its paths lead to: `bind`, `moves`, `mount`,
/// `overlay`, `lazy`, `remount`, `kind`, `pivot`, `rmdir`, `rename`, `exit`, `unshare` and `setns`.
///
/// `kind` is of the call `type`. A `rename_of_one` object changes no mount.
pub fn granted_calls_make_these_changes()
    ensures bind { BindBinds }
    ensures moves { MoveMoves }
    ensures mount { MountMounts }
    ensures overlay { OverlayMounts }
    ensures lazy { LazyUnmounts }
    ensures remount { RemountSetsFlags }
    ensures kind { TypeIsSet }
    ensures pivot { PivotPivots }
    ensures rmdir { RmdirTakesMounts }
    ensures rename { RenameReplaces }
    ensures rename_of_one { RenameOfOneObject }
    ensures exit { ExitEnds }
    ensures unshare { UnshareCopies }
    ensures setns { SetnsEnters }
{}

/// Groups stay living in `taking_away`, `unmount`, `lazy`, `ended`, `inheritance`, `pivot` and `unshare`; by new
/// numbers in `types`. They do in `flags`, if mounts are numbered, and in `settling`, if mounts are nowhere outside.
///
/// The test by chains of masters computes whether groups live (`computed`).
pub fn groups_live_on()
    ensures computed { LivingIsComputed }
    ensures taking_away { KeptByTakingAway GroupsLive }
    ensures unmount { KeptByUnmount GroupsLive }
    ensures lazy { KeptByLazyUnmount GroupsLive }
    ensures ended { KeptByEndedNamespaces GroupsLive }
    ensures inheritance { KeptByInheritance GroupsLive }
    ensures types { TypeKeepsGroups }
    ensures flags { FlagsKeepGroups }
    ensures pivot { KeptByPivot GroupsLive }
    ensures unshare { KeptByUnshare GroupsLive }
    ensures settling { SettlingKeepsGroups }
{}

/// If mounts are numbered, `types`, `flags` and `inheritance` of groups keep that chains of parents end in one
/// namespace.
pub fn chains_of_mount_points_end()
    ensures types { TypeKeepsChainsEnding }
    ensures flags { FlagsKeepChainsEnding }
    ensures inheritance { InheritanceKeepsChainsEnding }
{}
