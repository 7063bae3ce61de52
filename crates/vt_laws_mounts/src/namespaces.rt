//! Mounts of namespaces.
ghost use Rattle.vt_laws_mounts.specs.Mounts.Namespaces.{NewNamespaceIsEmpty, NumberedMountsCanPivot, PivotKeepsCounts, PivotKeepsMounts, SetFlagsKeepCounts, SetFlagsKeepMounts, SetTypeKeepsCounts, SetTypeKeepsMounts, TopmostIsFree, UnshareCopiesMounts, UnshareKeepsCounts, UnshareKeepsMounts, UnshareLeavesNamespaces};

/// Where the invariants of mounts hold, no mount stands on the topmost location over a location.
pub fn the_topmost_location_is_free()
    ensures { TopmostIsFree }
{}

/// By new numbers, an unshare keeps the invariants of `mounts`, and each other namespace has the mounts that it had
/// (`others`). The new one, if it had none, has `copies` of the caller's, as many (`counts`).
///
/// The new one has as many root mounts, too. It had none (`empty`), if each mount's namespace is listed.
pub fn unsharing_keeps_mounts()
    ensures mounts { UnshareKeepsMounts }
    ensures others { UnshareLeavesNamespaces }
    ensures empty { NewNamespaceIsEmpty }
    ensures copies { UnshareCopiesMounts }
    ensures counts { UnshareKeepsCounts }
{}

/// Where the invariants of `mounts` hold, a pivot that may be made (`CanPivot`) keeps them, and each namespace's number
/// of mounts and root mounts (`counts`).
///
/// It may be made (`numbered`) if old root mount, new root and `put` are in one namespace, and `put` is free, at or
/// under the new root. The new root is that of a descendant of the old root mount.
pub fn pivoting_keeps_mounts()
    ensures mounts { PivotKeepsMounts }
    ensures numbered { NumberedMountsCanPivot }
    ensures counts { PivotKeepsCounts }
{}

/// A change of `types`, by new numbers, of a mount in a namespace or its tree, and one of `flags` keep the invariants
/// of mounts. Each namespace keeps its number of mounts and root mounts (`type_counts`; if numbered, `flag_counts`).
pub fn types_and_flags_keep_mounts()
    ensures types { SetTypeKeepsMounts }
    ensures type_counts { SetTypeKeepsCounts }
    ensures flags { SetFlagsKeepMounts }
    ensures flag_counts { SetFlagsKeepCounts }
{}
