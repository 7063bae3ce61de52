//! Mounts after moves and attachments.
ghost use Rattle.vt_laws_mounts.specs.Mounts.Moving.{BindsKeepRootMounts, BindsStayInNamespaces, MovesKeepMountPoints, MovesKeepRootMounts, MovesKeepStanding, MovesStayInNamespaces, NewMountsKeepRootMounts, NewMountsStayInNamespaces};

/// After a `bind`, a `new_mount` and a move (`moves`) each namespace has as many root mounts, and one without mounts
/// still none. For a move mounts are numbered, and the moved one has a mount point.
///
/// No mount comes to a namespace that had none: `bind_namespaces`, `new_mount_namespaces`, and without those premises
/// `move_namespaces`.
pub fn attaching_keeps_root_mounts()
    ensures bind { BindsKeepRootMounts }
    ensures bind_namespaces { BindsStayInNamespaces }
    ensures new_mount { NewMountsKeepRootMounts }
    ensures new_mount_namespaces { NewMountsStayInNamespaces }
    ensures moves { MovesKeepRootMounts }
    ensures move_namespaces { MovesStayInNamespaces }
{}

/// After a move by new numbers mounts are `standing`; and apart, if none stood at the destination (`places`). The
/// invariants of mounts hold, the moved mount has a mount point, and goes to its namespace, outside its tree.
pub fn moves_keep_mounts_standing()
    ensures standing { MovesKeepStanding }
    ensures places { MovesKeepMountPoints }
{}
