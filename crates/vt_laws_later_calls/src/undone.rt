//! What an unmount undoes. Of the invariants only those of mounts are needed. A new filesystem has none of the numbers
//! handed in.
ghost use Rattle.vt_laws_later_calls.specs.Undone.{UnmountTakesWhatStoodBeside, UnmountTakesWhatStoodThere, UnmountUndoesBindBeneath, UnmountUndoesNewMountBeneath};

/// A `new_mount`, or `bind` of one mount, stands at a free location of an existing mount. Its unmount undoes it, if
/// receivers with a mount there take part and none of these mounts goes with the copies.
///
/// It is undone (`IsUndone`) if each mount has its record back, copies are detached, and groups have their masters.
///
/// With the copies of a `new_mount` none goes. With those of a `bind` none goes if, at each of these receivers, the
/// source does not hear the destination's group, its root is another node than the location's, or that mount may not
/// go. It may go if nothing stands on it, or one mount that covers its root.
///
/// Else the unmount detaches more. A mount at a receiver that takes no part is detached, if it may go (`beside`). So is
/// one at a receiver that takes part, if none of the three holds of a `bind` (`taken`), as in
/// `a_location_bound_onto_itself` of `vt_machine_examples`.
pub fn an_unmount_undoes_a_mount_beneath_others()
    ensures new_mount { UnmountUndoesNewMountBeneath }
    ensures bind { UnmountUndoesBindBeneath }
    ensures taken { UnmountTakesWhatStoodThere }
    ensures beside { UnmountTakesWhatStoodBeside }
{}
