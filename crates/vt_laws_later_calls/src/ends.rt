//! The calls `unlink`, `rmdir`, `rename`, `close`, `exit`, `chdir`, `chroot`, `setns`, `unshare`, `umount`, `lazy`,
//! `move` and `pivot_root` take a use away (`takes_uses`). *Other* calls are all the rest, granted or refused.
ghost use Rattle.vt_laws_later_calls.specs.Ends.{OnlyTheseEndInodes, OtherCallsLeaveAll, TypesLeaveAllButMasters};
ghost use Rattle.vt_laws_later_calls.specs.Whiteouts.{AllTypesLeaveAllButMasters, OnlyTheseEndOtherInodes, OnlyWhiteoutsAreTaken, OtherCallsKeepAll, OtherCallsLetWhiteoutsGo, PlainChangesKeepAll, ReplacedAreWhiteouts};

/// After another call but `type` by an existing task, the sweep frees at most one inode (`all`): what an overlay's
/// upper layer had at the name that the call gives.
///
/// It looks at that inode (`replaced_by`), and frees it if nothing uses it.
///
/// - `whiteouts`: it is a whiteout.
/// - `taken`: the sweep takes no mount, filesystem, master of a group or other inode.
/// - `kept`, `plain`: it takes nothing if the call replaces nothing there, or is granted and changes a plain
///   filesystem.
/// - `types`: after `type` it takes masters of groups at most.
pub fn other_calls_let_whiteouts_go_at_most()
    ensures all { OtherCallsLetWhiteoutsGo }
    ensures whiteouts { ReplacedAreWhiteouts }
    ensures taken { OnlyWhiteoutsAreTaken }
    ensures kept { OtherCallsKeepAll }
    ensures plain { PlainChangesKeepAll }
    ensures types { AllTypesLeaveAllButMasters }
{}

/// An inode that is no whiteout, or in a filesystem with no overlay's upper layer, exists after another call if it did
/// before.
pub fn only_these_calls_end_inodes_that_are_no_whiteouts()
    ensures { OnlyTheseEndOtherInodes }
{}

/// In a plain world an inode exists after another call but `mount overlay`, if it did before.
pub fn only_these_calls_end_inodes()
    ensures { OnlyTheseEndInodes }
{}

/// In a plain world the sweep takes nothing after another call but `mount overlay` and `type`, by an existing task
/// (`all`). After `type` it takes masters of groups at most (`types`).
pub fn other_calls_let_nothing_go()
    ensures all { OtherCallsLeaveAll }
    ensures types { TypesLeaveAllButMasters }
{}
