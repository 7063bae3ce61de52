//! But for the second law, the overlay has an upper layer, and the change can be made (`CanChange`): new numbers are
//! different, and no inode's of the upper layer's filesystem, names are as calls ask, and both trees are trees
//! afterwards.
ghost use Rattle.vt_laws_worlds.specs.OverlaysLetGo.NamesGiven.{GivenNamesLetGo, OpenedNamesLetGo};
ghost use Rattle.vt_laws_worlds.specs.OverlaysLetGo.OverlayCalls.{MadeInOverlaysLetsGo, OpenedNewInOverlaysLetsGo, RemovedFromOverlaysLetGo, RemovingKeepsTheMount, ReplacedInOverlaysLetGo, ReplacingKeepsTheMount, TakenAndOverlayChangesLetGo};
ghost use Rattle.vt_laws_worlds.specs.OverlaysLetGo.OverlayChanges.{OverlayChangesLetGo};
ghost use Rattle.vt_laws_worlds.specs.OverlaysLetGo.OverlayNames.{OnlyTheseLoseNames, OpenedCopiesKeepAll, OverlayChangesKeepAll, WrittenPartsInOverlaysKeepAll};

/// The losers of a `change` or `make` are the overlay's inode that had the given or removed name, and those that lost
/// their last name in the upper layer's filesystem.
///
/// With the first one goes its real object.
///
/// - `names`: the others have the name there that is given, removed or left, or are named in a directory there that is
///   removed or replaced.
/// - `kept`: nothing goes if no name that something had is given, removed or left, in the overlay or its upper layer.
/// - `written`: nor by `pwrite`; of no bytes this needs all invariants alone.
/// - `with_mounts`: if mounts are taken away too, and the overlay keeps one (`keeps_a_mount`), there come their losers
///   with layers.
/// - `rmdir`, `rename`: so it is of a granted call of an existing task that removes or replaces an object, of the
///   mounts on it with all below them.
pub fn what_a_change_of_an_overlay_leaves_goes()
    ensures names { OnlyTheseLoseNames }
    ensures change { OverlayChangesLetGo }
    ensures kept { OverlayChangesKeepAll }
    ensures written { WrittenPartsInOverlaysKeepAll }
    ensures make { MadeInOverlaysLetsGo }
    ensures with_mounts { TakenAndOverlayChangesLetGo }
    ensures rmdir { RemovedFromOverlaysLetGo }
    ensures rename { ReplacedInOverlaysLetGo }
{}

/// A granted `rmdir`, or `rename` that replaces an object, by an existing task, takes away no mount that it goes
/// through.
pub fn a_removal_keeps_the_mount_that_it_goes_through()
    ensures rmdir { RemovingKeepsTheMount }
    ensures rename { ReplacingKeepsTheMount }
{}

/// If an existing task opens a `new` file on an existing mount, the losers are those of the change; if it opens one
/// that is `copied_up`, nothing goes.
pub fn what_is_opened_in_an_overlay_stays()
    ensures new { OpenedNewInOverlaysLetsGo }
    ensures copied_up { OpenedCopiesKeepAll }
{}

/// A proper `change` that takes no name away has one loser at most: what the upper layer had at the given name. So has
/// the proper `open` of a new file, by an existing task on an existing mount.
pub fn what_a_new_name_replaces_goes()
    ensures change { GivenNamesLetGo }
    ensures open { OpenedNamesLetGo }
{}
