//! What layers show, and what a change leaves as it was.
ghost use Rattle.vt_laws_trees.specs.Layers.Layers.ChangesUpper.{CopiesHaveTheirName, OverlayChanges, OverlaysAreFit};
ghost use Rattle.vt_laws_trees.specs.Layers.Layers.Mounted.{NewOverlayIsMerged, RemountShowsTheSame};
ghost use Rattle.vt_laws_trees.specs.Layers.Layers.Shown.{OneObjectIsShown, ShownIsComputed, NothingIsShown, NamesAreThoseShown};
ghost use Rattle.vt_laws_trees.specs.Layers.Layers.Untouched.{OtherInodesStay, OtherFilesystemsStay, ChangeKeepsTheRest, LockedInodesStay};
ghost use Rattle.vt_laws_trees.specs.Layers.Layers.Upper.{UpperFilesystemKeepsTheRest};

/// At a path at most `one` object is shown, the `computed` one: that of the highest layer that has one there and is not
/// cut, unless it is a whiteout. A directory shows just the `names` of shown objects.
///
/// None is shown if none is computed (`nothing`).
pub fn one_object_is_shown()
    ensures one { OneObjectIsShown }
    ensures computed { ShownIsComputed }
    ensures nothing { NothingIsShown }
    ensures names { NamesAreThoseShown }
{}

/// A change through a mount leaves all but its filesystem and that of its upper layer (`filesystems`, `rest`). A call
/// on files leaves locked inodes, not handed in, of a plain tree without upper layers (`locked`).
///
/// - `inodes`: a change of a tree leaves each inode that it neither makes, nor gives other names, bytes, attributes or
///   mark.
/// - `upper`: in the filesystem of the upper layer, in a world with all invariants, if what the change names exists, it
///   leaves each inode neither handed in nor an upper object of the overlay.
/// - `locked`: in every world; no overlay has its upper layer in the tree.
pub fn lower_layers_stay()
    ensures inodes { OtherInodesStay }
    ensures filesystems { OtherFilesystemsStay }
    ensures rest { ChangeKeepsTheRest }
    ensures upper { UpperFilesystemKeepsTheRest }
    ensures locked { LockedInodesStay }
{}

/// If an overlay is fit to change (`IsFitToChange`), and what the change names exists, its tree changes as any tree.
/// Its upper layer gets what was asked for, with copies, whiteouts and opaque marks (`changes`).
///
/// The upper layer gets, with missing parents, an object under a name, bytes, owner and mode, or mark. It gets a
/// whiteout where a lower name is left, and an opaque mark where a lower directory would be merged. No whiteout stays
/// in a removed or replaced directory. All inodes are kept there, but handed-in ones and upper objects.
///
/// - `copies`: what lay only below is copied without names in it, under its name or none.
/// - `fit`: each overlay with an upper layer in a world with all invariants is fit, by distinct numbers of no inode in
///   that layer's filesystem.
pub fn overlays_change_their_upper_layer()
    ensures changes { OverlayChanges }
    ensures copies { CopiesHaveTheirName }
    ensures fit { OverlaysAreFit }
{}

/// By distinct numbers, a new overlay that has layers in a world with all invariants shows at every path what they do
/// (`merged`). If another one's layers in such a world are alike, both show the same (`remount`).
///
/// Layers are alike if they are at every path. The same is kind, owner, mode and content. Who mounts it does not
/// matter; numbers may differ.
pub fn new_overlays_show_their_layers()
    ensures merged { NewOverlayIsMerged }
    ensures remount { RemountShowsTheSame }
{}
