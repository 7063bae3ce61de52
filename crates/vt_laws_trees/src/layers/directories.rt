//! What layers show is found one directory at a time. A *view* (`IsView`) is such as a tree's directory has: what names
//! lead to exists, and is reached through directories.
ghost use Rattle.vt_laws_trees.specs.Layers.Layers.Directories.{ShownUnderName, MergedAreViews, PlacedShowTheSame, PlacesAreCountedBack, LayersAreViews, DirectoriesAreMerged};
ghost use Rattle.vt_laws_trees.specs.Layers.Layers.DirectoryTrees.{OneDirectoryIsEnough, ObjectsAreThoseShown, OverlaysAreMergedByDirectory, RealObjectsAreThoseShown};
ghost use Rattle.vt_laws_trees.specs.Layers.Layers.NewOverlays.{ChangedStayApart, LowersStayApart, NewOverlayHasOwnParents, NewOverlayIsFit, NewOverlayIsTree, NewOverlayListsNumbers, OverlaysStillMerge};

/// What views of layers show `under` a name is what the directories merged there show. These are those that layers have
/// there, from the top to the first that is opaque or has something else there.
///
/// - `views`, `layers`: merged ones are views again, as is that of a tree's directory.
/// - `directories`: in trees they are found by that name in each layer's directory.
/// - `placed`, `counted`: all layers with places show what they show; some do, with places counted back.
pub fn layers_merge_one_directory_at_a_time()
    ensures under { ShownUnderName }
    ensures views { MergedAreViews }
    ensures placed { PlacedShowTheSame }
    ensures counted { PlacesAreCountedBack }
    ensures layers { LayersAreViews }
    ensures directories { DirectoriesAreMerged }
{}

/// A `tree` has at every path what the layers show, if each directory has under each name what its views show. So it is
/// for an overlay that has layers in a world with all invariants (`overlays`, `real`).
///
/// Its root has all layers' views, a directory under a name those merged there. `objects` found in this way are those
/// shown, and so are the `real` objects of an overlay.
pub fn one_directory_at_a_time_is_enough()
    ensures tree { OneDirectoryIsEnough }
    ensures objects { ObjectsAreThoseShown }
    ensures overlays { OverlaysAreMergedByDirectory }
    ensures real { RealObjectsAreThoseShown }
{}

/// In a world with all invariants, an overlay is added by distinct new numbers over directories of plain trees that O2,
/// O3 and O5 allow. It is a tree within limits (`tree`, `fit`); layers stay apart and overlays merged.
///
/// For `tree`, `fit`, `own_parents` and `numbers` it has layers, and the numbers are distinct. Directories without a
/// name are their own parents, and the numbers beside the tree are those of its inodes. For `changed`, `lowers` and
/// `merge`, too, its work directory is one of a plain tree, and its number no filesystem's. Upper and work directories
/// lie apart from each other (`changed`) and from lower layers (`lowers`) then, and each overlay is what its layers
/// show (`merge`).
pub fn a_new_overlay_meets_the_invariants()
    ensures tree { NewOverlayIsTree }
    ensures own_parents { NewOverlayHasOwnParents }
    ensures numbers { NewOverlayListsNumbers }
    ensures fit { NewOverlayIsFit }
    ensures changed { ChangedStayApart }
    ensures lowers { LowersStayApart }
    ensures merge { OverlaysStillMerge }
{}
