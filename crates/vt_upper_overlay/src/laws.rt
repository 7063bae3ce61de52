//! Laws of the tree of an overlay with an upper layer.
ghost use Rattle.vt_upper_overlay.specs.Lent.{ObjectsAreAlikeAbove};
ghost use Rattle.vt_upper_overlay.specs.Laws.{LooksSeeMergedTrees, MergedTreesStandAbove};

/// A merged tree of the definitions is the tree that looks see. For that it has to have the layers of the overlay, its
/// inodes the numbers that births give, and those without a name have to be the ones that are kept.
pub fn looks_see_merged_trees()
    ensures { LooksSeeMergedTrees }
{}

/// What looks require of an overlay holds where the definitions have a merged tree of its layers, by the names that
/// the overlay keeps. There each copy is the real object of its node, and what is kept is without a name.
pub fn merged_trees_stand_above()
    ensures { MergedTreesStandAbove }
{}

/// A node has the owner, group, mode, kind and bytes of its real object, in an overlay that stands as its looks ask.
pub fn objects_above_are_alike()
    ensures { ObjectsAreAlikeAbove }
{}
