//! A *merged tree* (`IsMergedTree`) is a file tree that is what its layers show, directories of trees. It is *named*
//! (`IsNamedBy`) by the number of each real object, and by what is held without a name.
ghost use Rattle.vt_laws_trees.specs.Overlays.MergedTrees.{InodesAreThoseShown, MergedTreesAreOne, NumbersAreThoseShown, OtherInodesAreHeld, OverlaysAreMergedTrees};

/// In a named merged tree a path leads to the number of what the layers show there, or nowhere (`numbers`). Merged
/// trees of the same layers, numbers and held inodes are `one`, with the same real objects.
///
/// The inode at a path has the kind, owner, mode and bytes of what is shown, and as entries the names shown, with their
/// numbers (`inodes`). Every other is just what is `held` under its number, without names in it. In a world with all
/// invariants `overlays` have merged trees.
pub fn a_merged_tree_is_a_function()
    ensures numbers { NumbersAreThoseShown }
    ensures inodes { InodesAreThoseShown }
    ensures held { OtherInodesAreHeld }
    ensures one { MergedTreesAreOne }
    ensures overlays { OverlaysAreMergedTrees }
{}
