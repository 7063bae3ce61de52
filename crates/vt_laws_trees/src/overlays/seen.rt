//! Merged trees found by looking numbers up in the layers.
ghost use Rattle.vt_laws_trees.specs.Overlays.TreesSeen.{MergedTreesAreSeen, OverlaysAreSeen, PathsAreNoLonger, SeenTreesAreNamed};

/// If the numbers beside layers' trees are those of their inodes, a named merged tree and its real objects are found by
/// looking numbers up along the layers' paths (`seen`).
///
/// The same holds of named overlays of a world with all invariants (`overlays`). No path that shows something is longer
/// than a layer's tree has inodes (`paths`). Merged trees whose real objects are found in this way are `named`, if what
/// is held is.
pub fn merged_trees_are_seen()
    ensures paths { PathsAreNoLonger }
    ensures seen { MergedTreesAreSeen }
    ensures overlays { OverlaysAreSeen }
    ensures named { SeenTreesAreNamed }
{}
