//! Overlays that are kept, as lists of inodes.
ghost use Rattle.vt_world.specs.OverlaysKept.Inodes.{InodesAreTheTree, InodesHaveTheirObjects, InodesStay, NumbersAreListed};
ghost use Rattle.vt_world.specs.OverlaysKept.Layered.{LayeredInodesAreTheTree, LayeredInodesHaveTheirObjects, LayeredInodesStay};

/// The inodes of an overlay, in the order of their numbers, make its `tree` again. If its layers are directories of
/// plain trees, they have its real `objects`, and the numbers beside the tree are theirs (`listed`).
///
/// Two lists of plain trees that show the overlay alike give the same inodes (`stay`).
pub fn overlays_are_their_inodes()
    ensures tree { InodesAreTheTree }
    ensures objects { InodesHaveTheirObjects }
    ensures stay { InodesStay }
    ensures listed { NumbersAreListed }
{}

/// The inodes of an overlay, read-only or with an upper layer, make its `tree` again. If it stands on its layers, and
/// what it keeps without a name is there, they have its real `objects`.
///
/// Two lists of plain trees that show it alike give the same inodes (`stay`).
pub fn layered_overlays_are_their_inodes()
    ensures tree { LayeredInodesAreTheTree }
    ensures objects { LayeredInodesHaveTheirObjects }
    ensures stay { LayeredInodesStay }
{}
