//! Overlays after a permit that changes nothing through them, and the sweep.
ghost use Rattle.vt_unnamed.specs.Kept.{KeptNodesAreThere, KeptOverlaysStand, UpperObjectsAreLetGo};
ghost use Rattle.vt_unnamed.specs.Left.{LeftOverlaysAreShown, LeftOverlaysCountNodes, LeftOverlaysKeepRight, LeftReadOnlyAreShown};
ghost use Rattle.vt_unnamed.specs.Stores.{StoresAreLeft};

/// An overlay with an upper layer that is kept in a world, with what is without a name in it, `stands` as its looks ask. What
/// it keeps is `there`, and what a node lets `go` with its last use is its upper object.
pub fn overlays_stand_where_they_are_kept()
    ensures stands { KeptOverlaysStand }
    ensures there { KeptNodesAreThere }
    ensures go { UpperObjectsAreLetGo }
{}

/// An overlay with an upper layer through which a permit changes nothing, if it is left, has the tree and the real objects
/// that are shown along its layers then, with the nodes that are kept still (`shown`). What it keeps is right (`right`), and
/// it counts the locations on its nodes without a name (`counts`).
///
/// For that it is kept in the world before the permit. Afterwards its layers are kept as the world has them that is left, and
/// its nodes have as many uses as locations are left on them.
pub fn overlays_are_left_with_their_nodes()
    ensures shown { LeftOverlaysAreShown }
    ensures right { LeftOverlaysKeepRight }
    ensures counts { LeftOverlaysCountNodes }
{}

/// Such an overlay without an upper layer, if it is left, has the tree and the real objects that are shown along its layers
/// then, which are kept as the worlds have them. Other overlays may have upper layers.
pub fn read_only_overlays_are_left()
    ensures { LeftReadOnlyAreShown }
{}

/// Where nodes of a store are pinned and unpinned as locations come and go, and a permit changes plain trees alone, the store
/// shows the overlays that are left, read-only or with an upper layer, and keeps what is without a name there.
pub fn stores_are_left_with_their_nodes()
    ensures { StoresAreLeft }
{}
