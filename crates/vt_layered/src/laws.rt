//! Laws of overlays of both kinds.
ghost use Rattle.vt_layered.specs.LayeredTree.{LayeredObjectsAreAlike};
ghost use Rattle.vt_layered.specs.Locations.{LocationsComeWithPins, LocationsGoWithPins, PinnedAreUsed, UnpinnedAreUsed};
ghost use Rattle.vt_layered.specs.Unseen.{UsesAreNotSeen, UsesLeaveLayers};
ghost use Rattle.vt_layered.specs.Staying.{LayeredOverlaysStandStill, LayeredOverlaysStay};

/// A node has the owner, group, mode, kind and bytes of its real object, in an overlay of either kind.
pub fn layered_objects_are_alike()
    ensures { LayeredObjectsAreAlike }
{}

/// An overlay shows what it showed, and stands as its looks ask, while the trees of its layers are as they were, with as
/// many numbers beside them, and so are its births and what it keeps without a name.
///
/// No other tree matters.
pub fn layered_overlays_stay()
    ensures shown { LayeredOverlaysStay }
    ensures standing { LayeredOverlaysStandStill }
{}

/// The uses of nodes that an overlay keeps without a name are the locations on them, if they were: also where one location
/// comes and its node is pinned (`come`), and where one goes and its node is unpinned (`go`).
///
/// What is kept has uses then, too (`pinned`, `unpinned`).
pub fn kept_uses_are_locations()
    ensures come { LocationsComeWithPins }
    ensures go { LocationsGoWithPins }
    ensures pinned { PinnedAreUsed }
    ensures unpinned { UnpinnedAreUsed }
{}

/// An overlay with an upper layer shows the same (`seen`), and stands as its looks ask (`standing`), while it keeps the same
/// nodes without a name and has the same births, however many uses these nodes have.
pub fn uses_of_kept_nodes_are_not_seen()
    ensures seen { UsesAreNotSeen }
    ensures standing { UsesLeaveLayers }
{}
